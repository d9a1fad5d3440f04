//! The line of a token: it is written from its beginning to its end, into bytes that are there already.
ghost use Rattle.std.specs.Prelude.{◌≡◌, ◌≢◌, ◌++◌, ◌∷◌, [], ◌+◌, ◌*◌, ◌≤◌, IfOk};
ghost use Rattle.std.specs.Prelude.{codes, take, length, vec_len, OnOk, OnErr};
ghost use Rattle.std.specs.Fmt.{signed_decimal};
ghost use Rattle.yaml_text.specs.declared.types.yaml_encoding_t.TheVariants.{YAML_ANY_ENCODING};
ghost use Rattle.yaml_text.specs.declared.types.yaml_scalar_style_t.TheVariants.{YAML_ANY_SCALAR_STYLE};
ghost use Rattle.yaml_text.specs.Token.{data_of, token_of};
ghost use Rattle.yaml_scan.specs.Lent.{lent_token};
ghost use Rattle.yaml_scan.specs.Words.{HasWords};
ghost use Rattle.yaml_listing.specs.inside.Put.{more_parts_text};
ghost use Rattle.yaml_listing.specs.Listing.{bytes_text, encoding_word, type_name, style_word};
ghost use Rattle.yaml_listing.specs.Listing.{parts_text, head_parts, data_parts, token_line};

use crate::mark::{ROW, kept_mark_t, set_row};
use crate::put::{set_bytes, set_signed};
use std::alloc::AllocError;
use yaml_scan::yaml_lent_scalar_t;
use yaml_text::{
    unnamed_yaml_token_t_data, yaml_encoding_t, yaml_mark_t, yaml_scalar_style_t, yaml_token_t,
    yaml_token_type_t,
};

/// There is room for the line of a token without its texts, in which a row may stand beyond its end.
const LINE: usize = 256;

/// There is room for a type and two marks.
pub const HEAD: usize = 164;

/// So many more bytes are made at a time.
const AHEAD: usize = 1536;

/// A row that begins with the name of a type of tokens, and how long the name is.
fn name_row(kind: yaml_token_type_t) -> (&'static [u8; ROW], usize)
    ensures row { take result.1 result.0.now ≡ type_name kind }
    ensures len { result.1 ≤ 20 }
{
    match kind {
        yaml_token_type_t::YAML_NO_TOKEN => (b"NO-TOKEN                ", 8),
        yaml_token_type_t::YAML_STREAM_START_TOKEN => (b"STREAM-START            ", 12),
        yaml_token_type_t::YAML_STREAM_END_TOKEN => (b"STREAM-END              ", 10),
        yaml_token_type_t::YAML_VERSION_DIRECTIVE_TOKEN => (b"VERSION-DIRECTIVE       ", 17),
        yaml_token_type_t::YAML_TAG_DIRECTIVE_TOKEN => (b"TAG-DIRECTIVE           ", 13),
        yaml_token_type_t::YAML_DOCUMENT_START_TOKEN => (b"DOCUMENT-START          ", 14),
        yaml_token_type_t::YAML_DOCUMENT_END_TOKEN => (b"DOCUMENT-END            ", 12),
        yaml_token_type_t::YAML_BLOCK_SEQUENCE_START_TOKEN => (b"BLOCK-SEQUENCE-START    ", 20),
        yaml_token_type_t::YAML_BLOCK_MAPPING_START_TOKEN => (b"BLOCK-MAPPING-START     ", 19),
        yaml_token_type_t::YAML_BLOCK_END_TOKEN => (b"BLOCK-END               ", 9),
        yaml_token_type_t::YAML_FLOW_SEQUENCE_START_TOKEN => (b"FLOW-SEQUENCE-START     ", 19),
        yaml_token_type_t::YAML_FLOW_SEQUENCE_END_TOKEN => (b"FLOW-SEQUENCE-END       ", 17),
        yaml_token_type_t::YAML_FLOW_MAPPING_START_TOKEN => (b"FLOW-MAPPING-START      ", 18),
        yaml_token_type_t::YAML_FLOW_MAPPING_END_TOKEN => (b"FLOW-MAPPING-END        ", 16),
        yaml_token_type_t::YAML_BLOCK_ENTRY_TOKEN => (b"BLOCK-ENTRY             ", 11),
        yaml_token_type_t::YAML_FLOW_ENTRY_TOKEN => (b"FLOW-ENTRY              ", 10),
        yaml_token_type_t::YAML_KEY_TOKEN => (b"KEY                     ", 3),
        yaml_token_type_t::YAML_VALUE_TOKEN => (b"VALUE                   ", 5),
        yaml_token_type_t::YAML_ALIAS_TOKEN => (b"ALIAS                   ", 5),
        yaml_token_type_t::YAML_ANCHOR_TOKEN => (b"ANCHOR                  ", 6),
        yaml_token_type_t::YAML_TAG_TOKEN => (b"TAG                     ", 3),
        yaml_token_type_t::YAML_SCALAR_TOKEN => (b"SCALAR                  ", 6),
    }
}

/// A row that begins with a space and the word of a style, and how long they are.
fn style_row(style: yaml_scalar_style_t) -> (&'static [u8; ROW], usize)
    requires { style ≢ YAML_ANY_SCALAR_STYLE }
    ensures row { take result.1 result.0.now ≡ codes " " ++ style_word style }
    ensures len { result.1 ≤ 8 }
{
    match style {
        yaml_scalar_style_t::YAML_ANY_SCALAR_STYLE => unreachable!(),
        yaml_scalar_style_t::YAML_PLAIN_SCALAR_STYLE => (b" plain                  ", 6),
        yaml_scalar_style_t::YAML_SINGLE_QUOTED_SCALAR_STYLE => (b" single                 ", 7),
        yaml_scalar_style_t::YAML_DOUBLE_QUOTED_SCALAR_STYLE => (b" double                 ", 7),
        yaml_scalar_style_t::YAML_LITERAL_SCALAR_STYLE => (b" literal                ", 8),
        yaml_scalar_style_t::YAML_FOLDED_SCALAR_STYLE => (b" folded                 ", 7),
    }
}

/// The word of an encoding that a text has.
pub fn encoding_word(encoding: yaml_encoding_t) -> &'static str
    requires { encoding ≢ YAML_ANY_ENCODING }
    ensures word { result.now ≡ encoding_word encoding }
    ensures len { length result.now ≤ 7 }
{
    match encoding {
        yaml_encoding_t::YAML_ANY_ENCODING => unreachable!(),
        yaml_encoding_t::YAML_UTF8_ENCODING => "UTF8",
        yaml_encoding_t::YAML_UTF16LE_ENCODING => "UTF16LE",
        yaml_encoding_t::YAML_UTF16BE_ENCODING => "UTF16BE",
    }
}

/// Writes a space and the word of an encoding at a place, and returns where it ends.
#[inline(never)]
fn set_encoding(buffer: &mut [u8], at: usize, encoding: yaml_encoding_t) -> usize
    requires words { encoding ≢ YAML_ANY_ENCODING }
    requires room { at + 44 ≤ length buffer.old }
    ensures text { take result buffer.new ≡ take at buffer.old ++ more_parts_text (encoding_word encoding ∷ []) }
    ensures high { result ≤ at + 44 }
{
    let word = encoding_word(encoding).as_bytes();
    let end = at + 1 + word.len();
    buffer[at] = b' ';
    buffer[at + 1..end].copy_from_slice(word);
    end
}

/// Writes two numbers at a place, with a space before each, and returns where they end.
#[inline(never)]
fn set_version(buffer: &mut [u8], at: usize, major: i32, minor: i32) -> usize
    requires { at + 44 ≤ length buffer.old }
    ensures text { take result buffer.new
        ≡ take at buffer.old ++ more_parts_text (signed_decimal major ∷ signed_decimal minor ∷ []) }
    ensures high { result ≤ at + 44 }
{
    let end = set_signed(buffer, at, major);
    set_signed(buffer, end, minor)
}

/// Writes a space and the digits of bytes at a place, or `-` if there are none, and returns where they end.
#[inline(always)]
fn set_text(buffer: &mut [u8], at: usize, bytes: &[u8]) -> usize
    requires { at + 2 * length bytes.now + 2 ≤ length buffer.old }
    ensures text { take result buffer.new ≡ take at buffer.old ++ (codes " " ++ bytes_text bytes.now) }
    ensures high { result ≤ at + 2 * length bytes.now + 2 }
{
    buffer[at] = b' ';
    if bytes.is_empty() {
        buffer[at + 1] = b'-';
        return at + 2;
    }
    let end = at + 1 + 2 * bytes.len();
    set_bytes(&mut buffer[at + 1..end], bytes);
    end
}

/// Writes a style and a text at a place, with a space before each, and returns where they end.
#[inline(never)]
fn set_scalar(buffer: &mut [u8], at: usize, value: &[u8], style: yaml_scalar_style_t) -> usize
    requires words { style ≢ YAML_ANY_SCALAR_STYLE }
    requires room { at + 2 * length value.now + 26 ≤ length buffer.old }
    ensures text { take result buffer.new
        ≡ take at buffer.old ++ more_parts_text (style_word style ∷ bytes_text value.now ∷ []) }
    ensures high { result ≤ at + 2 * length value.now + 22 }
{
    let (row, len) = style_row(style);
    let end = set_row(buffer, at, row, len);
    set_text(buffer, end, value)
}

/// What the line of a token begins with: its type and its marks.
#[derive(Clone, Copy)]
pub struct head_t {
    pub kind: yaml_token_type_t,
    pub start_mark: yaml_mark_t,
    pub end_mark: yaml_mark_t,
}

/// Writes the type and the marks of a token at a place, and returns where they end; the empty token has no marks.
///
/// The marks are moved here, so that the rest of a token can stay in registers.
#[inline(never)]
pub fn set_head(buffer: &mut [u8], at: usize, kept: &mut kept_mark_t, head: head_t) -> usize
    requires { at + 164 ≤ length buffer.old }
    ensures text { take result buffer.new
        ≡ take at buffer.old ++ parts_text (head_parts head.kind head.start_mark head.end_mark) }
    ensures low { at ≤ result }
    ensures high { result ≤ at + 164 }
{
    let (row, len) = name_row(head.kind);
    let end = set_row(buffer, at, row, len);
    match head.kind {
        yaml_token_type_t::YAML_NO_TOKEN => end,
        _ => {
            let next = kept.set(buffer, end, head.start_mark);
            kept.set(buffer, next, head.end_mark)
        }
    }
}

/// Makes room for texts of so many bytes, and for more, after a place.
#[cold]
fn widen(bytes: &mut Vec<u8>, at: usize, texts: usize) -> Result<(), AllocError>
    requires { at ≤ vec_len bytes.old }
    ensures room { OnOk result (at + 2 * texts + 256 ≤ vec_len bytes.new) }
    ensures place { at ≤ vec_len bytes.new }
    ensures front { take at bytes.new.items ≡ take at bytes.old.items }
{
    let twice = texts.checked_mul(2).ok_or(AllocError)?;
    let end = twice.checked_add(at).ok_or(AllocError)?;
    let room = end.checked_add(LINE + AHEAD).ok_or(AllocError)?;
    bytes.resize(room, 0)
}

/// Sees to it that there is room for texts of so many bytes, and for more, after a place.
#[inline(always)]
fn make_room(bytes: &mut Vec<u8>, at: usize, texts: usize) -> Result<(), AllocError>
    requires { at ≤ vec_len bytes.old }
    ensures room { OnOk result (at + 2 * texts + 256 ≤ vec_len bytes.new) }
    ensures place { at ≤ vec_len bytes.new }
    ensures front { take at bytes.new.items ≡ take at bytes.old.items }
{
    let free = bytes.len() - at;
    if free >= LINE && (free - LINE) / 2 >= texts {
        return Ok(());
    }
    widen(bytes, at, texts)
}

/// Writes a space and a text at a place, and returns where it ends.
#[inline(never)]
fn put_name(bytes: &mut Vec<u8>, at: usize, value: &[u8]) -> Result<usize, AllocError>
    requires { at ≤ vec_len bytes.old }
    ensures text { IfOk result (λ end. take end bytes.new.items
        ≡ take at bytes.old.items ++ more_parts_text (bytes_text value.now ∷ [])) }
    ensures room { IfOk result (λ end. end + 1 ≤ vec_len bytes.new) }
    ensures place { at ≤ vec_len bytes.new }
    ensures err { OnErr result (take at bytes.new.items ≡ take at bytes.old.items) }
{
    make_room(bytes, at, value.len())?;
    Ok(set_text(bytes, at, value))
}

/// Writes two texts at a place, with a space before each, and returns where they end.
#[inline(never)]
fn put_names(
    bytes: &mut Vec<u8>,
    at: usize,
    first: &[u8],
    second: &[u8],
) -> Result<usize, AllocError>
    requires { at ≤ vec_len bytes.old }
    ensures text { IfOk result (λ end. take end bytes.new.items
        ≡ take at bytes.old.items ++ more_parts_text (bytes_text first.now ∷ bytes_text second.now ∷ [])) }
    ensures room { IfOk result (λ end. end + 1 ≤ vec_len bytes.new) }
    ensures place { at ≤ vec_len bytes.new }
    ensures err { OnErr result (take at bytes.new.items ≡ take at bytes.old.items) }
{
    make_room(bytes, at, first.len().saturating_add(second.len()))?;
    let end = set_text(bytes, at, first);
    Ok(set_text(bytes, end, second))
}

/// Writes a style and a text at a place, with a space before each, and returns where they end.
#[inline(always)]
fn put_scalar(
    bytes: &mut Vec<u8>,
    at: usize,
    value: &[u8],
    style: yaml_scalar_style_t,
) -> Result<usize, AllocError>
    requires words { style ≢ YAML_ANY_SCALAR_STYLE }
    requires place { at ≤ vec_len bytes.old }
    ensures text { IfOk result (λ end. take end bytes.new.items
        ≡ take at bytes.old.items ++ more_parts_text (style_word style ∷ bytes_text value.now ∷ [])) }
    ensures room { IfOk result (λ end. end + 1 ≤ vec_len bytes.new) }
    ensures place { at ≤ vec_len bytes.new }
    ensures err { OnErr result (take at bytes.new.items ≡ take at bytes.old.items) }
{
    make_room(bytes, at, value.len())?;
    Ok(set_scalar(bytes, at, value, style))
}

/// Writes what a token says at a place, with a space before each part, and returns where it ends.
#[inline(always)]
fn put_data(
    bytes: &mut Vec<u8>,
    at: usize,
    said: &unnamed_yaml_token_t_data,
) -> Result<usize, AllocError>
    requires words { HasWords (data_of said.now) }
    requires room { at + 92 ≤ vec_len bytes.old }
    ensures text { IfOk result (λ end. take end bytes.new.items
        ≡ take at bytes.old.items ++ more_parts_text (data_parts (data_of said.now))) }
    ensures room { IfOk result (λ end. end + 1 ≤ vec_len bytes.new) }
    ensures place { at ≤ vec_len bytes.new }
    ensures err { OnErr result (take at bytes.new.items ≡ take at bytes.old.items) }
{
    match said {
        unnamed_yaml_token_t_data::SCALAR { value, style } => {
            put_scalar(bytes, at, value.as_slice(), *style)
        }
        unnamed_yaml_token_t_data::STREAM_START { encoding } => {
            Ok(set_encoding(bytes, at, *encoding))
        }
        unnamed_yaml_token_t_data::VERSION_DIRECTIVE { major, minor } => {
            Ok(set_version(bytes, at, *major, *minor))
        }
        unnamed_yaml_token_t_data::TAG_DIRECTIVE { handle, prefix } => {
            put_names(bytes, at, handle.as_slice(), prefix.as_slice())
        }
        unnamed_yaml_token_t_data::TAG { handle, suffix } => {
            put_names(bytes, at, handle.as_slice(), suffix.as_slice())
        }
        unnamed_yaml_token_t_data::ALIAS { value } | unnamed_yaml_token_t_data::ANCHOR { value } =>
            put_name(bytes, at, value.as_slice()),
        _ => Ok(at),
    }
}

/// Writes the line of a token at a place of bytes that grow, and returns where it ends. Any bytes may stand after it.
///
/// It is the name of its type, the marks of its start and end, and what it says: the encoding of a stream; the two
/// numbers of a `%YAML` directive; the texts of other tokens, two hexadecimal digits a byte or `-` for none, with the
/// style before a scalar's. The empty token is `NO-TOKEN`.
#[inline(always)]
pub fn put_line(
    bytes: &mut Vec<u8>,
    at: usize,
    kept: &mut kept_mark_t,
    token: &yaml_token_t,
) -> Result<usize, AllocError>
    requires words { HasWords (data_of token.now.token_data) }
    requires place { at ≤ vec_len bytes.old }
    ensures line { IfOk result (λ end. take end bytes.new.items
        ≡ take at bytes.old.items ++ token_line (token_of token.now)) }
    ensures within { IfOk result (λ end. end ≤ vec_len bytes.new) }
    ensures err { OnErr result (take at bytes.new.items ≡ take at bytes.old.items) }
    ensures place { at ≤ vec_len bytes.new }
{
    make_room(bytes, at, 0)?;
    let head = head_t {
        kind: token.type_(),
        start_mark: token.start_mark,
        end_mark: token.end_mark,
    };
    let head_end = set_head(bytes, at, kept, head);
    let end = put_data(bytes, head_end, &token.token_data)?;
    bytes[end] = b'\n';
    Ok(end + 1)
}

/// Writes the line of a scalar that is lent, as [`put_line`] writes that of its token.
#[inline(always)]
pub fn put_scalar_line(
    bytes: &mut Vec<u8>,
    at: usize,
    kept: &mut kept_mark_t,
    scalar: &yaml_lent_scalar_t,
) -> Result<usize, AllocError>
    requires words { HasWords (lent_token scalar.now).token_data }
    requires place { at ≤ vec_len bytes.old }
    ensures line { IfOk result (λ end. take end bytes.new.items
        ≡ take at bytes.old.items ++ token_line (lent_token scalar.now)) }
    ensures within { IfOk result (λ end. end ≤ vec_len bytes.new) }
    ensures err { OnErr result (take at bytes.new.items ≡ take at bytes.old.items) }
    ensures place { at ≤ vec_len bytes.new }
{
    make_room(bytes, at, 0)?;
    let head = head_t {
        kind: yaml_token_type_t::YAML_SCALAR_TOKEN,
        start_mark: scalar.start_mark,
        end_mark: scalar.end_mark,
    };
    let head_end = set_head(bytes, at, kept, head);
    let end = put_scalar(bytes, head_end, scalar.value, scalar.style)?;
    bytes[end] = b'\n';
    Ok(end + 1)
}
