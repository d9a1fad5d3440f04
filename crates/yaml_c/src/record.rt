//! Tokens as plain records.
ghost use Rattle.std.specs.Prelude.{◌≡◌, true};
ghost use Rattle.yaml_text.specs.Token.{data_of, token_of};
ghost use Rattle.yaml_scan.specs.Lent.{lent_token};
ghost use Rattle.yaml_c.specs.Record as records;
ghost use Rattle.yaml_c.specs.Record.{record_of};
ghost use Rattle.yaml_c.specs.Spelled.{Spelled};
ghost use Rattle.yaml_c.specs.inside.Bare.{IsBare, with_marks};
ghost use Rattle.yaml_c.specs.inside.Spelled.{spelled_of};

use crate::numbers::{encoding_number, style_number, type_number};
use crate::spelled::{NOWHERE, place_of, spelled_t};
use yaml_scan::{
    unnamed_yaml_token_t_data, yaml_lent_scalar_t, yaml_mark_t, yaml_scalar_style_t, yaml_token_t,
    yaml_token_type_t,
};

/// A place in a text.
#[repr(C)]
#[derive(Clone, Copy)]
pub struct bogzhami_mark {
    /// How many bytes of the text in UTF-8 come before it.
    pub index: u64,
    /// How many line breaks end before it.
    pub line: u64,
    /// How many characters come between the last of these breaks and it.
    pub column: u64,
}

/// A token. Its texts follow one another in the room for texts, from `text_at` on.
#[repr(C)]
#[derive(Clone, Copy)]
pub struct bogzhami_token {
    /// The number of its type.
    pub token_type: u32,
    /// The number of a scalar's style, or of a stream's encoding; otherwise 0.
    pub detail: u32,
    /// The major version of a `%YAML` directive; otherwise 0.
    pub major: i32,
    /// The minor version of a `%YAML` directive; otherwise 0.
    pub minor: i32,
    /// Where its texts begin in the room for texts, in bytes from 0.
    pub text_at: u64,
    /// The length in bytes of its handle, name or value; 0 if it has none.
    pub first_len: u64,
    /// The length in bytes of its prefix or suffix; 0 if it has none.
    pub second_len: u64,
    /// Where it starts.
    pub start_mark: bogzhami_mark,
    /// Where it ends.
    pub end_mark: bogzhami_mark,
    /// Where the value of a plain or quoted scalar, an anchor or an alias stands in the input as it is, in bytes from
    /// 0; otherwise all ones.
    pub input_at: u64,
}

/// A mark as a record.
#[inline(always)]
pub(crate) fn mark_of(mark: yaml_mark_t) -> bogzhami_mark
    ensures { result ≡ records.mark_of mark }
{
    bogzhami_mark {
        index: mark.index,
        line: mark.line,
        column: mark.column,
    }
}

/// A token's first text: a handle, a name or a value.
pub(crate) fn first_text(said: &unnamed_yaml_token_t_data) -> &[u8]
    ensures { result.now ≡ records.first_text (data_of said.now) }
{
    match said {
        unnamed_yaml_token_t_data::TAG_DIRECTIVE { handle, prefix: _ }
        | unnamed_yaml_token_t_data::TAG { handle, suffix: _ } => handle.as_slice(),
        unnamed_yaml_token_t_data::ALIAS { value }
        | unnamed_yaml_token_t_data::ANCHOR { value }
        | unnamed_yaml_token_t_data::SCALAR { value, style: _ } => value.as_slice(),
        _ => b"",
    }
}

/// A token's second text: a prefix or a suffix.
pub(crate) fn second_text(said: &unnamed_yaml_token_t_data) -> &[u8]
    ensures { result.now ≡ records.second_text (data_of said.now) }
{
    match said {
        unnamed_yaml_token_t_data::TAG_DIRECTIVE { handle: _, prefix } => prefix.as_slice(),
        unnamed_yaml_token_t_data::TAG { handle: _, suffix } => suffix.as_slice(),
        _ => b"",
    }
}

fn detail_of(said: &unnamed_yaml_token_t_data) -> u32
    ensures { result ≡ records.detail_of (data_of said.now) }
{
    match said {
        unnamed_yaml_token_t_data::STREAM_START { encoding } => encoding_number(*encoding),
        unnamed_yaml_token_t_data::SCALAR { value: _, style } => style_number(*style),
        _ => 0,
    }
}

fn version_of(said: &unnamed_yaml_token_t_data) -> (i32, i32)
    ensures major { result.0 ≡ records.major_of (data_of said.now) }
    ensures minor { result.1 ≡ records.minor_of (data_of said.now) }
{
    match said {
        unnamed_yaml_token_t_data::VERSION_DIRECTIVE { major, minor } => (*major, *minor),
        _ => (0, 0),
    }
}

/// How many bytes a scalar has before its value, if it may stand in the input as it is: a quote, or nothing.
#[inline(always)]
fn quote_len(style: yaml_scalar_style_t) -> Option<u64>
    ensures { result ≡ records.quote_len style }
{
    match style {
        yaml_scalar_style_t::YAML_PLAIN_SCALAR_STYLE => Some(0),
        yaml_scalar_style_t::YAML_SINGLE_QUOTED_SCALAR_STYLE
        | yaml_scalar_style_t::YAML_DOUBLE_QUOTED_SCALAR_STYLE => Some(1),
        _ => None,
    }
}

/// How many bytes a token has before its value, if it may stand in the input as it is: a quote, `*`, `&`, or nothing.
fn sign_len(said: &unnamed_yaml_token_t_data) -> Option<u64>
    ensures { result ≡ records.sign_len (data_of said.now) }
{
    match said {
        unnamed_yaml_token_t_data::ALIAS { value: _ }
        | unnamed_yaml_token_t_data::ANCHOR { value: _ } => Some(1),
        unnamed_yaml_token_t_data::SCALAR { value: _, style } => quote_len(*style),
        _ => None,
    }
}

/// Where a token's value stands in the input as it is.
fn input_at(spelled: spelled_t, token: &yaml_token_t) -> u64
    ensures { result ≡ records.input_at (spelled_of spelled.entry) (token_of token.now) }
{
    match sign_len(&token.token_data) {
        Some(len) => place_of(
            spelled,
            first_text(&token.token_data),
            token.start_mark.index,
            len,
        ),
        None => NOWHERE,
    }
}

/// Where a scalar's value stands in the input as it is.
#[inline(always)]
fn scalar_at(spelled: spelled_t, scalar: &yaml_lent_scalar_t) -> u64
    ensures { result ≡ records.input_at (spelled_of spelled.entry) (lent_token scalar.now) }
{
    match quote_len(scalar.style) {
        Some(len) => place_of(spelled, scalar.value, scalar.start_mark.index, len),
        None => NOWHERE,
    }
}

/// Whether a token says nothing besides its type. The stream end is left out.
#[inline(always)]
pub(crate) fn is_bare(said: &unnamed_yaml_token_t_data) -> bool
    ensures { result ≡ true → IsBare (data_of said.now) }
{
    matches!(
        said,
        unnamed_yaml_token_t_data::DOCUMENT_START
            | unnamed_yaml_token_t_data::DOCUMENT_END
            | unnamed_yaml_token_t_data::BLOCK_SEQUENCE_START
            | unnamed_yaml_token_t_data::BLOCK_MAPPING_START
            | unnamed_yaml_token_t_data::BLOCK_END
            | unnamed_yaml_token_t_data::FLOW_SEQUENCE_START
            | unnamed_yaml_token_t_data::FLOW_MAPPING_START
            | unnamed_yaml_token_t_data::FLOW_SEQUENCE_END
            | unnamed_yaml_token_t_data::FLOW_MAPPING_END
            | unnamed_yaml_token_t_data::BLOCK_ENTRY
            | unnamed_yaml_token_t_data::FLOW_ENTRY
            | unnamed_yaml_token_t_data::KEY
            | unnamed_yaml_token_t_data::VALUE
    )
}

/// A record of a token's type and marks, and of nothing else that it says. Texts begin at a place.
#[inline(always)]
fn with_marks(
    text_at: u64,
    kind: yaml_token_type_t,
    start_mark: yaml_mark_t,
    end_mark: yaml_mark_t,
) -> bogzhami_token
    ensures { result ≡ with_marks text_at kind start_mark end_mark }
{
    bogzhami_token {
        token_type: type_number(kind),
        detail: 0,
        major: 0,
        minor: 0,
        text_at,
        first_len: 0,
        second_len: 0,
        start_mark: mark_of(start_mark),
        end_mark: mark_of(end_mark),
        input_at: NOWHERE,
    }
}

/// The record of a token that says nothing besides its type. The texts of the next one begin at a place.
#[inline(always)]
pub(crate) fn bare_record(text_at: u64, token: &yaml_token_t) -> bogzhami_token
    requires { IsBare (token_of token.now).token_data }
    ensures { (s : Spelled) → result ≡ record_of s text_at (token_of token.now) }
{
    with_marks(text_at, token.type_(), token.start_mark, token.end_mark)
}

/// The record of a scalar of an input, whose text begins at a place.
#[inline(always)]
pub(crate) fn scalar_record(
    spelled: spelled_t,
    text_at: u64,
    scalar: &yaml_lent_scalar_t,
) -> bogzhami_token
    ensures { result ≡ record_of (spelled_of spelled.entry) text_at (lent_token scalar.now) }
{
    let kind = yaml_token_type_t::YAML_SCALAR_TOKEN;
    bogzhami_token {
        detail: style_number(scalar.style),
        first_len: scalar.value.len() as u64,
        input_at: scalar_at(spelled, scalar),
        ..with_marks(text_at, kind, scalar.start_mark, scalar.end_mark)
    }
}

/// The record of a token of an input, whose texts begin at a place.
pub(crate) fn record_of(spelled: spelled_t, text_at: u64, token: &yaml_token_t) -> bogzhami_token
    ensures { result ≡ record_of (spelled_of spelled.entry) text_at (token_of token.now) }
{
    let (major, minor) = version_of(&token.token_data);
    bogzhami_token {
        detail: detail_of(&token.token_data),
        major,
        minor,
        first_len: first_text(&token.token_data).len() as u64,
        second_len: second_text(&token.token_data).len() as u64,
        input_at: input_at(spelled, token),
        ..with_marks(text_at, token.type_(), token.start_mark, token.end_mark)
    }
}
