//! Kinds of lexemes.
ghost use Rattle.std.specs.Prelude.{ℕ, ◌≡◌, true, false, Some, Ok, IfSome};
ghost use Rattle.yaml_lexeme.specs.Decider as deciders;
ghost use Rattle.yaml_lexeme.specs.Lex as lex;
ghost use Rattle.yaml_lexeme.specs.Answers.{lexeme_at};
ghost use Rattle.yaml_lexeme.specs.Lexeme.{whole_of};
ghost use Rattle.yaml_lexeme.specs.Place.{place_at};
ghost use Rattle.yaml_lexeme.specs.Counted.{IsMarkOf};
ghost use Rattle.std.specs.Char.{is_ascii_alphanumeric, IsAsciiAlphanumeric};
ghost use Rattle.yaml_lexeme.specs.Kind as spec;
ghost use Rattle.yaml_lexeme.specs.declared.lex.yaml_context_t.{yaml_context_t};

use crate::classes::ends;
use crate::place::{check_at, cursor_t, is_at};
use yaml_text::{yaml_mark_t, yaml_text_t};

/// What kind of lexeme is at a place. "Ends" means that a blank, a break or the end of the text follows.
#[derive(Clone, Copy, PartialEq, Eq)]
pub enum yaml_lexeme_kind_t {
    /// The end of the text.
    STREAM_END,
    /// `%` at column 0, also in flow.
    DIRECTIVE,
    /// `---` at column 0, which ends, also in flow.
    DOCUMENT_START,
    /// `...` at column 0, which ends, also in flow.
    DOCUMENT_END,
    /// `[`.
    FLOW_SEQUENCE_START,
    /// `{`.
    FLOW_MAPPING_START,
    /// `]`.
    FLOW_SEQUENCE_END,
    /// `}`.
    FLOW_MAPPING_END,
    /// `,`.
    FLOW_ENTRY,
    /// `-`, which ends.
    BLOCK_ENTRY,
    /// `?`, in flow or if it ends.
    KEY,
    /// `:`, in flow or if it ends.
    VALUE,
    /// `*` and a name.
    ALIAS,
    /// `&` and a name.
    ANCHOR,
    /// A tag, which starts with `!`.
    TAG,
    /// A block scalar after `|`, outside of flow.
    LITERAL,
    /// A block scalar after `>`, outside of flow.
    FOLDED,
    /// A scalar between `'`.
    SINGLE_QUOTED,
    /// A scalar between `"`.
    DOUBLE_QUOTED,
    /// A scalar that starts with no indicator, or with a `-`, `?` or `:` that is no token of its own.
    PLAIN,
}

/// Whether `---` or `...`, of which `c` is the character, is here at the start of a line, and ends.
#[inline(always)]
pub(crate) fn is_marker_of(cursor: &cursor_t, c: char) -> bool
    ensures { result ≡ spec.is_marker_of c cursor.now }
{
    cursor.mark().column == 0
        && check_at!(cursor, c, 0)
        && check_at!(cursor, c, 1)
        && check_at!(cursor, c, 2)
        && is_at!(cursor, ends, 3)
}

/// Whether a document marker is here.
#[inline(always)]
pub(crate) fn is_marker(cursor: &cursor_t) -> bool
    ensures { result ≡ spec.is_marker cursor.now }
{
    is_marker_of(cursor, '-') || is_marker_of(cursor, '.')
}

fn is_indicator(c: char) -> bool
    ensures { result ≡ spec.is_indicator c }
{
    c == '-'
        || c == '?'
        || c == ':'
        || c == ','
        || c == '['
        || c == ']'
        || c == '{'
        || c == '}'
        || c == '#'
        || c == '&'
        || c == '*'
        || c == '!'
        || c == '|'
        || c == '>'
        || c == '\''
        || c == '"'
        || c == '%'
        || c == '@'
        || c == '`'
}

/// Whether a plain scalar starts with this character.
#[inline(never)]
fn starts_plain(c: char, in_flow: bool) -> bool
    ensures { result ≡ spec.starts_plain in_flow c }
{
    !(ends(c) || is_indicator(c)) || c == '-' || (!in_flow && (c == '?' || c == ':'))
}

/// Which characters of ASCII are letters and digits: for each a 1, and else a 0. A look is cheaper than comparisons.
static LETTERS_AND_DIGITS: [u8; 128] = [
    0, 0, 0, 0, 0, 0, 0, 0, 0, 0, 0, 0, 0, 0, 0, 0, 0, 0, 0, 0, 0, 0, 0, 0, 0, 0, 0, 0, 0, 0, 0, 0,
    0, 0, 0, 0, 0, 0, 0, 0, 0, 0, 0, 0, 0, 0, 0, 0, 1, 1, 1, 1, 1, 1, 1, 1, 1, 1, 0, 0, 0, 0, 0, 0,
    0, 1, 1, 1, 1, 1, 1, 1, 1, 1, 1, 1, 1, 1, 1, 1, 1, 1, 1, 1, 1, 1, 1, 1, 1, 1, 1, 0, 0, 0, 0, 0,
    0, 1, 1, 1, 1, 1, 1, 1, 1, 1, 1, 1, 1, 1, 1, 1, 1, 1, 1, 1, 1, 1, 1, 1, 1, 1, 1, 0, 0, 0, 0, 0,
];

/// Whether a character is a letter or a digit of ASCII.
#[inline(always)]
fn is_letter_or_digit(c: char) -> bool
    ensures value { result ≡ is_ascii_alphanumeric c }
    ensures ranges { result ≡ true → IsAsciiAlphanumeric c }
{
    c < '\u{80}' && LETTERS_AND_DIGITS[c as usize] == 1
}

/// The kind of the lexeme that is here. The character after a dash mostly is a space, so that is asked first.
#[tactic(auto, unfolding(crate::specs::Kind::kind_at))]
#[inline(always)]
fn kind_at(cursor: &cursor_t, in_flow: bool) -> Option<yaml_lexeme_kind_t>
    ensures { result ≡ spec.kind_at in_flow cursor.now }
{
    let c = cursor.peek(0);
    if is_letter_or_digit(c) {
        return Some(yaml_lexeme_kind_t::PLAIN);
    }
    Some(match c {
        '\0' => yaml_lexeme_kind_t::STREAM_END,
        '%' if cursor.mark().column == 0 => yaml_lexeme_kind_t::DIRECTIVE,
        '[' => yaml_lexeme_kind_t::FLOW_SEQUENCE_START,
        '{' => yaml_lexeme_kind_t::FLOW_MAPPING_START,
        ']' => yaml_lexeme_kind_t::FLOW_SEQUENCE_END,
        '}' => yaml_lexeme_kind_t::FLOW_MAPPING_END,
        ',' => yaml_lexeme_kind_t::FLOW_ENTRY,
        '-' if check_at!(cursor, ' ', 1) || is_at!(cursor, ends, 1) =>
            yaml_lexeme_kind_t::BLOCK_ENTRY,
        '-' if is_marker_of(cursor, '-') => yaml_lexeme_kind_t::DOCUMENT_START,
        '.' if is_marker_of(cursor, '.') => yaml_lexeme_kind_t::DOCUMENT_END,
        '?' if in_flow || is_at!(cursor, ends, 1) => yaml_lexeme_kind_t::KEY,
        ':' if in_flow || is_at!(cursor, ends, 1) => yaml_lexeme_kind_t::VALUE,
        '*' => yaml_lexeme_kind_t::ALIAS,
        '&' => yaml_lexeme_kind_t::ANCHOR,
        '!' => yaml_lexeme_kind_t::TAG,
        '|' if !in_flow => yaml_lexeme_kind_t::LITERAL,
        '>' if !in_flow => yaml_lexeme_kind_t::FOLDED,
        '\'' => yaml_lexeme_kind_t::SINGLE_QUOTED,
        '"' => yaml_lexeme_kind_t::DOUBLE_QUOTED,
        _ if starts_plain(c, in_flow) => yaml_lexeme_kind_t::PLAIN,
        _ => return None,
    })
}

/// The kind of the lexeme at a place, or `None` if no token can start there (YAML 1.1, 5.3 Indicator Characters and 7.2
/// Document Boundary Markers).
///
/// `at` must be the mark of a place of this text: what `yaml_mark_at` returns for it, the mark after a gap of
/// it, or the reach of a lexeme of it other than the stream end. At a place with a gap that is not empty, the
/// kind is that for the gap's first character. `in_flow` says whether the flow depth is above 0. No memory is
/// taken.
#[inline(always)]
pub fn yaml_lexeme_kind(
    text: &yaml_text_t,
    at: yaml_mark_t,
    in_flow: bool,
) -> Option<yaml_lexeme_kind_t>
    requires { (n : ℕ) × IsMarkOf text.now.chars at n }
    ensures { (n : ℕ) → IsMarkOf text.now.chars at n → result ≡ spec.kind_at in_flow (place_at text.now.chars n) }
{
    kind_at(&cursor_t::at(text, at), in_flow)
}

/// The kind of the lexeme at a place, if it is a `:`, or in flow a `,`, `]` or `}`, and no gap comes before it.
///
/// `at` must be the mark of a place of this text, as for [`yaml_lexeme_kind`]. The kind that is returned is the one
/// that `yaml_lexeme_kind` returns there, and the lexeme is that one character. `None` says nothing. No memory is
/// taken.
#[tactic(auto, unfolding(crate::specs::Kind::kind_at))]
#[inline(always)]
pub fn yaml_decider_at(
    text: &yaml_text_t,
    at: yaml_mark_t,
    in_flow: bool,
) -> Option<yaml_lexeme_kind_t>
    requires { (n : ℕ) × IsMarkOf text.now.chars at n }
    ensures decides { IfSome result (λ k. deciders.decides in_flow k ≡ true) }
    ensures gap { IfSome result (λ k. (n : ℕ) → IsMarkOf text.now.chars at n
        → deciders.IsGap (place_at text.now.chars n) (place_at text.now.chars n) false) }
    ensures kind { IfSome result (λ k. (n : ℕ) → IsMarkOf text.now.chars at n
        → spec.kind_at in_flow (place_at text.now.chars n) ≡ Some k) }
    ensures value { IfSome result (λ k. (n : ℕ) (context : yaml_context_t) → IsMarkOf text.now.chars at n
        → lexeme_at k context (place_at text.now.chars n) ≡ Ok (whole_of (lex.says_of k) at (deciders.one_on at))) }
{
    let cursor = cursor_t::at(text, at);
    match cursor.peek(0) {
        ':' if in_flow || is_at!(cursor, ends, 1) => Some(yaml_lexeme_kind_t::VALUE),
        ',' if in_flow => Some(yaml_lexeme_kind_t::FLOW_ENTRY),
        ']' if in_flow => Some(yaml_lexeme_kind_t::FLOW_SEQUENCE_END),
        '}' if in_flow => Some(yaml_lexeme_kind_t::FLOW_MAPPING_END),
        _ => None,
    }
}
