//! Sets of characters that lexemes need. The end of a text counts as character 0.
ghost use Rattle.std.specs.Prelude.{◌≡◌, ◌<◌, true};
ghost use Rattle.yaml_text.specs.Classes as classes;
ghost use Rattle.yaml_lexeme.specs.Classes as spec;
ghost use Rattle.yaml_lexeme.specs.Uri as uris;

/// A line break.
#[inline(always)]
pub(crate) fn is_break(c: char) -> bool
    ensures { result ≡ classes.is_break c }
{
    // No break of ASCII is above a carriage return.
    if c > '\r' && c < '\u{85}' {
        return false;
    }
    matches!(c, '\n' | '\r' | '\u{85}' | '\u{2028}' | '\u{2029}')
}

/// A space or a tab.
#[inline(always)]
pub(crate) fn is_blank(c: char) -> bool
    ensures { result ≡ classes.is_blank c }
{
    c == ' ' || c == '\t'
}

/// A blank or a break.
#[inline(always)]
pub(crate) fn is_white(c: char) -> bool
    ensures { result ≡ spec.is_white c }
{
    if c > ' ' && c < '\u{80}' {
        return false;
    }
    is_blank(c) || is_break(c)
}

/// Which characters of ASCII are blanks, breaks or the end, which reads as 0: for each a 1, and else a 0. A look is
/// cheaper than comparisons.
static ENDS: [u8; 128] = [
    1, 0, 0, 0, 0, 0, 0, 0, 0, 1, 1, 0, 0, 1, 0, 0, 0, 0, 0, 0, 0, 0, 0, 0, 0, 0, 0, 0, 0, 0, 0, 0,
    1, 0, 0, 0, 0, 0, 0, 0, 0, 0, 0, 0, 0, 0, 0, 0, 0, 0, 0, 0, 0, 0, 0, 0, 0, 0, 0, 0, 0, 0, 0, 0,
    0, 0, 0, 0, 0, 0, 0, 0, 0, 0, 0, 0, 0, 0, 0, 0, 0, 0, 0, 0, 0, 0, 0, 0, 0, 0, 0, 0, 0, 0, 0, 0,
    0, 0, 0, 0, 0, 0, 0, 0, 0, 0, 0, 0, 0, 0, 0, 0, 0, 0, 0, 0, 0, 0, 0, 0, 0, 0, 0, 0, 0, 0, 0, 0,
];

/// A blank, a break or the end.
#[inline(always)]
pub(crate) fn ends(c: char) -> bool
    ensures { result ≡ spec.ends c }
{
    if c < '\u{80}' {
        return ENDS[c as usize] == 1;
    }
    is_break(c)
}

/// A letter, a digit, `_` or `-`.
#[inline(always)]
pub(crate) fn is_alpha(c: char) -> bool
    ensures { result ≡ classes.is_alpha c }
{
    matches!(c, '0'..='9' | 'A'..='Z' | 'a'..='z' | '_' | '-')
}

/// All but a break and the end.
#[inline(always)]
pub(crate) fn is_in_line(c: char) -> bool
    ensures { result ≡ spec.is_in_line c }
{
    !(is_break(c) || c == '\0')
}

/// A character of a uri, but no escape. Commas and brackets are among them if they are listed.
pub(crate) fn is_uri(listed: bool, c: char) -> bool
    ensures same { result ≡ uris.is_uri listed c }
    ensures ascii { result ≡ true → c < 128 }
{
    is_alpha(c)
        || c == ';'
        || c == '/'
        || c == '?'
        || c == ':'
        || c == '@'
        || c == '&'
        || c == '='
        || c == '+'
        || c == '$'
        || c == '.'
        || c == '!'
        || c == '~'
        || c == '*'
        || c == '\''
        || c == '('
        || c == ')'
        || listed && (c == ',' || c == '[' || c == ']')
}
