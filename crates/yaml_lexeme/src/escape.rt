//! Escapes in double quotes.
ghost use Rattle.std.specs.Prelude.{ℕ, ◌≡◌, ◌<◌, ◌≤◌, IfSome, Some, length, false, true};
ghost use Rattle.std.specs.Char.{digit_value};
ghost use Rattle.yaml_text.specs.Chars.{utf8};
ghost use Rattle.yaml_text.specs.Classes.{is_break};
ghost use Rattle.yaml_lexeme.specs.Place.{Place, first, peek, skip};
ghost use Rattle.yaml_lexeme.specs.Escape as spec;
ghost use Rattle.yaml_lexeme.specs.inside.CommonEscapes.{byte_escape, is_common, IsDigit, SpellsFour};
ghost use Rattle.yaml_lexeme.specs.inside.Gives.{Gives};

use crate::place::cursor_t;
use crate::problem::{offence, yaml_problem_t, yaml_refusal_t};

/// The character that one after a backslash stands for, or `None`.
fn simple_escape(c: char) -> Option<char>
    ensures { result ≡ spec.simple_escape c }
{
    Some(match c {
        '0' => '\0',
        'a' => '\u{7}',
        'b' => '\u{8}',
        't' | '\t' => '\t',
        'n' => '\n',
        'v' => '\u{B}',
        'f' => '\u{C}',
        'r' => '\r',
        'e' => '\u{1B}',
        ' ' | '"' | '/' | '\\' => c,
        'N' => '\u{85}',
        '_' => '\u{A0}',
        'L' => '\u{2028}',
        'P' => '\u{2029}',
        _ => return None,
    })
}

/// The byte that an escape gives, by the character after the backslash, and 0 for those that give 0, more bytes or
/// nothing. It is looked up, since the processor can't guess which escape comes next.
static BYTES: [u8; 128] = [
    0, 0, 0, 0, 0, 0, 0, 0, 0, 9, 0, 0, 0, 0, 0, 0, 0, 0, 0, 0, 0, 0, 0, 0, 0, 0, 0, 0, 0, 0, 0, 0,
    32, 0, 34, 0, 0, 0, 0, 0, 0, 0, 0, 0, 0, 0, 0, 47, 0, 0, 0, 0, 0, 0, 0, 0, 0, 0, 0, 0, 0, 0, 0,
    0, 0, 0, 0, 0, 0, 0, 0, 0, 0, 0, 0, 0, 0, 0, 0, 0, 0, 0, 0, 0, 0, 0, 0, 0, 0, 0, 0, 0, 92, 0,
    0, 0, 0, 7, 8, 0, 0, 27, 12, 0, 0, 0, 0, 0, 0, 0, 10, 0, 0, 0, 13, 0, 9, 0, 11, 0, 0, 0, 0, 0,
    0, 0, 0, 0,
];

/// The byte that an escape of one character gives, or 0 if it gives none, 0 itself or more bytes.
#[inline(always)]
pub(crate) fn byte_escape(c: char) -> u8
    ensures { result ≡ byte_escape c }
{
    if c >= '\u{80}' {
        return 0;
    }
    BYTES[c as usize]
}

/// Whether an escape is a common one: it gives a line feed, a tab or the character that is written.
#[inline(always)]
fn is_common(c: char) -> bool
    ensures { result ≡ is_common c }
{
    matches!(c, 'n' | 't' | '\t' | '"' | '\\' | '/' | ' ')
}

/// The character that a common escape gives. It is computed, since the processor can't guess which escape comes next.
#[inline(always)]
fn common_escape(c: char) -> char
    requires { is_common c ≡ true }
    ensures { Some result ≡ spec.simple_escape c }
{
    let b = c as u32 as u8;
    char::from(b - 100 * u8::from(b == b'n') - 107 * u8::from(b == b't'))
}

/// How many hex digits follow a character after a backslash.
fn hex_len(c: char) -> usize
    ensures len { result ≡ spec.hex_len c }
    ensures most { result ≤ 8 }
{
    match c {
        'x' => 2,
        'u' => 4,
        'U' => 8,
        _ => 0,
    }
}

/// Takes `n` hex digits, and returns the character that they spell.
fn take_hex_escape(cursor: &mut cursor_t, n: usize) -> Result<char, yaml_refusal_t>
    requires { n ≤ 8 }
    ensures { Gives (λ c. c) result cursor.new (spec.hex_escape n cursor.old) }
{
    let mut value: u32 = 0;
    let mut at = cursor.again();
    'digits: for k in 0..n {
        let Some(digit) = at.peek(0).to_digit(16) else {
            return Err(offence(yaml_problem_t::NO_HEX_DIGIT));
        };
        value = value * 16 + digit;
        at.pass();
    }
    let Some(c) = char::from_u32(value) else {
        return Err(offence(yaml_problem_t::NO_SCALAR_VALUE));
    };
    *cursor = at;
    Ok(c)
}

/// The value of each hex digit, and 16 for the other bytes.
static DIGITS: [u8; 256] = [
    16, 16, 16, 16, 16, 16, 16, 16, 16, 16, 16, 16, 16, 16, 16, 16, 16, 16, 16, 16, 16, 16, 16, 16,
    16, 16, 16, 16, 16, 16, 16, 16, 16, 16, 16, 16, 16, 16, 16, 16, 16, 16, 16, 16, 16, 16, 16, 16,
    0, 1, 2, 3, 4, 5, 6, 7, 8, 9, 16, 16, 16, 16, 16, 16, 16, 10, 11, 12, 13, 14, 15, 16, 16, 16,
    16, 16, 16, 16, 16, 16, 16, 16, 16, 16, 16, 16, 16, 16, 16, 16, 16, 16, 16, 16, 16, 16, 16, 10,
    11, 12, 13, 14, 15, 16, 16, 16, 16, 16, 16, 16, 16, 16, 16, 16, 16, 16, 16, 16, 16, 16, 16, 16,
    16, 16, 16, 16, 16, 16, 16, 16, 16, 16, 16, 16, 16, 16, 16, 16, 16, 16, 16, 16, 16, 16, 16, 16,
    16, 16, 16, 16, 16, 16, 16, 16, 16, 16, 16, 16, 16, 16, 16, 16, 16, 16, 16, 16, 16, 16, 16, 16,
    16, 16, 16, 16, 16, 16, 16, 16, 16, 16, 16, 16, 16, 16, 16, 16, 16, 16, 16, 16, 16, 16, 16, 16,
    16, 16, 16, 16, 16, 16, 16, 16, 16, 16, 16, 16, 16, 16, 16, 16, 16, 16, 16, 16, 16, 16, 16, 16,
    16, 16, 16, 16, 16, 16, 16, 16, 16, 16, 16, 16, 16, 16, 16, 16, 16, 16, 16, 16, 16, 16, 16, 16,
    16, 16, 16, 16, 16, 16, 16, 16, 16, 16, 16, 16, 16, 16,
];

/// The value of a hex digit, and 16 for other bytes.
#[inline(always)]
fn digit(b: u8) -> u32
    ensures { result < 16 → IsDigit b result }
{
    u32::from(DIGITS[b as usize])
}

/// The character that the first four bytes spell, if they are hex digits and spell one.
#[inline(always)]
pub(crate) fn four_digits(bytes: &[u8]) -> Option<char>
    requires { 4 ≤ length bytes.now }
    ensures { IfSome result (λ c. (p : Place) → utf8 p.rest ≡ bytes.now → SpellsFour p c) }
{
    let a = digit(bytes[0]);
    let b = digit(bytes[1]);
    let c = digit(bytes[2]);
    let d = digit(bytes[3]);
    if (a > 15) | ((b > 15) | ((c > 15) | (d > 15))) {
        return None;
    }
    let code = char::from_u32(((a * 16 + b) * 16 + c) * 16 + d)?;
    Some(code)
}

/// So many hex digits come after `\u`.
const FOUR: usize = 4;

/// Takes four hex digits.
#[inline(always)]
pub(crate) fn pass_four(cursor: &mut cursor_t)
    requires { (i : ℕ) → i < 4 → digit_value (peek cursor.old i) < 16 }
    ensures { cursor.new ≡ skip 4 cursor.old }
{
    'digits: for k in 0..FOUR {
        cursor.pass();
    }
}

/// Takes a backslash and the character after it.
#[inline(always)]
pub(crate) fn pass_two(cursor: &mut cursor_t)
    requires backslash { first cursor.old ≡ spec.backslash }
    requires some { 0 < peek cursor.old 1 }
    requires ascii { peek cursor.old 1 < 0x80 }
    requires inside { is_break (peek cursor.old 1) ≡ false }
    ensures { cursor.new ≡ skip 2 cursor.old }
{
    cursor.pass();
    cursor.pass();
}

/// Takes an escape, from its backslash on. `next` is the character after the backslash.
#[tactic(auto, unfolding(crate::specs::Escape::escape))]
#[inline(always)]
pub(crate) fn take_escape(cursor: &mut cursor_t, next: char) -> Result<char, yaml_refusal_t>
    requires backslash { first cursor.old ≡ spec.backslash }
    requires next { next ≡ peek cursor.old 1 }
    ensures { Gives (λ c. c) result cursor.new (spec.escape cursor.old) }
{
    if is_common(next) {
        pass_two(cursor);
        return Ok(common_escape(next));
    }
    let n = hex_len(next);
    if n > 0 {
        pass_two(cursor);
        return take_hex_escape(cursor, n);
    }
    let Some(c) = simple_escape(next) else {
        return Err(offence(yaml_problem_t::UNKNOWN_ESCAPE));
    };
    pass_two(cursor);
    Ok(c)
}
