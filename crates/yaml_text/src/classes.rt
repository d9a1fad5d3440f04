//! The classes of characters, as tests of the bytes of `s` at the index `at`, in bytes from 0. At or past the
//! end a byte reads as 0.
//!
//! Each class has two clauses: which bytes it holds for, on any bytes and at any index; and which characters
//! it holds for, where UTF-8 spells a character, whatever follows it, and at the end, which counts as character 0.
ghost use Rattle.std.specs.Prelude.{ℕ, ◌≡◌, ◌+◌, ◌-◌, ◌<◌, ◌≤◌, ◌||◌, true, pos, slice_index};
ghost use Rattle.std.specs.Char.{len_utf8};
ghost use Rattle.yaml_text.specs.Utf8.{width_of};
ghost use Rattle.yaml_text.specs.Classes.{is_digit, is_hex, is_alpha, is_z};
ghost use Rattle.yaml_text.specs.ClassCalls.{is_ascii, is_printable, is_bom, is_breakz, is_blankz, hex_value};
ghost use Rattle.yaml_text.specs.ClassCalls.{is_break_at, is_bom_at, is_printable_at, is_crlf_at, is_breakz_at};
ghost use Rattle.yaml_text.specs.ClassCalls.{is_blankz_at, Stands};
ghost use Rattle.yaml_text.specs.Classes.{is_space, is_tab, is_blank, is_break, is_crlf};

#[inline(always)]
fn byte_at(s: &[u8], at: usize) -> u8
    ensures { result ≡ slice_index s.now at }
{
    s.get(at).copied().unwrap_or(0)
}

#[inline(always)]
fn byte_after(s: &[u8], at: usize, more: usize) -> u8
    ensures { result ≡ slice_index s.now (at + more) }
{
    match at.checked_add(more) {
        Some(at) => byte_at(s, at),
        None => 0,
    }
}

#[inline(always)]
fn breaks_at(s: &[u8], at: usize) -> bool
    ensures { result ≡ is_break_at s.now at }
{
    match byte_at(s, at) {
        b'\r' | b'\n' => true,
        0xC2 => byte_after(s, at, 1) == 0x85,
        0xE2 => byte_after(s, at, 1) == 0x80 && matches!(byte_after(s, at, 2), 0xA8 | 0xA9),
        _ => false,
    }
}

#[inline(always)]
fn crlf_at(s: &[u8], at: usize) -> bool
    ensures { result ≡ is_crlf_at s.now at }
{
    byte_at(s, at) == b'\r' && byte_after(s, at, 1) == b'\n'
}

fn bom_at(s: &[u8], at: usize) -> bool
    ensures { result ≡ is_bom_at s.now at }
{
    byte_at(s, at) == 0xEF && byte_after(s, at, 1) == 0xBB && byte_after(s, at, 2) == 0xBF
}

fn printable_at(s: &[u8], at: usize) -> bool
    ensures { result ≡ is_printable_at s.now at }
{
    match byte_at(s, at) {
        b'\n' | 0x20..=0x7E | 0xC3..=0xEC | 0xEE | 0xF0..=0xF4 => true,
        0xC2 => matches!(byte_after(s, at, 1), 0xA0..=0xBF),
        0xED => byte_after(s, at, 1) <= 0x9F,
        0xEF => match byte_after(s, at, 1) {
            0xBB => byte_after(s, at, 2) != 0xBF,
            0xBF => !matches!(byte_after(s, at, 2), 0xBE | 0xBF),
            _ => true,
        },
        _ => false,
    }
}

fn is_digit_byte(b: u8) -> bool
    ensures { result ≡ is_digit b }
{
    b.is_ascii_digit()
}

fn is_hex_byte(b: u8) -> bool
    ensures { result ≡ is_hex b }
{
    matches!(b, b'0'..=b'9' | b'A'..=b'F' | b'a'..=b'f')
}

/// How much a hexadecimal digit is above its value.
fn hex_excess(b: u8) -> u8
    requires { is_hex b ≡ true }
    ensures value { b - result ≡ hex_value b }
    ensures within { result ≤ b }
{
    match b {
        b'0'..=b'9' => b'0',
        b'A'..=b'F' => b'A' - 10,
        _ => b'a' - 10,
    }
}

#[inline(always)]
fn is_alpha_byte(b: u8) -> bool
    ensures { result ≡ is_alpha b }
{
    matches!(b, b'0'..=b'9' | b'A'..=b'Z' | b'a'..=b'z' | b'_' | b'-')
}

#[inline(always)]
fn is_blank_byte(b: u8) -> bool
    ensures { result ≡ is_blank b }
{
    matches!(b, b' ' | b'\t')
}

/// Whether a letter, a digit, `_` or `-` is there.
#[inline(always)]
#[tactic(auto, using(crate::proofs::Characters::ClassTables::alpha_law))]
pub fn IS_ALPHA(s: &[u8], at: usize) -> bool
    ensures bytes { result ≡ is_alpha (slice_index s.now at) }
    ensures character { (c : ℕ) → Stands s.now at c → result ≡ is_alpha c }
{
    is_alpha_byte(byte_at(s, at))
}

/// Whether a decimal digit is there.
#[inline(always)]
#[tactic(auto, using(crate::proofs::Characters::ClassTables::digit_law))]
pub fn IS_DIGIT(s: &[u8], at: usize) -> bool
    ensures bytes { result ≡ is_digit (slice_index s.now at) }
    ensures character { (c : ℕ) → Stands s.now at c → result ≡ is_digit c }
{
    is_digit_byte(byte_at(s, at))
}

/// The value of the decimal digit there, from 0 to 9. A digit must be there.
pub fn AS_DIGIT(s: &[u8], at: usize) -> i32
    requires { is_digit (slice_index s.now at) ≡ true }
    ensures bytes { result ≡ pos (slice_index s.now at - 0x30) }
    ensures character { (c : ℕ) → Stands s.now at c → result ≡ pos (c - 0x30) }
{
    i32::from(byte_at(s, at) - b'0')
}

/// Whether a hexadecimal digit is there.
#[inline(always)]
#[tactic(auto, using(crate::proofs::Characters::ClassTables::hex_law))]
pub fn IS_HEX(s: &[u8], at: usize) -> bool
    ensures bytes { result ≡ is_hex (slice_index s.now at) }
    ensures character { (c : ℕ) → Stands s.now at c → result ≡ is_hex c }
{
    is_hex_byte(byte_at(s, at))
}

/// The value of the hexadecimal digit there, from 0 to 15. A digit must be there.
pub fn AS_HEX(s: &[u8], at: usize) -> i32
    requires { is_hex (slice_index s.now at) ≡ true }
    ensures bytes { result ≡ pos (hex_value (slice_index s.now at)) }
    ensures character { (c : ℕ) → Stands s.now at c → result ≡ pos (hex_value c) }
{
    let b = byte_at(s, at);
    i32::from(b - hex_excess(b))
}

/// Whether an ASCII character is there, or the end.
#[inline(always)]
#[tactic(auto, using(crate::proofs::Characters::ClassTables::ascii_law))]
pub fn IS_ASCII(s: &[u8], at: usize) -> bool
    ensures bytes { result ≡ is_ascii (slice_index s.now at) }
    ensures character { (c : ℕ) → Stands s.now at c → result ≡ is_ascii c }
{
    byte_at(s, at) <= 0x7F
}

/// Whether a printable character is there.
#[inline(always)]
#[tactic(auto, using(crate::proofs::Characters::ClassTables::printable_law))]
pub fn IS_PRINTABLE(s: &[u8], at: usize) -> bool
    ensures bytes { result ≡ is_printable_at s.now at }
    ensures character { (c : ℕ) → Stands s.now at c → result ≡ is_printable c }
{
    printable_at(s, at)
}

/// Whether the end is there, or a byte 0.
#[inline(always)]
#[tactic(auto, using(crate::proofs::Characters::ClassTables::z_law))]
pub fn IS_Z(s: &[u8], at: usize) -> bool
    ensures bytes { result ≡ is_z (slice_index s.now at) }
    ensures character { (c : ℕ) → Stands s.now at c → result ≡ is_z c }
{
    byte_at(s, at) == b'\0'
}

/// Whether a byte order mark is there.
#[inline(always)]
#[tactic(auto, using(crate::proofs::Characters::ClassTables::bom_law))]
pub fn IS_BOM(s: &[u8], at: usize) -> bool
    ensures bytes { result ≡ is_bom_at s.now at }
    ensures character { (c : ℕ) → Stands s.now at c → result ≡ is_bom c }
{
    bom_at(s, at)
}

/// Whether a space is there.
#[inline(always)]
#[tactic(auto, using(crate::proofs::Characters::ClassTables::space_law))]
pub fn IS_SPACE(s: &[u8], at: usize) -> bool
    ensures bytes { result ≡ is_space (slice_index s.now at) }
    ensures character { (c : ℕ) → Stands s.now at c → result ≡ is_space c }
{
    byte_at(s, at) == b' '
}

/// Whether a tab is there.
#[inline(always)]
#[tactic(auto, using(crate::proofs::Characters::ClassTables::tab_law))]
pub fn IS_TAB(s: &[u8], at: usize) -> bool
    ensures bytes { result ≡ is_tab (slice_index s.now at) }
    ensures character { (c : ℕ) → Stands s.now at c → result ≡ is_tab c }
{
    byte_at(s, at) == b'\t'
}

/// Whether a space or a tab is there.
#[inline(always)]
#[tactic(auto, using(crate::proofs::Characters::ClassTables::blank_law))]
pub fn IS_BLANK(s: &[u8], at: usize) -> bool
    ensures bytes { result ≡ is_blank (slice_index s.now at) }
    ensures character { (c : ℕ) → Stands s.now at c → result ≡ is_blank c }
{
    is_blank_byte(byte_at(s, at))
}

/// Whether a break is there: a carriage return, a line feed, U+0085, U+2028 or U+2029.
#[inline(always)]
#[tactic(auto, using(crate::proofs::Characters::ClassTables::break_law))]
pub fn IS_BREAK(s: &[u8], at: usize) -> bool
    ensures bytes { result ≡ is_break_at s.now at }
    ensures character { (c : ℕ) → Stands s.now at c → result ≡ is_break c }
{
    breaks_at(s, at)
}

/// Whether a carriage return and then a line feed are there.
#[inline(always)]
#[tactic(auto, using(crate::proofs::Characters::ClassTables::crlf_law))]
pub fn IS_CRLF(s: &[u8], at: usize) -> bool
    ensures bytes { result ≡ is_crlf_at s.now at }
    ensures character { (c d : ℕ) → Stands s.now at c → Stands s.now (at + len_utf8 c) d
        → result ≡ is_crlf c d }
{
    crlf_at(s, at)
}

/// Whether a break is there, or the end.
#[inline(always)]
#[tactic(auto, using(crate::proofs::Characters::ClassTables::breakz_law))]
pub fn IS_BREAKZ(s: &[u8], at: usize) -> bool
    ensures bytes { result ≡ is_breakz_at s.now at }
    ensures character { (c : ℕ) → Stands s.now at c → result ≡ is_breakz c }
{
    IS_BREAK(s, at) || IS_Z(s, at)
}

/// Whether a space, a tab or a break is there, or the end.
#[inline(always)]
#[tactic(auto, using(crate::proofs::Characters::ClassTables::blankz_law))]
pub fn IS_BLANKZ(s: &[u8], at: usize) -> bool
    ensures bytes { result ≡ is_blankz_at s.now at }
    ensures character { (c : ℕ) → Stands s.now at c → result ≡ is_blankz c }
{
    IS_BLANK(s, at) || IS_BREAKZ(s, at)
}

/// How many bytes the character that begins with the byte there has, or 0 if none begins with it.
#[inline(always)]
#[tactic(auto, using(crate::proofs::Characters::ClassTables::width_law))]
pub fn WIDTH(s: &[u8], at: usize) -> usize
    ensures bytes { result ≡ width_of (slice_index s.now at) }
    ensures character { (c : ℕ) → Stands s.now at c → result ≡ len_utf8 c }
{
    crate::utf8::width_of(byte_at(s, at))
}
