//! Runs of bytes of a class, up to a byte that needs a closer look.
ghost use Rattle.std.specs.Prelude.{◌≡◌, ◌+◌, ◌-◌, ◌<◌, ◌≤◌, true, false, length, take, drop, map};
ghost use Rattle.std.specs.List.{prefix_len, count_by};
ghost use Rattle.std.specs.Simd.Lanes.{mask_l};
ghost use Rattle.yaml_lexeme.specs.inside.Runs as spec;
ghost use Rattle.yaml_lexeme.specs.declared.runs.class_t.TheVariants.{SPACE, ALPHA, BLANK, IN_LINE, DOUBLE, SINGLE};
ghost use Rattle.yaml_lexeme.specs.declared.runs.class_t.TheVariants.{URI};
ghost use Rattle.yaml_lexeme.specs.declared.runs.class_t.TheVariants.{PLAIN, FLOW};

use crate::classes::{is_alpha, is_blank, is_in_line, is_uri, is_white};
use std::simd::prelude::*;

/// A set of characters, to take a run of them.
#[derive(Clone, Copy)]
pub(crate) enum class_t {
    /// Spaces and tabs.
    BLANK,
    /// Spaces, and tabs if the flag is set.
    GAP_BLANK(bool),
    SPACE,
    BLANK_OR_BREAK,
    /// Letters, digits, `_` and `-`.
    ALPHA,
    /// What uris are made of, but escapes. Commas and brackets are among them if the flag is set.
    URI(bool),
    /// All but breaks.
    IN_LINE,
    /// Of a line, what double quotes keep unchanged.
    DOUBLE,
    /// The same in single quotes.
    SINGLE,
    /// Of a line, all but what may end a plain scalar.
    PLAIN,
    /// The same in flow.
    FLOW,
}

/// Whether a character is the byte.
macro_rules! char_is {
    ($c:expr, $byte:literal) => { $byte as char == $c };
}

/// Which lanes are the byte.
macro_rules! lanes_are {
    ($v:expr, $byte:literal) => { u8x16::splat($byte).simd_eq($v) };
}

/// Whether `$x`, or which of its lanes, is one of the bytes. `$is` compares it with one byte, and `$none` is the
/// answer for no bytes.
macro_rules! is_any {
    ($is:ident, $x:expr, $none:expr) => { $none };
    ($is:ident, $x:expr, $none:expr, $byte:literal $(, $more:literal)*) => {
        $is!($x, $byte) | is_any!($is, $x, $none $(, $more)*)
    };
}

/// The same for the bytes of a line that mean something in a scalar of the class, so that a run stops there.
macro_rules! is_mark {
    ($class:expr, $is:ident, $x:expr, $none:expr) => {
        match $class {
            class_t::DOUBLE => is_any!($is, $x, $none, b'"', b'\\'),
            class_t::SINGLE => is_any!($is, $x, $none, b'\''),
            class_t::PLAIN => is_any!($is, $x, $none, b':', b'#'),
            class_t::FLOW => is_any!($is, $x, $none, b':', b'#', b',', b'[', b'{', b']', b'}'),
            _ => $none,
        }
    };
}

/// The same for the bytes with which a break may begin.
macro_rules! is_lead {
    ($is:ident, $x:expr, $none:expr) => { is_any!($is, $x, $none, b'\n', b'\r', 0xC2, 0xE2) };
}

/// Whether the character means something in a scalar of the class.
#[inline(always)]
fn is_special(class: class_t, c: char) -> bool
    ensures { result ≡ spec.is_special class c }
{
    is_mark!(class, char_is, c, false)
}

/// Whether a run of the class takes the character.
#[inline(always)]
pub(crate) fn is_in(class: class_t, c: char) -> bool
    ensures { result ≡ spec.class_test class c }
{
    match class {
        class_t::BLANK => is_blank(c),
        class_t::GAP_BLANK(tabs) => c == ' ' || c == '\t' && tabs,
        class_t::SPACE => c == ' ',
        class_t::BLANK_OR_BREAK => is_white(c),
        class_t::ALPHA => is_alpha(c),
        class_t::URI(listed) => is_uri(listed, c),
        _ => !is_special(class, c) && is_in_line(c),
    }
}

#[inline(always)]
fn is_line(class: class_t) -> bool
    ensures { result ≡ spec.is_line class }
{
    matches!(
        class,
        class_t::IN_LINE | class_t::DOUBLE | class_t::SINGLE | class_t::PLAIN | class_t::FLOW
    )
}

/// Whether a run of the class may end at the byte.
#[inline(always)]
fn is_stop(class: class_t, b: u8) -> bool
    ensures { result ≡ spec.is_stop class b }
{
    let c = b as char;
    match class {
        class_t::BLANK_OR_BREAK => !is_blank(c),
        _ if is_line(class) => is_special(class, c) || is_lead!(char_is, c, false),
        _ => !is_in(class, c),
    }
}

/// The lanes at which a run of a class of a line may end.
#[inline(always)]
fn stops(class: class_t, v: u8x16) -> u64
    requires { spec.is_line class ≡ true }
    ensures { result ≡ mask_l (map (spec.is_stop class) v) }
{
    let none = mask8x16::splat(false);
    (is_mark!(class, lanes_are, v, none) | is_lead!(lanes_are, v, none)).to_bitmask()
}

#[inline(always)]
fn end_from(class: class_t, text: &[u8], from: usize) -> usize
    requires { from ≤ length text.now }
    ensures { result ≡ from + prefix_len (spec.is_quiet class) (drop from text.now) }
{
    let mut i = from;
    'bytes: while i < text.len() && !is_stop(class, text[i]) {
        i += 1;
    }
    i
}

#[inline(never)]
fn slow_end(class: class_t, text: &[u8], from: usize) -> usize
    requires { from ≤ length text.now }
    ensures { result ≡ from + prefix_len (spec.is_quiet class) (drop from text.now) }
{
    end_from(class, text, from)
}

#[inline(always)]
fn starts(v: u8x16) -> u64
    ensures { result ≡ mask_l (map spec.begins v) }
{
    (v.simd_lt(u8x16::splat(0x80)) | v.simd_ge(u8x16::splat(0xC0))).to_bitmask()
}

#[inline(always)]
fn begins(b: u8) -> bool
    ensures { result ≡ spec.begins b }
{
    b / 64 != 2
}

/// How many bytes from a place on begin a character, one byte at a time.
#[inline(always)]
fn count_slowly(text: &[u8], from: usize) -> usize
    requires { from ≤ length text.now }
    ensures value { result ≡ count_by spec.begins (drop from text.now) }
    ensures bound { result ≤ length text.now - from }
{
    let mut n: usize = 0;
    let mut i = from;
    'bytes: while i < text.len() {
        if begins(text[i]) {
            n += 1;
        }
        i += 1;
    }
    n
}

/// How many bytes begin a character.
#[inline(never)]
fn count_chars(text: &[u8]) -> usize
    ensures value { result ≡ count_by spec.begins text.now }
    ensures bound { result ≤ length text.now }
{
    let mut n: usize = 0;
    let mut i = 0;
    'wide: while text.len() - i >= 16 {
        n += starts(u8x16::from_slice(&text[i..])).count_ones() as usize;
        i += 16;
    }
    n + count_slowly(text, i)
}

fn part(text: &[u8], from: usize, to: usize) -> &[u8]
    requires order { from ≤ to }
    requires within { to ≤ length text.now }
    ensures { result.now ≡ take (to - from) (drop from text.now) }
{
    &text[from..to]
}

/// The lanes that are not ASCII.
#[inline(always)]
fn wide(v: u8x16) -> u64
    ensures { result ≡ mask_l (map spec.is_wide v) }
{
    v.simd_ge(u8x16::splat(0x80)).to_bitmask()
}

/// How many of the first `n` lanes begin a character.
#[inline(always)]
fn starts_before(v: u8x16, n: usize) -> usize
    requires long { length v ≡ 16 }
    requires few { n ≤ 16 }
    ensures { result ≡ count_by spec.begins (take n v) }
{
    let low = (1u64 << n) - 1;
    (starts(v) & low).count_ones() as usize
}

/// How many of a line's first bytes need no closer look, and how many of them begin a character. If the
/// flag is set, a byte comes after them, which may be no ASCII. If not, nothing is said.
#[inline(always)]
fn quiet_bytes(class: class_t, text: &[u8]) -> (usize, usize, bool)
    requires { spec.is_line class ≡ true }
    ensures bytes { result.0 ≡ prefix_len (spec.is_quiet class) text.now }
    ensures chars { result.1 ≡ count_by spec.begins (take result.0 text.now) }
    ensures bound { result.0 ≤ length text.now }
    ensures there { result.2 ≡ true → result.0 < length text.now }
{
    let mut i: usize = 0;
    let mut n: usize = 0;
    'wide: while text.len() - i >= 16 {
        let v = u8x16::from_slice(&text[i..]);
        let found = stops(class, v);
        if found != 0 {
            let k = found.trailing_zeros() as usize;
            if wide(v) == 0 {
                return (i + k, n + k, false);
            }
            return (i + k, n + starts_before(v, k), true);
        }
        n += starts(v).count_ones() as usize;
        i += 16;
    }
    let end = slow_end(class, text, i);
    (end, n + count_chars(part(text, i, end)), false)
}

/// Whether a byte with which a break may begin is here, and the two after it show that none does.
#[inline(always)]
fn is_false_lead(text: &[u8], at: usize) -> bool
    requires { at ≤ length text.now }
    ensures { result ≡ spec.is_false_lead_of (drop at text.now) }
{
    let left = &text[at..];
    if left.len() < 3 {
        return false;
    }
    match left[0] {
        0xC2 => left[1] != 0x85,
        0xE2 => left[1] != 0x80 || left[2] != 0xA8 && left[2] != 0xA9,
        _ => false,
    }
}

/// The same as `quiet_line`, from a place on up to which all is found out.
#[inline(never)]
fn past_leads(class: class_t, text: &[u8], from: usize, before: usize) -> (usize, usize)
    requires line { spec.is_line class ≡ true }
    requires clear { spec.Clear class text.now from }
    requires within { from ≤ length text.now }
    requires count { before ≡ count_by spec.begins (take from text.now) }
    ensures clear { spec.Clear class text.now result.0 }
    ensures chars { result.1 ≡ count_by spec.begins (take result.0 text.now) }
    ensures bound { result.0 ≤ length text.now }
{
    let mut i = from;
    let mut n = before;
    'leads: while is_false_lead(text, i) {
        let (more, count, _) = quiet_bytes(class, &text[i + 1..]);
        i += 1 + more;
        n += 1 + count;
    }
    (i, n)
}

/// How many of a line's first bytes end no run, and how many of them begin a character. The byte after them begins one.
/// The flag says whether what only looks like a break is passed. Without it less is asked at the end of a line.
#[inline(always)]
fn quiet_line(class: class_t, text: &[u8], passes: bool) -> (usize, usize)
    requires { spec.is_line class ≡ true }
    ensures clear { spec.Clear class text.now result.0 }
    ensures chars { result.1 ≡ count_by spec.begins (take result.0 text.now) }
    ensures bound { result.0 ≤ length text.now }
{
    let (n, count, there) = quiet_bytes(class, text);
    if passes && there && text[n] >= 0x80 {
        return past_leads(class, text, n, count);
    }
    (n, count)
}

/// Which lanes are not from one byte to another.
macro_rules! lanes_outside {
    ($v:expr, $least:literal, $most:literal) => {
        $v.simd_lt(u8x16::splat($least)) | $v.simd_gt(u8x16::splat($most))
    };
}

/// Which lanes are not the byte.
macro_rules! lanes_are_not {
    ($v:expr, $byte:literal) => { $v.simd_ne(u8x16::splat($byte)) };
}

/// The lanes that are no letter, digit, `_` or `-`.
#[inline(always)]
fn no_letters(v: u8x16) -> u64
    ensures { result ≡ mask_l (map (spec.is_stop ALPHA) v) }
{
    ((lanes_outside!(v, b'a', b'z'))
        & ((lanes_outside!(v, b'A', b'Z'))
            & ((lanes_outside!(v, b'0', b'9'))
                & (lanes_are_not!(v, b'_') & lanes_are_not!(v, b'-'))))).to_bitmask()
}

/// The lanes that belong to no uri, if commas and brackets do not.
#[inline(always)]
fn no_uri(v: u8x16) -> u64
    ensures { result ≡ mask_l (map (spec.is_stop (URI false)) v) }
{
    ((lanes_outside!(v, b'a', b'z'))
        & ((lanes_outside!(v, b'?', b'Z'))
            & ((lanes_outside!(v, b'-', b';'))
                & ((lanes_outside!(v, b'&', b'+'))
                    & (lanes_are_not!(v, b'!')
                        & (lanes_are_not!(v, b'$')
                            & (lanes_are_not!(v, b'=')
                                & (lanes_are_not!(v, b'_')
                                    & lanes_are_not!(v, b'~'))))))))).to_bitmask()
}

/// The lanes that are no space.
#[inline(always)]
fn no_spaces(v: u8x16) -> u64
    ensures { result ≡ mask_l (map (spec.is_stop SPACE) v) }
{
    (lanes_are_not!(v, b' ')).to_bitmask()
}

/// The lanes at which a run of a narrow class ends.
#[inline(always)]
fn narrow_stops(class: class_t, v: u8x16) -> u64
    requires { spec.is_narrow class ≡ true }
    ensures { result ≡ mask_l (map (spec.is_stop class) v) }
{
    match class {
        class_t::ALPHA => no_letters(v),
        _ => no_uri(v),
    }
}

/// How many of the first bytes a run of a narrow class has.
#[inline(always)]
fn narrow_run(class: class_t, text: &[u8]) -> usize
    requires { spec.is_narrow class ≡ true }
    ensures { result ≡ prefix_len (spec.is_quiet class) text.now }
{
    let mut i: usize = 0;
    'wide: while text.len() - i >= 16 {
        let found = narrow_stops(class, u8x16::from_slice(&text[i..]));
        if found != 0 {
            return i + found.trailing_zeros() as usize;
        }
        i += 16;
    }
    slow_end(class, text, i)
}

/// How many of a line's first bytes need no closer look.
#[inline(always)]
fn line_run(text: &[u8]) -> usize
    ensures { result ≡ prefix_len (spec.is_quiet IN_LINE) text.now }
{
    let mut i: usize = 0;
    'wide: while text.len() - i >= 16 {
        let found = stops(class_t::IN_LINE, u8x16::from_slice(&text[i..]));
        if found != 0 {
            return i + found.trailing_zeros() as usize;
        }
        i += 16;
    }
    slow_end(class_t::IN_LINE, text, i)
}

/// The same as `line_len`, from a place on up to which all is found out.
#[inline(never)]
fn past_line_leads(text: &[u8], from: usize) -> usize
    requires clear { spec.Clear IN_LINE text.now from }
    requires within { from ≤ length text.now }
    ensures clear { spec.Clear IN_LINE text.now result }
    ensures bound { result ≤ length text.now }
{
    let mut i = from;
    'leads: while is_false_lead(text, i) {
        i += 1 + line_run(&text[i + 1..]);
    }
    i
}

/// How many of the first bytes are in this line, or need no closer look for that. The byte after them begins a
/// character.
#[inline(always)]
pub(crate) fn line_len(text: &[u8]) -> usize
    ensures clear { spec.Clear IN_LINE text.now result }
    ensures bound { result ≤ length text.now }
{
    let n = line_run(text);
    if n < text.len() && text[n] >= 0x80 {
        return past_line_leads(text, n);
    }
    n
}

/// How many spaces the text begins with, which are many.
#[cold]
#[inline(never)]
fn many_spaces(text: &[u8]) -> usize
    ensures { result ≡ prefix_len (spec.is_quiet SPACE) text.now }
{
    let mut i: usize = 0;
    'wide: while text.len() - i >= 16 {
        let found = no_spaces(u8x16::from_slice(&text[i..]));
        if found != 0 {
            return i + found.trailing_zeros() as usize;
        }
        i += 16;
    }
    slow_end(class_t::SPACE, text, i)
}

/// How many spaces the text begins with. Mostly they are fewer than sixteen.
#[inline(always)]
pub(crate) fn spaces_len(text: &[u8]) -> usize
    ensures { result ≡ prefix_len (spec.is_quiet SPACE) text.now }
{
    if text.len() >= 16 {
        let found = no_spaces(u8x16::from_slice(text));
        if found != 0 {
            return found.trailing_zeros() as usize;
        }
    }
    many_spaces(text)
}

/// How many of the first bytes need no closer look, if the class is not that of a line.
#[inline(always)]
fn narrow_len(class: class_t, text: &[u8]) -> usize
    ensures { result ≡ prefix_len (spec.is_quiet class) text.now }
{
    match class {
        class_t::SPACE => spaces_len(text),
        class_t::ALPHA | class_t::URI(false) => narrow_run(class, text),
        _ => end_from(class, text, 0),
    }
}

/// How many of the first bytes end no run, or need no closer look for that, and how many of them begin a character.
/// The flag says whether what only looks like a break is passed.
#[inline(always)]
pub(crate) fn quiet_len(class: class_t, text: &[u8], passes: bool) -> (usize, usize)
    ensures line { spec.is_line class ≡ true → spec.Clear class text.now result.0 }
    ensures narrow { spec.is_line class ≡ false → result.0 ≡ prefix_len (spec.is_quiet class) text.now }
    ensures chars { result.1 ≡ count_by spec.begins (take result.0 text.now) }
    ensures bound { result.0 ≤ length text.now }
{
    if is_line(class) {
        return quiet_line(class, text, passes);
    }
    let n = narrow_len(class, text);
    (n, n)
}

/// A piece of a line without the blanks at its end.
pub(crate) fn trimmed(piece: &[u8]) -> &[u8]
    ensures { result.now ≡ spec.trim piece.now }
{
    let mut n = piece.len();
    'blanks: while n > 0 && is_blank(piece[n - 1] as char) {
        n -= 1;
    }
    &piece[..n]
}
