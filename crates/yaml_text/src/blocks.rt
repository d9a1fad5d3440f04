//! Runs of whole characters of UTF-8, many bytes at a time.
ghost use Rattle.std.specs.Prelude.{ℕ, ◌≡◌, ◌<◌, ◌≤◌, ◌&&◌, ◌==◌, if◌then◌else◌, true, false, max};
ghost use Rattle.std.specs.Prelude.{List, length, take, slice_index, map};
ghost use Rattle.yaml_text.specs.TextBytes.{IsText};
ghost use Rattle.yaml_text.specs.Utf8.{continues};
ghost use Rattle.yaml_text.specs.inside.Windows.{is_control, is_rare_lead, is_misplaced, is_suspect, AreClean, Starts};
ghost use Rattle.yaml_text.specs.inside.Windows.{is_bounded, is_paired, AreNarrow, column, lanes};

use crate::ascii::rest;
use crate::utf8::continues;
use std::simd::prelude::*;

/// Which bytes are controls of ASCII that no text holds.
#[inline(always)]
fn controls(a: u8x16) -> u8x16
    ensures { (ts : List (List ℕ)) → a ≡ column 0 ts → result ≡ lanes (λ t. is_control (slice_index t 0)) ts }
{
    let controls = (a.simd_lt(u8x16::splat(0x20))
        & (a.simd_ne(u8x16::splat(b'\n'))
            & (a.simd_ne(u8x16::splat(b'\t')) & a.simd_ne(u8x16::splat(b'\r')))))
        | a.simd_eq(u8x16::splat(0x7F));
    controls.select(u8x16::splat(0xFF), u8x16::splat(0))
}

/// Which bytes, by the ones after them, may be the first of no character.
#[inline(always)]
fn rare_leads(a: u8x16, b: u8x16) -> u8x16
    ensures { (ts : List (List ℕ)) → a ≡ column 0 ts → b ≡ column 1 ts
        → result ≡ lanes (λ t. is_rare_lead (slice_index t 0) (slice_index t 1)) ts }
{
    let never = (a.simd_eq(u8x16::splat(0xC0)) | a.simd_eq(u8x16::splat(0xC1)))
        | a.simd_gt(u8x16::splat(0xF3));
    let surrogate = a.simd_eq(u8x16::splat(0xED));
    let second = (a.simd_eq(u8x16::splat(0xC2)) | (a.simd_eq(u8x16::splat(0xE0)) | surrogate))
        & (b.simd_lt(u8x16::splat(0xA0)) ^ surrogate);
    let last = a.simd_eq(u8x16::splat(0xEF)) & b.simd_eq(u8x16::splat(0xBF));
    let long = a.simd_eq(u8x16::splat(0xF0)) & b.simd_lt(u8x16::splat(0x90));
    let rare = never | (second | (last | long));
    rare.select(u8x16::splat(0xFF), u8x16::splat(0))
}

/// Which bytes d continue a character and should not, or should and do not.
#[inline(always)]
fn misplaced(a: u8x16, b: u8x16, c: u8x16, d: u8x16) -> u8x16
    ensures { (ts : List (List ℕ)) → a ≡ column 0 ts → b ≡ column 1 ts → c ≡ column 2 ts → d ≡ column 3 ts
        → result ≡ lanes (λ t.
        is_misplaced (slice_index t 0) (slice_index t 1) (slice_index t 2) (slice_index t 3)) ts }
{
    let continues = d.simd_ge(u8x16::splat(0x80)) & d.simd_le(u8x16::splat(0xBF));
    let awaited = c.simd_ge(u8x16::splat(0xC0))
        | (b.simd_ge(u8x16::splat(0xE0)) | a.simd_ge(u8x16::splat(0xF0)));
    (continues ^ awaited).select(u8x16::splat(0xFF), u8x16::splat(0))
}

/// Whether each of the first 16 places is clean.
#[inline(always)]
fn are_clean(bytes: &[u8]) -> bool
    requires { 19 ≤ length bytes.now }
    ensures { result ≡ true → AreClean bytes.now 16 }
{
    let a = u8x16::from_slice(bytes);
    let b = u8x16::from_slice(&bytes[1..]);
    let c = u8x16::from_slice(&bytes[2..]);
    let d = u8x16::from_slice(&bytes[3..]);
    let suspect = controls(a) | (rare_leads(a, b) | misplaced(a, b, c, d));
    suspect.simd_ge(u8x16::splat(0x80)).to_bitmask() == 0
}

/// Which bytes a may stand before b in characters of one and two bytes. C0 to C2 and 7F are not among them.
#[inline(always)]
fn paired(a: u8x16, b: u8x16) -> u8x16
    ensures { (d e : ℕ) (ts : List (List ℕ)) → a ≡ column d ts → b ≡ column e ts
        → result ≡ lanes (λ t. is_paired (slice_index t d) (slice_index t e)) ts }
{
    // how far a is below the first lead, C3, up to 4: it is 4 from the last byte that continues a character down
    let below = u8x16::splat(0xC3)
        .saturating_sub(a)
        .simd_min(u8x16::splat(4));
    let continues = b.simd_ge(u8x16::splat(0x80)) & b.simd_le(u8x16::splat(0xBF));
    let paired = below.simd_eq(continues.select(u8x16::splat(0), u8x16::splat(4)))
        & a.simd_ne(u8x16::splat(0x7F));
    paired.select(u8x16::splat(0xFF), u8x16::splat(0))
}

/// The bytes, with FF in place of each line feed.
#[inline(always)]
fn lifted(a: u8x16) -> u8x16
    ensures { (d : ℕ) (ts : List (List ℕ)) → a ≡ column d ts
        → result ≡ map (λ t. if slice_index t d == 10 then 255 else slice_index t d) ts }
{
    a.simd_eq(u8x16::splat(b'\n')).select(u8x16::splat(0xFF), a)
}

/// The greatest of each four bytes.
#[inline(always)]
fn greatest(a: u8x16, b: u8x16, c: u8x16, d: u8x16) -> u8x16
    ensures { (ts : List (List ℕ)) → a ≡ column 0 ts → b ≡ column 16 ts → c ≡ column 32 ts → d ≡ column 48 ts
        → result ≡ map (λ t.
        max (max (slice_index t 0) (slice_index t 16)) (max (slice_index t 32) (slice_index t 48))) ts }
{
    a.simd_max(b).simd_max(c.simd_max(d))
}

/// Which four bytes are all below E0 and at least 20 or line feeds.
#[inline(always)]
fn bounded(a: u8x16, b: u8x16, c: u8x16, d: u8x16) -> u8x16
    ensures { (ts : List (List ℕ)) → a ≡ column 0 ts → b ≡ column 16 ts → c ≡ column 32 ts → d ≡ column 48 ts
        → result ≡ lanes (λ t.
        (is_bounded (slice_index t 0) && is_bounded (slice_index t 16))
        && (is_bounded (slice_index t 32) && is_bounded (slice_index t 48))) ts }
{
    let least = lifted(a)
        .simd_min(lifted(b))
        .simd_min(lifted(c).simd_min(lifted(d)));
    let bounded = greatest(a, b, c, d).simd_lt(u8x16::splat(0xE0))
        & least.simd_ge(u8x16::splat(0x20));
    bounded.select(u8x16::splat(0xFF), u8x16::splat(0))
}

/// Whether each of the first 64 bytes is of a character of one or two bytes, as far as the next one tells.
#[inline(always)]
fn are_narrow(bytes: &[u8]) -> bool
    requires { 65 ≤ length bytes.now }
    ensures { result ≡ true → AreNarrow bytes.now 64 }
{
    let a = u8x16::from_slice(bytes);
    let b = u8x16::from_slice(&bytes[16..]);
    let c = u8x16::from_slice(&bytes[32..]);
    let d = u8x16::from_slice(&bytes[48..]);
    let first = paired(a, u8x16::from_slice(&bytes[1..]))
        & paired(b, u8x16::from_slice(&bytes[17..]));
    let last = paired(c, u8x16::from_slice(&bytes[33..]))
        & paired(d, u8x16::from_slice(&bytes[49..]));
    let narrow = bounded(a, b, c, d) & (first & last);
    narrow.simd_lt(u8x16::splat(0x80)).to_bitmask() == 0
}

/// Whether the first 64 bytes are ASCII. It has the bytes in the vectors of `are_narrow`, so that they are loaded once.
#[inline(always)]
fn are_low(bytes: &[u8]) -> bool
    requires { 64 ≤ length bytes.now }
{
    let a = u8x16::from_slice(bytes);
    let b = u8x16::from_slice(&bytes[16..]);
    let c = u8x16::from_slice(&bytes[32..]);
    let d = u8x16::from_slice(&bytes[48..]);
    greatest(a, b, c, d)
        .simd_ge(u8x16::splat(0x80))
        .to_bitmask()
        == 0
}

/// Whether the first 64 bytes are ASCII.
#[inline(always)]
fn are_ascii(bytes: &[u8]) -> bool
    requires { 64 ≤ length bytes.now }
{
    u8x64::from_slice(bytes)
        .simd_ge(u8x64::splat(0x80))
        .to_bitmask()
        == 0
}

/// How many of the first bytes are narrow, 64 at a time, until 64 bytes are ASCII. None are looked at if a character of
/// more than two bytes is first.
#[inline(always)]
fn narrow_len(bytes: &[u8]) -> usize
    ensures narrow { AreNarrow bytes.now result }
    ensures within { result ≤ length bytes.now }
{
    if !bytes.is_empty() && bytes[0] >= 0xE0 {
        return 0;
    }
    let mut i = 0;
    'narrow: while bytes.len() - i >= 65 && are_narrow(rest(bytes, i)) {
        i += 64;
        if are_low(rest(bytes, i - 64)) {
            return i;
        }
    }
    i
}

/// Whether each of the first 64 places is clean.
#[inline(always)]
fn are_clean_far(bytes: &[u8]) -> bool
    requires { 67 ≤ length bytes.now }
    ensures { result ≡ true → AreClean bytes.now 64 }
{
    // no branch between them, so that the masks are joined before they are tested
    (are_clean(bytes) & are_clean(rest(bytes, 16)))
        & (are_clean(rest(bytes, 32)) & are_clean(rest(bytes, 48)))
}

/// How many of the first places are clean, 64 at a time, until 64 bytes are ASCII.
#[inline(always)]
fn far_clean_len(bytes: &[u8]) -> usize
    ensures clean { AreClean bytes.now result }
    ensures within { result ≤ length bytes.now }
{
    let mut i = 0;
    'clean: while bytes.len() - i >= 67 && are_clean_far(rest(bytes, i)) {
        i += 64;
        if are_ascii(rest(bytes, i - 64)) {
            return i;
        }
    }
    i
}

/// How many of the first places are clean, 64 at a time: those that are narrow, then others, until 64 bytes are ASCII.
#[inline(always)]
fn long_clean_len(bytes: &[u8]) -> usize
    ensures clean { AreClean bytes.now result }
    ensures within { result ≤ length bytes.now }
{
    let narrow = narrow_len(bytes);
    // a place is clean by the four bytes from it on, and narrow by two: so the last two are looked at again
    let i = narrow.saturating_sub(2);
    if narrow >= 64 && are_ascii(rest(bytes, narrow - 64)) {
        return i;
    }
    i + far_clean_len(rest(bytes, i))
}

/// How many of the first places are clean, as far as they are looked at.
#[inline(always)]
fn clean_len(bytes: &[u8]) -> usize
    ensures clean { AreClean bytes.now result }
    ensures within { result ≤ length bytes.now }
{
    let mut i = long_clean_len(bytes);
    if bytes.len() - i >= 67 {
        return i;
    }
    'clean: while bytes.len() - i >= 19 && are_clean(rest(bytes, i)) {
        i += 16;
    }
    i
}

/// Whether the first three bytes are as after a whole character.
#[inline(always)]
fn starts(bytes: &[u8]) -> bool
    requires { 3 ≤ length bytes.now }
    ensures { result ≡ true → Starts bytes.now }
{
    let (a, b, c) = (bytes[0], bytes[1], bytes[2]);
    !continues(a) && continues(b) == (a >= 0xC0) && continues(c) == (b >= 0xC0 || a >= 0xE0)
}

/// The last place up to this one with a byte that continues no character, or 0.
#[inline(always)]
fn last_start(bytes: &[u8], from: usize) -> usize
    requires { from < length bytes.now }
    ensures within { result ≤ from }
    ensures start { 0 < result → continues (slice_index bytes.now result) ≡ false }
{
    let mut k = from;
    'back: while k > 0 && continues(bytes[k]) {
        k -= 1;
    }
    k
}

/// How many of the first bytes are whole characters, as far as they are looked at. Rare characters end them.
pub(crate) fn whole_len(bytes: &[u8]) -> usize
    ensures text { IsText (take result bytes.now) }
    ensures within { result ≤ length bytes.now }
{
    if bytes.len() < 19 {
        return 0;
    }
    if !starts(bytes) {
        return 0;
    }
    let n = clean_len(bytes);
    if n < 3 {
        return 0;
    }
    last_start(bytes, n - 3)
}
