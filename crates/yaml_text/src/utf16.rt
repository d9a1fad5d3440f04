//! Reading UTF-16: one character at a time, or sixteen units where that is simple.
ghost use Rattle.std.specs.Prelude.{ℕ, ◌≡◌, ◌+◌, ◌-◌, ◌*◌, ◌<◌, ◌≤◌, List, ◌++◌};
ghost use Rattle.std.specs.Prelude.{[], ◌∷◌, encode_utf8, length, take, drop, slice_index, true, IfOk, IfErr};
ghost use Rattle.std.specs.Prelude.{OnErr, OnOk, IfSome, IsNone, vec_capacity};
ghost use Rattle.std.specs.Simd.Lanes.{Each1};
ghost use Rattle.yaml_text.specs.TextBytes.{IsChar};
ghost use Rattle.yaml_text.specs.inside.Singles.{is_single};
ghost use Rattle.yaml_text.specs.inside.Cells.{AreFew, IsCellOf, Spells, packed};
ghost use Rattle.yaml_text.specs.Utf16.{unit_at, is_low, is_high, spelling16, offence16};
ghost use Rattle.yaml_text.specs.inside.Units.{Begins16, BeginsWithNone16};
ghost use Rattle.yaml_text.specs.inside.Units.{Reads16};

use crate::ascii::{ascii_others, others, rest};
use crate::chars::is_char;
use crate::offence::{offence_t, problem_t, refused};
use crate::utf8::push_code;
use std::alloc::{AllocError, Global};
use std::simd::prelude::*;

/// The unit at a byte, its high byte first or last.
fn unit_at(bytes: &[u8], at: usize, big: bool) -> u32
    requires { at + 1 < length bytes.now }
    ensures unit { result ≡ unit_at big bytes.now at }
    ensures bound { result < 65536 }
{
    let a = u32::from(bytes[at]);
    let b = u32::from(bytes[at + 1]);
    if big { a * 256 + b } else { b * 256 + a }
}

/// Whether it is the second unit of a pair.
fn is_low(u: u32) -> bool
    ensures { result ≡ is_low u }
{
    matches!(u, 0xDC00..=0xDFFF)
}

/// Whether it is the first unit of a pair.
fn is_high(u: u32) -> bool
    ensures { result ≡ is_high u }
{
    matches!(u, 0xD800..=0xDBFF)
}

/// The first character and how many bytes it has, or what is wrong if the bytes begin with none.
#[tactic(auto, unfolding(crate::specs::Utf16::offence16))]
#[inline(always)]
pub(crate) fn first_char16(bytes: &[u8], big: bool) -> Result<(u32, usize), offence_t>
    requires { 0 < length bytes.now }
    ensures char { IfOk result (λ r. IsChar r.0) }
    ensures forward { IfOk result (λ r. 0 < r.1) }
    ensures found { IfOk result (λ r. Begins16 big r.0 bytes.now × (r.1 ≡ length (spelling16 big r.0))) }
    ensures offence { IfErr result (λ e. e ≡ offence16 big bytes.now) }
    ensures none { OnErr result (BeginsWithNone16 big bytes.now) }
    ensures within { IfErr result (λ e. e.offset < length bytes.now) }
{
    if bytes.len() < 2 {
        return refused(problem_t::HALF_UNIT, 0, -1);
    }
    let first = unit_at(bytes, 0, big);
    if is_low(first) {
        return refused(problem_t::LOW_UNIT, 0, first as i32);
    }
    if !is_high(first) {
        if !is_char(first) {
            return refused(problem_t::CONTROL, 0, first as i32);
        }
        return Ok((first, 2));
    }
    if bytes.len() < 4 {
        return refused(problem_t::HALF_PAIR, 0, -1);
    }
    let second = unit_at(bytes, 2, big);
    if !is_low(second) {
        return refused(problem_t::NO_LOW_UNIT, 2, second as i32);
    }
    Ok((0x10000 + (first - 0xD800) * 1024 + (second - 0xDC00), 4))
}

/// The low and the high bytes of 16 units.
#[inline(always)]
fn halves(bytes: &[u8], big: bool) -> (u8x16, u8x16)
    requires { 32 ≤ length bytes.now }
    ensures low { length result.0 ≡ 16 }
    ensures high { length result.1 ≡ 16 }
    ensures units { (k : ℕ) → k < 16
        → unit_at big bytes.now (2 * k) ≡ slice_index result.1 k * 256 + slice_index result.0 k }
{
    let (even, odd) = u8x16::from_slice(bytes).deinterleave(u8x16::from_slice(&bytes[16..]));
    if big { (odd, even) } else { (even, odd) }
}

/// Where the bytes of 16 units are, if the low bytes come first and the high bytes after them.
const BY_TURNS: [usize; 32] = [
    0, 16, 1, 17, 2, 18, 3, 19, 4, 20, 5, 21, 6, 22, 7, 23, 8, 24, 9, 25, 10, 26, 11, 27, 12, 28,
    13, 29, 14, 30, 15, 31,
];

/// The units of these low and high bytes.
#[inline(always)]
fn units(low: u8x16, high: u8x16) -> u16x16
    ensures long { length result ≡ 16 }
    ensures units { (k : ℕ) → k < 16
        → slice_index result k ≡ slice_index high k * 256 + slice_index low k }
{
    u16x16::from_le_bytes(low.shuffle(high, BY_TURNS))
}

/// Sixteen units as bytes of ASCII. A byte that is a character by itself is the unit there: 7F, which is none, stands
/// for every unit above it.
#[inline(always)]
fn narrow(bytes: &[u8], big: bool) -> u8x16
    requires { 32 ≤ length bytes.now }
    ensures long { length result ≡ 16 }
    ensures ascii { Each1 (λ b. b < 128) result }
    ensures units { (k : ℕ) → k < 16 → is_single (slice_index result k) ≡ true
        → unit_at big bytes.now (2 * k) ≡ slice_index result k }
{
    let (low, high) = halves(bytes, big);
    units(low, high).simd_min(u16x16::splat(0x7F)).cast::<u8>()
}

/// Sixteen units as bytes. A unit below A0 is the byte itself. A surrogate, FFFE or FFFF is the byte 80. Every other
/// unit is a character, and a space stands for it. If a byte is a character by itself, its unit is a character.
#[inline(always)]
fn stand_ins(low: u8x16, high: u8x16) -> u8x16
    ensures long { length result ≡ 16 }
    ensures units { (k : ℕ) → k < 16 → is_single (slice_index result k) ≡ true
        → IsChar (slice_index high k * 256 + slice_index low k) }
{
    let narrow = high.simd_eq(u8x16::splat(0)) & low.simd_lt(u8x16::splat(0xA0));
    let surrogate = high.simd_ge(u8x16::splat(0xD8)) & high.simd_le(u8x16::splat(0xDF));
    let last = high.simd_eq(u8x16::splat(0xFF)) & low.simd_ge(u8x16::splat(0xFE));
    let byte = narrow.select(low, u8x16::splat(0x80));
    (narrow | (surrogate | last)).select(byte, u8x16::splat(0x20))
}

/// The three bytes that 16 units may have in UTF-8, and how many each has.
#[inline(always)]
fn spelled(low: u8x16, high: u8x16) -> (u8x16, u8x16, u8x16, u8x16)
    ensures first { length result.0 ≡ 16 }
    ensures second { length result.1 ≡ 16 }
    ensures third { length result.2 ≡ 16 }
    ensures counts { length result.3 ≡ 16 }
    ensures units { (k : ℕ) → k < 16 → Spells (slice_index high k * 256 + slice_index low k)
        (slice_index result.0 k) (slice_index result.1 k) (slice_index result.2 k) (slice_index result.3 k) }
{
    // what stands above the last six bits, as far as it fits
    let upper = high * u8x16::splat(4) + low / u8x16::splat(64);
    let last = u8x16::splat(0x80) + low % u8x16::splat(64);
    let is_one = high.simd_eq(u8x16::splat(0)) & low.simd_lt(u8x16::splat(0x80));
    let is_three = high.simd_ge(u8x16::splat(8));
    let of_two = is_one.select(low, u8x16::splat(0xC0) + upper);
    let first = is_three.select(u8x16::splat(0xE0) + high / u8x16::splat(16), of_two);
    let second = is_three.select(u8x16::splat(0x80) + upper % u8x16::splat(64), last);
    let least = is_one.select(u8x16::splat(1), u8x16::splat(2));
    (first, second, last, is_three.select(u8x16::splat(3), least))
}

/// Writes 16 bytes from a place on.
#[inline(always)]
fn lay(cells: &mut [u8], at: usize, v: u8x16)
    requires { at + 16 ≤ length cells.old }
    ensures laid { (k : ℕ) → k < 16 → slice_index cells.new (at + k) ≡ slice_index v k }
    ensures before { (k : ℕ) → k < at → slice_index cells.new k ≡ slice_index cells.old k }
{
    v.copy_to_slice(&mut cells[at..]);
}

/// Sixteen cells of four bytes, which have a byte of each vector.
#[inline(always)]
fn cells_of(a: u8x16, b: u8x16, c: u8x16, d: u8x16) -> [u8; 64]
    ensures long { length result ≡ 64 }
    ensures cells { (k : ℕ) → k < 16 → take 4 (drop (4 * k) result)
        ≡ slice_index a k ∷ slice_index b k ∷ slice_index c k ∷ slice_index d k ∷ [] }
{
    let (even, even_far) = a.interleave(c);
    let (odd, odd_far) = b.interleave(d);
    let (first, second) = even.interleave(odd);
    let (third, fourth) = even_far.interleave(odd_far);
    let mut cells = [0; 64];
    lay(&mut cells, 0, first);
    lay(&mut cells, 16, second);
    lay(&mut cells, 32, third);
    lay(&mut cells, 48, fourth);
    cells
}

/// The cells of 16 units.
#[inline(always)]
fn cells(bytes: &[u8], big: bool) -> [u8; 64]
    requires { 32 ≤ length bytes.now }
    ensures long { length result ≡ 64 }
    ensures units { (k : ℕ) → k < 16 → IsCellOf (unit_at big bytes.now (2 * k)) result k }
{
    let (low, high) = halves(bytes, big);
    let (first, second, third, counts) = spelled(low, high);
    cells_of(first, second, third, counts)
}

/// Copies a cell to a place before it, and returns how many bytes of it count.
#[inline(always)]
fn put_cell(items: &mut [u8], from: usize, to: usize) -> usize
    requires room { from + 4 ≤ length items.old }
    requires before { to ≤ from }
    requires few { slice_index items.old (from + 3) ≤ 3 }
    ensures count { result ≡ slice_index items.old (from + 3) }
    ensures bytes { take (to + result) items.new ≡ take to items.old ++ take result (drop from items.old) }
    ensures after { drop (from + 4) items.new ≡ drop (from + 4) items.old }
{
    let (a, b, c, n) = (
        items[from],
        items[from + 1],
        items[from + 2],
        items[from + 3],
    );
    items[to] = a;
    items[to + 1] = b;
    items[to + 2] = c;
    items[to + 3] = n;
    n as usize
}

/// Joins the bytes that count of the 16 cells that begin at a place, and returns where they end.
#[inline(always)]
fn join_cells(items: &mut [u8], start: usize) -> usize
    requires room { start + 64 ≤ length items.old }
    requires few { AreFew (drop start items.old) }
    ensures bytes { take result items.new ≡ take start items.old ++ packed 16 (drop start items.old) }
{
    let mut end = start;
    for k in 0..16 {
        end += put_cell(items, start + 4 * k, end);
    }
    end
}

/// Whether there is room for 16 cells, so that no memory is asked for.
#[inline(always)]
fn has_room_for_cells(out: &Vec<u8>) -> bool
    ensures { result ≡ true → length out.now.items + 64 ≤ vec_capacity out.now }
{
    out.capacity() - out.len() >= 64
}

/// Appends 16 units, which are characters.
#[inline(always)]
fn push_cells(out: &mut Vec<u8>, bytes: &[u8], big: bool, at: usize) -> Result<(), AllocError>
    requires room { at + 32 ≤ length bytes.now }
    requires chars { (k : ℕ) → k < 16 → IsChar (unit_at big bytes.now (at + 2 * k)) }
    requires read { Reads16 big bytes.now out.old.items at }
    ensures { IfOk result (λ u. Reads16 big bytes.now out.new.items (at + 32)) }
{
    let before = out.len();
    out.extend_from_slice(&cells(rest(bytes, at), big))?;
    let end = join_cells(out.as_mut_slice(), before);
    out.truncate(end);
    Ok(())
}

/// Whether at least two of 16 units are no characters of one byte. The mask has a bit for each such unit.
#[inline(always)]
fn are_many(found: u64) -> bool {
    found.count_ones() > 1
}

/// Whether each of the first 16 units is a character by itself. U+0085, which is seldom used, counts as none.
#[inline(always)]
fn are_plain(bytes: &[u8], big: bool) -> bool
    requires { 32 ≤ length bytes.now }
    ensures { result ≡ true → (k : ℕ) → k < 16 → IsChar (unit_at big bytes.now (2 * k)) }
{
    let (low, high) = halves(bytes, big);
    others(stand_ins(low, high)) == 0
}

/// Whether the unit is a character of two or three bytes. U+0085, which is seldom used, is left out.
#[inline(always)]
fn is_wide(u: u32) -> bool {
    matches!(u, 0xA0..=0xD7FF | 0xE000..=0xFFFD)
}

/// Appends the first of 16 units, and returns how many. All are appended if they are characters of one byte. All are
/// appended too if they are characters, several of them have more bytes, and there is room for their cells. Otherwise
/// those before the first that is no character of one byte are appended.
#[inline(always)]
fn push_units(out: &mut Vec<u8>, bytes: &[u8], big: bool, at: usize) -> Result<usize, AllocError>
    requires room { at + 32 ≤ length bytes.now }
    requires read { Reads16 big bytes.now out.old.items at }
    ensures read { IfOk result (λ n. Reads16 big bytes.now out.new.items (at + 2 * n)) }
    ensures most { IfOk result (λ n. n ≤ 16) }
{
    let units = narrow(rest(bytes, at), big);
    let found = ascii_others(units);
    let before = out.len();
    if found == 0 {
        out.extend_from_slice(&units.to_array())?;
        return Ok(16);
    }
    let count = found.trailing_zeros() as usize;
    if is_wide(unit_at(bytes, at + 2 * count, big))
        && are_many(found)
        && has_room_for_cells(out)
        && are_plain(rest(bytes, at), big)
    {
        push_cells(out, bytes, big, at)?;
        return Ok(16);
    }
    out.extend_from_slice(&units.to_array())?;
    out.truncate(before + count);
    Ok(count)
}

/// Appends units from a place on, 16 at a time, and returns where they end. That is where fewer are left, or where a
/// step does not append all.
#[inline(always)]
fn push_run(out: &mut Vec<u8>, bytes: &[u8], big: bool, start: usize) -> Result<usize, AllocError>
    requires { Reads16 big bytes.now out.old.items start }
    ensures read { IfOk result (λ at. Reads16 big bytes.now out.new.items at) }
    ensures forward { IfOk result (λ at. start ≤ at) }
{
    let mut at = start;
    'units: while bytes.len() - at >= 32 {
        let count = push_units(out, bytes, big, at)?;
        at += 2 * count;
        if count < 16 {
            return Ok(at);
        }
    }
    Ok(at)
}

/// Whether the unit is a space, or a character of two or three bytes before the surrogates. U+0085, which is seldom
/// used, is left out.
#[inline(always)]
#[tactic(auto, unfolding(crate::specs::Chars::is_char))]
fn is_plain(u: u32) -> bool
    ensures char { result ≡ true → IsChar u }
    ensures least { result ≡ true → u < 0xD800 }
{
    matches!(u, 0x20 | 0xA0..=0xD7FF)
}

/// Writes a plain unit in UTF-8, and returns how many bytes it has.
#[inline(always)]
fn put_plain(buffer: &mut [u8; 64], n: usize, u: u32) -> usize
    requires room { n + 3 ≤ 64 }
    requires most { u < 0x10000 }
    ensures bytes { take (n + result) buffer.new ≡ take n buffer.old ++ encode_utf8 u }
    ensures few { result ≤ 3 }
{
    if u < 0x80 {
        buffer[n] = u as u8;
        return 1;
    }
    let last = (0x80 + u % 64) as u8;
    if u < 0x800 {
        buffer[n] = (0xC0 + u / 64) as u8;
        buffer[n + 1] = last;
        return 2;
    }
    buffer[n] = (0xE0 + u / 4096) as u8;
    buffer[n + 1] = (0x80 + u / 64 % 64) as u8;
    buffer[n + 2] = last;
    3
}

/// Writes the units from a place on as far as they are plain and there is room. Returns how many bytes were
/// written, and where the units end.
#[inline(always)]
fn put_plains(buffer: &mut [u8; 64], bytes: &[u8], big: bool, start: usize) -> (usize, usize)
    requires { start ≤ length bytes.now }
    ensures read { (text : List ℕ) → Reads16 big bytes.now text start
        → Reads16 big bytes.now (text ++ take result.0 buffer.new) result.1 }
    ensures forward { start ≤ result.1 }
    ensures more { 0 < result.0 → start < result.1 }
    ensures few { result.0 ≤ 64 }
{
    let mut n = 0;
    let mut at = start;
    'units: while n <= 61 && bytes.len() - at >= 2 {
        let unit = unit_at(bytes, at, big);
        if !is_plain(unit) {
            return (n, at);
        }
        n += put_plain(buffer, n, unit);
        at += 2;
    }
    (n, at)
}

/// Appends the first `n` of 64 bytes. Mostly all are appended, since their number is constant, and the rest is cut off.
/// Where only the first `n` have room, they are appended alone, so that no memory is asked for.
#[inline(always)]
fn push_first(out: &mut Vec<u8>, buffer: &[u8; 64], n: usize) -> Result<(), AllocError>
    requires { n ≤ 64 }
    ensures { OnOk result (out.new.items ≡ out.old.items ++ take n buffer.now) }
{
    let before = out.len();
    let room = out.capacity() - before;
    if n <= room && room < 64 {
        return out.extend_from_slice(&buffer[..n]);
    }
    out.extend_from_slice(buffer)?;
    out.truncate(before + n);
    Ok(())
}

/// Appends the units from a place on as far as they are plain, up to 64 bytes, and returns where they end.
fn push_plain(out: &mut Vec<u8>, bytes: &[u8], big: bool, start: usize) -> Result<usize, AllocError>
    requires { Reads16 big bytes.now out.old.items start }
    ensures read { IfOk result (λ at. Reads16 big bytes.now out.new.items at) }
    ensures forward { IfOk result (λ at. start ≤ at) }
{
    let mut buffer = [0; 64];
    let (n, end) = put_plains(&mut buffer, bytes, big, start);
    push_first(out, &buffer, n)?;
    Ok(end)
}

/// Whether the unit is half of a pair.
#[inline(always)]
fn is_half(u: u32) -> bool {
    matches!(u, 0xD800..=0xDFFF)
}

/// Whether half of a pair is there.
#[inline(always)]
fn is_half_at(bytes: &[u8], at: usize, big: bool) -> bool {
    at < bytes.len() && bytes.len() - at >= 2 && is_half(unit_at(bytes, at, big))
}

/// Appends characters from a place on, of which the first has two or three bytes, and returns where they end. If they
/// are many, they are then read 16 at a time.
#[inline(never)]
fn push_wide(out: &mut Vec<u8>, bytes: &[u8], big: bool, start: usize) -> Result<usize, AllocError>
    requires { Reads16 big bytes.now out.old.items start }
    ensures read { IfOk result (λ at. Reads16 big bytes.now out.new.items at) }
    ensures forward { IfOk result (λ at. start ≤ at) }
{
    let at = push_plain(out, bytes, big, start)?;
    if is_half_at(bytes, at, big) {
        return Ok(at);
    }
    push_run(out, bytes, big, at)
}

/// Appends characters from a place on, as far as many units at a time are read, and returns where they end. A character
/// that is alone before a pair is left to the reader of one character.
#[inline(always)]
fn push_quick(out: &mut Vec<u8>, bytes: &[u8], big: bool, start: usize) -> Result<usize, AllocError>
    requires { Reads16 big bytes.now out.old.items start }
    ensures read { IfOk result (λ at. Reads16 big bytes.now out.new.items at) }
    ensures forward { IfOk result (λ at. start ≤ at) }
{
    if bytes.len() < 2 || start > bytes.len() - 2 {
        return Ok(start);
    }
    match unit_at(bytes, start, big) {
        0..=0x7F => push_run(out, bytes, big, start),
        0xA0..=0xD7FF if !is_half_at(bytes, start + 2, big) => push_wide(out, bytes, big, start),
        _ => Ok(start),
    }
}

/// The front of a text in UTF-8, how many bytes spell it, and what is wrong after them. It is inlined, so that `big` is
/// constant in it.
#[inline(always)]
pub(crate) fn front16(
    alloc: Global,
    bytes: &[u8],
    big: bool,
) -> Result<(Vec<u8>, usize, Option<offence_t>), AllocError>
    ensures text { IfOk result (λ r. Reads16 big bytes.now r.0.items r.1) }
    ensures longest { IfOk result (λ r. BeginsWithNone16 big (drop r.1 bytes.now)) }
    ensures whole { IfOk result (λ r. IsNone r.2 → r.1 ≡ length bytes.now) }
    ensures offence { IfOk result (λ r. IfSome r.2 (λ o. o ≡ offence16 big (drop r.1 bytes.now))) }
    ensures left { IfOk result (λ r. IfSome r.2 (λ o. r.1 + o.offset < length bytes.now)) }
{
    let mut out = Vec::new(alloc);
    let mut at = 0;
    while at < bytes.len() {
        match first_char16(rest(bytes, at), big) {
            Ok((c, width)) => {
                push_code(&mut out, c)?;
                at = push_quick(&mut out, bytes, big, at + width)?;
            }
            Err(offence) => return Ok((out, at, Some(offence))),
        }
    }
    Ok((out, at, None))
}
