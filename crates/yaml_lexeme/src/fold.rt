//! The value of a run of blanks and breaks.
ghost use Rattle.std.specs.Prelude.{◌≡◌, ◌<◌, ◌≤◌, ◌++◌, ◌∷◌, [], IfOk, MatchResult, OnOk, encode_utf8, length};
ghost use Rattle.std.specs.Prelude.{take, drop};
ghost use Rattle.yaml_text.specs.Chars.{utf8};
ghost use Rattle.yaml_lexeme.specs.Classes as sets;
ghost use Rattle.yaml_lexeme.specs.Place as place;
ghost use Rattle.yaml_lexeme.specs.Fold as spec;
ghost use Rattle.yaml_lexeme.specs.declared.problem.yaml_refusal_t.TheVariants.{MEMORY};

use crate::place::cursor_t;
use crate::problem::yaml_refusal_t;
use crate::runs::class_t;
use crate::short::STAGE;
use std::alloc::AllocError;
use yaml_text::push_code;

/// Appends the first `n` bytes to `out`. If they are few, a stage of bytes is copied as one, and what is too much of it
/// is cut off.
#[inline(always)]
pub(crate) fn push_front(out: &mut Vec<u8>, bytes: &[u8], n: usize) -> Result<(), AllocError>
    requires { n ≤ length bytes.now }
    ensures { OnOk result (out.new.items ≡ out.old.items ++ take n bytes.now) }
{
    if n > STAGE || bytes.len() < STAGE {
        return out.extend_from_slice(&bytes[..n]);
    }
    let old = out.len();
    out.extend_from_slice(&bytes[..STAGE])?;
    out.truncate(old + n);
    Ok(())
}

/// Appends a byte to `out`, and then `n` of `bytes`, from the second on. If `n` is not 0, sixteen bytes are copied as
/// one. The first of them is then set to the byte, and what is too much is cut off.
#[inline(always)]
pub(crate) fn push_behind(
    out: &mut Vec<u8>,
    byte: u8,
    bytes: &[u8],
    n: usize,
) -> Result<(), AllocError>
    requires stage { 16 ≤ length bytes.now }
    requires few { n < 16 }
    ensures { OnOk result (out.new.items ≡ out.old.items ++ (byte ∷ take n (drop 1 bytes.now))) }
{
    if n == 0 {
        out.push(byte)?;
        return Ok(());
    }
    let old = out.len();
    out.extend_from_slice(&bytes[..STAGE])?;
    out[old] = byte;
    out.truncate(old + 1 + n);
    Ok(())
}

/// An empty list with room for so many bytes: `room` without what it holds, if it has as much, and else a new one.
#[inline(always)]
pub(crate) fn emptied(room: Vec<u8>, size: usize) -> Result<Vec<u8>, AllocError>
    ensures items { IfOk result (λ out. out.items ≡ []) }
{
    if room.capacity() < size {
        let alloc = *room.allocator();
        drop(room);
        return Vec::with_capacity(alloc, size);
    }
    let mut out = room;
    out.clear();
    Ok(out)
}

/// A copy of the first `n` bytes, in `room` if they fit. If they are few, a stage of bytes is copied as one, and what
/// is too much of it is cut off.
#[inline(always)]
pub(crate) fn copied_front(room: Vec<u8>, bytes: &[u8], n: usize) -> Result<Vec<u8>, yaml_refusal_t>
    requires { n ≤ length bytes.now }
    ensures { MatchResult result (λ out. out.items ≡ take n bytes.now) (λ e. e ≡ MEMORY) }
{
    if n > STAGE || bytes.len() < STAGE {
        let mut out = emptied(room, n)?;
        out.extend_from_slice(&bytes[..n])?;
        return Ok(out);
    }
    let mut out = emptied(room, STAGE)?;
    out.extend_from_slice(&bytes[..STAGE])?;
    out.truncate(n);
    Ok(out)
}

/// Appends a character that is not ASCII to `out`.
#[inline(never)]
fn push_wide(out: &mut Vec<u8>, c: char) -> Result<(), AllocError>
    requires { 0x80 ≤ c }
    ensures { OnOk result (out.new.items ≡ out.old.items ++ encode_utf8 c) }
{
    push_code(out, c as u32)
}

/// Appends a character to `out`.
#[inline(always)]
pub(crate) fn push_char(out: &mut Vec<u8>, c: char) -> Result<(), AllocError>
    ensures { OnOk result (out.new.items ≡ out.old.items ++ encode_utf8 c) }
{
    if c < '\u{80}' {
        out.push(c as u32 as u8)?;
        return Ok(());
    }
    push_wide(out, c)
}

/// Appends a character of any width, and then the first `n` bytes, to `out`.
#[cold]
#[inline(never)]
fn push_both(out: &mut Vec<u8>, c: char, bytes: &[u8], n: usize) -> Result<(), AllocError>
    requires { n ≤ length bytes.now }
    ensures { OnOk result (out.new.items ≡ out.old.items ++ (encode_utf8 c ++ take n bytes.now)) }
{
    push_char(out, c)?;
    if n == 0 {
        return Ok(());
    }
    push_front(out, bytes, n)
}

/// Appends a character of two bytes to `out`, and then `n` of `bytes`, from the third on. Sixteen bytes are copied as
/// one, and what is too much is cut off.
#[inline(always)]
fn push_two_behind(out: &mut Vec<u8>, c: char, bytes: &[u8], n: usize) -> Result<(), AllocError>
    requires least { 0x80 ≤ c }
    requires most { c < 0x800 }
    requires stage { 16 ≤ length bytes.now }
    requires few { n ≤ 14 }
    ensures { OnOk result (out.new.items ≡ out.old.items ++ (encode_utf8 c ++ take n (drop 2 bytes.now))) }
{
    let code = c as u32;
    let old = out.len();
    out.extend_from_slice(&bytes[..STAGE])?;
    out[old] = (0xC0 + code / 64) as u8;
    out[old + 1] = (0x80 + code % 64) as u8;
    out.truncate(old + 2 + n);
    Ok(())
}

/// Appends a character to `out`, and then `n` of `bytes`, from the third on.
#[inline(always)]
pub(crate) fn push_char_behind(
    out: &mut Vec<u8>,
    c: char,
    bytes: &[u8],
    n: usize,
) -> Result<(), AllocError>
    requires stage { 18 ≤ length bytes.now }
    requires few { n < 16 }
    ensures { OnOk result (out.new.items ≡ out.old.items ++ (encode_utf8 c ++ take n (drop 2 bytes.now))) }
{
    if n > 0 && n <= STAGE - 2 && c >= '\u{80}' && c < '\u{800}' {
        return push_two_behind(out, c, bytes, n);
    }
    push_both(out, c, &bytes[2..], n)
}

/// A break as it is written in a value.
pub(crate) fn written(c: char) -> char
    ensures { result ≡ spec.written c }
{
    if c == '\u{2028}' || c == '\u{2029}' {
        c
    } else {
        '\n'
    }
}

/// Takes a run of blanks and breaks, and appends its breaks to `out`.
pub(crate) fn push_breaks(cursor: &mut cursor_t, out: &mut Vec<u8>) -> Result<(), AllocError>
    ensures value { OnOk result
        (out.new.items ≡ out.old.items ++ utf8 (spec.breaks (place.run sets.is_white cursor.old))) }
    ensures end { OnOk result (cursor.new ≡ place.after_run sets.is_white cursor.old) }
{
    cursor.skip_run(class_t::BLANK);
    'breaks: while cursor.break_len() > 0 {
        push_char(out, written(cursor.peek(0)))?;
        cursor.skip(cursor.break_len());
        cursor.skip_run(class_t::BLANK);
    }
    Ok(())
}

/// Takes a run of blanks and breaks, and appends its value to `out`.
pub(crate) fn push_separator(cursor: &mut cursor_t, out: &mut Vec<u8>) -> Result<(), AllocError>
    ensures value { OnOk result
        (out.new.items ≡ out.old.items ++ utf8 (spec.fold (place.run sets.is_white cursor.old))) }
    ensures end { OnOk result (cursor.new ≡ place.after_run sets.is_white cursor.old) }
{
    let blanks = cursor.run(class_t::BLANK);
    if cursor.break_len() == 0 {
        out.extend_from_slice(blanks)?;
        return Ok(());
    }
    let first = written(cursor.peek(0));
    cursor.skip(cursor.break_len());
    if first != '\n' {
        push_char(out, first)?;
        push_breaks(cursor, out)?;
        return Ok(());
    }
    let before = out.len();
    push_breaks(cursor, out)?;
    if out.len() == before {
        push_char(out, ' ')?;
    }
    Ok(())
}
