//! Reading and writing UTF-8.
ghost use Rattle.std.specs.Prelude.{ℕ, ◌≡◌, ◌+◌, ◌<◌, ◌≤◌, ◌^◌, ◌++◌, length, slice_index, IfOk, IfErr, IfSome};
ghost use Rattle.std.specs.Prelude.{OnErr, OnOk, encode_utf8};
ghost use Rattle.std.specs.Char.{len_utf8, IsScalar};
ghost use Rattle.yaml_text.specs.TextBytes.{IsChar};
ghost use Rattle.yaml_text.specs.Utf8.{width_of, continues, stray_at, value_of, is_scalar, offence8};
ghost use Rattle.yaml_text.specs.Decoding.{Begins, BeginsWithNone};
ghost use Rattle.yaml_text.specs.declared.types.yaml_encoding_t.TheVariants.{YAML_UTF8_ENCODING};

use crate::chars::is_char;
use crate::offence::{offence_t, problem_t, refused};
use std::alloc::AllocError;

/// How many bytes a character that begins with this one has, or 0 if none does.
pub(crate) fn width_of(b: u8) -> usize
    ensures { result ≡ width_of b }
{
    match b {
        0..=0x7F => 1,
        0x80..=0xBF => 0,
        0xC0..=0xDF => 2,
        0xE0..=0xEF => 3,
        0xF0..=0xF7 => 4,
        _ => 0,
    }
}

pub(crate) fn continues(b: u8) -> bool
    ensures { result ≡ continues b }
{
    matches!(b, 0x80..=0xBF)
}

/// The place of the first octet that does not continue the character that the first octet begins, if one does not.
fn stray_at(bytes: &[u8]) -> Option<usize>
    requires { width_of (slice_index bytes.now 0) ≤ length bytes.now }
    ensures stray { result ≡ stray_at (width_of (slice_index bytes.now 0)) bytes.now }
    ensures within { IfSome result (λ at. at < length bytes.now) }
{
    let width = width_of(bytes[0]);
    if width < 2 {
        return None;
    }
    if !continues(bytes[1]) {
        return Some(1);
    }
    if width == 2 {
        return None;
    }
    if !continues(bytes[2]) {
        return Some(2);
    }
    if width == 3 {
        return None;
    }
    if continues(bytes[3]) { None } else { Some(3) }
}

/// The code point that a lead octet and those after it spell, whether it is a character's or not.
#[inline(always)]
#[tactic(auto, unfolding(crate::specs::Utf8::value_of))]
pub fn code_of(bytes: &[u8], width: usize) -> u32
    requires some { 0 < width }
    requires whole { width ≤ length bytes.now }
    requires four { width ≤ 4 }
    ensures value { result ≡ value_of width bytes.now }
    ensures bound { result < 2 ^ 21 }
{
    let b = bytes[0] as u32;
    match width {
        1 => b,
        2 => b % 32 * 64 + bytes[1] as u32 % 64,
        3 => b % 16 * 4096 + bytes[1] as u32 % 64 * 64 + bytes[2] as u32 % 64,
        _ => {
            b % 8 * 262144
                + bytes[1] as u32 % 64 * 4096
                + bytes[2] as u32 % 64 * 64
                + bytes[3] as u32 % 64
        }
    }
}

/// How many octets a value has in UTF-8.
fn len_of(c: u32) -> usize
    ensures { result ≡ len_utf8 c }
{
    match c {
        0..=0x7F => 1,
        0x80..=0x7FF => 2,
        0x800..=0xFFFF => 3,
        _ => 4,
    }
}

fn is_scalar(c: u32) -> bool
    ensures { result ≡ is_scalar c }
{
    matches!(c, 0..=0xD7FF | 0xE000..=0x10FFFF)
}

/// The width of the first character, or what is wrong if the bytes begin with none.
#[tactic(auto, unfolding(crate::specs::Utf8::offence8))]
pub(crate) fn first_char(bytes: &[u8]) -> Result<usize, offence_t>
    requires { 0 < length bytes.now }
    ensures found { IfOk result (λ width.
        (c : ℕ) × IsChar c × Begins YAML_UTF8_ENCODING c bytes.now × (width ≡ len_utf8 c)) }
    ensures offence { IfErr result (λ e. e ≡ offence8 bytes.now) }
    ensures none { OnErr result (BeginsWithNone YAML_UTF8_ENCODING bytes.now) }
    ensures within { IfErr result (λ e. e.offset < length bytes.now) }
{
    let width = width_of(bytes[0]);
    if width == 0 {
        return refused(problem_t::LEAD, 0, bytes[0] as i32);
    }
    if bytes.len() < width {
        return refused(problem_t::SHORT, 0, -1);
    }
    if let Some(stray) = stray_at(bytes) {
        return refused(problem_t::TRAIL, stray as u64, bytes[stray] as i32);
    }
    let value = code_of(bytes, width);
    if len_of(value) < width {
        return refused(problem_t::LENGTH, 0, -1);
    }
    if !is_scalar(value) {
        return refused(problem_t::VALUE, 0, value as i32);
    }
    if !is_char(value) {
        return refused(problem_t::CONTROL, 0, value as i32);
    }
    Ok(width)
}

/// Appends the octets that spell a code point.
#[inline(always)]
pub fn push_code(out: &mut Vec<u8>, c: u32) -> Result<(), AllocError>
    requires { IsScalar c }
    ensures ok { OnOk result (out.new.items ≡ out.old.items ++ encode_utf8 c) }
    ensures err { OnErr result (out.new.items ≡ out.old.items) }
{
    let last = (0x80 + c % 64) as u8;
    if c < 0x80 {
        return out.extend_from_slice(&[c as u8]);
    }
    if c < 0x800 {
        return out.extend_from_slice(&[(0xC0 + c / 64) as u8, last]);
    }
    let middle = (0x80 + c / 64 % 64) as u8;
    if c < 0x10000 {
        return out.extend_from_slice(&[(0xE0 + c / 4096) as u8, middle, last]);
    }
    let second = (0x80 + c / 4096 % 64) as u8;
    out.extend_from_slice(&[(0xF0 + c / 262144) as u8, second, middle, last])
}
