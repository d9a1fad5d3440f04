//! Runs of characters of one byte, many bytes at a time.
ghost use Rattle.std.specs.Prelude.{◌≡◌, ◌+◌, ◌<◌, ◌≤◌, true, length, drop, map};
ghost use Rattle.std.specs.List.{prefix_len};
ghost use Rattle.std.specs.Simd.Lanes.{mask_l, Each1};
ghost use Rattle.yaml_text.specs.inside.Singles.{is_single, is_other};

use std::simd::prelude::*;

#[inline(always)]
fn is_single(b: u8) -> bool
    ensures { result ≡ is_single b }
{
    matches!(b, 0x20..=0x7E | 9 | 10 | 13)
}

/// Which bytes are no characters by themselves.
#[inline(always)]
pub(crate) fn others(v: u8x16) -> u64
    ensures { result ≡ mask_l (map is_other v) }
{
    ((v.simd_lt(u8x16::splat(0x20)) | v.simd_ge(u8x16::splat(0x7F)))
        & (v.simd_ne(u8x16::splat(b'\n'))
            & (v.simd_ne(u8x16::splat(b'\t')) & v.simd_ne(u8x16::splat(b'\r'))))).to_bitmask()
}

/// For each of the last four bits of an ASCII byte, the tab, line feed, carriage return or delete that has them.
const EXCEPTIONS: [u8; 16] = [
    0x80, 0x80, 0x80, 0x80, 0x80, 0x80, 0x80, 0x80, 0x80, b'\t', b'\n', 0x80, 0x80, b'\r', 0x80,
    0x7F,
];

/// Which bytes of ASCII are no characters by themselves.
#[inline(always)]
pub(crate) fn ascii_others(v: u8x16) -> u64
    requires { Each1 (λ b. b < 128) v }
    ensures { result ≡ mask_l (map is_other v) }
{
    let exceptions = u8x16::from_array(EXCEPTIONS).swizzle_dyn(v & u8x16::splat(15));
    (v.simd_lt(u8x16::splat(0x20)) ^ v.simd_eq(exceptions)).to_bitmask()
}

/// Which bytes are neither printable nor line feeds. If there are none, all are characters by themselves.
#[inline(always)]
fn rare(v: u8x64) -> u64
    ensures { result ≡ 0 → mask_l (map is_other v) ≡ 0 }
{
    ((v.simd_lt(u8x64::splat(0x20)) | v.simd_ge(u8x64::splat(0x7F)))
        & v.simd_ne(u8x64::splat(b'\n'))).to_bitmask()
}

/// Whether the first 64 bytes are characters by themselves.
#[inline(always)]
fn are_single(bytes: &[u8]) -> bool
    requires { 64 ≤ length bytes.now }
    ensures { result ≡ true → prefix_len is_single bytes.now ≡ 64 + prefix_len is_single (drop 64 bytes.now) }
{
    if rare(u8x64::from_slice(bytes)) == 0 {
        return true;
    }
    if others(u8x16::from_slice(bytes)) != 0 {
        return false;
    }
    if others(u8x16::from_slice(&bytes[16..])) != 0 {
        return false;
    }
    if others(u8x16::from_slice(&bytes[32..])) != 0 {
        return false;
    }
    others(u8x16::from_slice(&bytes[48..])) == 0
}

/// The bytes from a place on.
#[inline(always)]
pub(crate) fn rest(bytes: &[u8], n: usize) -> &[u8]
    requires { n ≤ length bytes.now }
    ensures { result.now ≡ drop n bytes.now }
{
    &bytes[n..]
}

/// How many of the first bytes, in steps of 64, are characters by themselves.
#[inline(always)]
fn far_len(bytes: &[u8]) -> usize
    ensures value { prefix_len is_single bytes.now ≡ result + prefix_len is_single (drop result bytes.now) }
    ensures bound { result ≤ length bytes.now }
{
    let mut i = 0;
    'wide: while bytes.len() - i >= 64 && are_single(rest(bytes, i)) {
        i += 64;
    }
    i
}

fn slow_len(bytes: &[u8], from: usize) -> usize
    requires { from ≤ length bytes.now }
    ensures { result ≡ from + prefix_len is_single (drop from bytes.now) }
{
    let mut i = from;
    'bytes: while i < bytes.len() && is_single(bytes[i]) {
        i += 1;
    }
    i
}

/// How many of the first bytes are characters by themselves.
#[inline(always)]
pub(crate) fn single_len(bytes: &[u8]) -> usize
    ensures value { result ≡ prefix_len is_single bytes.now }
    ensures bound { result ≤ length bytes.now }
{
    let mut i = far_len(bytes);
    'wide: while bytes.len() - i >= 16 {
        let found = others(u8x16::from_slice(&bytes[i..]));
        if found != 0 {
            return i + found.trailing_zeros() as usize;
        }
        i += 16;
    }
    slow_len(bytes, i)
}
