//! Short pieces of a line in double quotes: fewer than sixteen bytes of ASCII, with a quote or a backslash right after
//! them.
ghost use Rattle.std.specs.Prelude.{◌≡◌, ◌<◌, ◌≤◌, length, map};
ghost use Rattle.std.specs.Simd.Lanes.{mask_l};
ghost use Rattle.yaml_lexeme.specs.inside.ShortRuns as spec;

use std::simd::prelude::*;

/// How many bytes are looked at, and copied, as one: a stage.
pub(crate) const STAGE: usize = 16;

/// The lanes at which a short piece ends: double quotes, backslashes, control characters below 20, and bytes that are
/// not ASCII.
#[inline(always)]
fn ends(v: u8x16) -> u64
    ensures { result ≡ mask_l (map spec.ends v) }
{
    (v.simd_eq(u8x16::splat(b'"'))
        | (v.simd_eq(u8x16::splat(b'\\'))
            | (v.simd_lt(u8x16::splat(b' ')) | v.simd_gt(u8x16::splat(0x7F))))).to_bitmask()
}

/// How many bytes a short piece has, if a quote or a backslash ends it before sixteen. Else 16, and nothing is known.
#[inline(always)]
pub(crate) fn short_len(text: &[u8]) -> usize
    ensures most { result ≤ 16 }
    ensures value { result < 16 → spec.Short text.now result }
{
    if text.len() < STAGE {
        return STAGE;
    }
    let found = ends(u8x16::from_slice(text));
    if found == 0 {
        return STAGE;
    }
    let n = found.trailing_zeros() as usize;
    if text[n] != b'"' && text[n] != b'\\' {
        return STAGE;
    }
    n
}
