//! Where a value stands in the input as it is.
ghost use Rattle.std.specs.Prelude.{◌≡◌, Some, nat_eq};
ghost use Rattle.std.specs.List.{starts_with};
ghost use Rattle.yaml_c.specs.Spelled.{place_of, skipped_of};
ghost use Rattle.yaml_c.specs.inside.Spelled.{spelled_of};

use yaml_scan::yaml_encoding_t;

/// The number that tells that there is no place.
pub(crate) const NOWHERE: u64 = u64::MAX;

/// An input, and how many of its bytes come before its text, unless that is in UTF-16.
#[derive(Clone, Copy)]
pub(crate) struct spelled_t<'a> {
    pub(crate) input: &'a [u8],
    pub(crate) skipped: Option<u64>,
}

/// How many bytes of an input come before its text, unless that is in UTF-16.
pub(crate) fn skipped_of(setting: yaml_encoding_t, input: &[u8]) -> Option<u64>
    ensures { result ≡ skipped_of setting input.now }
{
    match setting {
        yaml_encoding_t::YAML_ANY_ENCODING => match input {
            [0xFF, 0xFE, ..] | [0xFE, 0xFF, ..] => None,
            [0xEF, 0xBB, 0xBF, ..] => Some(3),
            _ => Some(0),
        },
        yaml_encoding_t::YAML_UTF8_ENCODING => Some(0),
        _ => None,
    }
}

/// Whether a text begins with a value. It is called and not inlined, so that what puts a token stays small.
#[inline(never)]
fn begins_with(text: &[u8], value: &[u8]) -> bool
    ensures { result ≡ starts_with nat_eq text.now value.now }
{
    text.starts_with(value)
}

/// The place of a value that may stand so many bytes after an index in the text.
#[inline(always)]
pub(crate) fn place_of(spelled: spelled_t, value: &[u8], index: u64, before: u64) -> u64
    ensures { result ≡ place_of (spelled_of spelled.entry) value.now index (Some before) }
{
    let Some(skipped) = spelled.skipped else {
        return NOWHERE;
    };
    let at = skipped.saturating_add(index).saturating_add(before);
    if at > spelled.input.len() as u64 {
        return NOWHERE;
    }
    if begins_with(&spelled.input[at as usize..], value) {
        at
    } else {
        NOWHERE
    }
}
