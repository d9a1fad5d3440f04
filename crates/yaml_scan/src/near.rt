//! Which steps of a refused input are near the place at which its text breaks off.
ghost use Rattle.std.specs.Prelude.{◌≡◌, ◌<◌, ◌^◌, length};
ghost use Rattle.yaml_text.specs.Decoding.{refusal_seen};
ghost use Rattle.yaml_scan.specs.inside.NearFault.{near_fault};
ghost use Rattle.yaml_text.specs.Chars.{utf8};
ghost use Rattle.yaml_text.specs.TextBytes.{AreChars};
ghost use Rattle.yaml_scan.specs.inside.Scanning.{IsNearOf};

use yaml_text::{yaml_fault_t, yaml_index_from_end, yaml_text_t};

/// The index from which on a step is near the end of the text of a refused input, since fewer than eight characters
/// follow. It is greater than all indexes if the input was not refused.
pub(crate) fn near_of(text: &yaml_text_t, refusal: Option<yaml_fault_t>) -> u64
    ensures text { AreChars text.now.chars }
    ensures small { length (utf8 text.now.chars) < 2 ^ 63 }
    ensures near { IsNearOf (refusal_seen refusal) text.now.chars result }
{
    match refusal {
        Some(_) => yaml_index_from_end(text, 7) as u64,
        None => yaml_index_from_end(text, 0) as u64 + 1,
    }
}

/// The reader's fault, if the first step is near it.
pub(crate) fn near_start(refusal: Option<yaml_fault_t>, near: u64) -> Option<yaml_fault_t>
    ensures { refusal_seen result ≡ near_fault near 0 (refusal_seen refusal) }
{
    if near == 0 { refusal } else { None }
}
