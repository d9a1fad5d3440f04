//! An input that comes in pieces, in UTF-8: only what follows the front that is known is decoded.
ghost use Rattle.std.specs.Prelude.{◌≡◌, ◌+◌, ◌^◌, ◌<◌, false, not, option_map, IfSome, MatchOption};
ghost use Rattle.yaml_text.specs.Decode.{encoding_of, front, refusal};
ghost use Rattle.yaml_text.specs.Decoding.{refusal_seen};
ghost use Rattle.yaml_text.specs.Fault.{fault_of, reader_fault};
ghost use Rattle.yaml_text.specs.Kept.{IsKeptOf};
ghost use Rattle.yaml_text.specs.Pieces.{IsBegunOf, ends_too_soon, fault_to_come, is_broken};
ghost use Rattle.yaml_text.specs.declared.types.yaml_encoding_t.{yaml_encoding_t};
ghost use Rattle.yaml_text.specs.declared.types.yaml_encoding_t.TheVariants.{YAML_UTF8_ENCODING};

use crate::ascii::rest;
use crate::decode::{find_encoding, front8};
use crate::fault::{make_reader_fault, yaml_fault_t};
use crate::kept::{kept_part, yaml_kept_text_t};
use crate::offence::{offence_t, problem_t};
use crate::types::yaml_encoding_t;

/// Whether what is wrong may be the beginning of a character, once more bytes came.
fn ends_too_soon(problem: problem_t) -> bool
    ensures { result ≡ ends_too_soon problem }
{
    matches!(
        problem,
        problem_t::SHORT | problem_t::HALF_UNIT | problem_t::HALF_PAIR
    )
}

/// The fault of an offence, `before` bytes into the input, and whether no bytes to come can mend it.
fn told(before: usize, offence: Option<offence_t>) -> Option<(yaml_fault_t, bool)>
    requires { IfSome offence (λ o. before + o.offset < 2 ^ 64) }
    ensures fault { refusal_seen (option_map (λ r. r.0) result) ≡ option_map (reader_fault before) offence }
    ensures broken { option_map (λ r. r.1) result ≡ option_map (λ o. not (ends_too_soon o.problem)) offence }
{
    match offence {
        None => None,
        Some(offence) => {
            let broken = !ends_too_soon(offence.problem);
            Some((make_reader_fault(before as u64, offence), broken))
        }
    }
}

impl yaml_kept_text_t {
    /// What is kept before any byte of an input in UTF-8 is decoded: the beginning of its front that has no bytes.
    pub fn begin_front(setting: yaml_encoding_t, input: &[u8]) -> yaml_kept_text_t
        ensures { encoding_of setting input.now ≡ YAML_UTF8_ENCODING → IsBegunOf setting input.now result }
    {
        kept_part(find_encoding(setting, input).1, 0)
    }

    /// Decodes what follows the beginning of the front that is kept, and keeps the whole front. Returns the fault of what
    /// follows the front, if anything does, and whether no bytes to come can mend it.
    pub fn decode_on(&mut self, input: &[u8]) -> Option<(yaml_fault_t, bool)>
        requires { (s : yaml_encoding_t) × IsBegunOf s input.now self.old }
        ensures kept { (s : yaml_encoding_t) → IsBegunOf s input.now self.old
            → IsKeptOf (front s input.now) input.now self.new × IsBegunOf s input.now self.new }
        ensures refusal { (s : yaml_encoding_t) → IsBegunOf s input.now self.old
            → refusal_seen (option_map (λ r. r.0) result) ≡ refusal s input.now }
        ensures broken { (s : yaml_encoding_t) → IsBegunOf s input.now self.old
            → MatchOption result (is_broken s input.now ≡ false) (λ r. r.1 ≡ is_broken s input.now) }
    {
        let (start, known) = self.place();
        let (len, offence) = front8(rest(input, start), known);
        self.lengthen(len);
        told(start + len, offence)
    }
}

/// The fault of a byte that no text has, after `len` bytes: it stands for what is to come.
#[tactic(auto, unfolding(crate::specs::Utf8::offence8))]
pub fn yaml_fault_to_come(len: u64) -> yaml_fault_t
    ensures { fault_of result ≡ fault_to_come len }
{
    make_reader_fault(
        len,
        offence_t {
            problem: problem_t::LEAD,
            offset: 0,
            value: 0xFF,
        },
    )
}
