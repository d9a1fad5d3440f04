//! Decoding: the text that an input spells, or its longest front and what is wrong after it.
ghost use Rattle.std.specs.Prelude.{◌≡◌, ◌+◌, ◌<◌, ◌≤◌, ◌^◌, ◌⊎◌, ℕ, List, option_map, length, take, drop, true, false};
ghost use Rattle.std.specs.Prelude.{IfOk, IfErr, IsOk, IsNone, IfSome};
ghost use Rattle.yaml_text.specs.Chars.{utf8};
ghost use Rattle.yaml_text.specs.TextBytes.{IsText};
ghost use Rattle.yaml_text.specs.Utf8.{offence8};
ghost use Rattle.yaml_text.specs.Decode.{encoding_of, bom_len, after_bom};
ghost use Rattle.yaml_text.specs.Decoding.{BeginsWithNone, IsLongestFront, refusal_seen, decoding, Decodes, outcome};
ghost use Rattle.yaml_text.specs.Decoding.{Spells, IsRefused};
ghost use Rattle.yaml_text.specs.inside.Fronts.{KeepsFront};
ghost use Rattle.yaml_text.specs.Decode.{front, refusal};
ghost use Rattle.yaml_text.specs.Kept.{IsKeptOf};
ghost use Rattle.yaml_text.specs.inside.Fronts.{order};
ghost use Rattle.yaml_text.specs.Fault.{fault_of, memory_fault, reader_fault};
ghost use Rattle.yaml_text.specs.declared.types.yaml_encoding_t.TheVariants.{YAML_UTF8_ENCODING};
ghost use Rattle.yaml_text.specs.declared.types.yaml_encoding_t.TheVariants.{YAML_UTF16LE_ENCODING};
ghost use Rattle.yaml_text.specs.declared.types.yaml_encoding_t.TheVariants.{YAML_UTF16BE_ENCODING};

use crate::ascii::{rest, single_len};
use crate::blocks::whole_len;
use crate::fault::{make_memory_fault, make_reader_fault, yaml_fault_t};
use crate::kept::{kept_bytes, kept_part, yaml_kept_text_t};
use crate::offence::offence_t;
use crate::text::yaml_text_t;
use crate::types::yaml_encoding_t;
use crate::utf8::first_char;
use crate::utf16::front16;
use std::alloc::Global;

/// How many of the first bytes are whole characters, as far as they are looked at many at a time.
fn quick_len(bytes: &[u8]) -> usize
    ensures text { IsText (take result bytes.now) }
    ensures within { result ≤ length bytes.now }
{
    let run = single_len(bytes);
    if run >= 32 {
        return run;
    }
    run + whole_len(rest(bytes, run))
}

/// How many bytes the front of a text has, and what is wrong after it. The first `known` bytes are known to be text, and
/// are not looked at.
pub(crate) fn front8(bytes: &[u8], known: usize) -> (usize, Option<offence_t>)
    requires part { known ≤ length bytes.now }
    requires known { IsText (take known bytes.now) }
    ensures within { result.0 ≤ length bytes.now }
    ensures text { IsText (take result.0 bytes.now) }
    ensures longest { BeginsWithNone YAML_UTF8_ENCODING (drop result.0 bytes.now) }
    ensures whole { IsNone result.1 → result.0 ≡ length bytes.now }
    ensures offence { IfSome result.1 (λ o. o ≡ offence8 (drop result.0 bytes.now)) }
    ensures left { IfSome result.1 (λ o. result.0 + o.offset < length bytes.now) }
{
    let mut at = known + quick_len(rest(bytes, known));
    while at < bytes.len() {
        match first_char(rest(bytes, at)) {
            Ok(width) => at += width,
            Err(offence) => return (at, Some(offence)),
        }
        at += quick_len(rest(bytes, at));
    }
    (at, None)
}

/// The encoding that is set, or else that of the byte order mark, or else UTF-8; and how many bytes of such a
/// mark are dropped.
pub(crate) fn find_encoding(setting: yaml_encoding_t, input: &[u8]) -> (yaml_encoding_t, usize)
    ensures encoding { result.0 ≡ encoding_of setting input.now }
    ensures bom_len { result.1 ≡ bom_len setting input.now }
    ensures within { result.1 ≤ length input.now }
{
    match setting {
        yaml_encoding_t::YAML_ANY_ENCODING => match input {
            [0xFF, 0xFE, ..] => (yaml_encoding_t::YAML_UTF16LE_ENCODING, 2),
            [0xFE, 0xFF, ..] => (yaml_encoding_t::YAML_UTF16BE_ENCODING, 2),
            [0xEF, 0xBB, 0xBF, ..] => (yaml_encoding_t::YAML_UTF8_ENCODING, 3),
            _ => (yaml_encoding_t::YAML_UTF8_ENCODING, 0),
        },
        _ => (setting, 0),
    }
}

/// The encoding of an input: the one that is set, or else that of the byte order mark, or else UTF-8. Nothing is
/// decoded.
pub fn yaml_encoding_of(setting: yaml_encoding_t, input: &[u8]) -> yaml_encoding_t
    ensures { result ≡ encoding_of setting input.now }
{
    find_encoding(setting, input).0
}

/// The fault of an offence, `before` bytes into the input.
fn refusal(before: usize, offence: Option<offence_t>) -> Option<yaml_fault_t>
    requires { IfSome offence (λ o. before + o.offset < 2 ^ 64) }
    ensures { refusal_seen result ≡ option_map (reader_fault before) offence }
{
    match offence {
        None => None,
        Some(offence) => Some(make_reader_fault(before as u64, offence)),
    }
}

/// What is kept of the front in UTF-8 of what begins `before` bytes into the input: a part of the input.
fn front_in_utf8(input: &[u8], before: usize) -> (yaml_kept_text_t, Option<yaml_fault_t>)
    requires { before ≤ length input.now }
    ensures { KeepsFront YAML_UTF8_ENCODING before input.now result.0 (refusal_seen result.1) }
{
    let (len, offence) = front8(rest(input, before), 0);
    (kept_part(before, len), refusal(before + len, offence))
}

fn order(big: bool) -> yaml_encoding_t
    ensures { result ≡ order big }
{
    if big {
        yaml_encoding_t::YAML_UTF16BE_ENCODING
    } else {
        yaml_encoding_t::YAML_UTF16LE_ENCODING
    }
}

/// What is kept of the front in UTF-16 of bytes that begin `before` bytes into the input: its bytes in UTF-8. Each order
/// of bytes has a function of its own.
#[inline(never)]
fn front_in_utf16<const BIG: bool>(
    alloc: Global,
    bytes: &[u8],
    before: usize,
) -> Result<(yaml_kept_text_t, Option<yaml_fault_t>), yaml_fault_t>
    requires { before + length bytes.now < 2 ^ 64 }
    ensures front { IfOk result (λ r. (input : List ℕ) → before ≤ length input → bytes.now ≡ drop before input
        → KeepsFront (order BIG) before input r.0 (refusal_seen r.1)) }
    ensures memory { IfErr result (λ fault. fault_of fault ≡ memory_fault) }
{
    let Ok((utf8, len, offence)) = front16(alloc, bytes, BIG) else {
        return Err(make_memory_fault());
    };
    let kept = kept_bytes(order(BIG), utf8);
    Ok((kept, refusal(before + len, offence)))
}

/// The same, by a call. A build clears the stack of what a function makes at the function's beginning, also where one
/// branch alone makes it. So this branch is a function of its own, and UTF-8 does not pay for it.
#[inline(always)]
fn copied_front<const BIG: bool>(
    alloc: Global,
    input: &[u8],
    before: usize,
) -> Result<(yaml_kept_text_t, Option<yaml_fault_t>), yaml_fault_t>
    requires { before ≤ length input.now }
    ensures front { IfOk result (λ r. KeepsFront (order BIG) before input.now r.0 (refusal_seen r.1)) }
    ensures memory { IfErr result (λ fault. fault_of fault ≡ memory_fault) }
{
    front_in_utf16::<BIG>(alloc, rest(input, before), before)
}

impl yaml_kept_text_t {
    /// The front of an input, in the form that is kept when the input is let go, and the fault of what follows it, if
    /// anything does. They are those of [`yaml_decode_front`](crate::yaml_decode_front). In UTF-8 no memory is taken.
    ///
    /// # Errors
    ///
    /// A fault of kind memory, for UTF-16 only.
    #[inline(always)]
    pub fn decode(
        alloc: Global,
        input: &[u8],
        setting: yaml_encoding_t,
    ) -> Result<(yaml_kept_text_t, Option<yaml_fault_t>), yaml_fault_t>
        ensures front { IfOk result (λ r. IsKeptOf (front setting input.now) input.now r.0) }
        ensures refusal { IfOk result (λ r. refusal_seen r.1 ≡ refusal setting input.now) }
        ensures memory { IfErr result (λ fault. fault_of fault ≡ memory_fault) }
        ensures borrowed { encoding_of setting input.now ≡ YAML_UTF8_ENCODING → IsOk result }
    {
        let (encoding, before) = find_encoding(setting, input);
        match encoding {
            yaml_encoding_t::YAML_UTF16LE_ENCODING => copied_front::<false>(alloc, input, before),
            yaml_encoding_t::YAML_UTF16BE_ENCODING => copied_front::<true>(alloc, input, before),
            _ => Ok(front_in_utf8(input, before)),
        }
    }
}

/// The front of an input, and the fault of what follows it, if anything does.
///
/// The front is the longest list of characters whose spellings, joined, begin the input after its byte order
/// mark, which is dropped if no encoding is set (YAML 1.1, sections 5.1 and 5.2). In UTF-8 the text borrows
/// the input. The fault says what is wrong with what follows the front: its kind is reader, and its offset
/// counts the bytes of the whole input, from 0.
///
/// # Errors
///
/// A fault of kind memory, for UTF-16 only.
pub fn yaml_decode_front<'a>(
    alloc: Global,
    input: &'a [u8],
    setting: yaml_encoding_t,
) -> Result<(yaml_text_t<'a>, Option<yaml_fault_t>), yaml_fault_t>
    ensures front { IfOk result (λ r. r.0 ≡ front setting input.now) }
    ensures longest { IfOk result (λ r. IsLongestFront setting input.now r.0) }
    ensures refusal { IfOk result (λ r. refusal_seen r.1 ≡ refusal setting input.now) }
    ensures memory { IfErr result (λ fault. fault_of fault ≡ memory_fault) }
    ensures borrowed { encoding_of setting input.now ≡ YAML_UTF8_ENCODING → IsOk result }
{
    match yaml_kept_text_t::decode(alloc, input, setting) {
        Ok((kept, fault)) => Ok((kept.into_text(input), fault)),
        Err(fault) => Err(fault),
    }
}

/// The text that the input spells, or why it spells none.
///
/// In UTF-8 the text borrows the input, without the byte order mark, which is dropped if no encoding is set (YAML 1.1,
/// sections 5.1 and 5.2).
///
/// # Errors
///
/// A fault of kind reader if the input is no text: the problem, its offset in bytes of the whole input, from 0, and the
/// octet, unit or code point that is wrong there (-1 if there is none). A fault of kind memory, for UTF-16 only.
pub fn yaml_decode<'a>(
    alloc: Global,
    input: &'a [u8],
    setting: yaml_encoding_t,
) -> Result<yaml_text_t<'a>, yaml_fault_t>
    ensures exact { Decodes result (decoding setting input.now) }
    ensures text { IfOk result (λ text. Spells setting input.now text) }
    ensures fault { IfErr result (λ fault.
        (fault_of fault ≡ memory_fault) ⊎ IsRefused setting input.now (fault_of fault)) }
    // accepted UTF-8 is its own text, and no memory is taken for it
    ensures own_text { IfOk result (λ text.
        text.encoding ≡ YAML_UTF8_ENCODING → utf8 text.chars ≡ after_bom setting input.now) }
    ensures borrowed { encoding_of setting input.now ≡ YAML_UTF8_ENCODING
        → outcome result ≡ decoding setting input.now }
{
    match yaml_decode_front(alloc, input, setting) {
        Ok((text, None)) => Ok(text),
        Ok((_, Some(fault))) => Err(fault),
        Err(fault) => Err(fault),
    }
}
