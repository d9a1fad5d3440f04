//! The place of an offset of an input: the line and the column there.
ghost use Rattle.std.specs.Prelude.{◌≡◌, ◌<◌, IfOk, IsOk, take};
ghost use Rattle.yaml_text.specs.Decode as decoding;
ghost use Rattle.yaml_text.specs.declared.types.yaml_encoding_t.{yaml_encoding_t};
ghost use Rattle.yaml_text.specs.declared.types.yaml_encoding_t.TheVariants.{YAML_UTF8_ENCODING};
ghost use Rattle.yaml_text.specs.Fault.{zero_mark};
ghost use Rattle.yaml_text.specs.Mark as marks;
ghost use Rattle.yaml_text.specs.Types.{encoding_number};
ghost use Rattle.yaml_c.specs.Place.{TellsPlace, mark_before};
ghost use Rattle.yaml_c.specs.Record as records;
ghost use Rattle.yaml_c.specs.Status as status;

use crate::answer::ZERO;
use crate::numbers::encoding_of;
use crate::record::{bogzhami_mark, mark_of};
use crate::status::{DONE, NO_MEMORY, WRONG};
use std::alloc::Global;
use yaml_scan::{
    yaml_decode_front, yaml_encoding_t, yaml_fault_t, yaml_mark_at, yaml_mark_t, yaml_text_t,
};

/// The bytes of an input before an offset: all of them, if the offset is past the end.
fn before(input: &[u8], offset: u64) -> &[u8]
    ensures { result.now ≡ take offset input.now }
{
    if offset < input.len() as u64 {
        &input[..offset as usize]
    } else {
        input
    }
}

/// The mark after all characters of a text.
fn end_mark(text: &yaml_text_t) -> yaml_mark_t
    ensures { result ≡ marks.mark_of text.now.chars }
{
    yaml_mark_at(text, text.bytes().len())
}

/// The mark after the characters that an input spells before an offset. Only UTF-16 takes memory, which may be refused.
fn mark_before(
    alloc: Global,
    input: &[u8],
    setting: yaml_encoding_t,
    offset: u64,
) -> Result<yaml_mark_t, yaml_fault_t>
    ensures mark { IfOk result (λ mark. mark ≡ mark_before setting input.now offset) }
    ensures utf8 { decoding.encoding_of setting input.now ≡ YAML_UTF8_ENCODING → IsOk result }
{
    let (text, _) = yaml_decode_front(alloc, before(input, offset), setting)?;
    Ok(end_mark(&text))
}

/// The place of an offset of an input: the mark after the characters that the input spells before it. It counts whole
/// characters, up to the first bytes that spell none.
///
/// `encoding` is the number of an encoding, 0 to 3: any, UTF-8, UTF-16LE, UTF-16BE. `offset` counts bytes of the input,
/// from 0, with its byte order mark. The time grows with the offset.
///
/// Returns 0; 2 for another encoding; 3 if memory was refused, which only UTF-16 takes. With 2 and 3 the mark is zeros.
#[unsafe(no_mangle)]
pub extern "C" fn bogzhami_place(
    alloc: Global,
    input: &[u8],
    encoding: u32,
    offset: u64,
    mark: &mut bogzhami_mark,
) -> u32
    ensures wrong { 3 < encoding → (result ≡ status.wrong) × (mark.new ≡ records.mark_of zero_mark) }
    ensures place { (e : yaml_encoding_t) → encoding_number e ≡ encoding
        → TellsPlace e input.now offset mark.new result }
    ensures utf8 { (e : yaml_encoding_t) → encoding_number e ≡ encoding
        → decoding.encoding_of e input.now ≡ YAML_UTF8_ENCODING → result ≡ status.done }
{
    *mark = ZERO;
    let Some(setting) = encoding_of(encoding) else {
        return WRONG;
    };
    match mark_before(alloc, input, setting, offset) {
        Ok(place) => {
            *mark = mark_of(place);
            DONE
        }
        Err(_) => NO_MEMORY,
    }
}
