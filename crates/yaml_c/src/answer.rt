//! What is returned besides the two rooms: the counts, and the fault.
ghost use Rattle.std.specs.Prelude.{◌≡◌, length};
ghost use Rattle.std.specs.Option.{option_copied};
ghost use Rattle.yaml_text.specs.Fault.{fault_of};
ghost use Rattle.yaml_c.specs.Answer as answers;
ghost use Rattle.yaml_c.specs.Answer.{answer_with, text_or_none};
ghost use Rattle.yaml_c.specs.Record.{held};
ghost use Rattle.yaml_c.specs.Room.{covered_from};

use crate::numbers::error_number;
use crate::record::{bogzhami_mark, mark_of};
use crate::room::put_bytes;
use yaml_scan::yaml_fault_t;

/// The counts of tokens and bytes, also of those for which there was no room, and the fault.
#[repr(C)]
#[derive(Clone, Copy)]
pub struct bogzhami_answer {
    /// How many tokens there are.
    pub token_count: u64,
    /// How many bytes their texts have.
    pub text_len: u64,
    /// The number of the kind of fault, or 0 if there is none.
    pub error: u32,
    /// For a reader's fault, the octet, unit or code point that is wrong, or -1 if there is none. Otherwise 0.
    pub problem_value: i32,
    /// For a reader's fault, how many bytes of the input come before what is wrong. Otherwise 0.
    pub problem_offset: u64,
    /// For a scanner's fault, where the problem is. Otherwise zeros.
    pub problem_mark: bogzhami_mark,
    /// For a scanner's fault, where what was being read starts. Otherwise zeros.
    pub context_mark: bogzhami_mark,
    /// The length of the problem in bytes. It is in the room for texts, after the texts of the tokens.
    pub problem_len: u64,
    /// The length of the context in bytes, or 0 if there is none. It is in the room for texts, after the problem.
    pub context_len: u64,
}

pub(crate) const ZERO: bogzhami_mark = bogzhami_mark {
    index: 0,
    line: 0,
    column: 0,
};

/// The answer if there is no fault.
pub(crate) fn counts(token_count: u64, text_len: u64) -> bogzhami_answer
    ensures { result ≡ answer_with token_count text_len None }
{
    bogzhami_answer {
        token_count,
        text_len,
        error: 0,
        problem_value: 0,
        problem_offset: 0,
        problem_mark: ZERO,
        context_mark: ZERO,
        problem_len: 0,
        context_len: 0,
    }
}

fn text_or_none(text: Option<&'static str>) -> &'static [u8]
    ensures { result.now ≡ text_or_none (option_copied text.entry) }
{
    match text {
        Some(text) => text.as_bytes(),
        None => b"",
    }
}

/// The answer if there is a fault.
pub(crate) fn counts_and_fault(
    token_count: u64,
    text_len: u64,
    fault: yaml_fault_t,
) -> bogzhami_answer
    ensures { result ≡ answer_with token_count text_len (Some (fault_of fault)) }
{
    bogzhami_answer {
        token_count,
        text_len,
        error: error_number(fault.error),
        problem_value: fault.problem_value,
        problem_offset: fault.problem_offset,
        problem_mark: mark_of(fault.problem_mark),
        context_mark: mark_of(fault.context_mark),
        problem_len: text_or_none(fault.problem).len() as u64,
        context_len: text_or_none(fault.context).len() as u64,
    }
}

/// How many bytes the texts of a fault have.
pub(crate) fn fault_len(fault: yaml_fault_t) -> u64
    ensures { result ≡ held (length (answers.fault_texts (Some (fault_of fault)))) }
{
    let problem = text_or_none(fault.problem).len() as u64;
    problem.saturating_add(text_or_none(fault.context).len() as u64)
}

/// Puts the texts of a fault into a room from a place on: the problem, and after it the context.
pub(crate) fn put_fault_texts(room: &mut [u8], at: u64, fault: yaml_fault_t)
    ensures { room.new ≡ covered_from at (answers.fault_texts (Some (fault_of fault))) room.old }
{
    let problem = text_or_none(fault.problem);
    let context_at = at.saturating_add(problem.len() as u64);
    put_bytes(room, at, problem);
    put_bytes(room, context_at, text_or_none(fault.context));
}
