//! Faults: why an input was refused, where, and in what context.
ghost use Rattle.std.specs.Prelude.{◌≡◌, ◌+◌, ◌^◌, ◌<◌};
ghost use Rattle.std.specs.Option.{option_copied};
ghost use Rattle.yaml_text.specs.Fault.{bare_fault, fault_of, memory_fault, reader_fault, scanner_fault};

use crate::offence::{offence_t, problem_text};
use crate::types::{yaml_error_type_t, yaml_mark_t};
use thiserror::Error;

/// Why an input was refused, and where.
///
/// A fault of kind memory has no problem and no context. A fault of kind reader has a problem, its offset and a
/// value. A fault of kind scanner has a problem and its mark, and mostly a context and its mark. Numbers and
/// marks that a fault does not have are 0.
#[derive(Clone, Copy, Debug, PartialEq, Eq, Error)]
#[error("YAML {error} fault")]
pub struct yaml_fault_t {
    /// The kind of the fault: memory, reader or scanner.
    pub error: yaml_error_type_t,
    /// What is wrong; `None` for a fault of kind memory.
    pub problem: Option<&'static str>,
    /// For a reader fault: how many bytes of the input come before what is wrong.
    pub problem_offset: u64,
    /// For a reader fault: the octet, unit or code point that is wrong, or -1 if there is none.
    pub problem_value: i32,
    /// For a scanner fault: the mark of what is wrong.
    pub problem_mark: yaml_mark_t,
    /// For a scanner fault: what was being read, if that is said.
    pub context: Option<&'static str>,
    /// For a scanner fault with a context: the mark where what was being read starts.
    pub context_mark: yaml_mark_t,
}

const ZERO: yaml_mark_t = yaml_mark_t {
    index: 0,
    line: 0,
    column: 0,
};

/// A fault of a kind, with nothing else said.
fn make_bare_fault(error: yaml_error_type_t) -> yaml_fault_t
    ensures { fault_of result ≡ bare_fault error }
{
    yaml_fault_t {
        error,
        problem: None,
        problem_offset: 0,
        problem_value: 0,
        problem_mark: ZERO,
        context: None,
        context_mark: ZERO,
    }
}

/// The fault of refused memory.
pub fn make_memory_fault() -> yaml_fault_t
    ensures { fault_of result ≡ memory_fault }
{
    make_bare_fault(yaml_error_type_t::YAML_MEMORY_ERROR)
}

/// The fault of an offence, `before` bytes into the input.
pub(crate) fn make_reader_fault(before: u64, offence: offence_t) -> yaml_fault_t
    requires { before + offence.offset < 2 ^ 64 }
    ensures { fault_of result ≡ reader_fault before offence }
{
    yaml_fault_t {
        problem: Some(problem_text(offence.problem)),
        problem_offset: before + offence.offset,
        problem_value: offence.value,
        ..make_bare_fault(yaml_error_type_t::YAML_READER_ERROR)
    }
}

/// A problem at a mark, with a context at another.
pub fn make_scanner_fault(
    problem: &'static str,
    problem_mark: yaml_mark_t,
    context: Option<&'static str>,
    context_mark: yaml_mark_t,
) -> yaml_fault_t
    ensures { fault_of result ≡ scanner_fault problem.now problem_mark (option_copied context.entry) context_mark }
{
    yaml_fault_t {
        problem: Some(problem),
        problem_mark,
        context,
        context_mark,
        ..make_bare_fault(yaml_error_type_t::YAML_SCANNER_ERROR)
    }
}
