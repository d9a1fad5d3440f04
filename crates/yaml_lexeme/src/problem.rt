//! Why a lexeme could not be read.
ghost use Rattle.std.specs.Prelude.{◌≡◌};
ghost use Rattle.yaml_lexeme.specs.declared.problem.yaml_refusal_t.TheVariants.{MEMORY, OFFENCE};

use std::alloc::{AllocError, AllocFailed};

/// What is wrong with a text at a place.
#[derive(Clone, Copy, PartialEq, Eq)]
pub enum yaml_problem_t {
    UNKNOWN_DIRECTIVE,
    NO_COMMENT_OR_BREAK,
    NO_DIRECTIVE_NAME,
    DIRECTIVE_NAME_GOES_ON,
    NO_DOT,
    LONG_NUMBER,
    NO_NUMBER,
    NO_BLANK,
    NO_BLANK_OR_BREAK,
    NO_NAME,
    NO_CLOSING_ANGLE,
    NO_HANDLE,
    OPEN_HANDLE,
    NO_URI,
    NO_OCTET,
    BAD_LEAD_OCTET,
    BAD_NEXT_OCTET,
    INDICATOR_ZERO,
    TAB_IN_INDENTATION,
    DOCUMENT_MARKER,
    END_OF_TEXT,
    UNKNOWN_ESCAPE,
    NO_HEX_DIGIT,
    NO_SCALAR_VALUE,
    COLON_IN_FLOW,
    TAB_IN_PLAIN,
}

/// Why a reader failed. Two bytes, so that it stays in registers; `yaml_lexeme_fault` makes the fault of it.
#[derive(Clone, Copy)]
pub enum yaml_refusal_t {
    /// A growth was refused.
    MEMORY,
    /// An offence, at the place of the cursor.
    OFFENCE(yaml_problem_t),
}

impl From<AllocError> for yaml_refusal_t {
    ghost from_gives = { λ _ e. e ≡ MEMORY };

    #[cold]
    fn from(_e: AllocError) -> yaml_refusal_t {
        yaml_refusal_t::MEMORY
    }
}

impl<T: Drop> From<AllocFailed<T>> for yaml_refusal_t {
    ghost from_gives = { λ _ e. e ≡ MEMORY };

    #[cold]
    fn from(_e: AllocFailed<T>) -> yaml_refusal_t {
        yaml_refusal_t::MEMORY
    }
}

/// An offence, at the place of the cursor. It is cold, so that the compiler takes no reader's fault for likely.
#[cold]
pub(crate) fn offence(problem: yaml_problem_t) -> yaml_refusal_t
    ensures { result ≡ OFFENCE problem }
{
    yaml_refusal_t::OFFENCE(problem)
}

/// The same refusal. It is cold, as [`offence`] is.
#[cold]
pub(crate) fn refused(refusal: yaml_refusal_t) -> yaml_refusal_t
    ensures { result ≡ refusal }
{
    refusal
}
