//! How the program ends.
ghost use Rattle.std.specs.Prelude.{◌≡◌};
ghost use Rattle.yaml_listing.specs.Outcome.{status_of};
ghost use Rattle.yaml_listing.specs.declared.outcome.tool_fault_t.TheVariants.{Memory};

use std::alloc::AllocError;
use thiserror::Error;

/// Why the program did not do its work.
#[derive(Clone, Copy, Debug, PartialEq, Eq, Error)]
pub enum tool_fault_t {
    /// The words of the command line spell no command.
    #[error("wrong arguments")]
    Args,
    /// A read of the input failed.
    #[error("read failed")]
    Read,
    /// A write of the listing failed, or took no byte.
    #[error("write failed")]
    Write,
    /// There was no memory for the input or for the listing.
    #[error("out of memory")]
    Memory,
}

impl From<AllocError> for tool_fault_t {
    ghost from_gives = { λ _ e. e ≡ Memory };

    fn from(_error: AllocError) -> tool_fault_t {
        tool_fault_t::Memory
    }
}

/// The exit status: 0 if no fault line was written, 1 if one was, 2 for wrong arguments, and 3 if
/// a read or a write failed or there was no memory for the input or the listing.
pub fn yaml_status(outcome: &Result<bool, tool_fault_t>) -> u8
    ensures { result ≡ status_of outcome.now }
{
    match outcome {
        Ok(false) => 0,
        Ok(true) => 1,
        Err(tool_fault_t::Args) => 2,
        Err(_) => 3,
    }
}
