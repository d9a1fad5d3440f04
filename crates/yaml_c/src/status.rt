//! What the calls return.

/// The call did what it does.
pub(crate) const DONE: u32 = 0;

/// The answer has the fault that comes next.
pub(crate) const FAULT: u32 = 1;

/// No such encoding, no such key limit, or no such window of the input.
pub(crate) const WRONG: u32 = 2;

/// Memory was refused.
pub(crate) const NO_MEMORY: u32 = 3;

/// The stream end, or the fault, was given before.
pub(crate) const OVER: u32 = 4;

/// The texts of what comes next are longer than the room for texts.
pub(crate) const NO_ROOM: u32 = 5;

/// The handle holds no scanner.
pub(crate) const NOT_LIVE: u32 = 6;

/// More of the input has to come.
pub(crate) const MORE: u32 = 7;

/// The input is in UTF-16, and all of it has to come.
pub(crate) const WHOLE: u32 = 8;
