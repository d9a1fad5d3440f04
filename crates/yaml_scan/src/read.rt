//! What a step has read, as far as the layout asks.
use crate::met::met_t;
use yaml_text::yaml_mark_t;

/// What a step has met, and what the layout needs of the lexeme that it read.
#[derive(Clone, Copy)]
pub(crate) struct read_t {
    pub met: met_t,
    /// How far was read.
    pub reach: yaml_mark_t,
    /// Whether it is a plain scalar, and a break is in the separator after it.
    pub passed_break: bool,
    /// How many bytes its texts have.
    pub texts: u128,
}
