//! What a step has met before it reads its lexeme.

use crate::keys::candidate_t;
use yaml_lexeme::{yaml_context_t, yaml_lexeme_kind_t};

/// What a step has met: what its lexeme is read and laid with.
#[derive(Clone, Copy)]
pub(crate) struct met_t {
    pub kind: yaml_lexeme_kind_t,
    /// Whether it is inside a flow collection.
    pub in_flow: bool,
    /// Whether a key is allowed there.
    pub allowed: bool,
    /// What is kept of the lexeme, if it is a candidate. Its start is that of the lexeme, of whatever kind.
    pub new: candidate_t,
    pub context: yaml_context_t,
}
