//! The lexemes of a YAML text: gaps, kinds, and what each lexeme says.
#![tactic(auto)]

mod block;
mod classes;
mod directive;
mod escape;
mod fault_texts;
mod fold;
mod gap;
mod kind;
pub mod laws;
mod lex;
mod lexeme;
mod name;
mod place;
mod plain;
mod problem;
mod quoted;
mod reader;
mod runs;
mod short;
mod stream_end;
mod tag;
mod uri;

pub use gap::yaml_gap;
pub use kind::{yaml_decider_at, yaml_lexeme_kind, yaml_lexeme_kind_t};
pub use lex::{
    yaml_context_t, yaml_lexeme_at, yaml_lexeme_fault, yaml_marker_kind, yaml_read_character,
    yaml_read_marker, yaml_read_stream_end, yaml_spot_t,
};
pub use lexeme::{yaml_lexeme_t, yaml_part_t};
pub use problem::{yaml_problem_t, yaml_refusal_t};
pub use reader::{
    block_reader_t, directive_reader_t, name_reader_t, plain_reader_t, quoted_reader_t,
    tag_reader_t, yaml_reader_t,
};
