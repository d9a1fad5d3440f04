//! The scanner of a YAML stream: its layout, its tokens.
#![tactic(auto)]

mod allowed;
mod batch;
mod calls;
mod decider;
mod depth;
mod fed;
mod flow;
mod follower;
mod give;
mod groups;
mod keys;
mod kind;
mod laid;
pub mod laws;
mod layout;
mod lend;
mod lent;
mod levels;
mod lines;
mod met;
mod near;
mod parser;
mod queue;
mod read;
mod scanner;
mod session;
mod settled;
mod sink;
#[cfg(test)]
mod slot_tests;
mod slots;
mod source;
mod state;
mod step;
mod stop;

pub use calls::{yaml_answer_t, yaml_call_t, yaml_run};
pub use fed::{yaml_fed_parser_t, yaml_fed_scan_to, yaml_fed_t};
pub use give::{yaml_scan_all, yaml_scan_all_limit, yaml_scan_next_to, yaml_scan_to};
pub use keys::{KEY_LIMIT, MOST_KEY_LIMIT};
pub use lent::yaml_lent_scalar_t;
pub use parser::{
    yaml_parser_fault, yaml_parser_has_token, yaml_parser_mark, yaml_parser_peek,
    yaml_parser_queued, yaml_parser_scan, yaml_parser_skip, yaml_parser_t, yaml_scan_next,
};
pub use scanner::{scanner_t as yaml_kept_parser_t, yaml_kept_peek, yaml_kept_scan_to};
pub use sink::yaml_token_sink_t;
pub use yaml_lexeme::{
    yaml_context_t, yaml_gap, yaml_lexeme_at, yaml_lexeme_kind, yaml_lexeme_kind_t, yaml_lexeme_t,
};
pub use yaml_text::{
    AS_DIGIT, AS_HEX, IS_ALPHA, IS_ASCII, IS_BLANK, IS_BLANKZ, IS_BOM, IS_BREAK, IS_BREAKZ,
    IS_CRLF, IS_DIGIT, IS_HEX, IS_PRINTABLE, IS_SPACE, IS_TAB, IS_Z, WIDTH,
    unnamed_yaml_token_t_data, yaml_break_t, yaml_decode, yaml_decode_front, yaml_encoding_of,
    yaml_encoding_t, yaml_error_type_t, yaml_fault_t, yaml_index_from_end, yaml_is_place,
    yaml_mapping_style_t, yaml_mark_at, yaml_mark_t, yaml_scalar_style_t, yaml_sequence_style_t,
    yaml_simple_key_t, yaml_tag_directive_t, yaml_text_t, yaml_token_t, yaml_token_type_t,
    yaml_version_directive_t,
};
