//! The text of a YAML stream: its characters, how bytes spell them, the marks in it, and the types of its tokens.
#![tactic(auto)]

mod ascii;
mod blocks;
mod chars;
mod classes;
mod decode;
mod fault;
mod kept;
pub mod laws;
mod mark;
mod offence;
mod pieces;
mod text;
mod token;
mod types;
mod utf16;
mod utf8;

pub use classes::{
    AS_DIGIT, AS_HEX, IS_ALPHA, IS_ASCII, IS_BLANK, IS_BLANKZ, IS_BOM, IS_BREAK, IS_BREAKZ,
    IS_CRLF, IS_DIGIT, IS_HEX, IS_PRINTABLE, IS_SPACE, IS_TAB, IS_Z, WIDTH,
};
pub use decode::{yaml_decode, yaml_decode_front, yaml_encoding_of};
pub use fault::{make_memory_fault, make_scanner_fault, yaml_fault_t};
pub use kept::yaml_kept_text_t;
pub use mark::{yaml_index_from_end, yaml_is_place, yaml_mark_at};
pub use pieces::yaml_fault_to_come;
pub use text::yaml_text_t;
pub use token::{unnamed_yaml_token_t_data, yaml_token_t};
pub use types::{
    yaml_break_t, yaml_encoding_t, yaml_error_type_t, yaml_mapping_style_t, yaml_mark_t,
    yaml_scalar_style_t, yaml_sequence_style_t, yaml_simple_key_t, yaml_tag_directive_t,
    yaml_token_type_t, yaml_version_directive_t,
};
pub use utf8::{code_of, push_code};
