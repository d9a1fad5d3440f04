//! Tokens: what a scanner returns.
ghost use Rattle.std.specs.Prelude.{◌≡◌};
ghost use Rattle.yaml_text.specs.Fault.{zero_mark};

use crate::types::{yaml_encoding_t, yaml_mark_t, yaml_scalar_style_t, yaml_token_type_t};

/// What a token says: one variant for each type. Texts are bytes: UTF-8, except what a tag or a `%TAG`
/// directive writes by `%`.
#[derive(Drop, PartialEq, Eq)]
pub enum unnamed_yaml_token_t_data {
    /// The empty token.
    NO_TOKEN,
    /// The start of the input.
    STREAM_START {
        /// How the input's bytes spell its text.
        encoding: yaml_encoding_t,
    },
    /// The end of the input.
    STREAM_END,
    /// `%YAML`.
    VERSION_DIRECTIVE {
        /// The number before the `.`.
        major: i32,
        /// The number after the `.`.
        minor: i32,
    },
    /// `%TAG`.
    TAG_DIRECTIVE {
        /// `!`, or `!`, a name and `!`.
        handle: Vec<u8>,
        /// What the handle stands for.
        prefix: Vec<u8>,
    },
    /// `---`.
    DOCUMENT_START,
    /// `...`.
    DOCUMENT_END,
    /// Before the first entry of a block sequence.
    BLOCK_SEQUENCE_START,
    /// Before the first key of a block mapping.
    BLOCK_MAPPING_START,
    /// After a block sequence or mapping.
    BLOCK_END,
    /// `[`.
    FLOW_SEQUENCE_START,
    /// `]`.
    FLOW_SEQUENCE_END,
    /// `{`.
    FLOW_MAPPING_START,
    /// `}`.
    FLOW_MAPPING_END,
    /// `-`.
    BLOCK_ENTRY,
    /// `,`.
    FLOW_ENTRY,
    /// `?`, or before a key without one.
    KEY,
    /// `:`.
    VALUE,
    /// `*` and a name.
    ALIAS {
        /// The name.
        value: Vec<u8>,
    },
    /// `&` and a name.
    ANCHOR {
        /// The name.
        value: Vec<u8>,
    },
    /// A tag.
    TAG {
        /// `!`, or `!`, a name and `!`; empty for a tag between `!<` and `>`, and for a lone `!`.
        handle: Vec<u8>,
        /// What comes after the handle.
        suffix: Vec<u8>,
    },
    /// A scalar.
    SCALAR {
        /// What it says.
        value: Vec<u8>,
        /// How it is written.
        style: yaml_scalar_style_t,
    },
}

impl unnamed_yaml_token_t_data {
    ghost use Rattle.yaml_text.specs.Token.{data_of, type_of};
    ghost use Rattle.yaml_text.specs.TokenLength.{length_of};

    /// The length of a scalar's value, in bytes; 0 for every other token.
    pub fn length(&self) -> u64
        ensures { result ≡ length_of (data_of self.now) }
    {
        match self {
            unnamed_yaml_token_t_data::SCALAR { value, style: _ } => value.len() as u64,
            _ => 0,
        }
    }

    fn type_(&self) -> yaml_token_type_t
        ensures { result ≡ type_of (data_of self.now) }
    {
        match self {
            unnamed_yaml_token_t_data::NO_TOKEN => yaml_token_type_t::YAML_NO_TOKEN,
            unnamed_yaml_token_t_data::STREAM_START { encoding: _ } => {
                yaml_token_type_t::YAML_STREAM_START_TOKEN
            }
            unnamed_yaml_token_t_data::STREAM_END => yaml_token_type_t::YAML_STREAM_END_TOKEN,
            unnamed_yaml_token_t_data::VERSION_DIRECTIVE { major: _, minor: _ } => {
                yaml_token_type_t::YAML_VERSION_DIRECTIVE_TOKEN
            }
            unnamed_yaml_token_t_data::TAG_DIRECTIVE {
                handle: _,
                prefix: _,
            } => { yaml_token_type_t::YAML_TAG_DIRECTIVE_TOKEN }
            unnamed_yaml_token_t_data::DOCUMENT_START => {
                yaml_token_type_t::YAML_DOCUMENT_START_TOKEN
            }
            unnamed_yaml_token_t_data::DOCUMENT_END => yaml_token_type_t::YAML_DOCUMENT_END_TOKEN,
            unnamed_yaml_token_t_data::BLOCK_SEQUENCE_START => {
                yaml_token_type_t::YAML_BLOCK_SEQUENCE_START_TOKEN
            }
            unnamed_yaml_token_t_data::BLOCK_MAPPING_START => {
                yaml_token_type_t::YAML_BLOCK_MAPPING_START_TOKEN
            }
            unnamed_yaml_token_t_data::BLOCK_END => yaml_token_type_t::YAML_BLOCK_END_TOKEN,
            unnamed_yaml_token_t_data::FLOW_SEQUENCE_START => {
                yaml_token_type_t::YAML_FLOW_SEQUENCE_START_TOKEN
            }
            unnamed_yaml_token_t_data::FLOW_SEQUENCE_END => {
                yaml_token_type_t::YAML_FLOW_SEQUENCE_END_TOKEN
            }
            unnamed_yaml_token_t_data::FLOW_MAPPING_START => {
                yaml_token_type_t::YAML_FLOW_MAPPING_START_TOKEN
            }
            unnamed_yaml_token_t_data::FLOW_MAPPING_END => {
                yaml_token_type_t::YAML_FLOW_MAPPING_END_TOKEN
            }
            unnamed_yaml_token_t_data::BLOCK_ENTRY => yaml_token_type_t::YAML_BLOCK_ENTRY_TOKEN,
            unnamed_yaml_token_t_data::FLOW_ENTRY => yaml_token_type_t::YAML_FLOW_ENTRY_TOKEN,
            unnamed_yaml_token_t_data::KEY => yaml_token_type_t::YAML_KEY_TOKEN,
            unnamed_yaml_token_t_data::VALUE => yaml_token_type_t::YAML_VALUE_TOKEN,
            unnamed_yaml_token_t_data::ALIAS { value: _ } => yaml_token_type_t::YAML_ALIAS_TOKEN,
            unnamed_yaml_token_t_data::ANCHOR { value: _ } => yaml_token_type_t::YAML_ANCHOR_TOKEN,
            unnamed_yaml_token_t_data::TAG {
                handle: _,
                suffix: _,
            } => { yaml_token_type_t::YAML_TAG_TOKEN }
            unnamed_yaml_token_t_data::SCALAR { value: _, style: _ } => {
                yaml_token_type_t::YAML_SCALAR_TOKEN
            }
        }
    }
}

/// A token: what it says, the mark of its start, and the mark after its last character.
#[derive(PartialEq, Eq, Drop)]
pub struct yaml_token_t {
    /// What it says.
    pub token_data: unnamed_yaml_token_t_data,
    /// The mark of its first character. A token without characters (the start or end of a stream or of a block
    /// collection, or a KEY without a `?`) has one mark twice: that of its place.
    pub start_mark: yaml_mark_t,
    /// The mark after its last character.
    pub end_mark: yaml_mark_t,
}

impl yaml_token_t {
    ghost use Rattle.yaml_text.specs.Token.{data_of, token_of, type_of};
    ghost use Rattle.yaml_text.specs.Token.TokenData.{NO_TOKEN};

    /// The token's type.
    pub fn type_(&self) -> yaml_token_type_t
        ensures { result ≡ type_of (data_of self.now.token_data) }
    {
        self.token_data.type_()
    }

    /// The empty token: of type `YAML_NO_TOKEN`, with zero marks.
    pub fn empty() -> yaml_token_t
        ensures { token_of result ≡ record { token_data = NO_TOKEN; start_mark = zero_mark; end_mark = zero_mark } }
    {
        let zero = yaml_mark_t {
            index: 0,
            line: 0,
            column: 0,
        };
        yaml_token_t {
            token_data: unnamed_yaml_token_t_data::NO_TOKEN,
            start_mark: zero,
            end_mark: zero,
        }
    }
}
