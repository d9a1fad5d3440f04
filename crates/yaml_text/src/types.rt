//! Marks, encodings, kinds of faults, styles, and the types of tokens.
use thiserror::Error;

/// A place in a text.
#[derive(Clone, Copy, Debug, PartialEq, Eq)]
pub struct yaml_mark_t {
    /// How many bytes of the text in UTF-8 come before it.
    pub index: u64,
    /// How many line breaks end before it.
    pub line: u64,
    /// How many characters come between the last of these breaks and it.
    pub column: u64,
}

/// How bytes spell a text (YAML 1.1, section 5.2).
#[derive(Clone, Copy, Debug, PartialEq, Eq, PartialOrd, Ord, Hash)]
pub enum yaml_encoding_t {
    /// As the byte order mark says, or UTF-8 without one.
    YAML_ANY_ENCODING,
    /// Octets.
    YAML_UTF8_ENCODING,
    /// The low byte of a unit first.
    YAML_UTF16LE_ENCODING,
    /// The high byte of a unit first.
    YAML_UTF16BE_ENCODING,
}

/// The kind of a fault. The scanner makes those of memory, reader and scanner.
#[derive(Clone, Copy, Debug, PartialEq, Eq, PartialOrd, Ord, Hash, Error)]
pub enum yaml_error_type_t {
    /// There is no fault.
    #[error("none")]
    YAML_NO_ERROR,
    /// Memory was refused.
    #[error("memory")]
    YAML_MEMORY_ERROR,
    /// The input spells no text.
    #[error("reader")]
    YAML_READER_ERROR,
    /// A lexeme of the text cannot be read, or is not allowed where it is.
    #[error("scanner")]
    YAML_SCANNER_ERROR,
    /// Of a parser's events. It is not made here.
    #[error("parser")]
    YAML_PARSER_ERROR,
    /// Of a composer's nodes. It is not made here.
    #[error("composer")]
    YAML_COMPOSER_ERROR,
    /// Of a writer's output. It is not made here.
    #[error("writer")]
    YAML_WRITER_ERROR,
    /// Of an emitter's events. It is not made here.
    #[error("emitter")]
    YAML_EMITTER_ERROR,
}

/// How a writer breaks lines.
#[derive(Clone, Copy, Debug, PartialEq, Eq, PartialOrd, Ord, Hash)]
pub enum yaml_break_t {
    /// Whichever the writer chooses.
    YAML_ANY_BREAK,
    /// Carriage return.
    YAML_CR_BREAK,
    /// Line feed.
    YAML_LN_BREAK,
    /// Carriage return and line feed.
    YAML_CRLN_BREAK,
}

/// How a scalar is written (YAML 1.1, chapter 9).
#[derive(Clone, Copy, Debug, PartialEq, Eq, PartialOrd, Ord, Hash)]
pub enum yaml_scalar_style_t {
    /// Whichever a writer chooses. No token has it.
    YAML_ANY_SCALAR_STYLE,
    /// Without quotes or an indicator.
    YAML_PLAIN_SCALAR_STYLE,
    /// Between `'`.
    YAML_SINGLE_QUOTED_SCALAR_STYLE,
    /// Between `"`.
    YAML_DOUBLE_QUOTED_SCALAR_STYLE,
    /// After `|`: breaks stay.
    YAML_LITERAL_SCALAR_STYLE,
    /// After `>`: breaks are folded.
    YAML_FOLDED_SCALAR_STYLE,
}

/// How a sequence is written.
#[derive(Clone, Copy, Debug, PartialEq, Eq, PartialOrd, Ord, Hash)]
pub enum yaml_sequence_style_t {
    /// Whichever a writer chooses.
    YAML_ANY_SEQUENCE_STYLE,
    /// A line with `-` for each entry.
    YAML_BLOCK_SEQUENCE_STYLE,
    /// Between `[` and `]`.
    YAML_FLOW_SEQUENCE_STYLE,
}

/// How a mapping is written.
#[derive(Clone, Copy, Debug, PartialEq, Eq, PartialOrd, Ord, Hash)]
pub enum yaml_mapping_style_t {
    /// Whichever a writer chooses.
    YAML_ANY_MAPPING_STYLE,
    /// A line for each key.
    YAML_BLOCK_MAPPING_STYLE,
    /// Between `{` and `}`.
    YAML_FLOW_MAPPING_STYLE,
}

/// The type of a token.
#[derive(Clone, Copy, Debug, PartialEq, Eq, PartialOrd, Ord, Hash)]
pub enum yaml_token_type_t {
    /// The empty token.
    YAML_NO_TOKEN,
    /// The start of the input.
    YAML_STREAM_START_TOKEN,
    /// The end of the input.
    YAML_STREAM_END_TOKEN,
    /// `%YAML`.
    YAML_VERSION_DIRECTIVE_TOKEN,
    /// `%TAG`.
    YAML_TAG_DIRECTIVE_TOKEN,
    /// `---`.
    YAML_DOCUMENT_START_TOKEN,
    /// `...`.
    YAML_DOCUMENT_END_TOKEN,
    /// Before the first entry of a block sequence.
    YAML_BLOCK_SEQUENCE_START_TOKEN,
    /// Before the first key of a block mapping.
    YAML_BLOCK_MAPPING_START_TOKEN,
    /// After a block sequence or mapping.
    YAML_BLOCK_END_TOKEN,
    /// `[`.
    YAML_FLOW_SEQUENCE_START_TOKEN,
    /// `]`.
    YAML_FLOW_SEQUENCE_END_TOKEN,
    /// `{`.
    YAML_FLOW_MAPPING_START_TOKEN,
    /// `}`.
    YAML_FLOW_MAPPING_END_TOKEN,
    /// `-`.
    YAML_BLOCK_ENTRY_TOKEN,
    /// `,`.
    YAML_FLOW_ENTRY_TOKEN,
    /// `?`, or before a key without one.
    YAML_KEY_TOKEN,
    /// `:`.
    YAML_VALUE_TOKEN,
    /// `*` and a name.
    YAML_ALIAS_TOKEN,
    /// `&` and a name.
    YAML_ANCHOR_TOKEN,
    /// A tag.
    YAML_TAG_TOKEN,
    /// A scalar.
    YAML_SCALAR_TOKEN,
}

/// What a `%YAML` directive says.
#[derive(Clone, Copy, PartialEq, Eq)]
pub struct yaml_version_directive_t {
    /// The number before the `.`.
    pub major: i32,
    /// The number after the `.`.
    pub minor: i32,
}

/// What a `%TAG` directive says, as bytes.
#[derive(Drop, PartialEq, Eq)]
pub struct yaml_tag_directive_t {
    /// `!`, or `!`, a name and `!`.
    pub handle: Vec<u8>,
    /// What the handle stands for. An octet that is written by `%` is in it as that octet.
    pub prefix: Vec<u8>,
}

/// A slot for a simple key.
#[derive(Clone, Copy, PartialEq, Eq)]
pub struct yaml_simple_key_t {
    /// Whether a key may be there.
    pub possible: bool,
    /// Whether it must be a key.
    pub required: bool,
    /// How many tokens come before the key's first one.
    pub token_number: u64,
    /// Where it starts.
    pub mark: yaml_mark_t,
}
