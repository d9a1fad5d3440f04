//! A digest of all that is returned.
ghost use Rattle.std.specs.Prelude.{◌+◌, ◌≤◌, length};

use yaml_scan::{
    unnamed_yaml_token_t_data, yaml_fault_t, yaml_lent_scalar_t, yaml_mark_t, yaml_scalar_style_t,
    yaml_token_t,
};

const FACTOR: u64 = 0x9E37_79B9_7F4A_7C15;

/// What was returned so far, as a number.
#[derive(Drop)]
pub struct digest_t {
    pub value: u64,
    /// How many tokens were returned.
    pub tokens: u64,
    /// How many faults were returned.
    pub faults: u64,
}

/// The eight bytes from a place on, as a number.
#[inline(always)]
fn eight_at(bytes: &[u8], at: usize) -> u64
    requires { at + 8 ≤ length bytes.now }
{
    u64::from_le_bytes([
        bytes[at],
        bytes[at + 1],
        bytes[at + 2],
        bytes[at + 3],
        bytes[at + 4],
        bytes[at + 5],
        bytes[at + 6],
        bytes[at + 7],
    ])
}

/// Fewer than eight bytes, as a number.
#[inline(always)]
fn few(bytes: &[u8]) -> u64 {
    let mut number: u64 = 0;
    for b in bytes {
        number = (number << 8) | u64::from(*b);
    }
    number
}

/// A text, as a number.
#[inline(always)]
fn text(bytes: &[u8]) -> u64 {
    let mut number = bytes.len() as u64;
    let words = bytes.len() / 8;
    for word in 0..words {
        number = number.rotate_left(7) ^ eight_at(bytes, word * 8).wrapping_mul(FACTOR);
    }
    number.rotate_left(7) ^ few(&bytes[words * 8..]).wrapping_mul(FACTOR)
}

/// A mark, as a number.
#[inline(always)]
fn mark(mark: yaml_mark_t) -> u64 {
    mark.index ^ (mark.line << 40) ^ (mark.column << 20)
}

/// The number of what a token says. Those of tokens that say nothing besides their type are below `BARE`.
#[inline(always)]
fn number_of(data: &unnamed_yaml_token_t_data) -> u64 {
    match data {
        unnamed_yaml_token_t_data::NO_TOKEN => 1,
        unnamed_yaml_token_t_data::STREAM_END => 2,
        unnamed_yaml_token_t_data::DOCUMENT_START => 3,
        unnamed_yaml_token_t_data::DOCUMENT_END => 4,
        unnamed_yaml_token_t_data::BLOCK_SEQUENCE_START => 5,
        unnamed_yaml_token_t_data::BLOCK_MAPPING_START => 6,
        unnamed_yaml_token_t_data::BLOCK_END => 7,
        unnamed_yaml_token_t_data::FLOW_SEQUENCE_START => 8,
        unnamed_yaml_token_t_data::FLOW_SEQUENCE_END => 9,
        unnamed_yaml_token_t_data::FLOW_MAPPING_START => 10,
        unnamed_yaml_token_t_data::FLOW_MAPPING_END => 11,
        unnamed_yaml_token_t_data::BLOCK_ENTRY => 12,
        unnamed_yaml_token_t_data::FLOW_ENTRY => 13,
        unnamed_yaml_token_t_data::KEY => 14,
        unnamed_yaml_token_t_data::VALUE => 15,
        unnamed_yaml_token_t_data::STREAM_START { encoding: _ } => 16,
        unnamed_yaml_token_t_data::VERSION_DIRECTIVE { major: _, minor: _ } => 17,
        unnamed_yaml_token_t_data::TAG_DIRECTIVE {
            handle: _,
            prefix: _,
        } => 18,
        unnamed_yaml_token_t_data::ALIAS { value: _ } => 19,
        unnamed_yaml_token_t_data::ANCHOR { value: _ } => 20,
        unnamed_yaml_token_t_data::TAG {
            handle: _,
            suffix: _,
        } => 21,
        unnamed_yaml_token_t_data::SCALAR { value: _, style: _ } => 22,
    }
}

const BARE: u64 = 16;

/// What a token says that is no scalar and says something besides its type, as a number.
#[inline(never)]
fn rest_of(data: &unnamed_yaml_token_t_data) -> u64 {
    match data {
        unnamed_yaml_token_t_data::STREAM_START { encoding } => *encoding as u64,
        unnamed_yaml_token_t_data::VERSION_DIRECTIVE { major, minor } => {
            text(&major.to_le_bytes()) ^ text(&minor.to_le_bytes()).rotate_left(9)
        }
        unnamed_yaml_token_t_data::TAG_DIRECTIVE { handle, prefix } => {
            text(handle) ^ text(prefix).rotate_left(9)
        }
        unnamed_yaml_token_t_data::TAG { handle, suffix } => {
            text(handle) ^ text(suffix).rotate_left(9)
        }
        unnamed_yaml_token_t_data::ALIAS { value } | unnamed_yaml_token_t_data::ANCHOR { value } =>
            text(value),
        _ => 0,
    }
}

/// What a scalar says, as a number.
#[inline(always)]
fn scalar(value: &[u8], style: yaml_scalar_style_t) -> u64 {
    (22 + (style as u64) * 32) ^ text(value).rotate_left(13)
}

/// What a token says that a sink was given, as a number. Where it is given, the compiler mostly knows its type.
#[inline(always)]
fn given(data: &unnamed_yaml_token_t_data) -> u64 {
    if let unnamed_yaml_token_t_data::SCALAR { value, style } = data {
        return scalar(value, *style);
    }
    let number = number_of(data);
    if number < BARE {
        return number;
    }
    number ^ rest_of(data).rotate_left(5)
}

/// What a token says that a call returned, as a number.
#[inline(always)]
fn returned(data: &unnamed_yaml_token_t_data) -> u64 {
    match data {
        unnamed_yaml_token_t_data::NO_TOKEN => 1,
        unnamed_yaml_token_t_data::STREAM_START { encoding } => 16 + (*encoding as u64) * 32,
        unnamed_yaml_token_t_data::STREAM_END => 2,
        unnamed_yaml_token_t_data::VERSION_DIRECTIVE { major, minor } => {
            17 ^ text(&major.to_le_bytes()) ^ text(&minor.to_le_bytes()).rotate_left(9)
        }
        unnamed_yaml_token_t_data::TAG_DIRECTIVE { handle, prefix } => {
            18 ^ text(handle) ^ text(prefix).rotate_left(9)
        }
        unnamed_yaml_token_t_data::DOCUMENT_START => 3,
        unnamed_yaml_token_t_data::DOCUMENT_END => 4,
        unnamed_yaml_token_t_data::BLOCK_SEQUENCE_START => 5,
        unnamed_yaml_token_t_data::BLOCK_MAPPING_START => 6,
        unnamed_yaml_token_t_data::BLOCK_END => 7,
        unnamed_yaml_token_t_data::FLOW_SEQUENCE_START => 8,
        unnamed_yaml_token_t_data::FLOW_SEQUENCE_END => 9,
        unnamed_yaml_token_t_data::FLOW_MAPPING_START => 10,
        unnamed_yaml_token_t_data::FLOW_MAPPING_END => 11,
        unnamed_yaml_token_t_data::BLOCK_ENTRY => 12,
        unnamed_yaml_token_t_data::FLOW_ENTRY => 13,
        unnamed_yaml_token_t_data::KEY => 14,
        unnamed_yaml_token_t_data::VALUE => 15,
        unnamed_yaml_token_t_data::ALIAS { value } => 19 ^ text(value),
        unnamed_yaml_token_t_data::ANCHOR { value } => 20 ^ text(value),
        unnamed_yaml_token_t_data::TAG { handle, suffix } => {
            21 ^ text(handle) ^ text(suffix).rotate_left(9)
        }
        unnamed_yaml_token_t_data::SCALAR { value, style } => scalar(value, *style),
    }
}

/// A text, or none, as a number.
fn named(text_or_none: Option<&'static str>) -> u64 {
    match text_or_none {
        Some(words) => text(words.as_bytes()),
        None => 0,
    }
}

impl digest_t {
    pub fn new() -> digest_t {
        digest_t {
            value: 0,
            tokens: 0,
            faults: 0,
        }
    }

    /// Takes in a number.
    #[inline(always)]
    pub fn put(&mut self, number: u64) {
        self.value = (self.value.rotate_left(23) ^ number).wrapping_mul(FACTOR);
    }

    /// Takes in what a token says, and its marks.
    #[inline(always)]
    fn put_said(&mut self, said: u64, start_mark: yaml_mark_t, end_mark: yaml_mark_t) {
        let marks = mark(start_mark) ^ mark(end_mark).rotate_left(32);
        self.put(said ^ marks.rotate_left(17));
        self.tokens = self.tokens.wrapping_add(1);
    }

    /// Takes in a token that a sink was given.
    #[inline(always)]
    pub fn put_given(&mut self, token: &yaml_token_t) {
        self.put_said(given(&token.token_data), token.start_mark, token.end_mark);
    }

    /// Takes in a scalar that a sink was lent, as its token.
    #[inline(always)]
    pub fn put_lent(&mut self, lent: &yaml_lent_scalar_t) {
        let said = scalar(lent.value, lent.style);
        self.put_said(said, lent.start_mark, lent.end_mark);
    }

    /// Takes in a token that a call returned.
    #[inline(always)]
    pub fn put_returned(&mut self, token: &yaml_token_t) {
        self.put_said(
            returned(&token.token_data),
            token.start_mark,
            token.end_mark,
        );
    }

    /// Takes in a fault.
    pub fn put_fault(&mut self, fault: &yaml_fault_t) {
        self.put(fault.error as u64);
        self.put(named(fault.context) ^ mark(fault.context_mark));
        self.put(named(fault.problem) ^ mark(fault.problem_mark));
        self.put(fault.problem_offset);
        self.put(text(&fault.problem_value.to_le_bytes()));
        self.faults = self.faults.wrapping_add(1);
    }
}
