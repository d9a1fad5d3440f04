//! The texts of a kind, a lexeme and a fault in a line.
use std::alloc::{AllocError, Global};
use std::io;
use std::io::Write;
use yaml_lexeme::{yaml_lexeme_kind_t, yaml_lexeme_t};
use yaml_text::{unnamed_yaml_token_t_data, yaml_fault_t, yaml_mark_t, yaml_scalar_style_t};

/// `INDEX:LINE:COLUMN`.
pub fn show_mark(alloc: Global, mark: yaml_mark_t) -> Result<String, AllocError> {
    let (index, line, column) = (mark.index, mark.line, mark.column);
    format!(in alloc; "{index}:{line}:{column}")
}

/// Writes a space, and a mark as `INDEX:LINE:COLUMN`.
pub fn put_mark(out: &mut impl Write, mark: yaml_mark_t) -> io::Result<()> {
    let (index, line, column) = (mark.index, mark.line, mark.column);
    write!(out, " {index}:{line}:{column}")
}

/// The name of a kind.
pub fn kind_name(kind: yaml_lexeme_kind_t) -> &'static str {
    match kind {
        yaml_lexeme_kind_t::STREAM_END => "STREAM_END",
        yaml_lexeme_kind_t::DIRECTIVE => "DIRECTIVE",
        yaml_lexeme_kind_t::DOCUMENT_START => "DOCUMENT_START",
        yaml_lexeme_kind_t::DOCUMENT_END => "DOCUMENT_END",
        yaml_lexeme_kind_t::FLOW_SEQUENCE_START => "FLOW_SEQUENCE_START",
        yaml_lexeme_kind_t::FLOW_MAPPING_START => "FLOW_MAPPING_START",
        yaml_lexeme_kind_t::FLOW_SEQUENCE_END => "FLOW_SEQUENCE_END",
        yaml_lexeme_kind_t::FLOW_MAPPING_END => "FLOW_MAPPING_END",
        yaml_lexeme_kind_t::FLOW_ENTRY => "FLOW_ENTRY",
        yaml_lexeme_kind_t::BLOCK_ENTRY => "BLOCK_ENTRY",
        yaml_lexeme_kind_t::KEY => "KEY",
        yaml_lexeme_kind_t::VALUE => "VALUE",
        yaml_lexeme_kind_t::ALIAS => "ALIAS",
        yaml_lexeme_kind_t::ANCHOR => "ANCHOR",
        yaml_lexeme_kind_t::TAG => "TAG",
        yaml_lexeme_kind_t::LITERAL => "LITERAL",
        yaml_lexeme_kind_t::FOLDED => "FOLDED",
        yaml_lexeme_kind_t::SINGLE_QUOTED => "SINGLE_QUOTED",
        yaml_lexeme_kind_t::DOUBLE_QUOTED => "DOUBLE_QUOTED",
        yaml_lexeme_kind_t::PLAIN => "PLAIN",
    }
}

/// Bytes in hexadecimal, and `-` for none.
pub fn show_bytes(alloc: Global, bytes: &[u8]) -> Result<String, AllocError> {
    let mut text = String::new(alloc);
    for b in bytes {
        let b = *b;
        text.push_str(format!(in alloc; "{b:02x}")?.as_str())?;
    }
    if text.is_empty() {
        text.push_str("-")?;
    }
    Ok(text)
}

/// Bytes in hexadecimal after a space.
fn show_one(alloc: Global, bytes: &[u8]) -> Result<String, AllocError> {
    let bytes = show_bytes(alloc, bytes)?;
    format!(in alloc; " {bytes}")
}

/// Two texts in hexadecimal, each after a space.
fn show_two(alloc: Global, first: &[u8], second: &[u8]) -> Result<String, AllocError> {
    let first = show_bytes(alloc, first)?;
    let second = show_bytes(alloc, second)?;
    format!(in alloc; " {first} {second}")
}

/// The two numbers of a version, each after a space.
fn show_version(alloc: Global, major: i32, minor: i32) -> Result<String, AllocError> {
    format!(in alloc; " {major} {minor}")
}

/// The text of a scalar in hexadecimal and its style, each after a space.
fn show_scalar(
    alloc: Global,
    value: &[u8],
    style: yaml_scalar_style_t,
) -> Result<String, AllocError> {
    let value = show_bytes(alloc, value)?;
    format!(in alloc; " {value} {style:?}")
}

/// The parts of what a lexeme says.
fn show_parts(alloc: Global, says: &unnamed_yaml_token_t_data) -> Result<String, AllocError> {
    match says {
        unnamed_yaml_token_t_data::VERSION_DIRECTIVE { major, minor } => {
            show_version(alloc, *major, *minor)
        }
        unnamed_yaml_token_t_data::TAG_DIRECTIVE { handle, prefix } => {
            show_two(alloc, handle, prefix)
        }
        unnamed_yaml_token_t_data::ALIAS { value } => show_one(alloc, value),
        unnamed_yaml_token_t_data::ANCHOR { value } => show_one(alloc, value),
        unnamed_yaml_token_t_data::TAG { handle, suffix } => show_two(alloc, handle, suffix),
        unnamed_yaml_token_t_data::SCALAR { value, style } => show_scalar(alloc, value, *style),
        _ => Ok(String::new(alloc)),
    }
}

/// The type of a lexeme's token, as listings name it.
fn type_name(says: &unnamed_yaml_token_t_data) -> &'static str {
    match says {
        unnamed_yaml_token_t_data::STREAM_END => "STREAM-END",
        unnamed_yaml_token_t_data::VERSION_DIRECTIVE { .. } => "VERSION-DIRECTIVE",
        unnamed_yaml_token_t_data::TAG_DIRECTIVE { .. } => "TAG-DIRECTIVE",
        unnamed_yaml_token_t_data::DOCUMENT_START => "DOCUMENT-START",
        unnamed_yaml_token_t_data::DOCUMENT_END => "DOCUMENT-END",
        unnamed_yaml_token_t_data::FLOW_SEQUENCE_START => "FLOW-SEQUENCE-START",
        unnamed_yaml_token_t_data::FLOW_SEQUENCE_END => "FLOW-SEQUENCE-END",
        unnamed_yaml_token_t_data::FLOW_MAPPING_START => "FLOW-MAPPING-START",
        unnamed_yaml_token_t_data::FLOW_MAPPING_END => "FLOW-MAPPING-END",
        unnamed_yaml_token_t_data::FLOW_ENTRY => "FLOW-ENTRY",
        unnamed_yaml_token_t_data::BLOCK_ENTRY => "BLOCK-ENTRY",
        unnamed_yaml_token_t_data::KEY => "KEY",
        unnamed_yaml_token_t_data::VALUE => "VALUE",
        unnamed_yaml_token_t_data::ALIAS { .. } => "ALIAS",
        unnamed_yaml_token_t_data::ANCHOR { .. } => "ANCHOR",
        unnamed_yaml_token_t_data::TAG { .. } => "TAG",
        unnamed_yaml_token_t_data::SCALAR { .. } => "SCALAR",
        _ => "NO-LEXEME",
    }
}

/// The line of a lexeme with these parts, and with these texts of its start, end and reach.
fn lexeme_line(
    alloc: Global,
    lexeme: &yaml_lexeme_t,
    parts: &str,
    marks: [&str; 3],
) -> Result<String, AllocError> {
    let [start, end, reach] = marks;
    let passed = lexeme.passed_break;
    let name = type_name(&lexeme.token_data);
    format!(in alloc; "LEXEME {name}{parts} {start} {end} {reach} {passed}")
}

/// The line of a lexeme: its type, its parts, its start, end and reach, and whether it passed a break.
pub fn show_lexeme(alloc: Global, lexeme: &yaml_lexeme_t) -> Result<String, AllocError> {
    let parts = show_parts(alloc, &lexeme.token_data)?;
    let start = show_mark(alloc, lexeme.start_mark)?;
    let end = show_mark(alloc, lexeme.end_mark)?;
    let reach = show_mark(alloc, lexeme.reach)?;
    let marks = [start.as_str(), end.as_str(), reach.as_str()];
    lexeme_line(alloc, lexeme, parts.as_str(), marks)
}

/// The line of a fault with these texts of its context's mark and its problem's.
fn fault_line(
    alloc: Global,
    fault: &yaml_fault_t,
    from: &str,
    at: &str,
) -> Result<String, AllocError> {
    let problem = fault.problem.unwrap_or("-");
    let context = fault.context.unwrap_or("-");
    format!(in alloc; "FAULT {from} {at} {context}; {problem}")
}

/// The line of a fault: the marks of its context and its problem, and their texts.
pub fn show_fault(alloc: Global, fault: &yaml_fault_t) -> Result<String, AllocError> {
    let at = show_mark(alloc, fault.problem_mark)?;
    let from = show_mark(alloc, fault.context_mark)?;
    fault_line(alloc, fault, from.as_str(), at.as_str())
}

/// The line of what is wrong with an input that is no text: the offset, the byte, unit or code point, and the problem.
pub fn show_refusal(alloc: Global, fault: &yaml_fault_t) -> Result<String, AllocError> {
    let problem = fault.problem.unwrap_or("-");
    let (offset, value) = (fault.problem_offset, fault.problem_value);
    format!(in alloc; "REFUSED {offset} {value} {problem}")
}
