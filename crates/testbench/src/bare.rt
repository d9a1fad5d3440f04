//! The calls that take no memory, at each place of a text.
ghost use Rattle.std.specs.Prelude.{ℕ};
ghost use Rattle.yaml_lexeme.specs.Counted.{IsMarkOf};

use crate::ask::mark_at;
use crate::show::{kind_name, put_mark};
use std::alloc::Global;
use std::io;
use std::io::Write;
use yaml_lexeme::{
    yaml_context_t, yaml_decider_at, yaml_gap, yaml_lexeme_at, yaml_lexeme_kind, yaml_lexeme_kind_t,
};
use yaml_text::{
    AS_DIGIT, AS_HEX, IS_ALPHA, IS_ASCII, IS_BLANK, IS_BLANKZ, IS_BOM, IS_BREAK, IS_BREAKZ,
    IS_CRLF, IS_DIGIT, IS_HEX, IS_PRINTABLE, IS_SPACE, IS_TAB, IS_Z, WIDTH, yaml_mark_t,
    yaml_text_t,
};

/// Whether lexemes of a kind take no memory: the stream end, document markers and those of one character.
fn is_bare(kind: yaml_lexeme_kind_t) -> bool {
    match kind {
        yaml_lexeme_kind_t::STREAM_END
        | yaml_lexeme_kind_t::DOCUMENT_START
        | yaml_lexeme_kind_t::DOCUMENT_END
        | yaml_lexeme_kind_t::FLOW_SEQUENCE_START
        | yaml_lexeme_kind_t::FLOW_MAPPING_START
        | yaml_lexeme_kind_t::FLOW_SEQUENCE_END
        | yaml_lexeme_kind_t::FLOW_MAPPING_END
        | yaml_lexeme_kind_t::FLOW_ENTRY
        | yaml_lexeme_kind_t::BLOCK_ENTRY
        | yaml_lexeme_kind_t::KEY
        | yaml_lexeme_kind_t::VALUE => true,
        _ => false,
    }
}

/// Where a lexeme is asked for: the mark, and how many flow collections are open there.
#[derive(Clone, Copy)]
struct place_t {
    at: yaml_mark_t,
    depth: u64,
}

/// The end of the lexeme at a place if it takes no memory, and else the place.
fn bare_end(alloc: Global, text: &yaml_text_t, place: place_t) -> yaml_mark_t
    requires { (n : ℕ) × IsMarkOf text.now.chars place.at n }
{
    let context = yaml_context_t {
        depth: place.depth,
        level: None,
    };
    let Some(kind) = yaml_lexeme_kind(text, place.at, context.depth > 0) else {
        return place.at;
    };
    if !is_bare(kind) {
        return place.at;
    }
    match yaml_lexeme_at(alloc, text, place.at, kind, context) {
        Ok(lexeme) => lexeme.end_mark,
        Err(fault) => fault.problem_mark,
    }
}

fn name_of(kind: Option<yaml_lexeme_kind_t>) -> &'static str {
    match kind {
        Some(kind) => kind_name(kind),
        None => "-",
    }
}

/// Writes the gap, the kind and the end of the lexeme at a place, and what decides there.
fn put_lexeme(
    out: &mut impl Write,
    alloc: Global,
    text: &yaml_text_t,
    place: place_t,
) -> io::Result<()>
    requires { (n : ℕ) × IsMarkOf text.now.chars place.at n }
{
    let (at, in_flow) = (place.at, place.depth > 0);
    let (gap, broken) = yaml_gap(text, at, in_flow, true);
    put_mark(out, gap)?;
    put_mark(out, bare_end(alloc, text, place))?;
    let kind = name_of(yaml_lexeme_kind(text, at, in_flow));
    let decider = name_of(yaml_decider_at(text, at, in_flow));
    write!(out, " {broken} {kind} {decider}")
}

fn put_flags(out: &mut impl Write, flags: &[bool]) -> io::Result<()> {
    for flag in flags {
        let digit = u8::from(*flag);
        write!(out, " {digit}")?;
    }
    Ok(())
}

/// For each class whether it holds at an index.
fn classes(bytes: &[u8], at: usize) -> [bool; 14] {
    [
        IS_ALPHA(bytes, at),
        IS_DIGIT(bytes, at),
        IS_HEX(bytes, at),
        IS_ASCII(bytes, at),
        IS_PRINTABLE(bytes, at),
        IS_Z(bytes, at),
        IS_BOM(bytes, at),
        IS_SPACE(bytes, at),
        IS_TAB(bytes, at),
        IS_BLANK(bytes, at),
        IS_BREAK(bytes, at),
        IS_CRLF(bytes, at),
        IS_BREAKZ(bytes, at),
        IS_BLANKZ(bytes, at),
    ]
}

/// The values of a digit and of a hexadecimal digit at an index, or -1 if none is there.
fn digits(bytes: &[u8], at: usize) -> (i32, i32) {
    let digit = if IS_DIGIT(bytes, at) {
        AS_DIGIT(bytes, at)
    } else {
        -1
    };
    let hex = if IS_HEX(bytes, at) {
        AS_HEX(bytes, at)
    } else {
        -1
    };
    (digit, hex)
}

/// Writes for each class whether it holds at an index, and the value of a digit and the width of a character there.
fn put_classes(out: &mut impl Write, bytes: &[u8], at: usize) -> io::Result<()> {
    put_flags(out, &classes(bytes, at))?;
    let (digit, hex) = digits(bytes, at);
    let width = WIDTH(bytes, at);
    writeln!(out, " {digit} {hex} {width}")
}

/// Writes a line for an index, if it is a place: its mark, what is there outside of flow and in flow, and the classes.
fn put_place(
    out: &mut impl Write,
    alloc: Global,
    text: &yaml_text_t,
    index: usize,
) -> io::Result<()> {
    let Some(at) = mark_at(text, index) else {
        return Ok(());
    };
    write!(out, "PLACE")?;
    put_mark(out, at)?;
    put_lexeme(out, alloc, text, place_t { at, depth: 0 })?;
    put_lexeme(out, alloc, text, place_t { at, depth: 1 })?;
    put_classes(out, text.bytes(), index)
}

/// Makes the calls that take no memory at each place of a text, and writes a line for each place.
pub fn put_places(out: &mut impl Write, alloc: Global, text: &yaml_text_t) -> io::Result<()> {
    for index in 0..text.bytes().len() {
        put_place(out, alloc, text, index)?;
    }
    put_place(out, alloc, text, text.bytes().len())
}
