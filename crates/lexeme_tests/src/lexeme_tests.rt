//! Gaps, kinds and lexemes.
use std::alloc::Global;
use std::process::Abort;
use std::test::Fail;
use yaml_lexeme::{
    block_reader_t, directive_reader_t, name_reader_t, plain_reader_t, quoted_reader_t,
    tag_reader_t, yaml_context_t, yaml_decider_at, yaml_gap, yaml_lexeme_at, yaml_lexeme_fault,
    yaml_lexeme_kind, yaml_lexeme_kind_t, yaml_lexeme_t, yaml_part_t, yaml_read_character,
    yaml_read_marker, yaml_read_stream_end, yaml_reader_t, yaml_refusal_t, yaml_spot_t,
};
use yaml_text::{
    unnamed_yaml_token_t_data, yaml_decode, yaml_encoding_t, yaml_error_type_t, yaml_fault_t,
    yaml_is_place, yaml_mark_at, yaml_mark_t, yaml_scalar_style_t, yaml_text_t,
};

const ANY: yaml_encoding_t = yaml_encoding_t::YAML_ANY_ENCODING;

const FRONT: yaml_mark_t = yaml_mark_t {
    index: 0,
    line: 0,
    column: 0,
};

/// Outside of flow, with no level open.
const OUTSIDE: yaml_context_t = yaml_context_t {
    depth: 0,
    level: None,
};

/// What is shown where a reader finds no part.
const NO_PART: &str = "no part";

fn show_mark(alloc: Global, mark: yaml_mark_t) -> Result<String, Fail> {
    let (index, line, column) = (mark.index, mark.line, mark.column);
    Ok(format!(in alloc; "{index}:{line}:{column}")?)
}

fn show_bytes(alloc: Global, bytes: &[u8]) -> Result<String, Fail> {
    let mut shown = String::new(alloc);
    for byte in bytes {
        let pair = format!(in alloc; "{byte:02x}")?;
        shown.push_str(&pair)?;
    }
    if shown.is_empty() {
        shown.push('-')?;
    }
    Ok(shown)
}

fn show_two(alloc: Global, name: &str, first: &[u8], second: &[u8]) -> Result<String, Fail> {
    let (first, second) = (show_bytes(alloc, first)?, show_bytes(alloc, second)?);
    Ok(format!(in alloc; "{name} {first} {second}")?)
}

fn show_one(alloc: Global, name: &str, value: &[u8]) -> Result<String, Fail> {
    let value = show_bytes(alloc, value)?;
    Ok(format!(in alloc; "{name} {value}")?)
}

fn style_name(style: yaml_scalar_style_t) -> &'static str {
    match style {
        yaml_scalar_style_t::YAML_PLAIN_SCALAR_STYLE => "plain",
        yaml_scalar_style_t::YAML_SINGLE_QUOTED_SCALAR_STYLE => "single",
        yaml_scalar_style_t::YAML_DOUBLE_QUOTED_SCALAR_STYLE => "double",
        yaml_scalar_style_t::YAML_LITERAL_SCALAR_STYLE => "literal",
        yaml_scalar_style_t::YAML_FOLDED_SCALAR_STYLE => "folded",
        _ => "no style",
    }
}

/// The type of a token that says nothing more.
fn bare_name(data: &unnamed_yaml_token_t_data) -> &'static str {
    match data {
        unnamed_yaml_token_t_data::STREAM_END => "end",
        unnamed_yaml_token_t_data::DOCUMENT_START => "document start",
        unnamed_yaml_token_t_data::DOCUMENT_END => "document end",
        unnamed_yaml_token_t_data::FLOW_SEQUENCE_START => "sequence start",
        unnamed_yaml_token_t_data::FLOW_SEQUENCE_END => "sequence end",
        unnamed_yaml_token_t_data::FLOW_MAPPING_START => "mapping start",
        unnamed_yaml_token_t_data::FLOW_MAPPING_END => "mapping end",
        unnamed_yaml_token_t_data::FLOW_ENTRY => "flow entry",
        unnamed_yaml_token_t_data::BLOCK_ENTRY => "block entry",
        unnamed_yaml_token_t_data::KEY => "key",
        unnamed_yaml_token_t_data::VALUE => "value",
        _ => "no lexeme",
    }
}

fn show_data(alloc: Global, data: &unnamed_yaml_token_t_data) -> Result<String, Fail> {
    match data {
        unnamed_yaml_token_t_data::VERSION_DIRECTIVE { major, minor } => {
            Ok(format!(in alloc; "version {major} {minor}")?)
        }
        unnamed_yaml_token_t_data::TAG_DIRECTIVE { handle, prefix } => {
            show_two(alloc, "handle", handle.as_slice(), prefix.as_slice())
        }
        unnamed_yaml_token_t_data::TAG { handle, suffix } => {
            show_two(alloc, "tag", handle.as_slice(), suffix.as_slice())
        }
        unnamed_yaml_token_t_data::ALIAS { value } => show_one(alloc, "alias", value.as_slice()),
        unnamed_yaml_token_t_data::ANCHOR { value } => show_one(alloc, "anchor", value.as_slice()),
        unnamed_yaml_token_t_data::SCALAR { value, style } => {
            show_one(alloc, style_name(*style), value.as_slice())
        }
        _ => Ok(String::from_str(alloc, bare_name(data))?),
    }
}

/// Data, start, end, reach and flag.
fn show_lexeme(alloc: Global, lexeme: &yaml_lexeme_t) -> Result<String, Fail> {
    let data = show_data(alloc, &lexeme.token_data)?;
    let start = show_mark(alloc, lexeme.start_mark)?;
    let end = show_mark(alloc, lexeme.end_mark)?;
    let reach = show_mark(alloc, lexeme.reach)?;
    let passed = lexeme.passed_break;
    Ok(format!(in alloc; "{data} {start} {end} {reach} {passed}")?)
}

/// Context with its mark, problem with its mark.
fn show_fault(alloc: Global, fault: &yaml_fault_t) -> Result<String, Fail> {
    let context = fault.context.unwrap_or("-");
    let at = show_mark(alloc, fault.context_mark)?;
    let problem = fault.problem.unwrap_or("-");
    let there = show_mark(alloc, fault.problem_mark)?;
    Ok(format!(in alloc; "{context} {at}; {problem} {there}")?)
}

/// The text of these bytes, in the encoding that they are found to have.
fn decoded(alloc: Global, bytes: &[u8]) -> Result<yaml_text_t, Fail> {
    match yaml_decode(alloc, bytes, ANY) {
        Ok(text) => Ok(text),
        Err(_) => Err("refused".into()),
    }
}

/// The line of a lexeme or of a fault.
fn show_found(alloc: Global, found: Result<yaml_lexeme_t, yaml_fault_t>) -> Result<String, Fail> {
    match found {
        Ok(lexeme) => show_lexeme(alloc, &lexeme),
        Err(fault) => show_fault(alloc, &fault),
    }
}

/// The gap at the front of a text, and whether a break is in it.
fn show_gap(alloc: Global, bytes: &[u8], in_flow: bool, allowed: bool) -> Result<String, Fail> {
    let text = decoded(alloc, bytes)?;
    let (mark, broken) = yaml_gap(&text, FRONT, in_flow, allowed);
    let mark = show_mark(alloc, mark)?;
    Ok(format!(in alloc; "{mark} {broken}")?)
}

/// The kind after so many bytes of a text.
fn kind_after(
    alloc: Global,
    bytes: &[u8],
    index: usize,
    in_flow: bool,
) -> Result<Option<yaml_lexeme_kind_t>, Fail> {
    let text = decoded(alloc, bytes)?;
    if !yaml_is_place(&text, index) {
        return Err("no place".into());
    }
    let at = yaml_mark_at(&text, index);
    Ok(yaml_lexeme_kind(&text, at, in_flow))
}

fn kind_of(alloc: Global, bytes: &[u8], in_flow: bool) -> Result<Option<yaml_lexeme_kind_t>, Fail> {
    let text = decoded(alloc, bytes)?;
    Ok(yaml_lexeme_kind(&text, FRONT, in_flow))
}

/// The lexeme at the front of a text.
fn lexed(alloc: Global, bytes: &[u8], depth: u64, level: Option<u64>) -> Result<String, Fail> {
    let text = decoded(alloc, bytes)?;
    let Some(kind) = yaml_lexeme_kind(&text, FRONT, depth > 0) else {
        return Ok(String::from_str(alloc, "no kind")?);
    };
    if let Some(column) = level
        && column > text.bytes().len() as u64
    {
        return Ok(String::from_str(alloc, "no level")?);
    }
    let context = yaml_context_t { depth, level };
    show_found(alloc, yaml_lexeme_at(alloc, &text, FRONT, kind, context))
}

/// The lexeme after so many bytes of a text, outside of flow and with no level open.
fn lexed_after(alloc: Global, bytes: &[u8], index: usize) -> Result<String, Fail> {
    let text = decoded(alloc, bytes)?;
    if !yaml_is_place(&text, index) {
        return Err("no place".into());
    }
    let at = yaml_mark_at(&text, index);
    let Some(kind) = yaml_lexeme_kind(&text, at, false) else {
        return Ok(String::from_str(alloc, "no kind")?);
    };
    show_found(alloc, yaml_lexeme_at(alloc, &text, at, kind, OUTSIDE))
}

/// What a reader of a kind returned at the front of a text: the lexeme, or the fault of its refusal.
fn show_read(
    alloc: Global,
    read: Result<yaml_lexeme_t, yaml_refusal_t>,
    kind: yaml_lexeme_kind_t,
    there: yaml_mark_t,
) -> Result<String, Fail> {
    match read {
        Ok(lexeme) => show_lexeme(alloc, &lexeme),
        Err(refusal) => show_fault(alloc, &yaml_lexeme_fault(refusal, kind, FRONT, there)),
    }
}

/// What a reader returns at the front of a text.
fn read_by<R: yaml_reader_t>(
    alloc: Global,
    bytes: &[u8],
    context: yaml_context_t,
) -> Result<String, Fail> {
    let text = decoded(alloc, bytes)?;
    if let Some(column) = context.level
        && column > text.bytes().len() as u64
    {
        return Ok(String::from_str(alloc, "no level")?);
    }
    let mut spot = yaml_spot_t {
        text: &text,
        at: FRONT,
    };
    let read = R::read(alloc, Vec::new(alloc), &mut spot, context);
    show_read(alloc, read, R::KIND, spot.at)
}

/// The line of a part at the front of a text, which is that of the same lexeme.
fn show_part(alloc: Global, part: &yaml_part_t) -> Result<String, Fail> {
    let data = show_one(alloc, style_name(part.style), part.value)?;
    let start = show_mark(alloc, FRONT)?;
    let end = show_mark(alloc, part.end_mark)?;
    let reach = show_mark(alloc, part.reach)?;
    let passed = part.passed_break;
    Ok(format!(in alloc; "{data} {start} {end} {reach} {passed}")?)
}

/// The part that a reader finds at the front of a text.
fn part_by<R: yaml_reader_t>(
    alloc: Global,
    bytes: &[u8],
    context: yaml_context_t,
) -> Result<String, Fail> {
    let text = decoded(alloc, bytes)?;
    if let Some(column) = context.level
        && column > text.bytes().len() as u64
    {
        return Ok(String::from_str(alloc, "no level")?);
    }
    match R::part(&text, FRONT, context) {
        Some(part) => show_part(alloc, &part),
        None => Ok(String::from_str(alloc, NO_PART)?),
    }
}

/// The lexeme of one character at the front of a text.
fn character_read(alloc: Global, bytes: &[u8], in_flow: bool) -> Result<String, Fail> {
    let text = decoded(alloc, bytes)?;
    let Some(kind) = yaml_lexeme_kind(&text, FRONT, in_flow) else {
        return Ok(String::from_str(alloc, "no kind")?);
    };
    match kind {
        yaml_lexeme_kind_t::FLOW_SEQUENCE_START
        | yaml_lexeme_kind_t::FLOW_MAPPING_START
        | yaml_lexeme_kind_t::FLOW_SEQUENCE_END
        | yaml_lexeme_kind_t::FLOW_MAPPING_END
        | yaml_lexeme_kind_t::FLOW_ENTRY
        | yaml_lexeme_kind_t::BLOCK_ENTRY
        | yaml_lexeme_kind_t::KEY
        | yaml_lexeme_kind_t::VALUE => {
            show_lexeme(alloc, &yaml_read_character(&text, FRONT, kind))
        }
        yaml_lexeme_kind_t::DOCUMENT_START => {
            show_lexeme(alloc, &yaml_read_marker(&text, FRONT, true))
        }
        yaml_lexeme_kind_t::DOCUMENT_END => {
            show_lexeme(alloc, &yaml_read_marker(&text, FRONT, false))
        }
        _ => Ok(String::from_str(alloc, "no character")?),
    }
}

/// The stream end after the first bytes of a text.
fn stream_end_read(alloc: Global, bytes: &[u8], index: usize) -> Result<String, Fail> {
    let text = decoded(alloc, bytes)?;
    if !yaml_is_place(&text, index) {
        return Err("no place".into());
    }
    show_lexeme(
        alloc,
        &yaml_read_stream_end(&text, yaml_mark_at(&text, index)),
    )
}

/// The lexeme at the front of a text, by what reads its kind.
fn kind_read(
    alloc: Global,
    bytes: &[u8],
    kind: yaml_lexeme_kind_t,
    context: yaml_context_t,
) -> Result<String, Fail> {
    match kind {
        yaml_lexeme_kind_t::STREAM_END => stream_end_read(alloc, bytes, 0),
        yaml_lexeme_kind_t::DIRECTIVE => read_by::<directive_reader_t>(alloc, bytes, context),
        yaml_lexeme_kind_t::ALIAS => read_by::<name_reader_t<false>>(alloc, bytes, context),
        yaml_lexeme_kind_t::ANCHOR => read_by::<name_reader_t<true>>(alloc, bytes, context),
        yaml_lexeme_kind_t::TAG => read_by::<tag_reader_t>(alloc, bytes, context),
        yaml_lexeme_kind_t::LITERAL => read_by::<block_reader_t<false>>(alloc, bytes, context),
        yaml_lexeme_kind_t::FOLDED => read_by::<block_reader_t<true>>(alloc, bytes, context),
        yaml_lexeme_kind_t::SINGLE_QUOTED => {
            read_by::<quoted_reader_t<true>>(alloc, bytes, context)
        }
        yaml_lexeme_kind_t::DOUBLE_QUOTED => {
            read_by::<quoted_reader_t<false>>(alloc, bytes, context)
        }
        yaml_lexeme_kind_t::PLAIN => read_by::<plain_reader_t>(alloc, bytes, context),
        _ => character_read(alloc, bytes, context.depth > 0),
    }
}

/// The part at the front of a text that the reader of a kind finds.
fn part_of(
    alloc: Global,
    bytes: &[u8],
    kind: yaml_lexeme_kind_t,
    context: yaml_context_t,
) -> Result<String, Fail> {
    match kind {
        yaml_lexeme_kind_t::DIRECTIVE => part_by::<directive_reader_t>(alloc, bytes, context),
        yaml_lexeme_kind_t::ALIAS => part_by::<name_reader_t<false>>(alloc, bytes, context),
        yaml_lexeme_kind_t::ANCHOR => part_by::<name_reader_t<true>>(alloc, bytes, context),
        yaml_lexeme_kind_t::TAG => part_by::<tag_reader_t>(alloc, bytes, context),
        yaml_lexeme_kind_t::LITERAL => part_by::<block_reader_t<false>>(alloc, bytes, context),
        yaml_lexeme_kind_t::FOLDED => part_by::<block_reader_t<true>>(alloc, bytes, context),
        yaml_lexeme_kind_t::SINGLE_QUOTED => {
            part_by::<quoted_reader_t<true>>(alloc, bytes, context)
        }
        yaml_lexeme_kind_t::DOUBLE_QUOTED => {
            part_by::<quoted_reader_t<false>>(alloc, bytes, context)
        }
        yaml_lexeme_kind_t::PLAIN => part_by::<plain_reader_t>(alloc, bytes, context),
        _ => Ok(String::from_str(alloc, "no reader")?),
    }
}

/// The lexeme at the front of a text, by what reads the kind that is there.
fn lexeme_read(alloc: Global, bytes: &[u8], depth: u64) -> Result<String, Fail> {
    match kind_of(alloc, bytes, depth > 0)? {
        Some(kind) => kind_read(alloc, bytes, kind, yaml_context_t { depth, level: None }),
        None => Ok(String::from_str(alloc, "no kind")?),
    }
}

/// The kind at the front of a text, if it may decide there whether a scalar before it is a key.
fn decider_at(
    alloc: Global,
    bytes: &[u8],
    in_flow: bool,
) -> Result<Option<yaml_lexeme_kind_t>, Fail> {
    let text = decoded(alloc, bytes)?;
    Ok(yaml_decider_at(&text, FRONT, in_flow))
}

/// Asserts that what is shown of a text is as wanted.
fn expect_shown(rt: &impl Abort, text: &str, shown: &str, want: &str) {
    assert_eq!(rt; shown, want, "{text}");
}

/// Texts, the flow depth and the greatest open level at their front, and what their first lexeme must be.
fn expect_rows(
    rt: &impl Abort,
    alloc: Global,
    rows: &[(&str, u64, Option<u64>, &str)],
) -> Result<(), Fail> {
    for (text, depth, level, want) in rows {
        let shown = lexed(alloc, text.as_bytes(), *depth, *level)?;
        expect_shown(rt, text, shown.as_str(), want);
    }
    Ok(())
}

/// What is read at the front of a text.
#[derive(Clone, Copy)]
enum way_t {
    /// The gap: whether it is in flow, and whether a key is allowed.
    GAP(bool, bool),
    /// A scalar by the reader of its kind, at a flow depth and with a greatest open level.
    SCALAR(yaml_lexeme_kind_t, u64, Option<u64>),
    /// A lexeme by what reads the kind that is there, at a flow depth.
    LEXEME(u64),
    /// A lexeme of one character or a document marker, in flow or not.
    CHARACTER(bool),
    /// The stream end after so many bytes.
    END(usize),
}

/// What is shown of a text that is read in a way.
fn shown_of(alloc: Global, bytes: &[u8], way: way_t) -> Result<String, Fail> {
    match way {
        way_t::GAP(in_flow, allowed) => show_gap(alloc, bytes, in_flow, allowed),
        way_t::SCALAR(kind, depth, level) => {
            kind_read(alloc, bytes, kind, yaml_context_t { depth, level })
        }
        way_t::LEXEME(depth) => lexeme_read(alloc, bytes, depth),
        way_t::CHARACTER(in_flow) => character_read(alloc, bytes, in_flow),
        way_t::END(index) => stream_end_read(alloc, bytes, index),
    }
}

/// Texts, what is read at their front, and what must be shown of it.
fn expect_read(rt: &impl Abort, alloc: Global, rows: &[(&str, way_t, &str)]) -> Result<(), Fail> {
    for (text, way, want) in rows {
        let shown = shown_of(alloc, text.as_bytes(), *way)?;
        expect_shown(rt, text, shown.as_str(), want);
    }
    Ok(())
}

/// Asserts that a reader finds the part that is wanted at the front of a text, or none. If there is one, it is what the
/// reader reads there.
fn expect_part(
    rt: &impl Abort,
    alloc: Global,
    place: (&str, yaml_lexeme_kind_t, yaml_context_t),
    want: &str,
) -> Result<(), Fail> {
    let (text, kind, context) = place;
    let part = part_of(alloc, text.as_bytes(), kind, context)?;
    expect_shown(rt, text, part.as_str(), want);
    if want != NO_PART {
        let read = kind_read(alloc, text.as_bytes(), kind, context)?;
        expect_shown(rt, text, read.as_str(), want);
    }
    Ok(())
}

/// Texts, the flow depth and the greatest open level at their front, and the part that the reader of a kind must find.
fn expect_parts(
    rt: &impl Abort,
    alloc: Global,
    kind: yaml_lexeme_kind_t,
    rows: &[(&str, u64, Option<u64>, &str)],
) -> Result<(), Fail> {
    for (text, depth, level, want) in rows {
        let context = yaml_context_t {
            depth: *depth,
            level: *level,
        };
        expect_part(rt, alloc, (text, kind, context), want)?;
    }
    Ok(())
}

#[test]
fn gaps(rt: HostRuntime) -> Result<(), Fail> {
    const ROWS: [(&str, way_t, &str); 14] = [
        ("\r\n  x", way_t::GAP(false, false), "4:1:2 true"),
        ("\r\n\tx", way_t::GAP(false, false), "2:1:0 true"),
        ("\r\n  #c\r\nx", way_t::GAP(false, false), "8:2:0 true"),
        ("\r\n", way_t::GAP(true, true), "2:1:0 true"),
        ("\t#c\n  x", way_t::GAP(false, false), "6:1:2 true"),
        ("\t#c\n  x", way_t::GAP(false, true), "0:0:0 false"),
        ("\n\tx", way_t::GAP(false, false), "1:1:0 true"),
        ("\n\tx", way_t::GAP(true, false), "2:1:1 true"),
        ("\n\u{FEFF} x", way_t::GAP(false, false), "5:1:2 true"),
        (" \t #c", way_t::GAP(false, false), "5:0:5 false"),
        (" \t #c", way_t::GAP(false, true), "1:0:1 false"),
        ("\n \tx", way_t::GAP(true, true), "3:1:2 true"),
        (
            "#c\n#d\r\n\u{2028} #e\r  x",
            way_t::GAP(false, true),
            "16:4:2 true",
        ),
        ("#c\n\n \n\tx", way_t::GAP(false, false), "6:3:0 true"),
    ];
    expect_read(&rt, rt.alloc(), &ROWS)
}

/// A comment of so many x, what is between, and so many spaces.
fn comment(alloc: Global, between: &str, sizes: (u64, u64)) -> Result<String, Fail> {
    let (letters, spaces) = sizes;
    let mut text = String::from_str(alloc, "#")?;
    push_letters(&mut text, "x", letters)?;
    text.push_str(between)?;
    push_letters(&mut text, " ", spaces)?;
    Ok(text)
}

/// The line of the gap before a y that comes after a comment and spaces, which have so many bytes together. A break may
/// end the comment before the spaces.
fn gap_line(alloc: Global, broken: bool, len: usize, sizes: (u64, u64)) -> Result<String, Fail> {
    let (letters, spaces) = sizes;
    if broken {
        return Ok(format!(in alloc; "{len}:1:{spaces} true")?);
    }
    let end = (len as u64).saturating_add(1);
    let column = letters.saturating_add(spaces).saturating_add(3);
    Ok(format!(in alloc; "{end}:0:{column} false")?)
}

/// Compares the gap before a comment of so many x, a break, and spaces with what is wanted.
fn expect_comment(
    rt: &impl Abort,
    alloc: Global,
    break_is: (&str, bool),
    sizes: (u64, u64),
) -> Result<(), Fail> {
    let (between, broken) = break_is;
    let mut text = comment(alloc, between, sizes)?;
    let want = gap_line(alloc, broken, text.as_bytes().len(), sizes)?;
    text.push_str("y")?;
    let shown = show_gap(alloc, text.as_bytes(), false, true)?;
    expect_shown(rt, text.as_str(), shown.as_str(), want.as_str());
    Ok(())
}

#[test]
fn comments_of_each_length(rt: HostRuntime) -> Result<(), Fail> {
    const BREAKS: [(&str, bool); 8] = [
        ("\n", true),
        ("\r", true),
        ("\r\n", true),
        ("\u{85}", true),
        ("\u{2028}", true),
        ("\u{2029}", true),
        ("\u{a9}", false),
        ("\u{202a}", false),
    ];
    for break_is in BREAKS {
        for letters in 0..36u64 {
            for spaces in [0u64, 1, 14, 15, 16, 17, 33] {
                expect_comment(&rt, rt.alloc(), break_is, (letters, spaces))?;
            }
        }
    }
    Ok(())
}

/// Asserts that the kind that was found in a text is the one that is wanted.
fn expect_kind(
    rt: &impl Abort,
    text: &str,
    found: Option<yaml_lexeme_kind_t>,
    want: Option<yaml_lexeme_kind_t>,
) {
    assert!(rt; found == want, "{text}");
}

#[test]
fn kinds(rt: HostRuntime) -> Result<(), Fail> {
    const ROWS: [(&str, bool, yaml_lexeme_kind_t); 6] = [
        ("-x", false, yaml_lexeme_kind_t::PLAIN),
        ("-", false, yaml_lexeme_kind_t::BLOCK_ENTRY),
        ("---x", false, yaml_lexeme_kind_t::PLAIN),
        ("---", false, yaml_lexeme_kind_t::DOCUMENT_START),
        ("?x", false, yaml_lexeme_kind_t::PLAIN),
        ("?x", true, yaml_lexeme_kind_t::KEY),
    ];
    let alloc = rt.alloc();
    for (bytes, in_flow, want) in ROWS {
        let found = kind_of(alloc, bytes.as_bytes(), in_flow)?;
        expect_kind(&rt, bytes, found, Some(want));
    }
    Ok(())
}

#[test]
fn kinds_at_the_start_of_a_line(rt: HostRuntime) -> Result<(), Fail> {
    const ROWS: [(&str, usize, Option<yaml_lexeme_kind_t>); 3] = [
        (" %", 1, None),
        ("\n%", 1, Some(yaml_lexeme_kind_t::DIRECTIVE)),
        (" ---", 1, Some(yaml_lexeme_kind_t::PLAIN)),
    ];
    let alloc = rt.alloc();
    for (text, index, want) in ROWS {
        let found = kind_after(alloc, text.as_bytes(), index, false)?;
        expect_kind(&rt, text, found, want);
    }
    Ok(())
}

#[test]
fn no_kind(rt: HostRuntime) -> Result<(), Fail> {
    const ROWS: [(&str, u64, Option<u64>, &str); 2] = [
        ("@", 0, None, "no kind"),
        ("|", 1, None, "no kind"),
    ];
    expect_rows(&rt, rt.alloc(), &ROWS)
}

/// Document markers, and lexemes of one character.
#[test]
fn kinds_of_fixed_length(rt: HostRuntime) -> Result<(), Fail> {
    const ROWS: [(&str, u64, Option<u64>, &str); 13] = [
        ("---", 0, None, "document start 0:0:0 3:0:3 3:0:3 false"),
        ("---\n", 1, None, "document start 0:0:0 3:0:3 3:0:3 false"),
        ("... x", 0, None, "document end 0:0:0 3:0:3 3:0:3 false"),
        ("[a", 0, None, "sequence start 0:0:0 1:0:1 1:0:1 false"),
        ("]", 1, None, "sequence end 0:0:0 1:0:1 1:0:1 false"),
        ("{a", 1, None, "mapping start 0:0:0 1:0:1 1:0:1 false"),
        ("}", 0, None, "mapping end 0:0:0 1:0:1 1:0:1 false"),
        (",", 1, None, "flow entry 0:0:0 1:0:1 1:0:1 false"),
        ("- a", 0, Some(0), "block entry 0:0:0 1:0:1 1:0:1 false"),
        ("? a", 0, None, "key 0:0:0 1:0:1 1:0:1 false"),
        ("?a", 1, None, "key 0:0:0 1:0:1 1:0:1 false"),
        (": a", 0, None, "value 0:0:0 1:0:1 1:0:1 false"),
        (":a", 1, None, "value 0:0:0 1:0:1 1:0:1 false"),
    ];
    expect_rows(&rt, rt.alloc(), &ROWS)
}

#[test]
fn stream_end(rt: HostRuntime) -> Result<(), Fail> {
    const ROWS: [(&str, u64, Option<u64>, &str); 1] = [(
        "",
        0,
        None,
        "end 0:0:0 0:0:0 0:0:0 false",
    )];
    assert!(rt; kind_after(rt.alloc(), b"a", 1, false)? == Some(yaml_lexeme_kind_t::STREAM_END));
    let shown = lexed_after(rt.alloc(), b"a", 1)?;
    assert_eq!(rt; shown.as_str(), "end 1:1:0 1:1:0 1:1:0 false");
    expect_rows(&rt, rt.alloc(), &ROWS)
}

/// Separators in plain and quoted scalars.
#[test]
fn folded_separators(rt: HostRuntime) -> Result<(), Fail> {
    const ROWS: [(&str, u64, Option<u64>, &str); 5] = [
        ("a\n\nb", 0, None, "plain 610a62 0:0:0 4:2:1 4:2:1 false"),
        (
            "a\u{2028}b",
            0,
            None,
            "plain 61e280a862 0:0:0 5:1:1 5:1:1 false",
        ),
        ("a\r\nb", 0, None, "plain 612062 0:0:0 4:1:1 4:1:1 false"),
        (
            "\"a\u{2028}\nb\"",
            0,
            None,
            "double 61e280a80a62 0:0:0 8:2:2 8:2:2 false",
        ),
        (
            "\"a\n\n  b\"",
            0,
            None,
            "double 610a62 0:0:0 8:2:4 8:2:4 false",
        ),
    ];
    expect_rows(&rt, rt.alloc(), &ROWS)
}

#[test]
fn quoted_scalars(rt: HostRuntime) -> Result<(), Fail> {
    const ROWS: [(&str, u64, Option<u64>, &str); 4] = [
        (
            "'it''s'",
            0,
            None,
            "single 69742773 0:0:0 7:0:7 7:0:7 false",
        ),
        (
            "\"a  b \t\n c\"",
            0,
            None,
            "double 612020622063 0:0:0 11:1:3 11:1:3 false",
        ),
        (
            "\"a\n--- b\"",
            0,
            None,
            "while scanning a quoted scalar 0:0:0; found unexpected document indicator 3:1:0",
        ),
        (
            "'a",
            0,
            None,
            "while scanning a quoted scalar 0:0:0; found unexpected end of stream 2:0:2",
        ),
    ];
    expect_rows(&rt, rt.alloc(), &ROWS)
}

#[test]
fn escapes(rt: HostRuntime) -> Result<(), Fail> {
    const ROWS: [(&str, u64, Option<u64>, &str); 9] = [
        (
            "\"a\\\n\n b\"",
            0,
            None,
            "double 610a62 0:0:0 8:2:3 8:2:3 false",
        ),
        (
            "\"a\\\n  b\"",
            0,
            None,
            "double 6162 0:0:0 8:1:4 8:1:4 false",
        ),
        (
            "\"a\\x41\\u00e9\"",
            0,
            None,
            "double 6141c3a9 0:0:0 13:0:13 13:0:13 false",
        ),
        (
            "\"\\q\"",
            0,
            None,
            "while parsing a quoted scalar 0:0:0; found unknown escape character 1:0:1",
        ),
        (
            "\"\\",
            0,
            None,
            "while parsing a quoted scalar 0:0:0; found unknown escape character 1:0:1",
        ),
        (
            "\"\\uD800\"",
            0,
            None,
            "while parsing a quoted scalar 0:0:0; found invalid Unicode character escape code 3:0:3",
        ),
        (
            "\"\\U00110000\"",
            0,
            None,
            "while parsing a quoted scalar 0:0:0; found invalid Unicode character escape code 3:0:3",
        ),
        (
            "\"\\x4g\"",
            0,
            None,
            "while parsing a quoted scalar 0:0:0; did not find expected hexadecimal number 3:0:3",
        ),
        (
            "\"\\0\\a\\b\\t\\\t\\n\\v\\f\\r\\e\\ \\\"\\/\\\\\\N\\_\\L\\P\"",
            0,
            None,
            "double 00070809090a0b0c0d1b20222f5cc285c2a0e280a8e280a9 0:0:0 38:0:38 38:0:38 false",
        ),
    ];
    expect_rows(&rt, rt.alloc(), &ROWS)
}

#[test]
fn plain_scalars(rt: HostRuntime) -> Result<(), Fail> {
    const ROWS: [(&str, u64, Option<u64>, &str); 7] = [
        ("a b # c", 0, None, "plain 612062 0:0:0 3:0:3 4:0:4 false"),
        ("a#b", 0, None, "plain 612362 0:0:0 3:0:3 3:0:3 false"),
        ("a\nb", 0, Some(0), "plain 61 0:0:0 1:0:1 2:1:0 true"),
        ("a\n--- b", 0, None, "plain 61 0:0:0 1:0:1 2:1:0 true"),
        ("a:b", 1, None, "plain 613a62 0:0:0 3:0:3 3:0:3 false"),
        (
            "a :]",
            1,
            None,
            "while scanning a plain scalar 0:0:0; found unexpected ':' 2:0:2",
        ),
        (
            "a\n\tb",
            1,
            Some(0),
            "while scanning a plain scalar 0:0:0; found a tab character that violates indentation 2:1:0",
        ),
    ];
    expect_rows(&rt, rt.alloc(), &ROWS)
}

#[test]
fn plain_scalars_before_lines(rt: HostRuntime) -> Result<(), Fail> {
    const ROWS: [(&str, u64, Option<u64>, &str); 9] = [
        ("a\n]", 1, None, "plain 61 0:0:0 1:0:1 2:1:0 true"),
        ("a\n  }", 1, Some(3), "plain 61 0:0:0 1:0:1 4:1:2 true"),
        ("a\n ,b", 1, None, "plain 61 0:0:0 1:0:1 3:1:1 true"),
        ("a\n [b", 2, None, "plain 61 0:0:0 1:0:1 3:1:1 true"),
        ("a\n\n ]", 1, None, "plain 61 0:0:0 1:0:1 4:2:1 true"),
        ("a\nb]", 1, None, "plain 612062 0:0:0 3:1:1 3:1:1 false"),
        ("a\n b", 0, Some(1), "plain 61 0:0:0 1:0:1 3:1:1 true"),
        ("a\n  b", 0, Some(1), "plain 612062 0:0:0 5:1:3 5:1:3 false"),
        ("a\n ]", 0, None, "plain 61205d 0:0:0 4:1:2 4:1:2 false"),
    ];
    expect_rows(&rt, rt.alloc(), &ROWS)
}

#[test]
fn plain_scalars_before_blanks(rt: HostRuntime) -> Result<(), Fail> {
    const ROWS: [(&str, u64, Option<u64>, &str); 14] = [
        ("a  # c", 0, None, "plain 61 0:0:0 1:0:1 3:0:3 false"),
        ("a \t: b", 0, None, "plain 61 0:0:0 1:0:1 3:0:3 false"),
        ("a :b", 0, None, "plain 61203a62 0:0:0 4:0:4 4:0:4 false"),
        ("a - b", 0, None, "plain 61202d2062 0:0:0 5:0:5 5:0:5 false"),
        ("a \t,b", 1, None, "plain 61 0:0:0 1:0:1 3:0:3 false"),
        ("a  \nb", 0, Some(0), "plain 61 0:0:0 1:0:1 4:1:0 true"),
        ("a \t\n# c", 0, None, "plain 61 0:0:0 1:0:1 4:1:0 true"),
        ("a\r\nb", 0, Some(0), "plain 61 0:0:0 1:0:1 3:1:0 true"),
        ("a \r\n ]", 1, None, "plain 61 0:0:0 1:0:1 5:1:1 true"),
        ("a\rb", 0, Some(0), "plain 61 0:0:0 1:0:1 2:1:0 true"),
        ("a\r\n", 0, None, "plain 61 0:0:0 1:0:1 3:1:0 true"),
        ("a \r", 0, None, "plain 61 0:0:0 1:0:1 3:1:0 true"),
        (
            "a \r\n  b",
            0,
            Some(1),
            "plain 612062 0:0:0 7:1:3 7:1:3 false",
        ),
        (
            "a\r\n\r\n b",
            0,
            None,
            "plain 610a62 0:0:0 7:2:2 7:2:2 false",
        ),
    ];
    expect_rows(&rt, rt.alloc(), &ROWS)
}

/// So many times a letter.
fn push_letters(text: &mut String, letter: &str, count: u64) -> Result<(), Fail> {
    for _ in 0..count {
        text.push_str(letter)?;
    }
    Ok(())
}

/// So many x, what is between, and so many y, with a text at each end.
fn joined(
    alloc: Global,
    ends: (&str, &str),
    between: &str,
    sizes: (u64, u64),
) -> Result<String, Fail> {
    let ((first, last), (front, back)) = (ends, sizes);
    let mut text = String::from_str(alloc, first)?;
    push_letters(&mut text, "x", front)?;
    text.push_str(between)?;
    push_letters(&mut text, "y", back)?;
    text.push_str(last)?;
    Ok(text)
}

/// The line of a scalar that starts at the front of a text: its style, its value, and its end.
fn scalar_line(alloc: Global, style: &str, value: &str, end: yaml_mark_t) -> Result<String, Fail> {
    let bytes = show_bytes(alloc, value.as_bytes())?;
    let end = show_mark(alloc, end)?;
    let (bytes, end) = (bytes.as_str(), end.as_str());
    Ok(format!(in alloc; "{style} {bytes} 0:0:0 {end} {end} false")?)
}

/// Asserts that a text is read as one scalar of a style and a value, up to its end in a line and a column.
fn expect_scalar(
    rt: &impl Abort,
    alloc: Global,
    text: &str,
    want: (&str, &str, u64, u64),
) -> Result<(), Fail> {
    let (style, value, line, column) = want;
    let index = text.as_bytes().len() as u64;
    let end = yaml_mark_t {
        index,
        line,
        column,
    };
    let want = scalar_line(alloc, style, value, end)?;
    let shown = lexed(alloc, text.as_bytes(), 0, None)?;
    expect_shown(rt, text, shown.as_str(), want.as_str());
    Ok(())
}

/// Compares a plain scalar of x, a break or one character, and y with what is wanted. `kept` is what the scalar keeps
/// of what is between.
fn expect_between(
    rt: &impl Abort,
    alloc: Global,
    row: (&str, &str, bool),
    sizes: (u64, u64),
) -> Result<(), Fail> {
    let (between, kept, broken) = row;
    let (front, back) = sizes;
    let text = joined(alloc, ("", ""), between, sizes)?;
    let value = joined(alloc, ("", ""), kept, sizes)?;
    let (line, column) = if broken {
        (1, back)
    } else {
        (0, front.saturating_add(back).saturating_add(1))
    };
    expect_scalar(
        rt,
        alloc,
        text.as_str(),
        ("plain", value.as_str(), line, column),
    )
}

#[test]
fn first_bytes_of_breaks_at_each_place(rt: HostRuntime) -> Result<(), Fail> {
    const ROWS: [(&str, &str, bool); 10] = [
        ("\n", " ", true),
        ("\r", " ", true),
        ("\r\n", " ", true),
        ("\u{85}", " ", true),
        ("\u{2028}", "\u{2028}", true),
        ("\u{2029}", "\u{2029}", true),
        ("\u{a9}", "\u{a9}", false),
        ("\u{201c}", "\u{201c}", false),
        ("\u{202a}", "\u{202a}", false),
        ("\u{2128}", "\u{2128}", false),
    ];
    for row in ROWS {
        for front in 1..36u64 {
            for back in [1u64, 12, 13, 14, 15, 16, 17, 33] {
                expect_between(&rt, rt.alloc(), row, (front, back))?;
            }
        }
    }
    Ok(())
}

#[test]
fn block_headers(rt: HostRuntime) -> Result<(), Fail> {
    const ROWS: [(&str, u64, Option<u64>, &str); 9] = [
        ("|", 0, None, "literal - 0:0:0 1:0:1 1:0:1 false"),
        ("|#c\n a\n", 0, None, "literal 610a 0:0:0 7:2:0 7:2:0 false"),
        (
            "|0",
            0,
            None,
            "while scanning a block scalar 0:0:0; found an indentation indicator equal to 0 1:0:1",
        ),
        (
            "|+0",
            0,
            None,
            "while scanning a block scalar 0:0:0; found an indentation indicator equal to 0 2:0:2",
        ),
        (
            "|2x",
            0,
            None,
            "while scanning a block scalar 0:0:0; did not find expected comment or line break 2:0:2",
        ),
        (
            "|-2\n  a\n\n",
            0,
            None,
            "literal 61 0:0:0 9:3:0 9:3:0 false",
        ),
        (
            "|2-\n  a\n\n",
            0,
            None,
            "literal 61 0:0:0 9:3:0 9:3:0 false",
        ),
        (
            ">+1\n a\n\n",
            0,
            None,
            "folded 610a0a 0:0:0 8:3:0 8:3:0 false",
        ),
        (
            ">1+\n a\n\n",
            0,
            None,
            "folded 610a0a 0:0:0 8:3:0 8:3:0 false",
        ),
    ];
    expect_rows(&rt, rt.alloc(), &ROWS)
}

#[test]
fn block_indentation(rt: HostRuntime) -> Result<(), Fail> {
    const ROWS: [(&str, u64, Option<u64>, &str); 5] = [
        ("|2\n  a", 0, Some(1), "literal - 0:0:0 3:1:0 5:1:2 false"),
        ("|\n a\n ", 0, None, "literal 610a 0:0:0 5:2:0 6:2:1 false"),
        (
            "|\n a\n   \n b\n",
            0,
            None,
            "literal 610a20200a620a 0:0:0 12:4:0 12:4:0 false",
        ),
        (
            "|\n\ta",
            0,
            None,
            "while scanning a block scalar 0:0:0; found a tab character where an indentation space is expected 2:1:0",
        ),
        ("|\n   \n a", 0, None, "literal - 0:0:0 6:2:0 7:2:1 false"),
    ];
    expect_rows(&rt, rt.alloc(), &ROWS)
}

#[test]
fn block_values(rt: HostRuntime) -> Result<(), Fail> {
    const ROWS: [(&str, u64, Option<u64>, &str); 6] = [
        (
            "|-\n a\n\n b\n\n",
            0,
            None,
            "literal 610a0a62 0:0:0 11:5:0 11:5:0 false",
        ),
        (
            ">\n a\n b\n",
            0,
            None,
            "folded 6120620a 0:0:0 8:3:0 8:3:0 false",
        ),
        (
            ">\n a\n  b\n c\n",
            0,
            None,
            "folded 610a20620a630a 0:0:0 12:4:0 12:4:0 false",
        ),
        (
            ">\n\n a\n",
            0,
            None,
            "folded 0a610a 0:0:0 6:3:0 6:3:0 false",
        ),
        (
            ">-\n a\n\n b\n",
            0,
            None,
            "folded 610a62 0:0:0 10:4:0 10:4:0 false",
        ),
        (
            "|+\n a\n\n",
            0,
            None,
            "literal 610a0a 0:0:0 7:3:0 7:3:0 false",
        ),
    ];
    expect_rows(&rt, rt.alloc(), &ROWS)
}

/// Compares a literal or a folded scalar with what is wanted: a line of x, then what is between, then y up to a line
/// feed. The row has its style and its front, what is between, what it keeps of that, and the line of its end.
fn expect_line(
    rt: &impl Abort,
    alloc: Global,
    row: ((&str, &str), &str, &str, u64),
    sizes: (u64, u64),
) -> Result<(), Fail> {
    let ((style, first), between, kept, line) = row;
    let text = joined(alloc, (first, "\n"), between, sizes)?;
    let value = joined(alloc, ("", "\n"), kept, sizes)?;
    expect_scalar(rt, alloc, text.as_str(), (style, value.as_str(), line, 0))
}

/// Compares a literal and a folded scalar with what is wanted. Of what is between the literal one keeps `kept`, and the
/// folded one `folded`.
fn expect_lines(
    rt: &impl Abort,
    alloc: Global,
    row: (&str, &str, &str, u64),
    sizes: (u64, u64),
) -> Result<(), Fail> {
    let (between, kept, folded, line) = row;
    expect_line(rt, alloc, (("literal", "|\n "), between, kept, line), sizes)?;
    expect_line(
        rt,
        alloc,
        (("folded", ">\n "), between, folded, line),
        sizes,
    )
}

#[test]
fn block_lines_of_each_length(rt: HostRuntime) -> Result<(), Fail> {
    const ROWS: [(&str, &str, &str, u64); 13] = [
        ("\n ", "\n", " ", 3),
        ("\r ", "\n", " ", 3),
        ("\r\n ", "\n", " ", 3),
        ("\u{85} ", "\n", " ", 3),
        ("\u{2028} ", "\u{2028}", "\u{2028}", 3),
        ("\u{2029} ", "\u{2029}", "\u{2029}", 3),
        ("\n\n ", "\n\n", "\n", 4),
        ("\r\n\r\n ", "\n\n", "\n", 4),
        ("\n\u{2028}\n ", "\n\u{2028}\n", "\u{2028}\n", 5),
        ("\u{a9}", "\u{a9}", "\u{a9}", 2),
        ("\u{201c}", "\u{201c}", "\u{201c}", 2),
        ("\u{202a}", "\u{202a}", "\u{202a}", 2),
        ("\u{2128}", "\u{2128}", "\u{2128}", 2),
    ];
    for row in ROWS {
        for front in 1..67u64 {
            for back in [1u64, 15, 16, 17, 64] {
                expect_lines(&rt, rt.alloc(), row, (front, back))?;
            }
        }
    }
    Ok(())
}

#[test]
fn ends_of_block_scalars(rt: HostRuntime) -> Result<(), Fail> {
    const ROWS: [(&str, u64, Option<u64>, &str); 9] = [
        ("|+\n a", 0, None, "literal 61 0:0:0 5:1:2 5:1:2 false"),
        ("|+\n a\r", 0, None, "literal 610a 0:0:0 6:2:0 6:2:0 false"),
        (
            "|+\n a\r\n",
            0,
            None,
            "literal 610a 0:0:0 7:2:0 7:2:0 false",
        ),
        (
            "|+\n a\u{85}",
            0,
            None,
            "literal 610a 0:0:0 7:2:0 7:2:0 false",
        ),
        (
            "|+\n a\u{2028}",
            0,
            None,
            "literal 61e280a8 0:0:0 8:2:0 8:2:0 false",
        ),
        (
            "|+\n a\r\n\r\n",
            0,
            None,
            "literal 610a0a 0:0:0 9:3:0 9:3:0 false",
        ),
        (
            "|+\n a\n\u{2028}\n",
            0,
            None,
            "literal 610ae280a80a 0:0:0 10:4:0 10:4:0 false",
        ),
        ("|-\n a\n\n", 0, None, "literal 61 0:0:0 7:3:0 7:3:0 false"),
        (
            ">\n a\r\n\n",
            0,
            None,
            "folded 610a 0:0:0 7:3:0 7:3:0 false",
        ),
    ];
    expect_rows(&rt, rt.alloc(), &ROWS)
}

/// Anchors and aliases.
#[test]
fn names(rt: HostRuntime) -> Result<(), Fail> {
    const ROWS: [(&str, u64, Option<u64>, &str); 11] = [
        ("&a]", 0, None, "anchor 61 0:0:0 2:0:2 2:0:2 false"),
        ("*a]", 0, None, "alias 61 0:0:0 2:0:2 2:0:2 false"),
        (
            "&",
            0,
            None,
            "while scanning an anchor 0:0:0; did not find expected alphabetic or numeric character 1:0:1",
        ),
        (
            "*a.b",
            0,
            None,
            "while scanning an alias 0:0:0; did not find expected alphabetic or numeric character 2:0:2",
        ),
        ("&a?", 0, None, "anchor 61 0:0:0 2:0:2 2:0:2 false"),
        ("&a:", 0, None, "anchor 61 0:0:0 2:0:2 2:0:2 false"),
        ("&a,", 0, None, "anchor 61 0:0:0 2:0:2 2:0:2 false"),
        ("&a}", 0, None, "anchor 61 0:0:0 2:0:2 2:0:2 false"),
        ("&a%", 0, None, "anchor 61 0:0:0 2:0:2 2:0:2 false"),
        ("*a@", 0, None, "alias 61 0:0:0 2:0:2 2:0:2 false"),
        ("*a`", 0, None, "alias 61 0:0:0 2:0:2 2:0:2 false"),
    ];
    expect_rows(&rt, rt.alloc(), &ROWS)
}

#[test]
fn uris(rt: HostRuntime) -> Result<(), Fail> {
    const ROWS: [(&str, u64, Option<u64>, &str); 8] = [
        ("!%00 x", 0, None, "tag 21 00 0:0:0 4:0:4 4:0:4 false"),
        ("!%C0%80 x", 0, None, "tag 21 c080 0:0:0 7:0:7 7:0:7 false"),
        (
            "!a%4",
            0,
            None,
            "while parsing a tag 0:0:0; did not find URI escaped octet 2:0:2",
        ),
        (
            "!%80",
            0,
            None,
            "while parsing a tag 0:0:0; found an incorrect leading UTF-8 octet 1:0:1",
        ),
        (
            "!%C3%41",
            0,
            None,
            "while parsing a tag 0:0:0; found an incorrect trailing UTF-8 octet 4:0:4",
        ),
        (
            "!%C3x",
            0,
            None,
            "while parsing a tag 0:0:0; did not find URI escaped octet 4:0:4",
        ),
        (
            "!<09AZaz_-;/?:@&=+$.!~*'(),[]> x",
            0,
            None,
            "tag - 3039415a617a5f2d3b2f3f3a40263d2b242e217e2a2728292c5b5d 0:0:0 30:0:30 30:0:30 false",
        ),
        (
            "!09AZaz_-!09AZaz_-;/?:@&=+$.!~*'() x",
            0,
            None,
            "tag 213039415a617a5f2d21 3039415a617a5f2d3b2f3f3a40263d2b242e217e2a272829 0:0:0 34:0:34 34:0:34 false",
        ),
    ];
    expect_rows(&rt, rt.alloc(), &ROWS)
}

#[test]
fn tags(rt: HostRuntime) -> Result<(), Fail> {
    const ROWS: [(&str, u64, Option<u64>, &str); 7] = [
        ("! x", 0, None, "tag - 21 0:0:0 1:0:1 1:0:1 false"),
        (
            "!!str x",
            0,
            None,
            "tag 2121 737472 0:0:0 5:0:5 5:0:5 false",
        ),
        (
            "!<tag:x,2000:y> z",
            0,
            None,
            "tag - 7461673a782c323030303a79 0:0:0 15:0:15 15:0:15 false",
        ),
        (
            "!<x",
            0,
            None,
            "while scanning a tag 0:0:0; did not find the expected '>' 3:0:3",
        ),
        (
            "!<>",
            0,
            None,
            "while parsing a tag 0:0:0; did not find expected tag URI 2:0:2",
        ),
        (
            "!!",
            0,
            None,
            "while parsing a tag 0:0:0; did not find expected tag URI 2:0:2",
        ),
        (
            "!!str]",
            1,
            None,
            "while scanning a tag 0:0:0; did not find expected whitespace or line break 5:0:5",
        ),
    ];
    expect_rows(&rt, rt.alloc(), &ROWS)
}

#[test]
fn directives(rt: HostRuntime) -> Result<(), Fail> {
    const ROWS: [(&str, u64, Option<u64>, &str); 2] = [
        (
            "%YAML 1.1 # c\n",
            0,
            None,
            "version 1 1 0:0:0 9:0:9 14:1:0 false",
        ),
        ("%TAG ! x", 0, None, "handle 21 78 0:0:0 8:0:8 8:0:8 false"),
    ];
    expect_rows(&rt, rt.alloc(), &ROWS)
}

#[test]
fn directives_refused(rt: HostRuntime) -> Result<(), Fail> {
    const ROWS: [(&str, u64, Option<u64>, &str); 12] = [
        (
            "%",
            0,
            None,
            "while scanning a directive 0:0:0; could not find expected directive name 1:0:1",
        ),
        (
            "%A!",
            0,
            None,
            "while scanning a directive 0:0:0; found unexpected non-alphabetical character 2:0:2",
        ),
        (
            "%FOO x",
            0,
            None,
            "while scanning a directive 0:0:0; found unknown directive name 4:0:4",
        ),
        (
            "%YAML x",
            0,
            None,
            "while scanning a %YAML directive 0:0:0; did not find expected version number 6:0:6",
        ),
        (
            "%YAML 1 .1",
            0,
            None,
            "while scanning a %YAML directive 0:0:0; did not find expected digit or '.' character 7:0:7",
        ),
        (
            "%YAML 1234567890.1",
            0,
            None,
            "while scanning a %YAML directive 0:0:0; found extremely long version number 15:0:15",
        ),
        (
            "%YAML 1.1x",
            0,
            None,
            "while scanning a directive 0:0:0; did not find expected comment or line break 9:0:9",
        ),
        (
            "%TAG x",
            0,
            None,
            "while scanning a tag directive 0:0:0; did not find expected '!' 5:0:5",
        ),
        (
            "%TAG !a b",
            0,
            None,
            "while parsing a tag directive 0:0:0; did not find expected '!' 7:0:7",
        ),
        (
            "%TAG !a!x",
            0,
            None,
            "while scanning a %TAG directive 0:0:0; did not find expected whitespace 8:0:8",
        ),
        (
            "%TAG !a! ",
            0,
            None,
            "while parsing a %TAG directive 0:0:0; did not find expected tag URI 9:0:9",
        ),
        (
            "%TAG !a! x\"",
            0,
            None,
            "while scanning a %TAG directive 0:0:0; did not find expected whitespace or line break 10:0:10",
        ),
    ];
    expect_rows(&rt, rt.alloc(), &ROWS)
}

/// Plain scalars of one line and of two, and one that has an offence.
#[test]
fn plain_scalars_read(rt: HostRuntime) -> Result<(), Fail> {
    const PLAIN: yaml_lexeme_kind_t = yaml_lexeme_kind_t::PLAIN;
    const ROWS: [(&str, way_t, &str); 9] = [
        (
            "ab: c",
            way_t::SCALAR(PLAIN, 0, None),
            "plain 6162 0:0:0 2:0:2 2:0:2 false",
        ),
        (
            "a b]",
            way_t::SCALAR(PLAIN, 1, None),
            "plain 612062 0:0:0 3:0:3 3:0:3 false",
        ),
        (
            "a b\n",
            way_t::SCALAR(PLAIN, 0, Some(0)),
            "plain 612062 0:0:0 3:0:3 4:1:0 true",
        ),
        (
            "a\n b",
            way_t::SCALAR(PLAIN, 0, Some(1)),
            "plain 61 0:0:0 1:0:1 3:1:1 true",
        ),
        (
            "a\n b",
            way_t::SCALAR(PLAIN, 0, Some(0)),
            "plain 612062 0:0:0 4:1:2 4:1:2 false",
        ),
        (
            "a\nb",
            way_t::SCALAR(PLAIN, 0, None),
            "plain 612062 0:0:0 3:1:1 3:1:1 false",
        ),
        (
            "a # c",
            way_t::SCALAR(PLAIN, 0, None),
            "plain 61 0:0:0 1:0:1 2:0:2 false",
        ),
        (
            "a:]",
            way_t::SCALAR(PLAIN, 1, None),
            "while scanning a plain scalar 0:0:0; found unexpected ':' 1:0:1",
        ),
        (
            "a:]",
            way_t::SCALAR(PLAIN, 0, None),
            "plain 613a5d 0:0:0 3:0:3 3:0:3 false",
        ),
    ];
    expect_read(&rt, rt.alloc(), &ROWS)
}

/// Quoted scalars whose value is what is between the quotes, some that have an escape or a break, and one with no end.
#[test]
fn quoted_scalars_read(rt: HostRuntime) -> Result<(), Fail> {
    const SINGLE: yaml_lexeme_kind_t = yaml_lexeme_kind_t::SINGLE_QUOTED;
    const DOUBLE: yaml_lexeme_kind_t = yaml_lexeme_kind_t::DOUBLE_QUOTED;
    const ROWS: [(&str, way_t, &str); 8] = [
        (
            "\"a b\": c",
            way_t::SCALAR(DOUBLE, 0, None),
            "double 612062 0:0:0 5:0:5 5:0:5 false",
        ),
        (
            "''",
            way_t::SCALAR(SINGLE, 0, None),
            "single - 0:0:0 2:0:2 2:0:2 false",
        ),
        (
            "'a\\n\"'\n",
            way_t::SCALAR(SINGLE, 0, None),
            "single 615c6e22 0:0:0 6:0:6 6:0:6 false",
        ),
        (
            "'a''b'",
            way_t::SCALAR(SINGLE, 0, None),
            "single 612762 0:0:0 6:0:6 6:0:6 false",
        ),
        (
            "\"a\\n\"",
            way_t::SCALAR(DOUBLE, 0, None),
            "double 610a 0:0:0 5:0:5 5:0:5 false",
        ),
        (
            "\"a\n b\"",
            way_t::SCALAR(DOUBLE, 0, None),
            "double 612062 0:0:0 6:1:3 6:1:3 false",
        ),
        (
            "\"a",
            way_t::SCALAR(DOUBLE, 0, None),
            "while scanning a quoted scalar 0:0:0; found unexpected end of stream 2:0:2",
        ),
        (
            "'\u{2028}'",
            way_t::SCALAR(SINGLE, 0, None),
            "single e280a8 0:0:0 5:1:1 5:1:1 false",
        ),
    ];
    expect_read(&rt, rt.alloc(), &ROWS)
}

/// The part of a scalar of x, what is between, and y, in the middle of a line.
fn expect_long_part(
    rt: &impl Abort,
    alloc: Global,
    scalar: (yaml_lexeme_kind_t, &str, &str, &str),
    sizes: (u64, u64),
) -> Result<(), Fail> {
    let (kind, style, quote, between) = scalar;
    let value = joined(alloc, ("", ""), between, sizes)?;
    let mut text = joined(alloc, (quote, quote), between, sizes)?;
    let index = text.as_bytes().len() as u64;
    let end = yaml_mark_t {
        index,
        line: 0,
        column: index,
    };
    let want = scalar_line(alloc, style, value.as_str(), end)?;
    text.push_str(": c")?;
    expect_part(rt, alloc, (text.as_str(), kind, OUTSIDE), want.as_str())
}

/// Parts of many lengths, of one word and of two.
fn expect_long_parts(
    rt: &impl Abort,
    alloc: Global,
    scalar: (yaml_lexeme_kind_t, &str, &str),
) -> Result<(), Fail> {
    let (kind, style, quote) = scalar;
    for between in ["-", " ", "#"] {
        for front in [1u64, 14, 15, 16, 17, 31, 32, 33, 63, 64, 65, 100] {
            for back in [1u64, 16, 100] {
                expect_long_part(rt, alloc, (kind, style, quote, between), (front, back))?;
            }
        }
    }
    Ok(())
}

/// Plain scalars whose value stands in the text, and some where a quick look does not show where they end.
#[test]
fn plain_parts(rt: HostRuntime) -> Result<(), Fail> {
    const PLAIN: yaml_lexeme_kind_t = yaml_lexeme_kind_t::PLAIN;
    const ROWS: [(&str, u64, Option<u64>, &str); 24] = [
        ("a: b", 0, None, "plain 61 0:0:0 1:0:1 1:0:1 false"),
        ("a b # c", 0, None, "plain 612062 0:0:0 3:0:3 4:0:4 false"),
        ("a", 0, None, "plain 61 0:0:0 1:0:1 1:0:1 false"),
        ("a\n", 0, Some(0), "plain 61 0:0:0 1:0:1 2:1:0 true"),
        ("a\n", 0, None, "no part"),
        ("a\n b", 0, Some(1), "plain 61 0:0:0 1:0:1 3:1:1 true"),
        ("a\n b", 0, Some(0), "no part"),
        ("a\n b", 0, None, "no part"),
        ("a\nb: c", 0, Some(0), "plain 61 0:0:0 1:0:1 2:1:0 true"),
        ("a\nb: c", 0, None, "no part"),
        ("a\n\nb", 0, Some(0), "no part"),
        ("a \n# c", 0, None, "plain 61 0:0:0 1:0:1 3:1:0 true"),
        ("a\r\nb", 0, Some(0), "plain 61 0:0:0 1:0:1 3:1:0 true"),
        ("a\r\nb", 0, None, "no part"),
        ("a\rb", 0, Some(0), "no part"),
        ("a,", 1, None, "plain 61 0:0:0 1:0:1 1:0:1 false"),
        ("a ]", 1, None, "plain 61 0:0:0 1:0:1 2:0:2 false"),
        ("a\n ]", 1, None, "plain 61 0:0:0 1:0:1 3:1:1 true"),
        ("a\nb]", 1, None, "no part"),
        ("a:,", 1, None, "no part"),
        ("a:,", 0, None, "plain 613a2c 0:0:0 3:0:3 3:0:3 false"),
        ("\u{e9}: b", 0, None, "plain c3a9 0:0:0 2:0:1 2:0:1 false"),
        (
            "a\u{e9} b\u{20ac}: c",
            0,
            None,
            "plain 61c3a92062e282ac 0:0:0 8:0:5 8:0:5 false",
        ),
        (
            "a\u{a0}b # c",
            0,
            None,
            "plain 61c2a062 0:0:0 4:0:3 5:0:4 false",
        ),
    ];
    expect_parts(&rt, rt.alloc(), PLAIN, &ROWS)?;
    expect_long_parts(&rt, rt.alloc(), (PLAIN, "plain", ""))
}

/// Quoted scalars whose value stands in the text, and some that have an escape, a break, or no end.
#[test]
fn quoted_parts(rt: HostRuntime) -> Result<(), Fail> {
    const SINGLE: yaml_lexeme_kind_t = yaml_lexeme_kind_t::SINGLE_QUOTED;
    const DOUBLE: yaml_lexeme_kind_t = yaml_lexeme_kind_t::DOUBLE_QUOTED;
    const SINGLE_ROWS: [(&str, u64, Option<u64>, &str); 11] = [
        ("'a'", 0, None, "single 61 0:0:0 3:0:3 3:0:3 false"),
        (
            "'a b ': c",
            1,
            Some(0),
            "single 61206220 0:0:0 6:0:6 6:0:6 false",
        ),
        ("''", 0, None, "single - 0:0:0 2:0:2 2:0:2 false"),
        (
            "'a\\n\"'\n",
            0,
            None,
            "single 615c6e22 0:0:0 6:0:6 6:0:6 false",
        ),
        ("'it''s'", 0, None, "no part"),
        ("'a\n b'", 0, None, "no part"),
        ("'a\u{85}b'", 0, None, "no part"),
        ("'a", 0, None, "no part"),
        (
            "'\u{e9}\u{20ac}'",
            0,
            None,
            "single c3a9e282ac 0:0:0 7:0:4 7:0:4 false",
        ),
        (
            "'\u{a0}a'",
            0,
            None,
            "single c2a061 0:0:0 5:0:4 5:0:4 false",
        ),
        ("'\u{a0}a''b'", 0, None, "no part"),
    ];
    const DOUBLE_ROWS: [(&str, u64, Option<u64>, &str); 11] = [
        ("\"a\"", 0, None, "double 61 0:0:0 3:0:3 3:0:3 false"),
        (
            "\"a b \": c",
            1,
            Some(0),
            "double 61206220 0:0:0 6:0:6 6:0:6 false",
        ),
        ("\"\"", 0, None, "double - 0:0:0 2:0:2 2:0:2 false"),
        (
            "\"it''s\"",
            0,
            None,
            "double 6974272773 0:0:0 7:0:7 7:0:7 false",
        ),
        ("\"a\\n\"", 0, None, "no part"),
        ("\"a\n b\"", 0, None, "no part"),
        ("\"a\u{2028}b\"", 0, None, "no part"),
        ("\"a", 0, None, "no part"),
        (
            "\"\u{e9}\u{20ac}\"",
            0,
            None,
            "double c3a9e282ac 0:0:0 7:0:4 7:0:4 false",
        ),
        (
            "\"\u{a0}a\"",
            0,
            None,
            "double c2a061 0:0:0 5:0:4 5:0:4 false",
        ),
        ("\"\u{a0}a\\n\"", 0, None, "no part"),
    ];
    expect_parts(&rt, rt.alloc(), SINGLE, &SINGLE_ROWS)?;
    expect_parts(&rt, rt.alloc(), DOUBLE, &DOUBLE_ROWS)?;
    expect_long_parts(&rt, rt.alloc(), (SINGLE, "single", "'"))?;
    expect_long_parts(&rt, rt.alloc(), (DOUBLE, "double", "\""))
}

/// Lexemes of the other kinds are no parts.
#[test]
fn no_part(rt: HostRuntime) -> Result<(), Fail> {
    const ROWS: [(&str, yaml_lexeme_kind_t); 6] = [
        ("|\n a\n", yaml_lexeme_kind_t::LITERAL),
        (">\n a\n", yaml_lexeme_kind_t::FOLDED),
        ("&a b", yaml_lexeme_kind_t::ANCHOR),
        ("*a b", yaml_lexeme_kind_t::ALIAS),
        ("!a b", yaml_lexeme_kind_t::TAG),
        ("%YAML 1.1\n", yaml_lexeme_kind_t::DIRECTIVE),
    ];
    for (text, kind) in ROWS {
        expect_part(&rt, rt.alloc(), (text, kind, OUTSIDE), NO_PART)?;
    }
    Ok(())
}

/// Literal and folded scalars, and some that have an offence.
#[test]
fn block_scalars_read(rt: HostRuntime) -> Result<(), Fail> {
    const LITERAL: yaml_lexeme_kind_t = yaml_lexeme_kind_t::LITERAL;
    const FOLDED: yaml_lexeme_kind_t = yaml_lexeme_kind_t::FOLDED;
    const ROWS: [(&str, way_t, &str); 7] = [
        (
            "|\n a\n b\n",
            way_t::SCALAR(LITERAL, 0, None),
            "literal 610a620a 0:0:0 8:3:0 8:3:0 false",
        ),
        (
            ">\n a\n b\n",
            way_t::SCALAR(FOLDED, 0, None),
            "folded 6120620a 0:0:0 8:3:0 8:3:0 false",
        ),
        (
            "|+\n a\n\n",
            way_t::SCALAR(LITERAL, 0, None),
            "literal 610a0a 0:0:0 7:3:0 7:3:0 false",
        ),
        (
            ">-\n  a\n\n  b\nc",
            way_t::SCALAR(FOLDED, 0, Some(1)),
            "folded 610a62 0:0:0 12:4:0 12:4:0 false",
        ),
        (
            "|",
            way_t::SCALAR(LITERAL, 0, None),
            "literal - 0:0:0 1:0:1 1:0:1 false",
        ),
        (
            "| a",
            way_t::SCALAR(LITERAL, 0, None),
            "while scanning a block scalar 0:0:0; did not find expected comment or line break 2:0:2",
        ),
        (
            "|\n\ta",
            way_t::SCALAR(LITERAL, 0, Some(0)),
            "while scanning a block scalar 0:0:0; found a tab character where an indentation space is expected 2:1:0",
        ),
    ];
    expect_read(&rt, rt.alloc(), &ROWS)
}

/// Asserts that the fault of a scalar's refusal, by the reader of its kind, is the one that `yaml_lexeme_at` returns.
fn expect_refusal(
    rt: &impl Abort,
    alloc: Global,
    row: &(&str, yaml_lexeme_kind_t, u64),
) -> Result<(), Fail> {
    let (text, kind, depth) = *row;
    let want = lexed(alloc, text.as_bytes(), depth, None)?;
    let shown = shown_of(alloc, text.as_bytes(), way_t::SCALAR(kind, depth, None))?;
    assert!(rt; want.as_str().starts_with("while"), "{text}");
    expect_shown(rt, text, shown.as_str(), want.as_str());
    Ok(())
}

/// The fault of a scalar's refusal is the one that `yaml_lexeme_at` returns.
#[test]
fn refusals_of_scalars(rt: HostRuntime) -> Result<(), Fail> {
    const ROWS: [(&str, yaml_lexeme_kind_t, u64); 6] = [
        ("ab:]", yaml_lexeme_kind_t::PLAIN, 1),
        ("a\n :?", yaml_lexeme_kind_t::PLAIN, 1),
        ("'a\n--- b'", yaml_lexeme_kind_t::SINGLE_QUOTED, 0),
        ("\"a\\q\"", yaml_lexeme_kind_t::DOUBLE_QUOTED, 0),
        ("|0\n", yaml_lexeme_kind_t::LITERAL, 0),
        (">- a\n", yaml_lexeme_kind_t::FOLDED, 0),
    ];
    for row in &ROWS {
        expect_refusal(&rt, rt.alloc(), row)?;
    }
    Ok(())
}

/// Lexemes of many kinds, and their offences, by what reads the kind that is there.
#[test]
fn lexemes_read(rt: HostRuntime) -> Result<(), Fail> {
    const ROWS: [(&str, way_t, &str); 12] = [
        ("", way_t::LEXEME(0), "end 0:0:0 0:0:0 0:0:0 false"),
        (
            "%YAML 1.1",
            way_t::LEXEME(0),
            "version 1 1 0:0:0 9:0:9 9:0:9 false",
        ),
        (
            "%FOO x",
            way_t::LEXEME(0),
            "while scanning a directive 0:0:0; found unknown directive name 4:0:4",
        ),
        (
            "---",
            way_t::LEXEME(0),
            "document start 0:0:0 3:0:3 3:0:3 false",
        ),
        (
            "]",
            way_t::LEXEME(1),
            "sequence end 0:0:0 1:0:1 1:0:1 false",
        ),
        ("&a]", way_t::LEXEME(0), "anchor 61 0:0:0 2:0:2 2:0:2 false"),
        (
            "*",
            way_t::LEXEME(0),
            "while scanning an alias 0:0:0; did not find expected alphabetic or numeric character 1:0:1",
        ),
        ("! x", way_t::LEXEME(0), "tag - 21 0:0:0 1:0:1 1:0:1 false"),
        (
            "!<x",
            way_t::LEXEME(0),
            "while scanning a tag 0:0:0; did not find the expected '>' 3:0:3",
        ),
        ("|", way_t::LEXEME(0), "literal - 0:0:0 1:0:1 1:0:1 false"),
        ("'a'", way_t::LEXEME(0), "single 61 0:0:0 3:0:3 3:0:3 false"),
        (
            "a:]",
            way_t::LEXEME(1),
            "while scanning a plain scalar 0:0:0; found unexpected ':' 1:0:1",
        ),
    ];
    expect_read(&rt, rt.alloc(), &ROWS)
}

/// Names and tags of fewer and of more than sixteen bytes, and their offences, by the readers of their kinds.
#[test]
fn names_and_tags_read(rt: HostRuntime) -> Result<(), Fail> {
    const ROWS: [(&str, way_t, &str); 12] = [
        (
            "&a_-9 x",
            way_t::LEXEME(0),
            "anchor 615f2d39 0:0:0 5:0:5 5:0:5 false",
        ),
        ("*Z]", way_t::LEXEME(1), "alias 5a 0:0:0 2:0:2 2:0:2 false"),
        (
            "*abcdefghijklmnopqrst uvwxyz012345678",
            way_t::LEXEME(0),
            "alias 6162636465666768696a6b6c6d6e6f7071727374 0:0:0 21:0:21 21:0:21 false",
        ),
        (
            "*a.b xxxxxxxxxxxxxxxxxx",
            way_t::LEXEME(0),
            "while scanning an alias 0:0:0; did not find expected alphabetic or numeric character 2:0:2",
        ),
        (
            "& abcdefghijklmnopqrst",
            way_t::LEXEME(0),
            "while scanning an anchor 0:0:0; did not find expected alphabetic or numeric character 1:0:1",
        ),
        (
            "!abc xxxxxxxxxxxxxxxxxx",
            way_t::LEXEME(0),
            "tag 21 616263 0:0:0 4:0:4 4:0:4 false",
        ),
        (
            "!a,b xxxxxxxxxxxxxxxxxx",
            way_t::LEXEME(1),
            "tag 21 61 0:0:0 2:0:2 2:0:2 false",
        ),
        (
            "!a/b:c?d@e&f=g+h$i.j~l*m'n(o);_-9 x",
            way_t::LEXEME(0),
            "tag 21 612f623a633f64406526663d672b6824692e6a7e6c2a6d276e286f293b5f2d39 0:0:0 33:0:33 33:0:33 false",
        ),
        (
            "!a%20b xxxxxxxxxxxxxxxxxx",
            way_t::LEXEME(0),
            "tag 21 612062 0:0:0 6:0:6 6:0:6 false",
        ),
        (
            "!a!b%41c xxxxxxxxxxxxxxxxxx",
            way_t::LEXEME(0),
            "tag 216121 624163 0:0:0 8:0:8 8:0:8 false",
        ),
        (
            "!!python/object:app.main.name x",
            way_t::LEXEME(0),
            "tag 2121 707974686f6e2f6f626a6563743a6170702e6d61696e2e6e616d65 0:0:0 29:0:29 29:0:29 false",
        ),
        (
            "!a%2 xxxxxxxxxxxxxxxxxx",
            way_t::LEXEME(0),
            "while parsing a tag 0:0:0; did not find URI escaped octet 2:0:2",
        ),
    ];
    expect_read(&rt, rt.alloc(), &ROWS)
}

#[test]
fn refusal_of_memory(rt: HostRuntime) -> Result<(), Fail> {
    let memory = yaml_refusal_t::MEMORY;
    let fault = yaml_lexeme_fault(memory, yaml_lexeme_kind_t::PLAIN, FRONT, FRONT);
    assert!(rt; fault.error == yaml_error_type_t::YAML_MEMORY_ERROR);
    Ok(())
}

/// The stream end is at the start of a line: that of the end, or the next one.
#[test]
fn stream_ends_read(rt: HostRuntime) -> Result<(), Fail> {
    const ROWS: [(&str, way_t, &str); 3] = [
        ("", way_t::END(0), "end 0:0:0 0:0:0 0:0:0 false"),
        ("a", way_t::END(1), "end 1:1:0 1:1:0 1:1:0 false"),
        ("a\n", way_t::END(2), "end 2:1:0 2:1:0 2:1:0 false"),
    ];
    expect_read(&rt, rt.alloc(), &ROWS)
}

/// Lexemes of one character, each kind of them, and kinds of more than one.
#[test]
fn characters_read(rt: HostRuntime) -> Result<(), Fail> {
    const ROWS: [(&str, way_t, &str); 14] = [
        (
            "--- a",
            way_t::CHARACTER(false),
            "document start 0:0:0 3:0:3 3:0:3 false",
        ),
        (
            "---\n",
            way_t::CHARACTER(true),
            "document start 0:0:0 3:0:3 3:0:3 false",
        ),
        (
            "...",
            way_t::CHARACTER(false),
            "document end 0:0:0 3:0:3 3:0:3 false",
        ),
        ("...a", way_t::CHARACTER(false), "no character"),
        (
            "[a",
            way_t::CHARACTER(false),
            "sequence start 0:0:0 1:0:1 1:0:1 false",
        ),
        (
            "{a",
            way_t::CHARACTER(true),
            "mapping start 0:0:0 1:0:1 1:0:1 false",
        ),
        (
            "]",
            way_t::CHARACTER(true),
            "sequence end 0:0:0 1:0:1 1:0:1 false",
        ),
        (
            "}",
            way_t::CHARACTER(true),
            "mapping end 0:0:0 1:0:1 1:0:1 false",
        ),
        (
            ",",
            way_t::CHARACTER(true),
            "flow entry 0:0:0 1:0:1 1:0:1 false",
        ),
        (
            "- a",
            way_t::CHARACTER(false),
            "block entry 0:0:0 1:0:1 1:0:1 false",
        ),
        ("?", way_t::CHARACTER(false), "key 0:0:0 1:0:1 1:0:1 false"),
        (
            ": a",
            way_t::CHARACTER(false),
            "value 0:0:0 1:0:1 1:0:1 false",
        ),
        (
            ":a",
            way_t::CHARACTER(true),
            "value 0:0:0 1:0:1 1:0:1 false",
        ),
        ("a", way_t::CHARACTER(false), "no character"),
    ];
    expect_read(&rt, rt.alloc(), &ROWS)
}

/// A `:` is found outside of flow if a blank, a break or the end follows it, and in flow always; a `,`, `]` or `}` in
/// flow alone; and nothing after a gap, or of another kind.
#[test]
fn deciders(rt: HostRuntime) -> Result<(), Fail> {
    const ROWS: [(&str, bool, Option<yaml_lexeme_kind_t>); 17] = [
        (": a", false, Some(yaml_lexeme_kind_t::VALUE)),
        (":\na", false, Some(yaml_lexeme_kind_t::VALUE)),
        (":", false, Some(yaml_lexeme_kind_t::VALUE)),
        (":a b", false, None),
        (":a", true, Some(yaml_lexeme_kind_t::VALUE)),
        (",", true, Some(yaml_lexeme_kind_t::FLOW_ENTRY)),
        ("]", true, Some(yaml_lexeme_kind_t::FLOW_SEQUENCE_END)),
        ("}", true, Some(yaml_lexeme_kind_t::FLOW_MAPPING_END)),
        (",", false, None),
        ("]", false, None),
        ("}", false, None),
        (" : a", false, None),
        (" ,", true, None),
        ("- a", false, None),
        ("[", true, None),
        ("? a", true, None),
        ("", true, None),
    ];
    let alloc = rt.alloc();
    for (text, in_flow, want) in ROWS {
        let found = decider_at(alloc, text.as_bytes(), in_flow)?;
        expect_kind(&rt, text, found, want);
    }
    Ok(())
}
