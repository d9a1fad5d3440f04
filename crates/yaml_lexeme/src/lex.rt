//! Lexemes of every kind.
ghost use Rattle.std.specs.Prelude.{ℕ, Bool, ◌≡◌, ◌≤◌, true, Some, Ok, IsOk, IfSome, length};
ghost use Rattle.yaml_text.specs.Chars.{utf8};
ghost use Rattle.yaml_text.specs.Fault.{fault_of};
ghost use Rattle.yaml_text.specs.Token.{data_of};
ghost use Rattle.yaml_lexeme.specs.Kind as kinds;
ghost use Rattle.yaml_lexeme.specs.Lex as spec;
ghost use Rattle.yaml_lexeme.specs.KindSets as sets;
ghost use Rattle.yaml_lexeme.specs.Place.{place_at, skip};
ghost use Rattle.yaml_lexeme.specs.Counted.{IsMarkOf};
ghost use Rattle.yaml_lexeme.specs.Reading.{found};
ghost use Rattle.yaml_lexeme.specs.Answers.{Answers, ReadsAs, lexeme_at, refused_at};
ghost use Rattle.yaml_lexeme.specs.Lexeme.{lexeme, whole};
ghost use Rattle.yaml_lexeme.specs.LexemeOf.{lexeme_of};
ghost use Rattle.yaml_lexeme.specs.declared.kind.yaml_lexeme_kind_t.TheVariants.{STREAM_END};
ghost use Rattle.yaml_lexeme.specs.declared.lex.yaml_context_t.{yaml_context_t};

use crate::fault_texts::{context_text, problem_text};
use crate::kind::yaml_lexeme_kind_t;
use crate::lexeme::{whole_of, yaml_lexeme_t};
use crate::place::cursor_t;
use crate::problem::yaml_refusal_t;
use crate::reader::{
    block_reader_t, directive_reader_t, name_reader_t, plain_reader_t, quoted_reader_t,
    tag_reader_t, yaml_reader_t,
};
use crate::stream_end::stream_end_at;
use std::alloc::Global;
use yaml_text::{
    make_memory_fault, make_scanner_fault, unnamed_yaml_token_t_data, yaml_fault_t, yaml_mark_t,
    yaml_text_t,
};

/// The flow depth and the greatest open level at a lexeme.
#[derive(Clone, Copy, PartialEq, Eq)]
pub struct yaml_context_t {
    /// The flow depth: how many flow collections are open. Above 0 the lexeme is in flow.
    pub depth: u64,
    /// The greatest open level: the column of the innermost open block collection, from 0. `None` if none is open.
    pub level: Option<u64>,
}

/// A text, and the mark in it at which a lexeme is read. A reader that refuses sets `at` to the mark of the offence.
#[derive(Clone, Copy)]
pub struct yaml_spot_t<'a> {
    pub text: &'a yaml_text_t<'a>,
    pub at: yaml_mark_t,
}

/// What a lexeme of one character, or a document marker, says.
#[inline(always)]
fn says_of(kind: yaml_lexeme_kind_t) -> unnamed_yaml_token_t_data
    ensures { data_of result ≡ spec.says_of kind }
{
    match kind {
        yaml_lexeme_kind_t::DOCUMENT_START => unnamed_yaml_token_t_data::DOCUMENT_START,
        yaml_lexeme_kind_t::DOCUMENT_END => unnamed_yaml_token_t_data::DOCUMENT_END,
        yaml_lexeme_kind_t::FLOW_SEQUENCE_START => unnamed_yaml_token_t_data::FLOW_SEQUENCE_START,
        yaml_lexeme_kind_t::FLOW_MAPPING_START => unnamed_yaml_token_t_data::FLOW_MAPPING_START,
        yaml_lexeme_kind_t::FLOW_SEQUENCE_END => unnamed_yaml_token_t_data::FLOW_SEQUENCE_END,
        yaml_lexeme_kind_t::FLOW_MAPPING_END => unnamed_yaml_token_t_data::FLOW_MAPPING_END,
        yaml_lexeme_kind_t::FLOW_ENTRY => unnamed_yaml_token_t_data::FLOW_ENTRY,
        yaml_lexeme_kind_t::BLOCK_ENTRY => unnamed_yaml_token_t_data::BLOCK_ENTRY,
        yaml_lexeme_kind_t::KEY => unnamed_yaml_token_t_data::KEY,
        yaml_lexeme_kind_t::VALUE => unnamed_yaml_token_t_data::VALUE,
        _ => unnamed_yaml_token_t_data::NO_TOKEN,
    }
}

/// Takes a lexeme of one character.
#[inline(always)]
fn take_character(cursor: &mut cursor_t, kind: yaml_lexeme_kind_t) -> yaml_lexeme_t
    requires character { sets.is_character kind ≡ true }
    requires there { (flow : Bool) × (kinds.kind_at flow cursor.old ≡ Some kind) }
    ensures { lexeme (whole spec.says_of) cursor.old (found kind (skip (spec.len_of kind) cursor.old))
        ≡ found (lexeme_of result) cursor.new }
{
    let start = cursor.mark();
    cursor.pass();
    whole_of(says_of(kind), start, cursor.mark())
}

/// The kind of a document marker: of `---`, which starts a document, or of `...`, which ends one.
#[inline(always)]
pub fn yaml_marker_kind(start: bool) -> yaml_lexeme_kind_t
    ensures { result ≡ sets.marker_kind start }
{
    if start {
        yaml_lexeme_kind_t::DOCUMENT_START
    } else {
        yaml_lexeme_kind_t::DOCUMENT_END
    }
}

/// Takes a document marker.
#[inline(always)]
fn take_marker(cursor: &mut cursor_t, start: bool) -> yaml_lexeme_t
    requires { (flow : Bool) × (kinds.kind_at flow cursor.old ≡ Some (sets.marker_kind start)) }
    ensures { lexeme (whole spec.says_of) cursor.old (found (sets.marker_kind start) (skip 3 cursor.old))
        ≡ found (lexeme_of result) cursor.new }
{
    let at = cursor.mark();
    cursor.pass();
    cursor.pass();
    cursor.pass();
    whole_of(says_of(yaml_marker_kind(start)), at, cursor.mark())
}

/// The lexeme of one character at a place. No memory is taken.
///
/// `at` must be the mark of a place of this text, as for [`yaml_lexeme_at`], and `kind` what `yaml_lexeme_kind` returns
/// there: a kind of one character. It is what `yaml_lexeme_at` returns there for the kind, in any context.
#[tactic(auto, unfolding(crate::specs::Lex::lex))]
#[inline(always)]
pub fn yaml_read_character(
    text: &yaml_text_t,
    at: yaml_mark_t,
    kind: yaml_lexeme_kind_t,
) -> yaml_lexeme_t
    requires place { (n : ℕ) × IsMarkOf text.now.chars at n
        × ((flow : Bool) × (kinds.kind_at flow (place_at text.now.chars n) ≡ Some kind)) }
    requires kind { sets.is_character kind ≡ true }
    ensures { (n : ℕ) (context : yaml_context_t) → IsMarkOf text.now.chars at n
        → lexeme_at kind context (place_at text.now.chars n) ≡ Ok (lexeme_of result) }
{
    take_character(&mut cursor_t::at(text, at), kind)
}

/// The document marker at a place: `---` if `start` is set, and else `...` (YAML 1.1, 7.2 Document Boundary Markers).
/// No memory is taken.
///
/// `at` must be the mark of a place of this text, as for [`yaml_lexeme_at`], and `yaml_lexeme_kind` must return the
/// kind of that marker there. It is what `yaml_lexeme_at` returns there for the kind, in any context.
#[tactic(auto, unfolding(crate::specs::Lex::lex))]
#[inline(always)]
pub fn yaml_read_marker(text: &yaml_text_t, at: yaml_mark_t, start: bool) -> yaml_lexeme_t
    requires { (n : ℕ) × IsMarkOf text.now.chars at n
        × ((flow : Bool) × (kinds.kind_at flow (place_at text.now.chars n) ≡ Some (sets.marker_kind start))) }
    ensures { (n : ℕ) (context : yaml_context_t) → IsMarkOf text.now.chars at n
        → lexeme_at (sets.marker_kind start) context (place_at text.now.chars n) ≡ Ok (lexeme_of result) }
{
    take_marker(&mut cursor_t::at(text, at), start)
}

/// The stream end at a place. No memory is taken.
///
/// `at` must be the mark of a place of this text, as for [`yaml_lexeme_at`]. It is what `yaml_lexeme_at` returns there
/// for the kind of a stream end, in any context.
#[tactic(auto, unfolding(crate::specs::Lex::lex))]
#[inline(always)]
pub fn yaml_read_stream_end(text: &yaml_text_t, at: yaml_mark_t) -> yaml_lexeme_t
    requires { (n : ℕ) × IsMarkOf text.now.chars at n }
    ensures { (n : ℕ) (context : yaml_context_t) → IsMarkOf text.now.chars at n
        → lexeme_at STREAM_END context (place_at text.now.chars n) ≡ Ok (lexeme_of result) }
{
    stream_end_at(&cursor_t::at(text, at))
}

/// Reads a lexeme by a reader, in a function of its own.
#[inline(never)]
fn read_apart<R: yaml_reader_t>(
    alloc: Global,
    spot: &mut yaml_spot_t,
    context: yaml_context_t,
) -> Result<yaml_lexeme_t, yaml_refusal_t>
    requires place { (n : ℕ) × IsMarkOf spot.old.text.now.chars spot.old.at n }
    requires level { IfSome context.level (λ l. l ≤ length (utf8 spot.old.text.now.chars)) }
    ensures { (n : ℕ) → IsMarkOf spot.old.text.now.chars spot.old.at n
        → ReadsAs lexeme_of R.KIND spot.old.at spot.new.at result
        (lexeme_at R.KIND context (place_at spot.old.text.now.chars n)) }
{
    R::read(alloc, Vec::new(alloc), spot, context)
}

/// Reads a lexeme of a kind. Each reader has a function of its own, so that no kind pays for the room that another
/// needs.
#[inline(always)]
fn read_kind(
    alloc: Global,
    spot: &mut yaml_spot_t,
    kind: yaml_lexeme_kind_t,
    context: yaml_context_t,
) -> Result<yaml_lexeme_t, yaml_refusal_t>
    requires place { (n : ℕ) × IsMarkOf spot.old.text.now.chars spot.old.at n
        × ((flow : Bool) × (kinds.kind_at flow (place_at spot.old.text.now.chars n) ≡ Some kind)) }
    requires level { IfSome context.level (λ l. l ≤ length (utf8 spot.old.text.now.chars)) }
    ensures value { (n : ℕ) → IsMarkOf spot.old.text.now.chars spot.old.at n
        → ReadsAs lexeme_of kind spot.old.at spot.new.at result
        (lexeme_at kind context (place_at spot.old.text.now.chars n)) }
    ensures bare { sets.is_bare kind ≡ true → IsOk result }
{
    match kind {
        yaml_lexeme_kind_t::STREAM_END => Ok(yaml_read_stream_end(spot.text, spot.at)),
        yaml_lexeme_kind_t::DOCUMENT_START => Ok(yaml_read_marker(spot.text, spot.at, true)),
        yaml_lexeme_kind_t::DOCUMENT_END => Ok(yaml_read_marker(spot.text, spot.at, false)),
        yaml_lexeme_kind_t::FLOW_SEQUENCE_START
        | yaml_lexeme_kind_t::FLOW_MAPPING_START
        | yaml_lexeme_kind_t::FLOW_SEQUENCE_END
        | yaml_lexeme_kind_t::FLOW_MAPPING_END
        | yaml_lexeme_kind_t::FLOW_ENTRY
        | yaml_lexeme_kind_t::BLOCK_ENTRY
        | yaml_lexeme_kind_t::KEY
        | yaml_lexeme_kind_t::VALUE => Ok(yaml_read_character(spot.text, spot.at, kind)),
        yaml_lexeme_kind_t::DIRECTIVE => read_apart::<directive_reader_t>(alloc, spot, context),
        yaml_lexeme_kind_t::ALIAS => read_apart::<name_reader_t<false>>(alloc, spot, context),
        yaml_lexeme_kind_t::ANCHOR => read_apart::<name_reader_t<true>>(alloc, spot, context),
        yaml_lexeme_kind_t::TAG => read_apart::<tag_reader_t>(alloc, spot, context),
        yaml_lexeme_kind_t::LITERAL => read_apart::<block_reader_t<false>>(alloc, spot, context),
        yaml_lexeme_kind_t::FOLDED => read_apart::<block_reader_t<true>>(alloc, spot, context),
        yaml_lexeme_kind_t::SINGLE_QUOTED => {
            read_apart::<quoted_reader_t<true>>(alloc, spot, context)
        }
        yaml_lexeme_kind_t::DOUBLE_QUOTED => {
            read_apart::<quoted_reader_t<false>>(alloc, spot, context)
        }
        yaml_lexeme_kind_t::PLAIN => read_apart::<plain_reader_t>(alloc, spot, context),
    }
}

/// The fault of a refusal: of a lexeme of a kind that starts at `at`, for an offence at `there`.
#[cold]
pub fn yaml_lexeme_fault(
    refusal: yaml_refusal_t,
    kind: yaml_lexeme_kind_t,
    at: yaml_mark_t,
    there: yaml_mark_t,
) -> yaml_fault_t
    ensures { fault_of result ≡ refused_at kind at there refusal }
{
    match refusal {
        yaml_refusal_t::MEMORY => make_memory_fault(),
        yaml_refusal_t::OFFENCE(problem) => make_scanner_fault(
            problem_text(problem),
            there,
            Some(context_text(kind, problem)),
            at,
        ),
    }
}

/// The lexeme at a place, or the fault of its first offence (YAML 1.1, 7.1 Directives, 7.2 Document
/// Boundary Markers, 8.1 Node Anchors, 8.2 Node Tags, 8.4 Alias Nodes and chapter 9, Scalar Styles).
///
/// `at` must be the mark of a place of this text: what `yaml_mark_at` returns for it, the mark after a gap of it, or
/// the reach of a lexeme of it other than the stream end. `kind` must be what `yaml_lexeme_kind` returns there with
/// `in_flow` for a depth above 0. The level of the context must be at most the number of the text's bytes. The lexeme
/// starts at `at`, except a stream end, which may start with the next line.
///
/// # Errors
///
/// A fault of kind scanner is the first offence of the lexeme. Its problem text says what is wrong. Its problem mark is
/// that of the first character that does not fit, which may be the end, if nothing else is said below. Its context text
/// says what was being read, and its context mark is `at`. These are the problems:
///
/// - a directive: no name after `%`, a name that goes on with another character, an unknown name, what is not a
///   comment or a break after it; in `%YAML` no number, a number of more than nine digits (at the tenth), no `.`; in
///   `%TAG` a handle that does not start with `!` or does not end with one, no blank after the handle, or neither a
///   blank nor a break after the prefix;
/// - an anchor or alias: no name, or a character after the name that is not allowed there;
/// - a tag: no `>` after a uri in `<`, or a character after the tag that is not allowed there;
/// - a uri in a tag or in `%TAG`: no character if one is needed, no `%` with two hexadecimal digits, a lead octet
///   or a later one that UTF-8 does not have there (each at its `%`);
/// - a literal or folded scalar: the indentation indicator 0, what is not a comment or a break after the header, a tab
///   where a space of indentation could be;
/// - a quoted scalar: the end of the text, a document marker at the start of a line; in double quotes an unknown escape
///   (at the backslash), a digit that is not hexadecimal, and digits that spell no character (both at the first digit);
/// - a plain scalar: in flow a `:` before `?` or a flow indicator; and after a break, also if the scalar is over before
///   it, a tab in a column that is not above the greatest open level.
///
/// A fault of kind memory may come instead of the lexeme or its offence, for a growth that was refused. The
/// contract does not say that one was. It never comes for stream ends, document markers and lexemes of one
/// character.
#[inline(always)]
pub fn yaml_lexeme_at(
    alloc: Global,
    text: &yaml_text_t,
    at: yaml_mark_t,
    kind: yaml_lexeme_kind_t,
    context: yaml_context_t,
) -> Result<yaml_lexeme_t, yaml_fault_t>
    requires place { (n : ℕ) × IsMarkOf text.now.chars at n
        × (kinds.kind_at (spec.in_flow context) (place_at text.now.chars n) ≡ Some kind) }
    requires level { IfSome context.level (λ l. l ≤ length (utf8 text.now.chars)) }
    ensures value { (n : ℕ) → IsMarkOf text.now.chars at n
        → Answers lexeme_of result (lexeme_at kind context (place_at text.now.chars n)) }
    ensures bare { sets.is_bare kind ≡ true → IsOk result }
{
    let mut spot = yaml_spot_t { text, at };
    match read_kind(alloc, &mut spot, kind, context) {
        Ok(lexeme) => Ok(lexeme),
        Err(refusal) => Err(yaml_lexeme_fault(refusal, kind, at, spot.at)),
    }
}
