//! The readers of `yaml_lexeme`, with contracts over places instead of marks.
ghost use Rattle.std.specs.Prelude.{◌≡◌, ℕ, ◌≤◌, ◌<◌, ◌^◌, Bool, Option, Some, length, IfSome, true};
ghost use Rattle.yaml_text.specs.declared.types.yaml_mark_t.{yaml_mark_t};
ghost use Rattle.yaml_lexeme.specs.KindSets.{is_character, marker_kind};
ghost use Rattle.yaml_lexeme.specs.LexemeOf.{lexeme_of, part_from};
ghost use Rattle.yaml_lexeme.specs.Counted.{IsMarkOf};
ghost use Rattle.yaml_lexeme.specs.declared.kind.yaml_lexeme_kind_t.TheVariants.{STREAM_END};
ghost use Rattle.yaml_scan.specs.SourceOf.{source_of};
ghost use Rattle.yaml_scan.specs.inside.Scanner.{scanner_of};
ghost use Rattle.yaml_scan.specs.inside.Scanning.{HasRead};
ghost use Rattle.yaml_scan.specs.inside.TextReads.{IsRead};

use crate::state::state_t;
use yaml_lexeme::{
    yaml_context_t, yaml_gap, yaml_lexeme_kind, yaml_lexeme_kind_t, yaml_lexeme_t, yaml_part_t,
    yaml_read_character, yaml_read_marker, yaml_read_stream_end, yaml_reader_t, yaml_refusal_t,
    yaml_spot_t,
};
use yaml_text::{yaml_mark_t, yaml_text_t};

/// The end of the gap from a mark.
#[inline(always)]
pub(crate) fn gap_end(
    text: &yaml_text_t,
    at: yaml_mark_t,
    in_flow: bool,
    allowed: bool,
) -> yaml_mark_t
    requires { (p : ℕ) × IsMarkOf text.now.chars at p }
    ensures { (p : ℕ) → IsMarkOf text.now.chars at p
        → IsMarkOf text.now.chars result ((source_of text.now.chars).gap in_flow allowed p) }
{
    yaml_gap(text, at, in_flow, allowed).0
}

/// The kind of the lexeme at a mark.
#[tactic(auto, unfolding(crate::specs::SourceOf::source_of))]
#[inline(always)]
pub(crate) fn kind_at(
    text: &yaml_text_t,
    at: yaml_mark_t,
    in_flow: bool,
) -> Option<yaml_lexeme_kind_t>
    requires { (p : ℕ) × IsMarkOf text.now.chars at p }
    ensures { (p : ℕ) → IsMarkOf text.now.chars at p → result ≡ (source_of text.now.chars).kind in_flow p }
{
    yaml_lexeme_kind(text, at, in_flow)
}

/// The lexeme of a reader's kind after the gap, or why it is refused. The value of a scalar is put into `room` if it
/// fits.
#[inline(always)]
pub(crate) fn read_lexeme<R: yaml_reader_t>(
    room: Vec<u8>,
    text: &yaml_text_t,
    state: &mut state_t,
    context: yaml_context_t,
) -> Result<yaml_lexeme_t, yaml_refusal_t>
    requires place { (p : ℕ) × IsMarkOf text.now.chars state.old.gap_end p }
    requires level { IfSome context.level (λ l. l ≤ length text.now.chars) }
    ensures { HasRead (scanner_of text.now state.old) (scanner_of text.now state.new) R.KIND context result }
{
    let mut spot = yaml_spot_t {
        text: text,
        at: state.gap_end,
    };
    let read = R::read(state.alloc, room, &mut spot, context);
    if read.is_err() {
        state.there = spot.at;
    }
    read
}

/// The scalar of a reader's kind after the gap, if it stands in the text as it is and a quick look shows where it ends.
#[inline(always)]
pub(crate) fn part_at<'a, R: yaml_reader_t>(
    text: &'a yaml_text_t<'_>,
    state: &state_t,
    context: yaml_context_t,
) -> Option<yaml_part_t<'a>>
    requires place { (p : ℕ) × IsMarkOf text.now.chars state.now.gap_end p }
    requires level { IfSome context.level (λ l. l ≤ length text.now.chars) }
    ensures read { IfSome result (λ part. (start : yaml_mark_t) (p : ℕ)
        → IsMarkOf text.now.chars state.now.gap_end p
        → IsRead text.now.chars R.KIND context.depth context.level p (part_from start part)) }
    ensures size { IfSome result (λ part. length part.value.now < 2 ^ 63) }
{
    R::part(text, state.gap_end, context)
}

/// The lexeme of one character after the gap.
#[inline(always)]
pub(crate) fn read_character(
    text: &yaml_text_t,
    state: &state_t,
    kind: yaml_lexeme_kind_t,
) -> yaml_lexeme_t
    requires place { (p : ℕ) × IsMarkOf text.now.chars state.now.gap_end p
        × ((flow : Bool) × ((source_of text.now.chars).kind flow p ≡ Some kind)) }
    requires kind { is_character kind ≡ true }
    ensures { (p depth : ℕ) (level : Option ℕ) → IsMarkOf text.now.chars state.now.gap_end p
        → IsRead text.now.chars kind depth level p (lexeme_of result) }
{
    yaml_read_character(text, state.gap_end, kind)
}

/// The document marker after the gap: `---` if `start` is set, and else `...`.
#[inline(always)]
pub(crate) fn read_marker(text: &yaml_text_t, state: &state_t, start: bool) -> yaml_lexeme_t
    requires { (p : ℕ) × IsMarkOf text.now.chars state.now.gap_end p
        × ((flow : Bool) × ((source_of text.now.chars).kind flow p ≡ Some (marker_kind start))) }
    ensures { (p depth : ℕ) (level : Option ℕ) → IsMarkOf text.now.chars state.now.gap_end p
        → IsRead text.now.chars (marker_kind start) depth level p (lexeme_of result) }
{
    yaml_read_marker(text, state.gap_end, start)
}

/// The stream end after the gap.
#[inline(always)]
pub(crate) fn read_stream_end(text: &yaml_text_t, state: &state_t) -> yaml_lexeme_t
    requires { (p : ℕ) × IsMarkOf text.now.chars state.now.gap_end p }
    ensures { (p depth : ℕ) (level : Option ℕ) → IsMarkOf text.now.chars state.now.gap_end p
        → IsRead text.now.chars STREAM_END depth level p (lexeme_of result) }
{
    yaml_read_stream_end(text, state.gap_end)
}
