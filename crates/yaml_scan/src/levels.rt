//! Indentation levels: the columns of the block collections that are open (YAML 1.1, 6.1 Indentation Spaces).
ghost use Rattle.std.specs.Prelude.{◌≡◌, ◌+◌, ◌-◌, ◌<◌, ◌≤◌, ◌&&◌, ◌++◌, ◌∷◌, [], true, false, not, reverse, map};
ghost use Rattle.std.specs.Prelude.{filter, vec_len, nat_lt, None, if◌then◌else◌};
ghost use Rattle.std.specs.Vec.{vec_capacity};
ghost use Rattle.yaml_scan.specs.declared.groups.block_t.TheVariants.{NONE};
ghost use Rattle.yaml_scan.specs.Kind.{is_stream_end};
ghost use Rattle.yaml_scan.specs.Levels.{stays, greatest_level, opens_level};
ghost use Rattle.yaml_scan.specs.Falling.{IsFalling};
ghost use Rattle.yaml_scan.specs.Groups.{end_at};
ghost use Rattle.yaml_scan.specs.Groups.Token.{BlockEnd};
ghost use Rattle.yaml_scan.specs.inside.Opened.{is_new, opened};
ghost use Rattle.yaml_scan.specs.inside.Queue.{ends_at, closing, opened_by, start_of};
ghost use Rattle.yaml_scan.specs.inside.Slots.{is_level};

use crate::groups::block_t;
use crate::kind::{is_opener_kind, is_stream_end, stays_open};
use crate::met::met_t;
use yaml_lexeme::yaml_lexeme_kind_t;
use yaml_text::yaml_mark_t;

/// Whether a block collection ends at the end of the gap: at the end of the stream, if its column is above that.
#[inline(always)]
fn ends_early(kind: yaml_lexeme_kind_t, gap_end: yaml_mark_t, column: u64) -> bool
    ensures { result ≡ (is_stream_end kind && nat_lt gap_end.column column) }
{
    is_stream_end(kind) && gap_end.column < column
}

/// The greatest level, if a lexeme closes it.
#[inline(always)]
pub(crate) fn closing(
    levels: &[u64],
    in_flow: bool,
    kind: yaml_lexeme_kind_t,
    start: yaml_mark_t,
) -> Option<u64>
    ensures { result ≡ closing in_flow kind start (reverse levels.now) }
{
    match levels.last() {
        None => None,
        Some(last) => {
            let last = *last;
            if stays_open(in_flow, kind, start, last) {
                None
            } else {
                Some(last)
            }
        }
    }
}

/// How many levels a lexeme closes: `ends` of them end at its start, and before these `early` at the end of the gap.
#[derive(Clone, Copy)]
pub(crate) struct closed_t {
    pub early: usize,
    pub ends: usize,
}

/// Closes the levels that the lexeme of a step does not keep, greatest first. The gap before it ends at `gap_end`.
#[inline(always)]
pub(crate) fn close_levels(levels: &mut Vec<u64>, met: met_t, gap_end: yaml_mark_t) -> closed_t
    requires { IsFalling (reverse levels.old.items) }
    ensures levels { reverse levels.new.items
        ≡ filter (stays met.in_flow met.kind met.new.start) (reverse levels.old.items) }
    ensures ends { ends_at result.early gap_end ++ ends_at result.ends met.new.start
        ≡ map (λ c. BlockEnd (end_at met.kind gap_end met.new.start c)) (filter (λ c.
        not (stays met.in_flow met.kind met.new.start c)) (reverse levels.old.items)) }
    ensures none { is_stream_end met.kind ≡ false → result.early ≡ 0 }
    ensures len { vec_len levels.new ≤ vec_len levels.old }
    ensures capacity { vec_capacity levels.new ≡ vec_capacity levels.old }
{
    let mut early = 0;
    let mut ends = 0;
    while let Some(last) = closing(levels, met.in_flow, met.kind, met.new.start) {
        levels.pop();
        if ends_early(met.kind, gap_end, last) {
            early += 1;
        } else {
            ends += 1;
        }
    }
    closed_t { early, ends }
}

/// The greatest level that a lexeme keeps.
#[inline(always)]
pub(crate) fn level_at(
    levels: &[u64],
    in_flow: bool,
    kind: yaml_lexeme_kind_t,
    start: yaml_mark_t,
) -> Option<u64>
    requires { IsFalling (reverse levels.now) }
    ensures { result ≡ greatest_level (filter (stays in_flow kind start) (reverse levels.now)) }
{
    let mut left = levels;
    'closed: while closing(left, in_flow, kind, start).is_some() {
        left = &left[..left.len() - 1];
    }
    top_level(left)
}

/// The greatest of the open levels.
#[tactic(auto, using(crate::proofs::RunningStep::LevelStack::last_level))]
#[inline(always)]
pub(crate) fn top_level(levels: &[u64]) -> Option<u64>
    requires { IsFalling (reverse levels.now) }
    ensures { result ≡ greatest_level (reverse levels.now) }
{
    levels.last().copied()
}

/// Whether a level is this column, outside flow.
#[inline(always)]
pub(crate) fn is_level(in_flow: bool, level: Option<u64>, column: u64) -> bool
    ensures { result ≡ is_level in_flow level column }
{
    !in_flow
        && match level {
            None => false,
            Some(level) => level == column,
        }
}

/// Whether a column is a new level: outside flow, and greater than the open ones.
#[inline(always)]
pub(crate) fn is_new_level(levels: &[u64], in_flow: bool, column: u64) -> bool
    requires { IsFalling (reverse levels.now) }
    ensures { result ≡ is_new in_flow column (reverse levels.now) }
{
    !in_flow
        && match top_level(levels) {
            None => true,
            Some(level) => level < column,
        }
}

/// Whether a lexeme that completes nothing opens its column.
#[inline(always)]
fn opens_at(levels: &[u64], in_flow: bool, kind: yaml_lexeme_kind_t, column: u64) -> bool
    requires { IsFalling (reverse levels.now) }
    ensures { result ≡ (is_new in_flow column (reverse levels.now) && opens_level kind true) }
{
    is_new_level(levels, in_flow, column) && is_opener_kind(kind)
}

/// Opens a level, for which there is room, or none.
#[inline(always)]
pub(crate) fn open_level(levels: &mut Vec<u64>, opens: bool, column: u64)
    requires { opens ≡ true → vec_len levels.old < vec_capacity levels.old }
    ensures { reverse levels.new.items ≡ (if opens then column ∷ [] else []) ++ reverse levels.old.items }
{
    if opens {
        levels.push_reserved(column);
    }
}

/// The start that a kind of lexeme opens a block collection with, or none.
#[inline(always)]
pub(crate) fn block_start(opens: bool, kind: yaml_lexeme_kind_t) -> block_t
    ensures { result ≡ (if opens then start_of kind else NONE) }
{
    if !opens {
        return block_t::NONE;
    }
    match kind {
        yaml_lexeme_kind_t::BLOCK_ENTRY => block_t::SEQUENCE,
        _ => block_t::MAPPING,
    }
}

/// Opens a level at the lexeme of a step, which completes nothing, if it does. Outside flow there is room for one.
#[inline(always)]
pub(crate) fn open_block(levels: &mut Vec<u64>, met: met_t) -> block_t
    requires falls { IsFalling (reverse levels.old.items) }
    requires room { met.in_flow ≡ false → vec_len levels.old < vec_capacity levels.old }
    ensures levels { reverse levels.new.items
        ≡ opened met.in_flow None met.kind met.new.start (reverse levels.old.items) }
    ensures opens { result ≡ opened_by met.in_flow None met.kind met.new.start.column (reverse levels.old.items) }
{
    let column = met.new.start.column;
    let opens = opens_at(levels, met.in_flow, met.kind, column);
    open_level(levels, opens, column);
    block_start(opens, met.kind)
}
