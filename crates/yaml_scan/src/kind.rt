//! What the layout asks of a kind of lexeme.
ghost use Rattle.std.specs.Prelude.{◌≡◌, true, ◌+◌, ◌<◌, ◌^◌};
ghost use Rattle.std.specs.Option.{option_copied};
ghost use Rattle.yaml_scan.specs.Kind.{is_candidate_kind, is_value, is_stream_end, closes_all};
ghost use Rattle.yaml_scan.specs.Levels.{opens_level, stays};
ghost use Rattle.yaml_scan.specs.Step.{end_of, problem_of, start_at};

use yaml_lexeme::yaml_lexeme_kind_t;
use yaml_text::yaml_mark_t;

pub(crate) fn is_candidate_kind(kind: yaml_lexeme_kind_t) -> bool
    ensures { result ≡ is_candidate_kind kind }
{
    matches!(
        kind,
        yaml_lexeme_kind_t::FLOW_SEQUENCE_START
            | yaml_lexeme_kind_t::FLOW_MAPPING_START
            | yaml_lexeme_kind_t::ALIAS
            | yaml_lexeme_kind_t::ANCHOR
            | yaml_lexeme_kind_t::TAG
            | yaml_lexeme_kind_t::SINGLE_QUOTED
            | yaml_lexeme_kind_t::DOUBLE_QUOTED
            | yaml_lexeme_kind_t::PLAIN
    )
}

pub(crate) fn is_colon(kind: yaml_lexeme_kind_t) -> bool
    ensures { result ≡ is_value kind }
{
    matches!(kind, yaml_lexeme_kind_t::VALUE)
}

pub(crate) fn is_stream_end(kind: yaml_lexeme_kind_t) -> bool
    ensures { result ≡ is_stream_end kind }
{
    matches!(kind, yaml_lexeme_kind_t::STREAM_END)
}

fn is_closer(kind: yaml_lexeme_kind_t) -> bool
    ensures { result ≡ closes_all kind }
{
    matches!(
        kind,
        yaml_lexeme_kind_t::STREAM_END
            | yaml_lexeme_kind_t::DIRECTIVE
            | yaml_lexeme_kind_t::DOCUMENT_START
            | yaml_lexeme_kind_t::DOCUMENT_END
    )
}

/// Whether it opens a block collection if it completes no key.
pub(crate) fn is_opener_kind(kind: yaml_lexeme_kind_t) -> bool
    ensures { result ≡ opens_level kind true }
{
    matches!(
        kind,
        yaml_lexeme_kind_t::BLOCK_ENTRY | yaml_lexeme_kind_t::KEY | yaml_lexeme_kind_t::VALUE
    )
}

/// What is wrong with a kind if no key is allowed at depth 0. `none`: it completes nothing.
#[inline(always)]
pub(crate) fn problem(kind: yaml_lexeme_kind_t, none: bool) -> Option<&'static str>
    ensures { option_copied result ≡ problem_of kind none }
{
    match kind {
        yaml_lexeme_kind_t::BLOCK_ENTRY => {
            Some("block sequence entries are not allowed in this context")
        }
        yaml_lexeme_kind_t::KEY => Some("mapping keys are not allowed in this context"),
        yaml_lexeme_kind_t::VALUE if none => {
            Some("mapping values are not allowed in this context")
        }
        _ => None,
    }
}

/// Whether a column stays open at a lexeme that starts at a mark.
pub(crate) fn stays_open(
    in_flow: bool,
    kind: yaml_lexeme_kind_t,
    start: yaml_mark_t,
    column: u64,
) -> bool
    ensures { result ≡ stays in_flow kind start column }
{
    in_flow || (!is_closer(kind) && column <= start.column)
}

fn end_of(gap_end: yaml_mark_t) -> yaml_mark_t
    requires { gap_end.line + 1 < 2 ^ 64 }
    ensures { result ≡ end_of gap_end }
{
    if gap_end.column == 0 {
        gap_end
    } else {
        yaml_mark_t {
            index: gap_end.index,
            line: gap_end.line + 1,
            column: 0,
        }
    }
}

/// Where a lexeme starts after a gap.
pub(crate) fn start_after(kind: yaml_lexeme_kind_t, gap_end: yaml_mark_t) -> yaml_mark_t
    requires { gap_end.line + 1 < 2 ^ 64 }
    ensures { result ≡ start_at kind gap_end }
{
    if is_stream_end(kind) {
        end_of(gap_end)
    } else {
        gap_end
    }
}
