//! Whether a key is allowed at a lexeme.
ghost use Rattle.std.specs.Prelude.{◌≡◌, ℕ, ◌&&◌, ◌||◌, not, nat_lt};
ghost use Rattle.yaml_scan.specs.Allowed.{allows};

use yaml_lexeme::yaml_lexeme_kind_t;
use yaml_text::yaml_mark_t;

/// Whether a key is allowed after a lexeme. `in_flow`: it was read inside a flow collection. `none`: it completed
/// nothing. `passed_break`: it is a plain scalar, and a break is in the separator after it.
#[inline(always)]
pub(crate) fn is_allowed_after(
    kind: yaml_lexeme_kind_t,
    in_flow: bool,
    none: bool,
    passed_break: bool,
) -> bool
    ensures { (d : ℕ) → in_flow ≡ nat_lt 0 d → result ≡ allows kind d none passed_break }
{
    match kind {
        yaml_lexeme_kind_t::FLOW_SEQUENCE_START
        | yaml_lexeme_kind_t::FLOW_MAPPING_START
        | yaml_lexeme_kind_t::FLOW_ENTRY
        | yaml_lexeme_kind_t::BLOCK_ENTRY
        | yaml_lexeme_kind_t::LITERAL
        | yaml_lexeme_kind_t::FOLDED => true,
        yaml_lexeme_kind_t::KEY => !in_flow,
        yaml_lexeme_kind_t::VALUE => !in_flow && none,
        yaml_lexeme_kind_t::PLAIN => passed_break,
        _ => false,
    }
}

/// Whether a key is allowed at a lexeme after a gap that ends at `gap_end`: `allowed` after the last lexeme, or because
/// outside flow a break is in the gap.
#[inline(always)]
pub(crate) fn is_key_allowed(
    allowed: bool,
    in_flow: bool,
    mark: yaml_mark_t,
    gap_end: yaml_mark_t,
) -> bool
    ensures { result ≡ (allowed || (not in_flow && nat_lt mark.line gap_end.line)) }
{
    allowed || (!in_flow && mark.line < gap_end.line)
}
