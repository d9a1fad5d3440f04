//! Flow depth: which lexemes enter a flow collection, and which leave one (YAML 1.1, chapter 10, Collection Styles).
ghost use Rattle.std.specs.Prelude.{◌≡◌, ◌||◌};
ghost use Rattle.yaml_scan.specs.Kind.{is_flow_start, is_flow_end};

use yaml_lexeme::yaml_lexeme_kind_t;

#[inline(always)]
pub(crate) fn is_flow_start(kind: yaml_lexeme_kind_t) -> bool
    ensures { result ≡ is_flow_start kind }
{
    matches!(
        kind,
        yaml_lexeme_kind_t::FLOW_SEQUENCE_START | yaml_lexeme_kind_t::FLOW_MAPPING_START
    )
}

#[inline(always)]
pub(crate) fn is_flow_end(kind: yaml_lexeme_kind_t) -> bool
    ensures { result ≡ is_flow_end kind }
{
    matches!(
        kind,
        yaml_lexeme_kind_t::FLOW_SEQUENCE_END | yaml_lexeme_kind_t::FLOW_MAPPING_END
    )
}

/// Whether a lexeme enters a depth or leaves one.
#[inline(always)]
pub(crate) fn nests(kind: yaml_lexeme_kind_t) -> bool
    ensures { result ≡ (is_flow_start kind || is_flow_end kind) }
{
    is_flow_start(kind) || is_flow_end(kind)
}
