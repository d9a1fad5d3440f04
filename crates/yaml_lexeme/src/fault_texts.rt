//! What a fault says.
ghost use Rattle.std.specs.Prelude.{◌≡◌, if◌then◌else◌};
ghost use Rattle.yaml_lexeme.specs.FaultTexts as spec;

use crate::kind::yaml_lexeme_kind_t;
use crate::problem::yaml_problem_t;

/// The text of a problem.
#[tactic(auto, unfolding(crate::specs::FaultTexts::problem_text))]
pub(crate) fn problem_text(problem: yaml_problem_t) -> &'static str
    ensures { result.now ≡ spec.problem_text problem }
{
    match problem {
        yaml_problem_t::UNKNOWN_DIRECTIVE => "found unknown directive name",
        yaml_problem_t::NO_COMMENT_OR_BREAK => "did not find expected comment or line break",
        yaml_problem_t::NO_DIRECTIVE_NAME => "could not find expected directive name",
        yaml_problem_t::DIRECTIVE_NAME_GOES_ON => "found unexpected non-alphabetical character",
        yaml_problem_t::NO_DOT => "did not find expected digit or '.' character",
        yaml_problem_t::LONG_NUMBER => "found extremely long version number",
        yaml_problem_t::NO_NUMBER => "did not find expected version number",
        yaml_problem_t::NO_BLANK => "did not find expected whitespace",
        yaml_problem_t::NO_BLANK_OR_BREAK => "did not find expected whitespace or line break",
        yaml_problem_t::NO_NAME => "did not find expected alphabetic or numeric character",
        yaml_problem_t::NO_CLOSING_ANGLE => "did not find the expected '>'",
        yaml_problem_t::NO_HANDLE | yaml_problem_t::OPEN_HANDLE => "did not find expected '!'",
        yaml_problem_t::NO_URI => "did not find expected tag URI",
        yaml_problem_t::NO_OCTET => "did not find URI escaped octet",
        yaml_problem_t::BAD_LEAD_OCTET => "found an incorrect leading UTF-8 octet",
        yaml_problem_t::BAD_NEXT_OCTET => "found an incorrect trailing UTF-8 octet",
        yaml_problem_t::INDICATOR_ZERO => "found an indentation indicator equal to 0",
        yaml_problem_t::TAB_IN_INDENTATION => {
            "found a tab character where an indentation space is expected"
        }
        yaml_problem_t::DOCUMENT_MARKER => "found unexpected document indicator",
        yaml_problem_t::END_OF_TEXT => "found unexpected end of stream",
        yaml_problem_t::UNKNOWN_ESCAPE => "found unknown escape character",
        yaml_problem_t::NO_HEX_DIGIT => "did not find expected hexadecimal number",
        yaml_problem_t::NO_SCALAR_VALUE => "found invalid Unicode character escape code",
        yaml_problem_t::COLON_IN_FLOW => "found unexpected ':'",
        yaml_problem_t::TAB_IN_PLAIN => "found a tab character that violates indentation",
    }
}

/// What was being read, by the kind of the lexeme.
fn scanning(kind: yaml_lexeme_kind_t) -> &'static str
    ensures { result.now ≡ spec.scanning kind }
{
    match kind {
        yaml_lexeme_kind_t::DIRECTIVE => "while scanning a directive",
        yaml_lexeme_kind_t::ALIAS => "while scanning an alias",
        yaml_lexeme_kind_t::ANCHOR => "while scanning an anchor",
        yaml_lexeme_kind_t::TAG => "while scanning a tag",
        yaml_lexeme_kind_t::SINGLE_QUOTED | yaml_lexeme_kind_t::DOUBLE_QUOTED => {
            "while scanning a quoted scalar"
        }
        yaml_lexeme_kind_t::PLAIN => "while scanning a plain scalar",
        yaml_lexeme_kind_t::LITERAL
        | yaml_lexeme_kind_t::FOLDED
        | yaml_lexeme_kind_t::STREAM_END
        | yaml_lexeme_kind_t::DOCUMENT_START
        | yaml_lexeme_kind_t::DOCUMENT_END
        | yaml_lexeme_kind_t::FLOW_SEQUENCE_START
        | yaml_lexeme_kind_t::FLOW_MAPPING_START
        | yaml_lexeme_kind_t::FLOW_SEQUENCE_END
        | yaml_lexeme_kind_t::FLOW_MAPPING_END
        | yaml_lexeme_kind_t::FLOW_ENTRY
        | yaml_lexeme_kind_t::BLOCK_ENTRY
        | yaml_lexeme_kind_t::KEY
        | yaml_lexeme_kind_t::VALUE => "while scanning a block scalar",
    }
}

fn is_directive(kind: yaml_lexeme_kind_t) -> bool
    ensures { result ≡ spec.is_directive kind }
{
    matches!(kind, yaml_lexeme_kind_t::DIRECTIVE)
}

/// A uri in the prefix of a directive, or in a tag.
fn parsing_uri(kind: yaml_lexeme_kind_t) -> &'static str
    ensures { result.now ≡ spec.parsing_uri kind }
{
    if is_directive(kind) {
        "while parsing a %TAG directive"
    } else {
        "while parsing a tag"
    }
}

/// What was being read when the problem came.
#[tactic(auto, unfolding(crate::specs::FaultTexts::context_text))]
pub(crate) fn context_text(kind: yaml_lexeme_kind_t, problem: yaml_problem_t) -> &'static str
    ensures { result.now ≡ spec.context_text kind problem }
{
    match problem {
        yaml_problem_t::NO_DOT | yaml_problem_t::LONG_NUMBER | yaml_problem_t::NO_NUMBER => {
            "while scanning a %YAML directive"
        }
        yaml_problem_t::NO_BLANK => "while scanning a %TAG directive",
        yaml_problem_t::NO_BLANK_OR_BREAK => {
            if is_directive(kind) {
                "while scanning a %TAG directive"
            } else {
                scanning(kind)
            }
        }
        yaml_problem_t::NO_HANDLE => "while scanning a tag directive",
        yaml_problem_t::OPEN_HANDLE => "while parsing a tag directive",
        yaml_problem_t::UNKNOWN_ESCAPE
        | yaml_problem_t::NO_HEX_DIGIT
        | yaml_problem_t::NO_SCALAR_VALUE => "while parsing a quoted scalar",
        yaml_problem_t::NO_URI
        | yaml_problem_t::NO_OCTET
        | yaml_problem_t::BAD_LEAD_OCTET
        | yaml_problem_t::BAD_NEXT_OCTET => parsing_uri(kind),
        yaml_problem_t::UNKNOWN_DIRECTIVE
        | yaml_problem_t::NO_DIRECTIVE_NAME
        | yaml_problem_t::DIRECTIVE_NAME_GOES_ON
        | yaml_problem_t::NO_COMMENT_OR_BREAK
        | yaml_problem_t::NO_NAME
        | yaml_problem_t::NO_CLOSING_ANGLE
        | yaml_problem_t::INDICATOR_ZERO
        | yaml_problem_t::TAB_IN_INDENTATION
        | yaml_problem_t::DOCUMENT_MARKER
        | yaml_problem_t::END_OF_TEXT
        | yaml_problem_t::COLON_IN_FLOW
        | yaml_problem_t::TAB_IN_PLAIN => scanning(kind),
    }
}
