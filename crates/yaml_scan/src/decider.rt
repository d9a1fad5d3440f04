//! What comes right after a lexeme, and decides whether a candidate there is a key.
ghost use Rattle.std.specs.Prelude.{◌≡◌, ℕ, IfSome};
ghost use Rattle.yaml_lexeme.specs.LexemeOf.{lexeme_of};
ghost use Rattle.yaml_lexeme.specs.Counted.{IsMarkOf};
ghost use Rattle.yaml_lexeme.specs.Decider.{one_on};
ghost use Rattle.yaml_scan.specs.inside.TextReads.{IsDecider};

use yaml_lexeme::{yaml_decider_at, yaml_lexeme_kind_t, yaml_lexeme_t, yaml_read_character};
use yaml_text::{yaml_mark_t, yaml_text_t};

/// What comes right after a lexeme, and decides whether a candidate there is a key.
#[derive(Drop)]
pub(crate) struct decider_t {
    pub kind: yaml_lexeme_kind_t,
    pub lexeme: yaml_lexeme_t,
}

/// What decides at a mark whether a candidate that ends there is a key, if such a lexeme is right there. It is one
/// character of ASCII.
#[inline(always)]
pub(crate) fn decider_at(text: &yaml_text_t, at: yaml_mark_t, in_flow: bool) -> Option<decider_t>
    requires { (p : ℕ) × IsMarkOf text.now.chars at p }
    ensures decides { IfSome result (λ d. (p : ℕ) → IsMarkOf text.now.chars at p
        → IsDecider text.now.chars in_flow p d.kind (lexeme_of d.lexeme)) }
    ensures reach { IfSome result (λ d. (lexeme_of d.lexeme).reach ≡ one_on at) }
{
    match yaml_decider_at(text, at, in_flow) {
        Some(kind) => Some(decider_t {
            kind,
            lexeme: yaml_read_character(text, at, kind),
        }),
        None => None,
    }
}
