//! Anchors and aliases.
ghost use Rattle.std.specs.Prelude.{◌≡◌};
ghost use Rattle.yaml_text.specs.Classes.{is_alpha};
ghost use Rattle.yaml_lexeme.specs.Place as place;
ghost use Rattle.yaml_lexeme.specs.Name as spec;
ghost use Rattle.yaml_lexeme.specs.inside.Gives.{Gives};

use crate::classes::ends;
use crate::place::{cursor_t, is_at};
use crate::problem::{offence, yaml_problem_t, yaml_refusal_t};
use crate::runs::class_t;
use std::alloc::Global;

/// Takes as many letters, digits, `_` and `-` as possible.
#[inline(always)]
pub(crate) fn take_letters<'a>(cursor: &mut cursor_t<'a>) -> &'a [u8]
    ensures value { result.now ≡ place.run is_alpha cursor.old }
    ensures end { cursor.new ≡ place.after_run is_alpha cursor.old }
{
    cursor.quick_run(class_t::ALPHA)
}

fn is_after_name(c: char) -> bool
    ensures { result ≡ spec.is_after_name c }
{
    ends(c)
        || c == '?'
        || c == ':'
        || c == ','
        || c == ']'
        || c == '}'
        || c == '%'
        || c == '@'
        || c == '`'
}

/// Takes the name after `&` or `*`.
#[inline(always)]
#[tactic(auto, unfolding(crate::specs::Name::name))]
pub(crate) fn take_name(alloc: Global, cursor: &mut cursor_t) -> Result<Vec<u8>, yaml_refusal_t>
    ensures { Gives (λ v. v.items) result cursor.new (spec.name cursor.old) }
{
    cursor.advance();
    let letters = take_letters(cursor);
    if letters.is_empty() || !is_at!(cursor, is_after_name, 0) {
        return Err(offence(yaml_problem_t::NO_NAME));
    }
    Ok(Vec::from_slice(alloc, letters)?)
}
