//! Tags.
ghost use Rattle.std.specs.Prelude.{◌≡◌, ◌++◌, IfOk, codes};
ghost use Rattle.yaml_text.specs.Token.{data_of};
ghost use Rattle.yaml_text.specs.Token.TokenData.{TAG};
ghost use Rattle.yaml_lexeme.specs.Tag as spec;
ghost use Rattle.yaml_lexeme.specs.inside.Gives.{Gives};

use crate::classes::ends;
use crate::name::take_letters;
use crate::place::{check_at, cursor_t};
use crate::problem::{offence, refused, yaml_problem_t, yaml_refusal_t};
use crate::uri::{push_byte, take_some_uri, take_uri};
use std::alloc::{AllocError, Global};
use yaml_text::unnamed_yaml_token_t_data;

fn make_tag(handle: Vec<u8>, suffix: Vec<u8>) -> unnamed_yaml_token_t_data
    ensures { data_of result ≡ TAG handle.items suffix.items }
{
    unnamed_yaml_token_t_data::TAG { handle, suffix }
}

/// Takes `<`, a uri and `>`, after a tag's `!`.
#[inline(never)]
#[tactic(auto, unfolding(crate::specs::Tag::angled))]
fn take_angled(
    alloc: Global,
    cursor: &mut cursor_t,
) -> Result<unnamed_yaml_token_t_data, yaml_refusal_t>
    ensures { Gives data_of result cursor.new (spec.angled cursor.old) }
{
    cursor.advance();
    let suffix = take_some_uri(alloc, cursor, true)?;
    if !check_at!(cursor, '>', 0) {
        return Err(offence(yaml_problem_t::NO_CLOSING_ANGLE));
    }
    cursor.advance();
    Ok(make_tag(Vec::new(alloc), suffix))
}

/// `!`, letters and `!`.
#[inline(always)]
fn named_handle(alloc: Global, letters: &[u8]) -> Result<Vec<u8>, AllocError>
    ensures { IfOk result (λ handle. handle.items ≡ codes "!" ++ letters.now ++ codes "!") }
{
    if letters.is_empty() {
        return Vec::from_slice(alloc, b"!!");
    }
    let mut handle = Vec::with_capacity(alloc, letters.len() + 2)?;
    push_byte(&mut handle, b'!')?;
    handle.extend_from_slice(letters)?;
    push_byte(&mut handle, b'!')?;
    Ok(handle)
}

/// Takes letters, and a `!` and a uri, or a uri alone, after a tag's `!`.
#[inline(never)]
#[tactic(auto, unfolding(crate::specs::Tag::handled))]
fn take_handled(
    alloc: Global,
    cursor: &mut cursor_t,
) -> Result<unnamed_yaml_token_t_data, yaml_refusal_t>
    ensures { Gives data_of result cursor.new (spec.handled cursor.old) }
{
    let mut after = cursor.again();
    let letters = take_letters(&mut after);
    if check_at!(after, '!', 0) {
        *cursor = after;
        cursor.advance();
        let suffix = match take_some_uri(alloc, cursor, false) {
            Ok(suffix) => suffix,
            Err(refusal) => return Err(refused(refusal)),
        };
        return Ok(make_tag(named_handle(alloc, letters)?, suffix));
    }
    let suffix = match take_uri(alloc, cursor, false) {
        Ok(suffix) => suffix,
        Err(refusal) => return Err(refused(refusal)),
    };
    let sign = Vec::from_slice(alloc, b"!")?;
    if suffix.is_empty() {
        return Ok(make_tag(suffix, sign));
    }
    Ok(make_tag(sign, suffix))
}

#[inline(always)]
fn take_tag_parts(
    alloc: Global,
    cursor: &mut cursor_t,
) -> Result<unnamed_yaml_token_t_data, yaml_refusal_t>
    ensures { Gives data_of result cursor.new (spec.tag_parts cursor.old) }
{
    cursor.advance();
    // a copy, so that the cursor itself stays in registers
    let mut here = cursor.again();
    let taken = if check_at!(here, '<', 0) {
        take_angled(alloc, &mut here)
    } else {
        take_handled(alloc, &mut here)
    };
    *cursor = here;
    taken
}

/// Takes a tag.
#[inline(always)]
#[tactic(auto, unfolding(crate::specs::Tag::tag))]
pub(crate) fn take_tag(
    alloc: Global,
    cursor: &mut cursor_t,
    in_flow: bool,
) -> Result<unnamed_yaml_token_t_data, yaml_refusal_t>
    ensures { Gives data_of result cursor.new (spec.tag in_flow cursor.old) }
{
    let tag = match take_tag_parts(alloc, cursor) {
        Ok(tag) => tag,
        Err(refusal) => return Err(refused(refusal)),
    };
    let c = cursor.peek(0);
    if !(ends(c) || in_flow && c == ',') {
        return Err(offence(yaml_problem_t::NO_BLANK_OR_BREAK));
    }
    Ok(tag)
}
