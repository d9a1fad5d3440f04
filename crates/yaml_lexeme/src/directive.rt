//! Directives.
ghost use Rattle.std.specs.Prelude.{◌≡◌, ◌^◌, ◌<◌, IfOk};
ghost use Rattle.yaml_text.specs.Classes as classes;
ghost use Rattle.yaml_text.specs.Token.{data_of};
ghost use Rattle.yaml_lexeme.specs.Directive as spec;
ghost use Rattle.yaml_lexeme.specs.LexemeOf.{directive_of};
ghost use Rattle.yaml_lexeme.specs.inside.Gives.{Gives};

use crate::block::take_line_end;
use crate::classes::{ends, is_blank};
use crate::name::take_letters;
use crate::place::{check_at, cursor_t, is_at};
use crate::problem::{offence, yaml_problem_t, yaml_refusal_t};
use crate::runs::class_t;
use crate::uri::{push_byte, take_some_uri};
use std::alloc::Global;
use yaml_text::{unnamed_yaml_token_t_data, yaml_mark_t};

/// A directive that was read.
#[derive(Drop)]
pub(crate) struct directive_t {
    pub says: unnamed_yaml_token_t_data,
    /// The mark after what it says.
    pub end: yaml_mark_t,
}

fn is_digit(c: char) -> bool
    ensures { result ≡ classes.is_digit c }
{
    c.is_ascii_digit()
}

/// Takes one to nine digits.
fn take_number(cursor: &mut cursor_t) -> Result<u32, yaml_refusal_t>
    ensures value { Gives (λ n. n) result cursor.new (spec.number cursor.old) }
    ensures small { IfOk result (λ n. n < 10 ^ 9) }
{
    let mut value: u32 = 0;
    'digits: for k in 0..9 {
        let Some(digit) = cursor.peek(k).to_digit(10) else {
            if k == 0 {
                return Err(offence(yaml_problem_t::NO_NUMBER));
            }
            cursor.skip(k);
            return Ok(value);
        };
        value = value * 10 + digit;
    }
    let long = is_at!(cursor, is_digit, 9);
    cursor.skip(9);
    if long {
        return Err(offence(yaml_problem_t::LONG_NUMBER));
    }
    Ok(value)
}

/// Takes what follows `YAML`.
#[tactic(auto, unfolding(crate::specs::Directive::version_at))]
fn take_version(cursor: &mut cursor_t) -> Result<unnamed_yaml_token_t_data, yaml_refusal_t>
    ensures { Gives data_of result cursor.new (spec.version_at cursor.old) }
{
    cursor.skip_run(class_t::BLANK);
    let major = take_number(cursor)?;
    if !check_at!(cursor, '.', 0) {
        return Err(offence(yaml_problem_t::NO_DOT));
    }
    cursor.advance();
    let minor = take_number(cursor)?;
    Ok(unnamed_yaml_token_t_data::VERSION_DIRECTIVE {
        major: major as i32,
        minor: minor as i32,
    })
}

/// Takes a handle.
#[tactic(auto, unfolding(crate::specs::Directive::handle_at))]
fn take_handle(alloc: Global, cursor: &mut cursor_t) -> Result<Vec<u8>, yaml_refusal_t>
    ensures { Gives (λ v. v.items) result cursor.new (spec.handle_at cursor.old) }
{
    if !check_at!(cursor, '!', 0) {
        return Err(offence(yaml_problem_t::NO_HANDLE));
    }
    cursor.advance();
    let letters = take_letters(cursor);
    let mut handle = Vec::new(alloc);
    push_byte(&mut handle, b'!')?;
    if check_at!(cursor, '!', 0) {
        handle.extend_from_slice(letters)?;
        push_byte(&mut handle, b'!')?;
        cursor.advance();
        return Ok(handle);
    }
    if !letters.is_empty() {
        return Err(offence(yaml_problem_t::OPEN_HANDLE));
    }
    Ok(handle)
}

/// Takes what follows `TAG`.
#[tactic(auto, unfolding(crate::specs::Directive::tag_directive_at))]
fn take_tag_directive(
    alloc: Global,
    cursor: &mut cursor_t,
) -> Result<unnamed_yaml_token_t_data, yaml_refusal_t>
    ensures { Gives data_of result cursor.new (spec.tag_directive_at cursor.old) }
{
    cursor.skip_run(class_t::BLANK);
    let handle = take_handle(alloc, cursor)?;
    if !is_at!(cursor, is_blank, 0) {
        return Err(offence(yaml_problem_t::NO_BLANK));
    }
    cursor.skip_run(class_t::BLANK);
    let prefix = take_some_uri(alloc, cursor, true)?;
    if !is_at!(cursor, ends, 0) {
        return Err(offence(yaml_problem_t::NO_BLANK_OR_BREAK));
    }
    Ok(unnamed_yaml_token_t_data::TAG_DIRECTIVE { handle, prefix })
}

/// Takes what follows a directive's name.
#[tactic(auto, unfolding(crate::specs::Directive::named))]
fn take_named(
    alloc: Global,
    cursor: &mut cursor_t,
    letters: &[u8],
) -> Result<unnamed_yaml_token_t_data, yaml_refusal_t>
    ensures { Gives data_of result cursor.new (spec.named letters.now cursor.old) }
{
    if letters == b"YAML".as_slice() {
        take_version(cursor)
    } else if letters == b"TAG".as_slice() {
        take_tag_directive(alloc, cursor)
    } else {
        Err(offence(yaml_problem_t::UNKNOWN_DIRECTIVE))
    }
}

/// Takes a directive, and the rest of its line.
#[tactic(auto, unfolding(crate::specs::Directive::directive))]
pub(crate) fn take_directive(
    alloc: Global,
    cursor: &mut cursor_t,
) -> Result<directive_t, yaml_refusal_t>
    ensures { Gives directive_of result cursor.new (spec.directive cursor.old) }
{
    cursor.advance();
    let letters = take_letters(cursor);
    if letters.is_empty() {
        return Err(offence(yaml_problem_t::NO_DIRECTIVE_NAME));
    }
    if !is_at!(cursor, ends, 0) {
        return Err(offence(yaml_problem_t::DIRECTIVE_NAME_GOES_ON));
    }
    let says = take_named(alloc, cursor, letters)?;
    let end = cursor.mark();
    take_line_end(cursor)?;
    Ok(directive_t { says, end })
}
