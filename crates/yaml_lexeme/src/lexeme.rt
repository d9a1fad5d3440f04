//! Lexemes, and what they are made of.
ghost use Rattle.std.specs.Prelude.{◌≡◌};
ghost use Rattle.yaml_text.specs.Token.{data_of};
ghost use Rattle.yaml_lexeme.specs.Lexeme as spec;
ghost use Rattle.yaml_lexeme.specs.LexemeOf.{directive_of, lexeme_of, scalar_of};

use crate::directive::directive_t;
use crate::plain::scalar_t;
use yaml_text::{unnamed_yaml_token_t_data, yaml_mark_t, yaml_scalar_style_t};

/// A lexeme that was read.
#[derive(Drop, PartialEq, Eq)]
pub struct yaml_lexeme_t {
    /// What its token says: the token's type and the parts that tokens of this type have.
    pub token_data: unnamed_yaml_token_t_data,
    /// The mark of its token's first character. A stream end has one mark three times: that of the text's end,
    /// or that of the next line's start if the column of the text's end is not 0.
    pub start_mark: yaml_mark_t,
    /// The mark after its token's last character. A plain scalar ends after its last chunk, a literal
    /// or folded one after the last break that was read or at the end of the text, a directive before the blanks
    /// and the comment after it.
    pub end_mark: yaml_mark_t,
    /// The mark up to which was read; the next gap begins here. It is `end_mark`, or after it: for a plain scalar
    /// after the separator that was read last, for a literal or folded one after the spaces, for a directive after
    /// its line's break.
    pub reach: yaml_mark_t,
    /// For a plain scalar, whether a break is between `end_mark` and `reach`; false for every other kind.
    pub passed_break: bool,
}

/// A scalar that stands in the text as it is: its value is a part of the text, and no list. Where it starts is not said.
#[derive(Clone, Copy)]
pub struct yaml_part_t<'a> {
    /// Its value, in UTF-8.
    pub value: &'a [u8],
    /// How it is written.
    pub style: yaml_scalar_style_t,
    /// The mark after its token's last character, as of a [`yaml_lexeme_t`].
    pub end_mark: yaml_mark_t,
    /// The mark up to which was read, as of a [`yaml_lexeme_t`].
    pub reach: yaml_mark_t,
    /// For a plain scalar, whether a break is between `end_mark` and `reach`; false for every other kind.
    pub passed_break: bool,
}

/// The lexeme between two marks, the second of which is also its reach.
pub(crate) fn whole_of(
    says: unnamed_yaml_token_t_data,
    start: yaml_mark_t,
    end: yaml_mark_t,
) -> yaml_lexeme_t
    ensures { lexeme_of result ≡ spec.whole_of (data_of says) start end }
{
    yaml_lexeme_t {
        token_data: says,
        start_mark: start,
        end_mark: end,
        reach: end,
        passed_break: false,
    }
}

/// The lexeme of a scalar. Its end is taken apart, so that it is not copied from place to place on the stack.
pub(crate) fn scalar_to(
    style: yaml_scalar_style_t,
    start: yaml_mark_t,
    scalar: scalar_t,
    reach: yaml_mark_t,
) -> yaml_lexeme_t
    ensures { lexeme_of result ≡ spec.scalar_to style start (scalar_of scalar) reach }
{
    yaml_lexeme_t {
        token_data: unnamed_yaml_token_t_data::SCALAR {
            value: scalar.value,
            style,
        },
        start_mark: start,
        end_mark: yaml_mark_t {
            index: scalar.end.index,
            line: scalar.end.line,
            column: scalar.end.column,
        },
        reach,
        passed_break: scalar.passed_break,
    }
}

/// The lexeme of a directive.
pub(crate) fn directive_to(
    start: yaml_mark_t,
    directive: directive_t,
    reach: yaml_mark_t,
) -> yaml_lexeme_t
    ensures { lexeme_of result ≡ spec.directive_to start (directive_of directive) reach }
{
    yaml_lexeme_t {
        token_data: directive.says,
        start_mark: start,
        end_mark: directive.end,
        reach,
        passed_break: false,
    }
}
