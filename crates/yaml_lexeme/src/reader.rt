//! The readers: one for each kind of lexeme that may be refused.
ghost use Rattle.std.specs.Prelude.{ℕ, Bool, ◌≡◌, ◌<◌, ◌≤◌, ◌^◌, IsOk, IfSome, Ok, length, true, false};
ghost use Rattle.yaml_text.specs.Chars.{utf8};
ghost use Rattle.yaml_text.specs.Token.{data_of};
ghost use Rattle.yaml_lexeme.specs.Lex as spec;
ghost use Rattle.yaml_lexeme.specs.KindSets as sets;
ghost use Rattle.yaml_lexeme.specs.Place.{place_at};
ghost use Rattle.yaml_lexeme.specs.Counted.{IsMarkOf};
ghost use Rattle.yaml_lexeme.specs.Answers.{ReadsAs, lexeme_at};
ghost use Rattle.yaml_lexeme.specs.LexemeOf.{lexeme_of, part_from};
ghost use Rattle.yaml_lexeme.specs.declared.kind.yaml_lexeme_kind_t.{yaml_lexeme_kind_t as Kind};
ghost use Rattle.yaml_lexeme.specs.declared.kind.yaml_lexeme_kind_t.TheVariants.{DIRECTIVE, PLAIN, TAG};

use crate::block::{above, take_block};
use crate::directive::take_directive;
use crate::kind::yaml_lexeme_kind_t;
use crate::lex::{yaml_context_t, yaml_spot_t};
use crate::lexeme::{directive_to, scalar_to, whole_of, yaml_lexeme_t, yaml_part_t};
use crate::name::take_name;
use crate::place::cursor_t;
use crate::plain::{take_plain, take_plain_part};
use crate::problem::{refused, yaml_refusal_t};
use crate::quoted::{take_quoted, take_quoted_part};
use crate::tag::take_tag;
use std::alloc::Global;
use yaml_text::{unnamed_yaml_token_t_data, yaml_mark_t, yaml_scalar_style_t, yaml_text_t};

/// Reads lexemes of one kind.
pub trait yaml_reader_t {
    // The kind of the lexemes that it reads.
    ghost KIND: { Kind };

    // Whether what it reads depends on the greatest open level.
    ghost by_level: { Bool };

    /// The kind of the lexemes that it reads.
    const KIND: yaml_lexeme_kind_t;

    /// The lexeme at a spot, or why there is none; then `spot.at` is set to the mark of the offence. With a lexeme, the
    /// spot stays as it is.
    ///
    /// The place and the context are as for [`yaml_lexeme_at`](crate::yaml_lexeme_at), and so is the lexeme.
    /// [`yaml_lexeme_fault`](crate::yaml_lexeme_fault) makes the fault of a refusal. Memory may be refused too. The
    /// value of a scalar is put into `room`, in place of what that holds, if it fits.
    fn read(
        alloc: Global,
        room: Vec<u8>,
        spot: &mut yaml_spot_t,
        context: yaml_context_t,
    ) -> Result<yaml_lexeme_t, yaml_refusal_t>
        requires place { (n : ℕ) × IsMarkOf spot.old.text.now.chars spot.old.at n }
        requires level { by_level ≡ true → IfSome context.level (λ l. l ≤ length (utf8 spot.old.text.now.chars)) }
        ensures value { (n : ℕ) → IsMarkOf spot.old.text.now.chars spot.old.at n
            → ReadsAs lexeme_of KIND spot.old.at spot.new.at result
            (lexeme_at KIND context (place_at spot.old.text.now.chars n)) }
        ensures text { spot.new.text ≡ spot.old.text }
        ensures stays { IsOk result → spot.new.at ≡ spot.old.at };

    /// The lexeme at a mark, if it is a scalar in one line that stands in the text as it is, and a quick look shows where
    /// it ends. No memory is taken. Of any other lexeme, and if it is refused, nothing is returned.
    ///
    /// The place and the context are as for [`yaml_lexeme_at`](crate::yaml_lexeme_at). If there is a part, it has what
    /// `read` returns there, where memory is found.
    fn part<'a>(
        text: &'a yaml_text_t<'_>,
        at: yaml_mark_t,
        context: yaml_context_t,
    ) -> Option<yaml_part_t<'a>>
        requires place { (n : ℕ) × IsMarkOf text.now.chars at n }
        requires level { by_level ≡ true → IfSome context.level (λ l. l ≤ length (utf8 text.now.chars)) }
        ensures value { IfSome result (λ part. (n : ℕ) → IsMarkOf text.now.chars at n
            → lexeme_at KIND context (place_at text.now.chars n) ≡ Ok (part_from at part)) }
        ensures size { IfSome result (λ part. length part.value.now < 2 ^ 63) };
}

/// The same refusal. The spot is set to the mark of the offence, which is where the cursor is.
#[inline(always)]
fn refused_here(
    refusal: yaml_refusal_t,
    cursor: &cursor_t,
    spot: &mut yaml_spot_t,
) -> yaml_refusal_t
    ensures value { result ≡ refusal }
    ensures at { spot.new.at ≡ cursor.now.mark }
    ensures text { spot.new.text ≡ spot.old.text }
{
    spot.at = cursor.mark();
    refused(refusal)
}

/// Whether a context is in flow.
#[inline(always)]
fn in_flow(context: yaml_context_t) -> bool
    ensures { result ≡ spec.in_flow context }
{
    context.depth > 0
}

/// The least column of a line that goes on.
fn least(context: yaml_context_t) -> u64
    requires { spec.least context < 2 ^ 64 }
    ensures { result ≡ spec.least context }
{
    above(context.level)
}

/// Reads plain scalars.
pub struct plain_reader_t {}

impl yaml_reader_t for plain_reader_t {
    ghost KIND = { PLAIN };

    ghost by_level = { true };

    const KIND: yaml_lexeme_kind_t = yaml_lexeme_kind_t::PLAIN;

    #[tactic(auto, unfolding(crate::specs::Lex::lex))]
    #[inline(always)]
    fn read(
        _alloc: Global,
        room: Vec<u8>,
        spot: &mut yaml_spot_t,
        context: yaml_context_t,
    ) -> Result<yaml_lexeme_t, yaml_refusal_t> {
        let mut cursor = cursor_t::at(spot.text, spot.at);
        match take_plain(room, &mut cursor, in_flow(context), least(context)) {
            Ok(scalar) => Ok(scalar_to(
                yaml_scalar_style_t::YAML_PLAIN_SCALAR_STYLE,
                spot.at,
                scalar,
                cursor.mark(),
            )),
            Err(refusal) => Err(refused_here(refusal, &cursor, spot)),
        }
    }

    #[tactic(auto, unfolding(crate::specs::Lex::lex))]
    #[inline(always)]
    fn part<'a>(
        text: &'a yaml_text_t<'_>,
        at: yaml_mark_t,
        context: yaml_context_t,
    ) -> Option<yaml_part_t<'a>> {
        let mut cursor = cursor_t::at(text, at);
        let (value, end_mark, passed_break) = take_plain_part(
            &mut cursor,
            in_flow(context),
            least(context),
        )?;
        Some(yaml_part_t {
            value,
            style: yaml_scalar_style_t::YAML_PLAIN_SCALAR_STYLE,
            end_mark,
            reach: cursor.mark(),
            passed_break,
        })
    }
}

/// What a quoted scalar says.
fn quoted_as(value: Vec<u8>, style: yaml_scalar_style_t) -> unnamed_yaml_token_t_data
    ensures { data_of result ≡ sets.quoted_as style value.items }
{
    unnamed_yaml_token_t_data::SCALAR { value, style }
}

fn quoted_style(single: bool) -> yaml_scalar_style_t
    ensures { result ≡ sets.quoted_style single }
{
    if single {
        yaml_scalar_style_t::YAML_SINGLE_QUOTED_SCALAR_STYLE
    } else {
        yaml_scalar_style_t::YAML_DOUBLE_QUOTED_SCALAR_STYLE
    }
}

/// The kind of a quoted scalar.
#[inline(always)]
const fn quoted_kind(single: bool) -> yaml_lexeme_kind_t
    ensures { result ≡ sets.quoted_kind single }
{
    if single {
        yaml_lexeme_kind_t::SINGLE_QUOTED
    } else {
        yaml_lexeme_kind_t::DOUBLE_QUOTED
    }
}

/// Reads scalars in quotes: single ones if `SINGLE`, and else double ones.
pub struct quoted_reader_t<const SINGLE: bool> {}

impl<const SINGLE: bool> yaml_reader_t for quoted_reader_t<SINGLE> {
    ghost KIND = { sets.quoted_kind SINGLE };

    ghost by_level = { false };

    const KIND: yaml_lexeme_kind_t = quoted_kind(SINGLE);

    #[inline(always)]
    fn read(
        _alloc: Global,
        room: Vec<u8>,
        spot: &mut yaml_spot_t,
        _context: yaml_context_t,
    ) -> Result<yaml_lexeme_t, yaml_refusal_t> {
        let mut cursor = cursor_t::at(spot.text, spot.at);
        match take_quoted(room, &mut cursor, SINGLE) {
            Ok(value) => Ok(whole_of(
                quoted_as(value, quoted_style(SINGLE)),
                spot.at,
                cursor.mark(),
            )),
            Err(refusal) => Err(refused_here(refusal, &cursor, spot)),
        }
    }

    #[tactic(auto, unfolding(crate::specs::Lex::lex))]
    #[inline(always)]
    fn part<'a>(
        text: &'a yaml_text_t<'_>,
        at: yaml_mark_t,
        _context: yaml_context_t,
    ) -> Option<yaml_part_t<'a>> {
        let mut cursor = cursor_t::at(text, at);
        let value = take_quoted_part(&mut cursor, SINGLE)?;
        Some(yaml_part_t {
            value,
            style: quoted_style(SINGLE),
            end_mark: cursor.mark(),
            reach: cursor.mark(),
            passed_break: false,
        })
    }
}

fn block_style(folded: bool) -> yaml_scalar_style_t
    ensures { result ≡ sets.block_style folded }
{
    if folded {
        yaml_scalar_style_t::YAML_FOLDED_SCALAR_STYLE
    } else {
        yaml_scalar_style_t::YAML_LITERAL_SCALAR_STYLE
    }
}

/// The kind of a literal or folded scalar.
#[inline(always)]
const fn block_kind(folded: bool) -> yaml_lexeme_kind_t
    ensures { result ≡ sets.block_kind folded }
{
    if folded {
        yaml_lexeme_kind_t::FOLDED
    } else {
        yaml_lexeme_kind_t::LITERAL
    }
}

/// Reads block scalars: folded ones if `FOLDED`, and else literal ones.
pub struct block_reader_t<const FOLDED: bool> {}

impl<const FOLDED: bool> yaml_reader_t for block_reader_t<FOLDED> {
    ghost KIND = { sets.block_kind FOLDED };

    ghost by_level = { true };

    const KIND: yaml_lexeme_kind_t = block_kind(FOLDED);

    #[tactic(auto, unfolding(crate::specs::Lex::lex))]
    #[inline(always)]
    fn read(
        _alloc: Global,
        room: Vec<u8>,
        spot: &mut yaml_spot_t,
        context: yaml_context_t,
    ) -> Result<yaml_lexeme_t, yaml_refusal_t> {
        let mut cursor = cursor_t::at(spot.text, spot.at);
        match take_block(room, &mut cursor, FOLDED, context.level) {
            Ok(scalar) => Ok(scalar_to(block_style(FOLDED), spot.at, scalar, cursor.mark())),
            Err(refusal) => Err(refused_here(refusal, &cursor, spot)),
        }
    }

    #[inline(always)]
    fn part<'a>(
        _text: &'a yaml_text_t<'_>,
        _at: yaml_mark_t,
        _context: yaml_context_t,
    ) -> Option<yaml_part_t<'a>> {
        None
    }
}

/// What an anchor or an alias says.
fn anchor_or_alias(anchor: bool, value: Vec<u8>) -> unnamed_yaml_token_t_data
    ensures { data_of result ≡ sets.anchor_or_alias anchor value.items }
{
    if anchor {
        unnamed_yaml_token_t_data::ANCHOR { value }
    } else {
        unnamed_yaml_token_t_data::ALIAS { value }
    }
}

/// The kind of an anchor or an alias.
#[inline(always)]
const fn name_kind(anchor: bool) -> yaml_lexeme_kind_t
    ensures { result ≡ sets.name_kind anchor }
{
    if anchor {
        yaml_lexeme_kind_t::ANCHOR
    } else {
        yaml_lexeme_kind_t::ALIAS
    }
}

/// Reads anchors if `ANCHOR`, and else aliases.
pub struct name_reader_t<const ANCHOR: bool> {}

impl<const ANCHOR: bool> yaml_reader_t for name_reader_t<ANCHOR> {
    ghost KIND = { sets.name_kind ANCHOR };

    ghost by_level = { false };

    const KIND: yaml_lexeme_kind_t = name_kind(ANCHOR);

    #[inline(always)]
    fn read(
        alloc: Global,
        _room: Vec<u8>,
        spot: &mut yaml_spot_t,
        _context: yaml_context_t,
    ) -> Result<yaml_lexeme_t, yaml_refusal_t> {
        let mut cursor = cursor_t::at(spot.text, spot.at);
        match take_name(alloc, &mut cursor) {
            Ok(value) => Ok(whole_of(anchor_or_alias(ANCHOR, value), spot.at, cursor.mark())),
            Err(refusal) => Err(refused_here(refusal, &cursor, spot)),
        }
    }

    #[inline(always)]
    fn part<'a>(
        _text: &'a yaml_text_t<'_>,
        _at: yaml_mark_t,
        _context: yaml_context_t,
    ) -> Option<yaml_part_t<'a>> {
        None
    }
}

/// Reads tags.
pub struct tag_reader_t {}

impl yaml_reader_t for tag_reader_t {
    ghost KIND = { TAG };

    ghost by_level = { false };

    const KIND: yaml_lexeme_kind_t = yaml_lexeme_kind_t::TAG;

    #[tactic(auto, unfolding(crate::specs::Lex::lex))]
    #[inline(always)]
    fn read(
        alloc: Global,
        _room: Vec<u8>,
        spot: &mut yaml_spot_t,
        context: yaml_context_t,
    ) -> Result<yaml_lexeme_t, yaml_refusal_t> {
        let mut cursor = cursor_t::at(spot.text, spot.at);
        match take_tag(alloc, &mut cursor, in_flow(context)) {
            Ok(says) => Ok(whole_of(says, spot.at, cursor.mark())),
            Err(refusal) => Err(refused_here(refusal, &cursor, spot)),
        }
    }

    #[inline(always)]
    fn part<'a>(
        _text: &'a yaml_text_t<'_>,
        _at: yaml_mark_t,
        _context: yaml_context_t,
    ) -> Option<yaml_part_t<'a>> {
        None
    }
}

/// Reads directives.
pub struct directive_reader_t {}

impl yaml_reader_t for directive_reader_t {
    ghost KIND = { DIRECTIVE };

    ghost by_level = { false };

    const KIND: yaml_lexeme_kind_t = yaml_lexeme_kind_t::DIRECTIVE;

    #[tactic(auto, unfolding(crate::specs::Lex::lex))]
    #[inline(never)]
    fn read(
        alloc: Global,
        _room: Vec<u8>,
        spot: &mut yaml_spot_t,
        _context: yaml_context_t,
    ) -> Result<yaml_lexeme_t, yaml_refusal_t> {
        let mut cursor = cursor_t::at(spot.text, spot.at);
        match take_directive(alloc, &mut cursor) {
            Ok(directive) => Ok(directive_to(spot.at, directive, cursor.mark())),
            Err(refusal) => Err(refused_here(refusal, &cursor, spot)),
        }
    }

    #[inline(always)]
    fn part<'a>(
        _text: &'a yaml_text_t<'_>,
        _at: yaml_mark_t,
        _context: yaml_context_t,
    ) -> Option<yaml_part_t<'a>> {
        None
    }
}
