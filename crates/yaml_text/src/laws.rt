//! What holds of the definitions, and of the comparisons and hashes that the types derive.
ghost use Rattle.std.specs.Prelude.{ℕ, ◌≡◌, ◌≤◌, ◌++◌, ◌↔◌, false, List, length, take, drop, Ok, Err};
ghost use Rattle.std.specs.Prelude.{IsTrue, fold, pos};
ghost use Rattle.std.specs.Hash as fed;
ghost use Rattle.std.specs.Ordering.{nat_cmp};
ghost use Rattle.yaml_text.specs.Chars.{utf8};
ghost use Rattle.yaml_text.specs.TextBytes.{AreChars};
ghost use Rattle.yaml_text.specs.Text.{Text};
ghost use Rattle.yaml_text.specs.Fault.{Fault, fault_of};
ghost use Rattle.yaml_text.specs.Decode.{spellings};
ghost use Rattle.yaml_text.specs.Decoding.{IsFront, Spells, IsRefused, decoding};
ghost use Rattle.yaml_text.specs.Pieces.{StandsIn, StaysBroken};
ghost use Rattle.yaml_text.specs.MarkOn.{mark_on};
ghost use Rattle.yaml_text.specs.Mark.{cuts_break, mark_of};
ghost use Rattle.yaml_text.specs.Types as numbers;
ghost use Rattle.yaml_text.specs.Token.{data_of, token_of};
ghost use Rattle.std.specs.Str.{chars};
ghost use Rattle.yaml_text.specs.declared.types.yaml_encoding_t.{yaml_encoding_t};

use crate::fault::yaml_fault_t;
use crate::token::{unnamed_yaml_token_t_data, yaml_token_t};
use crate::types::{
    yaml_break_t, yaml_encoding_t, yaml_error_type_t, yaml_mapping_style_t, yaml_mark_t,
    yaml_scalar_style_t, yaml_sequence_style_t, yaml_simple_key_t, yaml_tag_directive_t,
    yaml_token_type_t, yaml_version_directive_t,
};
use std::cmp::Ordering;
use std::hash::{Hash, Hasher};

/// An input decodes to the text that it spells, or is refused for what follows its front, which is the longest list of
/// characters whose spellings begin it.
pub fn one_reading()
    ensures text { (setting : yaml_encoding_t) (input : List ℕ) (text : Text)
        → (decoding setting input ≡ Ok text) ↔ Spells setting input text }
    ensures fault { (setting : yaml_encoding_t) (input : List ℕ) (fault : Fault)
        → (decoding setting input ≡ Err fault) ↔ IsRefused setting input fault }
    ensures longest { (e : yaml_encoding_t) (bytes chars rest cs more : List ℕ)
        → IsFront e bytes chars rest → AreChars cs → bytes ≡ spellings e cs ++ more
        → length cs ≤ length chars }
{}

/// What is wrong after the front of the bytes that came, and no bytes can mend, is wrong of every input that goes on from
/// them, in the same place and after the same front.
pub fn broken_input_stays_broken()
    ensures { StaysBroken }
{}

/// The UTF-8 of characters with the byte FF after it decodes to these characters, and is refused for that byte.
pub fn stand_in_is_refused()
    ensures { StandsIn }
{}

/// A mark that is moved character by character is the one that is counted from the front, at every place that
/// is not between the two characters of a CR LF.
pub fn running_mark()
    ensures { (n : ℕ) (before cs : List ℕ) → n ≤ length cs
        → cuts_break before cs ≡ false → cuts_break (before ++ take n cs) (drop n cs) ≡ false
        → mark_on n (mark_of before) cs ≡ mark_of (before ++ take n cs) }
{}

/// UTF-8 that is cut between two characters is the UTF-8 of both parts.
pub fn cut_between_characters()
    ensures before { (front rest : List ℕ) → AreChars (front ++ rest)
        → take (length (utf8 front)) (utf8 (front ++ rest)) ≡ utf8 front }
    ensures after { (front rest : List ℕ) → AreChars (front ++ rest)
        → chars (drop (length (utf8 front)) (utf8 (front ++ rest))) ≡ rest }
{}

/// The number of an encoding.
pub fn encoding_number(value: yaml_encoding_t) -> u32
    ensures { result ≡ numbers.encoding_number value }
{
    value as u32
}

/// Encodings are compared by their numbers.
pub fn encoding_order(a: yaml_encoding_t, b: yaml_encoding_t) -> Ordering
    ensures { result ≡ nat_cmp (numbers.encoding_number a) (numbers.encoding_number b) }
{
    a.cmp(&b)
}

/// An encoding is hashed as its number, so equal values hash alike.
pub fn encoding_hash<H: Hasher>(value: yaml_encoding_t, state: &mut H)
    ensures { state.new ≡ fold H.write state.old (fed.isize (pos (numbers.encoding_number value))) }
{
    value.hash(state)
}

/// The number of a kind of fault.
pub fn error_type_number(value: yaml_error_type_t) -> u32
    ensures { result ≡ numbers.error_type_number value }
{
    value as u32
}

/// Kinds of faults are compared by their numbers.
pub fn error_type_order(a: yaml_error_type_t, b: yaml_error_type_t) -> Ordering
    ensures { result ≡ nat_cmp (numbers.error_type_number a) (numbers.error_type_number b) }
{
    a.cmp(&b)
}

/// A kind of fault is hashed as its number, so equal values hash alike.
pub fn error_type_hash<H: Hasher>(value: yaml_error_type_t, state: &mut H)
    ensures { state.new ≡ fold H.write state.old (fed.isize (pos (numbers.error_type_number value))) }
{
    value.hash(state)
}

/// The number of a break.
pub fn break_number(value: yaml_break_t) -> u32
    ensures { result ≡ numbers.break_number value }
{
    value as u32
}

/// Breaks are compared by their numbers.
pub fn break_order(a: yaml_break_t, b: yaml_break_t) -> Ordering
    ensures { result ≡ nat_cmp (numbers.break_number a) (numbers.break_number b) }
{
    a.cmp(&b)
}

/// A break is hashed as its number, so equal values hash alike.
pub fn break_hash<H: Hasher>(value: yaml_break_t, state: &mut H)
    ensures { state.new ≡ fold H.write state.old (fed.isize (pos (numbers.break_number value))) }
{
    value.hash(state)
}

/// The number of a scalar style.
pub fn scalar_style_number(value: yaml_scalar_style_t) -> u32
    ensures { result ≡ numbers.scalar_style_number value }
{
    value as u32
}

/// Scalar styles are compared by their numbers.
pub fn scalar_style_order(a: yaml_scalar_style_t, b: yaml_scalar_style_t) -> Ordering
    ensures { result ≡ nat_cmp (numbers.scalar_style_number a) (numbers.scalar_style_number b) }
{
    a.cmp(&b)
}

/// A scalar style is hashed as its number, so equal values hash alike.
pub fn scalar_style_hash<H: Hasher>(value: yaml_scalar_style_t, state: &mut H)
    ensures { state.new ≡ fold H.write state.old (fed.isize (pos (numbers.scalar_style_number value))) }
{
    value.hash(state)
}

/// The number of a sequence style.
pub fn sequence_style_number(value: yaml_sequence_style_t) -> u32
    ensures { result ≡ numbers.sequence_style_number value }
{
    value as u32
}

/// Sequence styles are compared by their numbers.
pub fn sequence_style_order(a: yaml_sequence_style_t, b: yaml_sequence_style_t) -> Ordering
    ensures { result ≡ nat_cmp (numbers.sequence_style_number a) (numbers.sequence_style_number b) }
{
    a.cmp(&b)
}

/// A sequence style is hashed as its number, so equal values hash alike.
pub fn sequence_style_hash<H: Hasher>(value: yaml_sequence_style_t, state: &mut H)
    ensures { state.new ≡ fold H.write state.old (fed.isize (pos (numbers.sequence_style_number value))) }
{
    value.hash(state)
}

/// The number of a mapping style.
pub fn mapping_style_number(value: yaml_mapping_style_t) -> u32
    ensures { result ≡ numbers.mapping_style_number value }
{
    value as u32
}

/// Mapping styles are compared by their numbers.
pub fn mapping_style_order(a: yaml_mapping_style_t, b: yaml_mapping_style_t) -> Ordering
    ensures { result ≡ nat_cmp (numbers.mapping_style_number a) (numbers.mapping_style_number b) }
{
    a.cmp(&b)
}

/// A mapping style is hashed as its number, so equal values hash alike.
pub fn mapping_style_hash<H: Hasher>(value: yaml_mapping_style_t, state: &mut H)
    ensures { state.new ≡ fold H.write state.old (fed.isize (pos (numbers.mapping_style_number value))) }
{
    value.hash(state)
}

/// The number of a type of token.
pub fn token_type_number(value: yaml_token_type_t) -> u32
    ensures { result ≡ numbers.token_type_number value }
{
    value as u32
}

/// Types of tokens are compared by their numbers.
pub fn token_type_order(a: yaml_token_type_t, b: yaml_token_type_t) -> Ordering
    ensures { result ≡ nat_cmp (numbers.token_type_number a) (numbers.token_type_number b) }
{
    a.cmp(&b)
}

/// A type of token is hashed as its number, so equal values hash alike.
pub fn token_type_hash<H: Hasher>(value: yaml_token_type_t, state: &mut H)
    ensures { state.new ≡ fold H.write state.old (fed.isize (pos (numbers.token_type_number value))) }
{
    value.hash(state)
}

/// Marks are equal exactly if their index, line and column are.
pub fn same_marks(a: yaml_mark_t, b: yaml_mark_t) -> bool
    ensures { IsTrue result ↔ (a ≡ b) }
{
    a == b
}

/// What `%YAML` directives say is equal exactly if both numbers are.
pub fn same_version_directives(a: yaml_version_directive_t, b: yaml_version_directive_t) -> bool
    ensures { IsTrue result ↔ (a ≡ b) }
{
    a == b
}

/// What `%TAG` directives say is equal exactly if the bytes of the handle and of the prefix are.
pub fn same_tag_directives(a: &yaml_tag_directive_t, b: &yaml_tag_directive_t) -> bool
    ensures { IsTrue result ↔ ((a.now.handle.items ≡ b.now.handle.items) × (a.now.prefix.items ≡ b.now.prefix.items)) }
{
    *a == *b
}

/// Slots for simple keys are equal exactly if all their parts are.
pub fn same_simple_keys(a: yaml_simple_key_t, b: yaml_simple_key_t) -> bool
    ensures { IsTrue result ↔ (a ≡ b) }
{
    a == b
}

/// Faults are equal exactly if all their parts are; of the problem and the context the texts are compared.
pub fn same_faults(a: yaml_fault_t, b: yaml_fault_t) -> bool
    ensures { IsTrue result ↔ (fault_of a ≡ fault_of b) }
{
    a == b
}

/// What tokens say is equal exactly if its variant and all its parts are; of a text the bytes are compared.
pub fn same_token_data(a: &unnamed_yaml_token_t_data, b: &unnamed_yaml_token_t_data) -> bool
    ensures { IsTrue result ↔ (data_of a.now ≡ data_of b.now) }
{
    *a == *b
}

/// Tokens are equal exactly if what they say and both marks are.
pub fn same_tokens(a: &yaml_token_t, b: &yaml_token_t) -> bool
    ensures { IsTrue result ↔ (token_of a.now ≡ token_of b.now) }
{
    *a == *b
}
