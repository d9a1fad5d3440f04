//! What is kept of a text when its input is let go.
ghost use Rattle.std.specs.Prelude.{◌≡◌, ◌≢◌, ℕ, [], List, None, Some, IfSome, IsNone, IsSome};
ghost use Rattle.yaml_text.specs.Kept.{IsKeptOf};
ghost use Rattle.yaml_text.specs.Text.{Text};
ghost use Rattle.yaml_text.specs.declared.types.yaml_encoding_t.TheVariants.{YAML_ANY_ENCODING, YAML_UTF8_ENCODING};

use crate::text::{borrowed_text, owned_text, yaml_text_t};
use crate::types::yaml_encoding_t;
use std::marker::Model;

/// What is kept of a text when its input is let go: its own bytes, or which part of the input is its text.
#[derive(Drop)]
pub struct yaml_kept_text_t {
    encoding: yaml_encoding_t,
    own: Option<Vec<u8>>,
    start: usize,
    len: usize,
}

impl Model for yaml_kept_text_t {
    ghost use Rattle.std.specs.Prelude.{◌≢◌, option_map};
    ghost use Rattle.yaml_text.specs.Kept.{KeptText};
    ghost use Rattle.yaml_text.specs.declared.types.yaml_encoding_t.TheVariants.{YAML_ANY_ENCODING};

    ghost Value = { KeptText };

    ghost view = { λ k. record {
      encoding = k.encoding;
      own = option_map (λ v. v.items) k.own;
      start = k.start;
      len = k.len;
    } };

    ghost invariant = { λ k. k.encoding ≢ YAML_ANY_ENCODING };
}

impl yaml_kept_text_t {
    /// What is kept of the text of no characters, for any input.
    pub fn empty() -> yaml_kept_text_t
        ensures { (input : List ℕ) → IsKeptOf (record { encoding = YAML_UTF8_ENCODING; chars = [] }) input result }
    {
        kept_part(0, 0)
    }

    /// The text, over the same input. It borrows the input or the bytes that are kept, and moves nothing.
    #[inline(always)]
    pub fn view<'a>(&'a self, input: &'a [u8]) -> yaml_text_t<'a>
        requires { (t : Text) × IsKeptOf t input.now self.now }
        ensures { (t : Text) → IsKeptOf t input.now self.now → result ≡ t }
    {
        match &self.own {
            Some(bytes) => borrowed_text(self.encoding, bytes.as_slice()),
            None => borrowed_text(self.encoding, &input[self.start..self.start + self.len]),
        }
    }

    /// The text, over the same input, if it is a part of that: `None` if its own bytes are kept.
    pub fn part<'a>(&self, input: &'a [u8]) -> Option<yaml_text_t<'a>>
        requires { (t : Text) × IsKeptOf t input.now self.now }
        ensures again { IfSome result (λ text. (t : Text) → IsKeptOf t input.now self.now → text ≡ t) }
        ensures own { IsNone result → IsSome self.now.own }
    {
        let end = self.start + self.len;
        match self.own {
            Some(_) => None,
            None => Some(borrowed_text(self.encoding, &input[self.start..end])),
        }
    }

    /// Where the part of the input begins that is kept, and how many bytes it has.
    #[inline(always)]
    pub(crate) fn place(&self) -> (usize, usize)
        ensures start { result.0 ≡ self.now.start }
        ensures len { result.1 ≡ self.now.len }
    {
        (self.start, self.len)
    }

    /// Keeps a part of the input with so many bytes, which begins where it did.
    #[inline(always)]
    pub(crate) fn lengthen(&mut self, len: usize)
        ensures { self.new ≡ record self.old { len = len } }
    {
        self.len = len;
    }

    /// The text, over the same input. It has the bytes that were kept, or borrows the input.
    #[inline(always)]
    pub(crate) fn into_text<'a>(self, input: &'a [u8]) -> yaml_text_t<'a>
        requires { (t : Text) × IsKeptOf t input.now self }
        ensures { (t : Text) → IsKeptOf t input.now self → result ≡ t }
    {
        let yaml_kept_text_t {
            encoding,
            own,
            start,
            len,
        } = self;
        match own {
            Some(bytes) => owned_text(encoding, bytes),
            None => borrowed_text(encoding, &input[start..start + len]),
        }
    }
}

/// What is kept of a text in UTF-8: it is that part of the input.
#[inline(always)]
pub(crate) fn kept_part(start: usize, len: usize) -> yaml_kept_text_t
    ensures { result ≡ record { encoding = YAML_UTF8_ENCODING; own = None; start = start; len = len } }
{
    yaml_kept_text_t {
        encoding: yaml_encoding_t::YAML_UTF8_ENCODING,
        own: None,
        start,
        len,
    }
}

/// What is kept of a text with bytes of its own.
#[inline(always)]
pub(crate) fn kept_bytes(encoding: yaml_encoding_t, bytes: Vec<u8>) -> yaml_kept_text_t
    requires { encoding ≢ YAML_ANY_ENCODING }
    ensures { result ≡ record { encoding = encoding; own = Some bytes.items; start = 0; len = 0 } }
{
    yaml_kept_text_t {
        encoding,
        own: Some(bytes),
        start: 0,
        len: 0,
    }
}
