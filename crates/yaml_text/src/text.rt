//! A decoded text, which borrows its bytes or has its own.
ghost use Rattle.std.specs.Prelude.{◌≡◌, ◌≢◌};
ghost use Rattle.std.specs.Str.{chars};
ghost use Rattle.yaml_text.specs.Chars.{utf8};
ghost use Rattle.yaml_text.specs.TextBytes.{AreChars, IsText};
ghost use Rattle.yaml_text.specs.declared.types.yaml_encoding_t.TheVariants.{YAML_ANY_ENCODING};

use crate::types::yaml_encoding_t;
use std::borrow::CowSlice;
use std::marker::Model;

/// A decoded text: its encoding in the input, and its characters. It borrows its bytes, or has its own.
#[derive(Drop)]
pub struct yaml_text_t<'a> {
    encoding: yaml_encoding_t,
    bytes: CowSlice<'a, u8>,
}

impl<'a> Model for yaml_text_t<'a> {
    ghost use Rattle.std.specs.Prelude.{◌≢◌};
    ghost use Rattle.std.specs.Str.{chars};
    ghost use Rattle.std.specs.Cow.{cow_slice_items};
    ghost use Rattle.yaml_text.specs.TextBytes.{IsText};
    ghost use Rattle.yaml_text.specs.Text.{Text};
    ghost use Rattle.yaml_text.specs.declared.types.yaml_encoding_t.TheVariants.{YAML_ANY_ENCODING};

    ghost Value = { Text };

    ghost view = { λ t. record { encoding = t.encoding; chars = chars (cow_slice_items t.bytes) } };

    ghost invariant = { λ t. IsText (cow_slice_items t.bytes) × (t.encoding ≢ YAML_ANY_ENCODING) };
}

impl<'a> yaml_text_t<'a> {
    /// The encoding of the input: never `YAML_ANY_ENCODING`.
    pub fn encoding(&self) -> yaml_encoding_t
        ensures is { result ≡ self.now.encoding }
        ensures told { result ≢ YAML_ANY_ENCODING }
    {
        self.encoding
    }

    /// The text in UTF-8.
    pub fn bytes(&self) -> &[u8]
        ensures utf8 { result.now ≡ utf8 self.now.chars }
        ensures characters { AreChars self.now.chars }
    {
        self.bytes.as_slice()
    }
}

/// A text that borrows its bytes.
pub(crate) fn borrowed_text<'a>(encoding: yaml_encoding_t, bytes: &'a [u8]) -> yaml_text_t<'a>
    requires text { IsText bytes.now }
    requires told { encoding ≢ YAML_ANY_ENCODING }
    ensures { result ≡ record { encoding = encoding; chars = chars bytes.now } }
{
    yaml_text_t {
        encoding,
        bytes: CowSlice::Borrowed(bytes),
    }
}

/// A text that has its own bytes.
pub(crate) fn owned_text<'a>(encoding: yaml_encoding_t, bytes: Vec<u8>) -> yaml_text_t<'a>
    requires text { IsText bytes.items }
    requires told { encoding ≢ YAML_ANY_ENCODING }
    ensures { result ≡ record { encoding = encoding; chars = chars bytes.items } }
{
    yaml_text_t {
        encoding,
        bytes: CowSlice::Owned(bytes),
    }
}
