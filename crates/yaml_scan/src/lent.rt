//! Scalars that are lent: the value is a part of the text, and no list.
ghost use Rattle.std.specs.Prelude.{◌≡◌, IfOk};
ghost use Rattle.yaml_text.specs.Token.{token_of};
ghost use Rattle.yaml_scan.specs.Lent.{lent_token};

use std::alloc::{AllocError, Global};
use yaml_text::{unnamed_yaml_token_t_data, yaml_mark_t, yaml_scalar_style_t, yaml_token_t};

/// A scalar that stands in its text as it is. A sink is lent it: the value lives until the sink has taken it.
#[derive(Clone, Copy)]
pub struct yaml_lent_scalar_t<'a> {
    /// Its value, in UTF-8.
    pub value: &'a [u8],
    /// How it is written: plain, or in quotes.
    pub style: yaml_scalar_style_t,
    /// The mark of its first character, which may be a quote.
    pub start_mark: yaml_mark_t,
    /// The mark after its last character.
    pub end_mark: yaml_mark_t,
}

impl yaml_lent_scalar_t<'_> {
    /// A token that says the same, with a list of its own for the value.
    ///
    /// # Errors
    /// `AllocError` if there is no memory for the list.
    pub fn own(&self, alloc: Global) -> Result<yaml_token_t, AllocError>
        ensures { IfOk result (λ token. token_of token ≡ lent_token self.now) }
    {
        let mut value = Vec::with_capacity(alloc, self.value.len())?;
        value.extend_from_slice(self.value)?;
        Ok(yaml_token_t {
            token_data: unnamed_yaml_token_t_data::SCALAR {
                value,
                style: self.style,
            },
            start_mark: self.start_mark,
            end_mark: self.end_mark,
        })
    }
}
