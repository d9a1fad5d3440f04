//! The numbers by which types, styles, encodings and kinds of faults are known outside.
ghost use Rattle.std.specs.Prelude.{◌≡◌, ◌<◌, Some, None};
ghost use Rattle.yaml_text.specs.Types as numbers;
ghost use Rattle.yaml_text.specs.declared.types.yaml_encoding_t.{yaml_encoding_t};

use yaml_scan::{yaml_encoding_t, yaml_error_type_t, yaml_scalar_style_t, yaml_token_type_t};

/// The encoding that has a number.
pub(crate) fn encoding_of(setting: u32) -> Option<yaml_encoding_t>
    ensures some { (e : yaml_encoding_t) → numbers.encoding_number e ≡ setting → result ≡ Some e }
    ensures none { 3 < setting → result ≡ None }
{
    match setting {
        0 => Some(yaml_encoding_t::YAML_ANY_ENCODING),
        1 => Some(yaml_encoding_t::YAML_UTF8_ENCODING),
        2 => Some(yaml_encoding_t::YAML_UTF16LE_ENCODING),
        3 => Some(yaml_encoding_t::YAML_UTF16BE_ENCODING),
        _ => None,
    }
}

pub(crate) fn encoding_number(encoding: yaml_encoding_t) -> u32
    ensures { result ≡ numbers.encoding_number encoding }
{
    encoding as u32
}

pub(crate) fn style_number(style: yaml_scalar_style_t) -> u32
    ensures { result ≡ numbers.scalar_style_number style }
{
    style as u32
}

pub(crate) fn error_number(error: yaml_error_type_t) -> u32
    ensures { result ≡ numbers.error_type_number error }
{
    error as u32
}

pub(crate) fn type_number(token_type: yaml_token_type_t) -> u32
    ensures { result ≡ numbers.token_type_number token_type }
{
    token_type as u32
}
