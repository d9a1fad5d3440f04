//! The characters of a text (YAML 1.1, section 5.1).
ghost use Rattle.std.specs.Prelude.{◌≡◌};
ghost use Rattle.yaml_text.specs.Chars as spec;

/// Whether a text may hold the code point.
#[tactic(auto, unfolding(crate::specs::Chars::is_char))]
pub(crate) fn is_char(c: u32) -> bool
    ensures { result ≡ spec.is_char c }
{
    matches!(c, 0x20..=0x7E | 9 | 10 | 13 | 0x85 | 0xA0..=0xD7FF | 0xE000..=0xFFFD | 0x10000..=0x10FFFF)
}
