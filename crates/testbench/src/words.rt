//! The words of a line.
use std::alloc::{AllocError, Global};
use yaml_text::yaml_encoding_t;

fn digit_of(b: u8) -> Option<u8> {
    match b {
        b'0'..=b'9' => Some(b - b'0'),
        b'a'..=b'f' => Some(b - b'a' + 10),
        _ => None,
    }
}

/// The bytes that a word spells in hexadecimal; `-` spells none.
pub fn bytes_of(alloc: Global, word: &str) -> Result<Option<Vec<u8>>, AllocError> {
    let mut bytes = Vec::new(alloc);
    if word == "-" {
        return Ok(Some(bytes));
    }
    let mut high = None;
    for b in word.bytes() {
        let Some(digit) = digit_of(b) else {
            return Ok(None);
        };
        match high {
            None => high = Some(digit),
            Some(first) => {
                bytes.push((first & 15) << 4 | digit & 15)?;
                high = None;
            }
        }
    }
    Ok(Some(bytes))
}

/// The word at a place, or the empty one.
pub fn word_at(words: &[String], at: usize) -> &str {
    match words.get(at) {
        Some(word) => word.as_str(),
        None => "",
    }
}

/// 0 or 1.
pub fn flag_of(word: &str) -> Option<bool> {
    match word {
        "0" => Some(false),
        "1" => Some(true),
        _ => None,
    }
}

/// A column, or `-` for none.
pub fn level_of(word: &str) -> Option<Option<u64>> {
    if word == "-" {
        return Some(None);
    }
    match word.parse() {
        Ok(level) => Some(Some(level)),
        Err(_) => None,
    }
}

/// The encoding setting of a word, if it is one.
pub fn setting_of(word: &str) -> Option<yaml_encoding_t> {
    match word {
        "any" => Some(yaml_encoding_t::YAML_ANY_ENCODING),
        "utf8" => Some(yaml_encoding_t::YAML_UTF8_ENCODING),
        "utf16le" => Some(yaml_encoding_t::YAML_UTF16LE_ENCODING),
        "utf16be" => Some(yaml_encoding_t::YAML_UTF16BE_ENCODING),
        _ => None,
    }
}
