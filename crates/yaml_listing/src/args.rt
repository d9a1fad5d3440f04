//! The words of a command line.
ghost use Rattle.std.specs.Prelude.{◌≡◌, ◌≢◌, ◌↔◌, ℕ, [], ◌∷◌, true, map};
ghost use Rattle.std.specs.Prelude.{IsTrue, slice_index, IfSome, IfNone, string_bytes};
ghost use Rattle.std.specs.Fmt.{decimal};
ghost use Rattle.std.specs.Int.{IsInRange};
ghost use Rattle.yaml_listing.specs.Args.{setting_word, is_limit, are_letters, is_letter, is_right, AreWordsOf};
ghost use Rattle.yaml_listing.specs.Follow.{AskToFollow};
ghost use Rattle.yaml_listing.specs.declared.args.yaml_command_t.{yaml_command_t};
ghost use Rattle.yaml_text.specs.declared.types.yaml_encoding_t.{yaml_encoding_t};

use yaml_scan::MOST_KEY_LIMIT;
use yaml_text::yaml_encoding_t;

/// What the program does with the input, in this encoding or in that of its byte order mark.
#[derive(Clone, Copy, PartialEq, Eq)]
pub enum yaml_command_t<'a> {
    /// Decode it, and say what text it is.
    Decode(yaml_encoding_t),
    /// List its tokens.
    Scan(yaml_encoding_t),
    /// List its tokens, with a key limit in bytes, from 1 to 65,536.
    ScanLimit(yaml_encoding_t, u32),
    /// List the answers to these calls: `s` for a scan, `p` for a peek, `k` for a skip.
    Calls(yaml_encoding_t, &'a str),
}

/// Whether a number is a key limit.
fn is_limit(limit: u32) -> bool
    ensures { result ≡ is_limit limit }
{
    limit >= 1 && limit <= MOST_KEY_LIMIT
}

/// Whether a letter stands for a call.
fn is_letter(letter: u8) -> bool
    ensures { result ≡ is_letter letter }
{
    letter == b's' || letter == b'p' || letter == b'k'
}

/// Whether all letters of a word stand for calls.
pub(crate) fn are_letters(word: &str) -> bool
    ensures { result ≡ are_letters word.now }
{
    word.bytes().all(is_letter)
}

/// Whether the key limit is right and the word is over `s`, `p` and `k`, if the command has them.
pub fn is_right(command: &yaml_command_t) -> bool
    ensures { result ≡ is_right command.now }
{
    match command {
        yaml_command_t::Decode(_) | yaml_command_t::Scan(_) => true,
        yaml_command_t::ScanLimit(_, limit) => is_limit(*limit),
        yaml_command_t::Calls(_, word) => are_letters(word),
    }
}

/// The encoding setting of a word, if it is the word of one.
pub(crate) fn parse_setting(word: &str) -> Option<yaml_encoding_t>
    ensures some { IfSome result (λ setting. word.now ≡ setting_word setting) }
    ensures none { IfNone result ((setting : yaml_encoding_t) → word.now ≢ setting_word setting) }
{
    match word {
        "any" => Some(yaml_encoding_t::YAML_ANY_ENCODING),
        "utf8" => Some(yaml_encoding_t::YAML_UTF8_ENCODING),
        "utf16le" => Some(yaml_encoding_t::YAML_UTF16LE_ENCODING),
        "utf16be" => Some(yaml_encoding_t::YAML_UTF16BE_ENCODING),
        _ => None,
    }
}

/// Whether the word begins with a digit other than 0.
fn is_led(word: &str) -> bool
    ensures { IsTrue result ↔ IsInRange 49 57 (slice_index word.now 0) }
{
    matches!(word.as_bytes(), [b'1'..=b'9', ..])
}

/// A number from 1 to 65,536, in decimal digits without a leading zero.
pub(crate) fn parse_limit(word: &str) -> Option<u32>
    ensures some { IfSome result (λ limit. (word.now ≡ decimal limit) × (is_limit limit ≡ true)) }
    ensures none { IfNone result ((limit : ℕ) → is_limit limit ≡ true → word.now ≢ decimal limit) }
{
    if !is_led(word) {
        return None;
    }
    match word.parse::<u32>() {
        Ok(limit) if is_limit(limit) => Some(limit),
        _ => None,
    }
}

/// The command that two words spell, if they spell one.
fn parse_two(command: &str, setting: &str) -> Option<yaml_command_t<'static>>
    ensures some { IfSome result (λ c. AreWordsOf (command.now ∷ setting.now ∷ []) c) }
    ensures none { IfNone result ((c : yaml_command_t) → AreWordsOf (command.now ∷ setting.now ∷ []) c → ⊥) }
{
    let setting = parse_setting(setting)?;
    match command {
        "decode" => Some(yaml_command_t::Decode(setting)),
        "scan" => Some(yaml_command_t::Scan(setting)),
        _ => None,
    }
}

/// The command that three words spell, if they spell one.
fn parse_three<'a>(command: &str, setting: &str, word: &'a str) -> Option<yaml_command_t<'a>>
    ensures some { IfSome result (λ c. AreWordsOf (command.now ∷ setting.now ∷ word.now ∷ []) c) }
    ensures none { IfNone result ((c : yaml_command_t) → AreWordsOf (command.now ∷ setting.now ∷ word.now ∷ []) c → ⊥) }
{
    let setting = parse_setting(setting)?;
    match command {
        "scan" => {
            let limit = parse_limit(word)?;
            Some(yaml_command_t::ScanLimit(setting, limit))
        }
        "calls" if are_letters(word) => Some(yaml_command_t::Calls(setting, word)),
        _ => None,
    }
}

/// The command that these words spell, without the program's name. All other words spell none.
///
/// - `decode ENC`
/// - `scan ENC`
/// - `scan ENC LIMIT`: a key limit from 1 to 65536, in decimal digits without a sign or a leading zero
/// - `calls ENC WORD`: a word over `s`, `p` and `k`, which may be empty
///
/// ENC is `any`, `utf8`, `utf16le` or `utf16be`.
pub fn parse_args(words: &[String]) -> Option<yaml_command_t>
    ensures some { IfSome result (λ command. AreWordsOf (map string_bytes words.now) command) }
    ensures none { IfNone result ((command : yaml_command_t) → AreWordsOf (map string_bytes words.now) command → ⊥) }
{
    match words {
        [command, setting] => parse_two(command.as_str(), setting.as_str()),
        [command, setting, word] => {
            parse_three(command.as_str(), setting.as_str(), word.as_str())
        }
        _ => None,
    }
}

/// The encoding setting of two words, if they ask for an input to be followed.
fn parse_pair(command: &str, setting: &str) -> Option<yaml_encoding_t>
    ensures some { IfSome result (λ s. AskToFollow (command.now ∷ setting.now ∷ []) s) }
    ensures none { IfNone result ((s : yaml_encoding_t) → AskToFollow (command.now ∷ setting.now ∷ []) s → ⊥) }
{
    match command {
        "follow" => parse_setting(setting),
        _ => None,
    }
}

/// The encoding setting of the words `follow ENC`, without the program's name. All other words ask for no input to be
/// followed.
pub fn parse_follow(words: &[String]) -> Option<yaml_encoding_t>
    ensures some { IfSome result (λ setting. AskToFollow (map string_bytes words.now) setting) }
    ensures none { IfNone result ((setting : yaml_encoding_t) → AskToFollow (map string_bytes words.now) setting → ⊥) }
{
    match words {
        [command, setting] => parse_pair(command.as_str(), setting.as_str()),
        _ => None,
    }
}
