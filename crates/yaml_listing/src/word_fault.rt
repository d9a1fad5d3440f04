//! What is wrong with words that spell no command.
ghost use Rattle.std.specs.Prelude.{◌↔◌, [], ◌∷◌, List, ℕ, map, IsTrue, IfSome, IfNone, string_bytes};
ghost use Rattle.yaml_listing.specs.WordFault.{IsCommand, IsSetting, HasFault, Spells};

use crate::args::{are_letters, parse_limit, parse_setting};
use crate::note::parse_word;
use thiserror::Error;

/// The first word that is wrong or missing, and what is wrong with it.
#[derive(Clone, Copy, Debug, PartialEq, Eq, Error)]
pub enum yaml_word_fault_t<'a> {
    /// There are no words.
    #[error("a command is missing")]
    NoCommand,
    /// The first word is no command.
    #[error("there is no command '{0}'")]
    Command(&'a str),
    /// This command stands alone.
    #[error("{0} needs an encoding")]
    NoEncoding(&'a str),
    /// The second word is no encoding.
    #[error("there is no encoding '{0}'")]
    Encoding(&'a str),
    /// The third word is no key limit.
    #[error("there is no key limit '{0}'")]
    Limit(&'a str),
    /// A list of calls is missing.
    #[error("calls needs a word of s, p and k")]
    NoCalls,
    /// The third word has a letter that stands for no call.
    #[error("there is no list of calls '{0}'")]
    Calls(&'a str),
    /// The words before this one are all that is taken.
    #[error("there is no use for '{0}'; the input is standard input")]
    Extra(&'a str),
}

/// Whether a command begins with this word.
fn is_command(word: &str) -> bool
    ensures { IsTrue result ↔ IsCommand word.now }
{
    matches!(word, "scan" | "calls" | "decode" | "follow")
}

/// What is wrong with a word that stands alone and asks for no note.
fn fault_of_one(command: &str) -> yaml_word_fault_t
    ensures { HasFault (command.now ∷ []) result }
{
    if is_command(command) {
        yaml_word_fault_t::NoEncoding(command)
    } else {
        yaml_word_fault_t::Command(command)
    }
}

/// What is wrong with the first two words, whatever comes after them.
fn fault_of_start<'a>(command: &'a str, setting: &'a str) -> Option<yaml_word_fault_t<'a>>
    ensures some { IfSome result (λ fault. (rest : List (List ℕ)) → HasFault (command.now ∷ setting.now ∷ rest) fault) }
    ensures none { IfNone result (IsCommand command.now × IsSetting setting.now) }
{
    if parse_word(command).is_some() {
        return Some(yaml_word_fault_t::Extra(setting));
    }
    if !is_command(command) {
        return Some(yaml_word_fault_t::Command(command));
    }
    match parse_setting(setting) {
        Some(_) => None,
        None => Some(yaml_word_fault_t::Encoding(setting)),
    }
}

/// What is wrong with two words.
fn fault_of_two<'a>(command: &'a str, setting: &'a str) -> Option<yaml_word_fault_t<'a>>
    ensures some { IfSome result (λ fault. HasFault (command.now ∷ setting.now ∷ []) fault) }
    ensures none { IfNone result (Spells (command.now ∷ setting.now ∷ [])) }
{
    if let Some(fault) = fault_of_start(command, setting) {
        return Some(fault);
    }
    match command {
        "calls" => Some(yaml_word_fault_t::NoCalls),
        _ => None,
    }
}

/// What is wrong with the first three words, whatever comes after them.
fn fault_of_three<'a>(
    command: &'a str,
    setting: &'a str,
    word: &'a str,
) -> Option<yaml_word_fault_t<'a>>
    ensures some { IfSome result (λ fault.
        (rest : List (List ℕ)) → HasFault (command.now ∷ setting.now ∷ word.now ∷ rest) fault) }
    ensures none { IfNone result (Spells (command.now ∷ setting.now ∷ word.now ∷ [])) }
{
    if let Some(fault) = fault_of_start(command, setting) {
        return Some(fault);
    }
    match command {
        "scan" => match parse_limit(word) {
            Some(_) => None,
            None => Some(yaml_word_fault_t::Limit(word)),
        },
        "calls" if are_letters(word) => None,
        "calls" => Some(yaml_word_fault_t::Calls(word)),
        _ => Some(yaml_word_fault_t::Extra(word)),
    }
}

/// The fault that these words have, without the program's name, if they spell no command.
pub fn fault_of_words(words: &[String]) -> Option<yaml_word_fault_t>
    ensures some { IfSome result (λ fault. HasFault (map string_bytes words.now) fault) }
    ensures none { IfNone result (Spells (map string_bytes words.now)) }
{
    match words {
        [] => Some(yaml_word_fault_t::NoCommand),
        [command] => Some(fault_of_one(command.as_str())),
        [command, setting] => fault_of_two(command.as_str(), setting.as_str()),
        [command, setting, word] => fault_of_three(
            command.as_str(),
            setting.as_str(),
            word.as_str(),
        ),
        [command, setting, word, extra, ..] => {
            match fault_of_three(command.as_str(), setting.as_str(), word.as_str()) {
                Some(fault) => Some(fault),
                None => Some(yaml_word_fault_t::Extra(extra.as_str())),
            }
        }
    }
}
