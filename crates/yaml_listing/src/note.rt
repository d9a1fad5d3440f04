//! What the program says of itself.
ghost use Rattle.std.specs.Prelude.{◌≡◌, false, [], ◌∷◌, map, string_bytes, IfSome, IfNone, IfErr, OnOk, OnErr};
ghost use Rattle.std.specs.Io.KnownBytes.{Appends};
ghost use Rattle.yaml_listing.specs.Note.{AsksFor, note_text, WritesPartOf};
ghost use Rattle.yaml_listing.specs.Outcome.{is_write_fault};
ghost use Rattle.yaml_listing.specs.declared.note.yaml_note_t.{yaml_note_t};

use crate::devices::yaml_sink_t;
use crate::outcome::tool_fault_t;
use crate::run::write_all;

/// What the program says of itself if it is asked.
#[derive(Clone, Copy, PartialEq, Eq)]
pub enum yaml_note_t {
    /// Which words there are.
    Help,
    /// Which version it is.
    Version,
}

/// The note that a word alone asks for, if it asks for one.
pub(crate) fn parse_word(word: &str) -> Option<yaml_note_t>
    ensures some { IfSome result (λ note. AsksFor (word.now ∷ []) note) }
    ensures none { IfNone result ((note : yaml_note_t) → AsksFor (word.now ∷ []) note → ⊥) }
{
    match word {
        "--help" | "-h" => Some(yaml_note_t::Help),
        "--version" => Some(yaml_note_t::Version),
        _ => None,
    }
}

/// The note that these words ask for, without the program's name: `--help` or `-h`, or `--version`. All others ask for
/// none.
pub fn parse_note(words: &[String]) -> Option<yaml_note_t>
    ensures some { IfSome result (λ note. AsksFor (map string_bytes words.now) note) }
    ensures none { IfNone result ((note : yaml_note_t) → AsksFor (map string_bytes words.now) note → ⊥) }
{
    match words {
        [word] => parse_word(word.as_str()),
        _ => None,
    }
}

/// The text of a note.
pub fn note_text(note: yaml_note_t) -> &'static str
    ensures { result.now ≡ note_text note }
{
    match note {
        yaml_note_t::Help => {
            "usage: yamltok COMMAND ENC [WORD] < FILE\n\
             \n\
             \x20 scan ENC [LIMIT]  list all tokens, with a key limit of 1 to 65536 bytes\n\
             \x20 follow ENC        list each token as soon as no more input can change it\n\
             \x20 calls ENC WORD    list the answers to calls: s (scan), p (peek), k (skip)\n\
             \x20 decode ENC        say what text the input is\n\
             \x20 -h, --help        print this\n\
             \x20 --version         print the version\n\
             \n\
             ENC is any, utf8, utf16le or utf16be. The exit status is 0; 1 if a line is a\n\
             fault; 2 for wrong words; 3 if a read or a write fails or memory is refused.\n"
        }
        yaml_note_t::Version => "yamltok (Bogzhami) 1.1.0\n",
    }
}

/// Writes a note, and reads nothing. No line of it is that of a fault.
///
/// # Errors
///
/// `Write` if the writer failed. Then a beginning of the note was written.
pub fn tell<W: yaml_sink_t>(note: yaml_note_t, writer: &mut W) -> Result<(), tool_fault_t>
    requires { W.failed writer.old ≡ false }
    ensures done { OnOk result (Appends (W.contents writer.old) (W.contents writer.new) (note_text note)) }
    ensures cut { OnErr result (WritesPartOf note (W.contents writer.old) (W.contents writer.new)) }
    ensures fault { IfErr result (λ fault. fault ≡ tool_fault_t.Write) }
    ensures write { is_write_fault result ≡ W.failed writer.new }
{
    write_all(writer, note_text(note).as_bytes())
}
