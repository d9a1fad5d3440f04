//! Lists the tokens of a YAML stream, or says what its text is, or why it is none.
//!
//! Standard input is read to its end. Then the answer to it is written, or by `follow` while it is read:
//!
//! - `yamltok scan ENC` writes a line for each token, and one for the fault, if there is one;
//! - `yamltok scan ENC LIMIT` does so with a key limit of 1 to 65536 bytes;
//! - `yamltok follow ENC` writes what `scan ENC` does, each line as soon as no more bytes can change it;
//! - `yamltok calls ENC WORD` writes a line for each answer to the calls of WORD: `s` for a scan, `p` for a peek, `k`
//!   for a skip;
//! - `yamltok decode ENC` writes one line of the text, or of the fault.
//!
//! ENC is `any`, `utf8`, `utf16le` or `utf16be`.
//!
//! `yamltok --help` and `yamltok --version` read nothing: they write which words there are, and which version it is.
//!
//! The exit status is 0 if no line is that of a fault, 1 if one is, 2 for wrong arguments, and 3 if a read or a write
//! failed or there was no memory for the input or the listing. With status 2 and 3 a line on standard error says which
//! of these it is. After wrong arguments a second one names the word that is wrong, and a third one has the usage.
#![tactic(auto)]

use std::env;
use std::env::Env;
use std::io::ErrorKind;
use std::process::ExitCode;
use yaml_listing::{
    fault_of_words, follow, parse_args, parse_follow, parse_note, run, tell, tool_fault_t,
    yaml_sink_of_t, yaml_source_of_t, yaml_status,
};

/// The words of the command line, without the program's name.
fn command_words<R: Env + AllocGlobal>(rt: &R) -> Result<Vec<String>, tool_fault_t> {
    match env::args(rt) {
        Ok(words) => Ok(words.skip(1).collect(rt.alloc())?),
        Err(error) if error.kind() == ErrorKind::OutOfMemory => Err(tool_fault_t::Memory),
        Err(_) => Err(tool_fault_t::Args),
    }
}

fn outcome_of(rt: &HostRuntime, words: &[String]) -> Result<bool, tool_fault_t> {
    let mut writer = yaml_sink_of_t::new(rt.stdout());
    if let Some(note) = parse_note(words) {
        tell(note, &mut writer)?;
        return Ok(false);
    }
    let mut reader = yaml_source_of_t::new(rt.stdin());
    if let Some(setting) = parse_follow(words) {
        return follow(rt.alloc(), setting, &mut reader, &mut writer);
    }
    let command = parse_args(words).ok_or(tool_fault_t::Args)?;
    run::run(rt.alloc(), &command, &mut reader, &mut writer)
}

/// Says on standard error which of the words is wrong, and which there are to be.
fn explain(rt: &HostRuntime, words: &Result<Vec<String>, tool_fault_t>) {
    match words {
        Ok(words) => {
            if let Some(fault) = fault_of_words(words) {
                let _ = eprintln!(rt; "yamltok: {fault}");
            }
        }
        Err(_) => {
            let _ = eprintln!(rt; "yamltok: a word is no text");
        }
    }
    let _ = eprintln!(rt; "usage: yamltok COMMAND ENC [WORD] < FILE");
}

fn main(rt: HostRuntime) -> ExitCode {
    let words = command_words(&rt);
    let outcome = match &words {
        Ok(words) => outcome_of(&rt, words),
        Err(fault) => Err(*fault),
    };
    if let Err(fault) = &outcome {
        let _ = eprintln!(rt; "yamltok: {fault}");
        if *fault == tool_fault_t::Args {
            explain(&rt, &words);
        }
    }
    ExitCode::from(yaml_status(&outcome))
}
