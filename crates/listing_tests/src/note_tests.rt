//! What the program says of itself.
use crate::tests::{slow_writer, words_of};
use std::alloc::Global;
use std::process::Abort;
use std::test::Fail;
use yaml_listing::{note_text, parse_note, tell, tool_fault_t, yaml_note_t, yaml_sink_of_t};

/// Words that ask for a note, and how it begins and ends.
const ASKED: [(&str, &str, &str); 3] = [
    (
        "--help",
        "usage: yamltok COMMAND ENC [WORD] < FILE\n\n  scan ENC",
        "is refused.\n",
    ),
    (
        "-h",
        "usage: yamltok COMMAND ENC [WORD] < FILE\n\n  scan ENC",
        "is refused.\n",
    ),
    ("--version", "yamltok (Bogzhami) ", "1.1.0\n"),
];

/// Words that ask for none.
const OTHERS: [&str; 9] = [
    "",
    "-",
    "--",
    "help",
    "-help",
    "--hel",
    "--help all",
    "-h --version",
    "--versions",
];

/// What is written of a note, if it is told.
fn told(alloc: Global, note: yaml_note_t) -> Result<Vec<u8>, Fail> {
    let mut sink = yaml_sink_of_t::new(Vec::new(alloc));
    match tell(note, &mut sink) {
        Ok(()) => Ok(sink.inner),
        Err(_) => Err("a fault".into()),
    }
}

/// The note that words ask for.
fn note_of(alloc: Global, words: &str) -> Result<yaml_note_t, Fail> {
    let words = words_of(alloc, words)?;
    match parse_note(&words) {
        Some(note) => Ok(note),
        None => Err("no note".into()),
    }
}

/// Asserts that words ask for a note, which is written and begins and ends so.
fn expect_note(
    rt: &(impl Abort + AllocGlobal),
    words: &str,
    first: &str,
    last: &str,
) -> Result<(), Fail> {
    let note = note_of(rt.alloc(), words)?;
    let written = told(rt.alloc(), note)?;
    assert_eq!(rt; written.as_slice(), note_text(note).as_bytes(), "{words}");
    assert!(rt; written.as_slice().starts_with(first.as_bytes()), "{words}");
    assert!(rt; written.as_slice().ends_with(last.as_bytes()), "{words}");
    Ok(())
}

#[test]
fn notes(rt: HostRuntime) -> Result<(), Fail> {
    for (words, first, last) in &ASKED {
        expect_note(&rt, words, first, last)?;
    }
    Ok(())
}

#[test]
fn words_that_ask_for_no_note(rt: HostRuntime) -> Result<(), Fail> {
    for words in &OTHERS {
        let asked = words_of(rt.alloc(), words)?;
        assert!(rt; parse_note(&asked).is_none(), "{words}");
    }
    assert!(rt; parse_note(&[]).is_none());
    Ok(())
}

/// Asserts that a writer that fails after so many bytes of the version has taken them.
fn expect_cut(rt: &(impl Abort + AllocGlobal), calls: usize) {
    let mut sink = yaml_sink_of_t::new(slow_writer(rt.alloc(), calls, calls % 2 == 0));
    let told = tell(yaml_note_t::Version, &mut sink);
    assert_eq!(rt; told, Err(tool_fault_t::Write));
    let whole = note_text(yaml_note_t::Version).as_bytes();
    assert!(rt;
        sink.inner.taken.len() == calls && whole.starts_with(&sink.inner.taken),
        "{calls}"
    );
}

/// A writer that fails after so many bytes has taken them.
#[test]
fn note_that_is_cut(rt: HostRuntime) -> Result<(), Fail> {
    for calls in 0..24 {
        expect_cut(&rt, calls);
    }
    Ok(())
}
