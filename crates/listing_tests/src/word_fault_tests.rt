//! What is wrong with words that spell no command.
use crate::tests::words_of;
use std::process::Abort;
use std::test::Fail;
use yaml_listing::{fault_of_words, yaml_word_fault_t};

/// Wrong words, and what is said of them.
const WRONG: [(&str, &str); 24] = [
    ("scna any", "there is no command 'scna'"),
    ("Scan any", "there is no command 'Scan'"),
    ("list", "there is no command 'list'"),
    (
        "--help any",
        "there is no use for 'any'; the input is standard input",
    ),
    (
        "-h --version",
        "there is no use for '--version'; the input is standard input",
    ),
    ("--versions", "there is no command '--versions'"),
    ("scan", "scan needs an encoding"),
    ("calls", "calls needs an encoding"),
    ("decode", "decode needs an encoding"),
    ("follow", "follow needs an encoding"),
    ("decode latin1", "there is no encoding 'latin1'"),
    ("scan utf9 0", "there is no encoding 'utf9'"),
    ("calls s any", "there is no encoding 's'"),
    ("scan any 0", "there is no key limit '0'"),
    ("scan any 65537 1", "there is no key limit '65537'"),
    ("scan any 07", "there is no key limit '07'"),
    ("calls any", "calls needs a word of s, p and k"),
    ("calls any spx", "there is no list of calls 'spx'"),
    ("calls any x s", "there is no list of calls 'x'"),
    (
        "decode any FILE",
        "there is no use for 'FILE'; the input is standard input",
    ),
    (
        "follow any 9",
        "there is no use for '9'; the input is standard input",
    ),
    (
        "decode any a b",
        "there is no use for 'a'; the input is standard input",
    ),
    (
        "scan any 9 FILE",
        "there is no use for 'FILE'; the input is standard input",
    ),
    (
        "calls any s a b c",
        "there is no use for 'a'; the input is standard input",
    ),
];

/// Words that spell a command.
const RIGHT: [&str; 7] = [
    "scan any",
    "follow any",
    "scan utf8 1",
    "scan utf16le 65536",
    "decode utf16be",
    "calls any spk",
    "calls any s",
];

/// Asserts that so much is said of words.
fn expect_said(rt: &(impl Abort + AllocGlobal), words: &str, said: &str) -> Result<(), Fail> {
    let asked = words_of(rt.alloc(), words)?;
    let text = match fault_of_words(&asked) {
        Some(fault) => fault.to_string(rt.alloc())?,
        None => return Err("nothing is said".into()),
    };
    assert_eq!(rt; text.as_str(), said, "{words}");
    Ok(())
}

#[test]
fn faults_of_words(rt: HostRuntime) -> Result<(), Fail> {
    for (words, said) in &WRONG {
        expect_said(&rt, words, said)?;
    }
    assert_eq!(rt; fault_of_words(&[]), Some(yaml_word_fault_t::NoCommand));
    Ok(())
}

/// Nothing is wrong with the words of commands.
#[test]
fn words_without_a_fault(rt: HostRuntime) -> Result<(), Fail> {
    for words in &RIGHT {
        let asked = words_of(rt.alloc(), words)?;
        assert!(rt; fault_of_words(&asked).is_none(), "{words}");
    }
    Ok(())
}
