//! The commands that scan, over devices in memory.
use crate::tests::{expect, expect_wrong, slow_reader_t, wanted_t};
use std::alloc::Global;
use std::process::Abort;
use std::test::Fail;
use yaml_listing::run::run;
use yaml_listing::{
    tool_fault_t, yaml_command_t, yaml_sink_of_t, yaml_source_of_t, yaml_source_t, yaml_status,
};
use yaml_text::yaml_encoding_t;

#[test]
fn calls(rt: HostRuntime) -> Result<(), Fail> {
    let lines = "\
PEEK STREAM-START 0:0:0 0:0:0
PEEK STREAM-START 0:0:0 0:0:0
SKIP
FLOW-SEQUENCE-START 0:0:0 1:0:1
SKIP NOTHING
PEEK SCALAR 1:0:1 2:0:2
SCALAR 1:0:1 2:0:2 plain 61
FLOW-SEQUENCE-END 2:0:2 3:0:3
STREAM-END 3:1:0 3:1:0
NO-TOKEN
";
    let wanted = wanted_t { status: 0, lines };
    expect(&rt, "calls any ppkskpssss", b"[a]", wanted)
}

#[test]
fn calls_to_a_fault(rt: HostRuntime) -> Result<(), Fail> {
    let lines = "\
STREAM-START 0:0:0 0:0:0 UTF8
BLOCK-MAPPING-START 0:0:0 0:0:0
KEY 0:0:0 0:0:0
SCALAR 0:0:0 1:0:1 plain 61
VALUE 1:0:1 2:0:2
SCALAR 3:0:3 4:0:4 plain 62
FAULT scanner 4:0:4 4:0:4 -; mapping values are not allowed in this context
PEEK NO-TOKEN
SKIP NOTHING
NO-TOKEN
";
    let wanted = wanted_t { status: 1, lines };
    expect(&rt, "calls any ssssssppks", b"a: b: c", wanted)
}

/// Words that spell no command that scans.
const WRONG: [&str; 16] = [
    "scan",
    "scan latin1",
    "scan any ",
    "scan any 0",
    "scan any 07",
    "scan any +1",
    "scan any 65537",
    "scan any 4294967297",
    "scan any 1 2",
    "scan any s",
    "calls",
    "calls any",
    "calls any S",
    "calls any sx",
    "calls any s s",
    "decode any 1",
];

#[test]
fn wrong_words_of_scans(rt: HostRuntime) -> Result<(), Fail> {
    expect_wrong(&rt, &WRONG)
}

/// The outcome of a command if the first read would fail, whether that read was made, and how many bytes were written.
fn outcome_unread(
    alloc: Global,
    command: &yaml_command_t,
) -> (Result<bool, tool_fault_t>, bool, usize) {
    let mut source = yaml_source_of_t::new(slow_reader_t {
        bytes: b"a: 1",
        at: 0,
        calls: 0,
    });
    let mut sink = yaml_sink_of_t::new(Vec::new(alloc));
    let outcome = run(alloc, command, &mut source, &mut sink);
    (outcome, source.failed(), sink.inner.len())
}

/// Asserts that a command is wrong, and that nothing is read or written for it: the first read would fail.
fn expect_unread(rt: &(impl Abort + AllocGlobal), command: yaml_command_t) -> Result<(), Fail> {
    let (outcome, failed, written) = outcome_unread(rt.alloc(), &command);
    assert_eq!(rt; outcome, Err(tool_fault_t::Args));
    assert_eq!(rt; (yaml_status(&outcome), failed, written), (2, false, 0));
    Ok(())
}

#[test]
fn wrong_commands_read_nothing(rt: HostRuntime) -> Result<(), Fail> {
    let any = yaml_encoding_t::YAML_ANY_ENCODING;
    expect_unread(&rt, yaml_command_t::Calls(any, "skip"))?;
    expect_unread(&rt, yaml_command_t::ScanLimit(any, 0))?;
    expect_unread(&rt, yaml_command_t::ScanLimit(any, 65537))
}
