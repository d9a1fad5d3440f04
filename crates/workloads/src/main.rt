//! Does the work that users of the scanner wait for, on texts that it makes, and prints a digest of what was returned,
//! and how many tokens and faults these were.
//!
//! `workloads JOB SEED TEXTS` makes so many texts from the seed, and scans each of them once. The same words print the
//! same line. The jobs:
//!
//! - `settings`: settings of 2 to 50 KB, and now and then one of 10 MB; tokens are taken one by one, and of every
//!   fourth text they are looked at first;
//! - `batches`: the same kinds of texts, in batches of 256 tokens;
//! - `dense`: JSON, flow collections, and short keys and values, through a sink and in batches;
//! - `translations`: messages in four tongues, and lists of words, in UTF-8 and UTF-16, by calls and in batches;
//! - `templates`: texts full of tags, aliases and anchors, by calls and in batches;
//! - `awkward`: escapes, scalars over several lines, comments, nested entries, open brackets, long keys, and texts
//!   that are refused at their end, by calls and through a sink.
#![tactic(auto)]

mod chance;
mod digest;
mod jobs;
mod phrases;
mod scans;
mod templates;
mod texts;

use jobs::{digest_of, job_of};
use std::{env, io};

/// The number that a word says, or 0.
fn number_at(words: &[String], at: usize) -> u64 {
    match words.get(at) {
        Some(word) => word.as_str().parse().unwrap_or(0),
        None => 0,
    }
}

fn main(rt: HostRuntime) -> io::Result<()> {
    let words: Vec<String> = env::args(&rt)?.skip(1).collect(rt.alloc())?;
    let name = match words.first() {
        Some(word) => word.as_str(),
        None => "",
    };
    let Some(job) = job_of(name) else {
        return println!(rt;
            "workloads settings|batches|dense|translations|templates|awkward SEED TEXTS"
        );
    };
    let digest = digest_of(rt.alloc(), job, number_at(&words, 1), number_at(&words, 2))?;
    let (value, tokens, faults) = (digest.value, digest.tokens, digest.faults);
    println!(rt; "{name} {value:016x} {tokens} {faults}")
}
