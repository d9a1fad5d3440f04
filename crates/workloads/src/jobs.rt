//! The jobs, and what each of them returns.
ghost use Rattle.std.specs.Prelude.{◌<◌};

use crate::chance::chance_t;
use crate::digest::digest_t;
use crate::scans::{by_batches, by_calls, by_peeks, by_sink};
use crate::templates::{
    AWKWARD, DENSE, SETTINGS, TEMPLATES, TRANSLATIONS, awkward, dense, kind_t, settings, templates,
    translations,
};
use crate::texts::pool_t;
use std::alloc::{AllocError, Global};

/// What is done.
#[derive(Clone, Copy)]
pub enum job_t {
    SETTINGS,
    BATCHES,
    DENSE,
    TRANSLATIONS,
    TEMPLATES,
    AWKWARD,
}

/// The job of a word.
pub fn job_of(word: &str) -> Option<job_t> {
    match word {
        "settings" => Some(job_t::SETTINGS),
        "batches" => Some(job_t::BATCHES),
        "dense" => Some(job_t::DENSE),
        "translations" => Some(job_t::TRANSLATIONS),
        "templates" => Some(job_t::TEMPLATES),
        "awkward" => Some(job_t::AWKWARD),
        _ => None,
    }
}

/// How many kinds of texts a job has.
fn kinds_of(job: job_t) -> usize {
    match job {
        job_t::SETTINGS | job_t::BATCHES => SETTINGS,
        job_t::DENSE => DENSE,
        job_t::TRANSLATIONS => TRANSLATIONS,
        job_t::TEMPLATES => TEMPLATES,
        job_t::AWKWARD => AWKWARD,
    }
}

fn kind_of(job: job_t, number: usize) -> kind_t {
    match job {
        job_t::SETTINGS | job_t::BATCHES => settings(number),
        job_t::DENSE => dense(number),
        job_t::TRANSLATIONS => translations(number),
        job_t::TEMPLATES => templates(number),
        job_t::AWKWARD => awkward(number),
    }
}

/// What the texts of a job are laid of.
fn pools_of(alloc: Global, job: job_t, chance: &mut chance_t) -> Result<Vec<pool_t>, AllocError> {
    let mut pools = Vec::new(alloc);
    for number in 0..kinds_of(job) {
        pools.push(pool_t::new(alloc, kind_of(job, number), chance)?)?;
    }
    Ok(pools)
}

/// How many blocks a text has: from a twelfth of what is usual of its kind to twice as many, and of one text in 1,024
/// many more.
fn blocks_of(job: job_t, usual: usize, number: u64, chance: &mut chance_t) -> usize {
    if number % 1024 == 1023 {
        if let job_t::SETTINGS | job_t::BATCHES = job {
            return usual.saturating_mul(400);
        }
    }
    chance
        .below(usual.max(1))
        .saturating_mul(2)
        .saturating_add(usual / 12 + 1)
}

/// How the tokens of a text are taken.
#[derive(Clone, Copy)]
enum way_t {
    CALLS,
    PEEKS,
    BATCHES,
    SINK,
}

/// The way of a job. `turn` counts how often the kinds of the job were gone through.
fn way_of(job: job_t, turn: u64) -> way_t {
    match job {
        job_t::SETTINGS if turn % 4 == 3 => way_t::PEEKS,
        job_t::SETTINGS => way_t::CALLS,
        job_t::BATCHES => way_t::BATCHES,
        job_t::DENSE if turn % 2 == 0 => way_t::SINK,
        job_t::DENSE => way_t::BATCHES,
        job_t::AWKWARD if turn % 2 == 0 => way_t::SINK,
        _ if turn % 2 == 0 => way_t::BATCHES,
        _ => way_t::CALLS,
    }
}

/// Takes the tokens of a text.
fn scan(alloc: Global, way: way_t, input: &[u8], digest: &mut digest_t) {
    match way {
        way_t::CALLS => by_calls(alloc, input, digest),
        way_t::PEEKS => by_peeks(alloc, input, digest),
        way_t::BATCHES => by_batches(alloc, input, digest),
        way_t::SINK => by_sink(alloc, input, digest),
    }
}

/// Does a job on so many texts, each of another kind than the one before it, and returns a digest of what was returned.
pub fn digest_of(alloc: Global, job: job_t, seed: u64, texts: u64) -> Result<digest_t, AllocError> {
    let mut chance = chance_t::new(seed);
    let pools = pools_of(alloc, job, &mut chance)?;
    let kinds = (pools.len() as u64).max(1);
    let mut digest = digest_t::new();
    let mut text = Vec::new(alloc);
    for number in 0..texts {
        if let Some(pool) = pools.get((number % kinds) as usize) {
            let count = blocks_of(job, pool.count, number, &mut chance);
            pool.lay(&mut text, &mut chance, number as usize, count)?;
            scan(alloc, way_of(job, number / kinds), &text, &mut digest);
        }
    }
    Ok(digest)
}
