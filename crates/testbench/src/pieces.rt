//! An input that is given to a parser in pieces.
ghost use Rattle.std.specs.Prelude.{◌≡◌, ◌≤◌, length, nat_eq, take};
ghost use Rattle.yaml_scan.specs.Fed.{Fed};
ghost use Rattle.yaml_scan.specs.inside.Feeding.{IsFed};

use crate::count::{count_t, tally_t};
use crate::session::{MOST_KEY_LIMIT, start_t};
use std::alloc::Global;
use yaml_scan::{yaml_fault_t, yaml_fed_parser_t, yaml_fed_scan_to, yaml_fed_t, yaml_token_sink_t};

/// A parser that is given an input in pieces, and how many of its bytes came.
#[derive(Drop)]
pub struct feed_t<'a> {
    fed: yaml_fed_parser_t,
    input: &'a [u8],
    pub came: usize,
}

impl<'a> feed_t<'a> {
    /// No byte came yet.
    pub fn new(alloc: Global, start: start_t<'a>) -> feed_t<'a>
        requires least { 1 ≤ start.limit }
        requires most { start.limit ≤ MOST_KEY_LIMIT }
        ensures within { result.came ≤ length result.input.now }
        ensures fed { (p : Fed) × (p.given ≡ take result.came result.input.now)
            × (p.whole ≡ nat_eq result.came (length result.input.now)) × IsFed p result.fed }
    {
        feed_t {
            fed: yaml_fed_parser_t::new(alloc, start.setting, start.limit),
            input: start.input,
            came: 0,
        }
    }

    /// So many bytes more come, or all that are left.
    pub fn more(&mut self, size: usize)
        requires within { self.old.came ≤ length self.old.input.now }
        requires fed { (p : Fed) × (p.given ≡ take self.old.came self.old.input.now)
            × (p.whole ≡ nat_eq self.old.came (length self.old.input.now)) × IsFed p self.old.fed }
        ensures within { self.new.came ≤ length self.new.input.now }
        ensures fed { (p : Fed) × (p.given ≡ take self.new.came self.new.input.now)
            × (p.whole ≡ nat_eq self.new.came (length self.new.input.now)) × IsFed p self.new.fed }
    {
        let left = self.input.len() - self.came;
        self.came += size.min(left);
    }

    /// Gives the next tokens to a sink.
    pub fn scan_to<S: yaml_token_sink_t>(&mut self, sink: &mut S) -> yaml_fed_t
        requires within { self.old.came ≤ length self.old.input.now }
        requires fed { (p : Fed) × (p.given ≡ take self.old.came self.old.input.now)
            × (p.whole ≡ nat_eq self.old.came (length self.old.input.now)) × IsFed p self.old.fed }
        requires takes { S.may_refuse → ⊥ }
        ensures within { self.new.came ≤ length self.new.input.now }
        ensures fed { (p : Fed) × (p.given ≡ take self.new.came self.new.input.now)
            × (p.whole ≡ nat_eq self.new.came (length self.new.input.now)) × IsFed p self.new.fed }
    {
        let last = self.came == self.input.len();
        yaml_fed_scan_to(&mut self.fed, &self.input[..self.came], last, sink)
    }

    /// The fault that ended the session, if one did.
    pub fn fault(&self) -> Option<yaml_fault_t> {
        self.fed.fault().copied()
    }
}

/// Gives tokens to a tally that has room for so many. If more bytes are wanted so many come, or if that is 0 as many as
/// came before.
fn give_some(feed: &mut feed_t, tally: &mut tally_t, room: u128, size: usize)
    requires within { feed.old.came ≤ length feed.old.input.now }
    requires fed { (p : Fed) × (p.given ≡ take feed.old.came feed.old.input.now)
        × (p.whole ≡ nat_eq feed.old.came (length feed.old.input.now)) × IsFed p feed.old.fed }
    ensures within { feed.new.came ≤ length feed.new.input.now }
    ensures fed { (p : Fed) × (p.given ≡ take feed.new.came feed.new.input.now)
        × (p.whole ≡ nat_eq feed.new.came (length feed.new.input.now)) × IsFed p feed.new.fed }
{
    tally.room = room;
    match feed.scan_to(tally) {
        yaml_fed_t::MORE | yaml_fed_t::WHOLE => {
            let more = if size > 0 { size } else { feed.came.max(1) };
            feed.more(more);
        }
        yaml_fed_t::FAULT => {
            if let Some(fault) = feed.fault() {
                tally.count.end(fault);
            }
        }
        _ => {}
    }
}

/// Takes all tokens of an input that comes in pieces of so many bytes, or each as long as all before it if that is 0, by
/// calls that give some to a sink, which has room for so many at each call.
pub fn by_pieces(alloc: Global, start: start_t, room: u128, size: usize) -> count_t
    requires least { 1 ≤ start.limit }
    requires most { start.limit ≤ MOST_KEY_LIMIT }
{
    let mut feed = feed_t::new(alloc, start);
    let mut tally = tally_t::new(room);
    'calls: for _ in 0..u64::MAX {
        give_some(&mut feed, &mut tally, room, size);
        if tally.count.over {
            break;
        }
    }
    tally.count
}
