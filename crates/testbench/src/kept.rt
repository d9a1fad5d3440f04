//! How many tokens an input has, taken by calls of a kept parser.
ghost use Rattle.std.specs.Prelude.{◌≡◌, ◌≤◌};
ghost use Rattle.yaml_scan.specs.Parser.{Parser};
ghost use Rattle.yaml_scan.specs.inside.Kept.{IsKept};

use crate::count::{count_t, tally_t};
use crate::session::{MOST_KEY_LIMIT, start_t};
use std::alloc::Global;
use yaml_scan::{yaml_kept_parser_t, yaml_kept_peek, yaml_kept_scan_to, yaml_parser_t};

/// A kept parser beside its input.
#[derive(Drop)]
struct held_t<'a> {
    kept: yaml_kept_parser_t,
    input: &'a [u8],
}

impl<'a> held_t<'a> {
    fn new(alloc: Global, start: start_t<'a>) -> held_t<'a>
        requires least { 1 ≤ start.limit }
        requires most { start.limit ≤ MOST_KEY_LIMIT }
        ensures { (p : Parser) × (p.input ≡ result.input.now) × IsKept p result.kept }
    {
        held_t {
            kept: yaml_kept_parser_t::new(yaml_parser_t::with_key_limit(
                alloc,
                start.input,
                start.setting,
                start.limit,
            )),
            input: start.input,
        }
    }

    /// Gives tokens to a sink. Returns whether there is a fault.
    fn scan_to(&mut self, tally: &mut tally_t) -> bool
        requires { (p : Parser) × (p.input ≡ self.old.input.now) × IsKept p self.old.kept }
        ensures { (p : Parser) × (p.input ≡ self.new.input.now) × IsKept p self.new.kept }
    {
        yaml_kept_scan_to(&mut self.kept, self.input, tally)
    }

    /// Shows the next token. Returns whether there is a fault.
    fn peek(&mut self) -> bool
        requires { (p : Parser) × (p.input ≡ self.old.input.now) × IsKept p self.old.kept }
        ensures { (p : Parser) × (p.input ≡ self.new.input.now) × IsKept p self.new.kept }
    {
        yaml_kept_peek(&mut self.kept, self.input)
    }
}

/// Keeps the fault of a kept parser, if it has one.
fn end_count(kept: &yaml_kept_parser_t, count: &mut count_t) {
    if let Some(fault) = kept.fault() {
        count.end(*fault);
    }
}

/// Shows the next token, if that is asked for. Returns whether there is a fault.
fn shows_fault(held: &mut held_t, peeks: bool) -> bool
    requires { (p : Parser) × (p.input ≡ held.old.input.now) × IsKept p held.old.kept }
    ensures { (p : Parser) × (p.input ≡ held.new.input.now) × IsKept p held.new.kept }
{
    if !peeks {
        return false;
    }
    held.peek()
}

/// Shows the next token, if that is asked for, and then has tokens go to a sink with room for so many. Keeps the fault,
/// if one comes.
fn give_some(held: &mut held_t, tally: &mut tally_t, room: u128, peeks: bool)
    requires { (p : Parser) × (p.input ≡ held.old.input.now) × IsKept p held.old.kept }
    ensures { (p : Parser) × (p.input ≡ held.new.input.now) × IsKept p held.new.kept }
{
    tally.room = room;
    let shown = shows_fault(held, peeks);
    let given = held.scan_to(tally);
    if shown || given {
        end_count(&held.kept, &mut tally.count);
    }
}

/// Has all tokens of a kept parser given to a sink, by calls for which it has room for so many.
fn give_each(held: &mut held_t, tally: &mut tally_t, room: u128, peeks: bool)
    requires { (p : Parser) × (p.input ≡ held.old.input.now) × IsKept p held.old.kept }
{
    'calls: for _ in 0..u64::MAX {
        give_some(held, tally, room, peeks);
        if tally.count.over {
            break;
        }
    }
}

/// Takes all tokens by calls that give some to a sink, which has room for so many at each call. If `peeks` is true, the
/// next token is shown before each call.
pub fn by_kept(alloc: Global, start: start_t, room: u128, peeks: bool) -> count_t
    requires least { 1 ≤ start.limit }
    requires most { start.limit ≤ MOST_KEY_LIMIT }
{
    let mut held = held_t::new(alloc, start);
    let mut tally = tally_t::new(room);
    give_each(&mut held, &mut tally, room, peeks);
    tally.count
}
