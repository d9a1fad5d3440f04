//! The layout: the open levels and the queue. A key may open a level and mark a group of the queue.
ghost use Rattle.std.specs.Prelude.{◌≡◌, ◌+◌, ◌-◌, ◌<◌, ◌≤◌, ◌&&◌, ◌++◌, ◌∷◌, [], false, reverse, vec_len, Some};
ghost use Rattle.std.specs.Prelude.{if◌then◌else◌};
ghost use Rattle.std.specs.Vec.{vec_capacity};
ghost use Rattle.yaml_scan.specs.Falling.{IsFalling};
ghost use Rattle.yaml_scan.specs.inside.Opened.{is_new, opened};
ghost use Rattle.yaml_scan.specs.inside.Queue.{completed_in, opened_by, Fitting, KeepsRest};

use crate::groups::block_t;
use crate::keys::candidate_t;
use crate::levels::{is_new_level, open_block, open_level};
use crate::met::met_t;
use crate::queue::queue_t;

/// The open levels, the greatest last, and the queue.
#[derive(Drop)]
pub(crate) struct layout_t {
    pub levels: Vec<u64>,
    pub queue: queue_t,
}

impl layout_t {
    /// Completes a candidate. Outside flow there is room for a level.
    #[inline(always)]
    fn complete(&mut self, in_flow: bool, held: candidate_t)
        requires falls { IsFalling (reverse self.old.levels.items) }
        requires fits { Fitting (Some held) self.old.queue.done self.old.queue.groups.items }
        requires room { in_flow ≡ false → vec_len self.old.levels < vec_capacity self.old.levels }
        ensures levels { reverse self.new.levels.items
            ≡ (if is_new in_flow held.start.column (reverse self.old.levels.items) then held.start.column ∷ [] else [])
            ++ reverse self.old.levels.items }
        ensures groups { self.new.queue.groups.items
            ≡ completed_in in_flow (Some held) (reverse self.old.levels.items) self.old.queue.done
            self.old.queue.groups.items }
        ensures rest { KeepsRest self.old.queue self.new.queue }
    {
        let opens = is_new_level(&self.levels, in_flow, held.start.column);
        let at = (held.step - 1 - self.queue.done) as usize;
        self.queue.mark_key(at, opens);
        open_level(&mut self.levels, opens, held.start.column);
    }

    /// Completes a candidate, or opens a level at the lexeme of a step. Outside flow there is room for one.
    #[inline(always)]
    pub(crate) fn put_key(&mut self, met: met_t, completed: Option<candidate_t>) -> block_t
        requires falls { IsFalling (reverse self.old.levels.items) }
        requires fits { Fitting completed self.old.queue.done self.old.queue.groups.items }
        requires room { met.in_flow ≡ false → vec_len self.old.levels < vec_capacity self.old.levels }
        ensures levels { reverse self.new.levels.items
            ≡ opened met.in_flow completed met.kind met.new.start (reverse self.old.levels.items) }
        ensures groups { self.new.queue.groups.items
            ≡ completed_in met.in_flow completed (reverse self.old.levels.items) self.old.queue.done
            self.old.queue.groups.items }
        ensures opens { result
            ≡ opened_by met.in_flow completed met.kind met.new.start.column (reverse self.old.levels.items) }
        ensures rest { KeepsRest self.old.queue self.new.queue }
    {
        match completed {
            Some(held) => {
                self.complete(met.in_flow, held);
                block_t::NONE
            }
            None => open_block(&mut self.levels, met),
        }
    }
}
