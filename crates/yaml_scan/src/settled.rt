//! The running scanner: as many steps are made as the next token needs.
ghost use Rattle.std.specs.Prelude.{◌≡◌, ◌⊎◌, ◌+◌, ◌-◌, ◌<◌, ◌^◌, ◌&&◌, not, nat_lt, nat_eq, length};
ghost use Rattle.std.specs.Prelude.{false, MatchResult};
ghost use Rattle.yaml_text.specs.Fault.{memory_fault};
ghost use Rattle.yaml_text.specs.Text.{Text};
ghost use Rattle.yaml_scan.specs.Course.{ended};
ghost use Rattle.yaml_scan.specs.inside.Queue.{begins_with_end, pending};
ghost use Rattle.yaml_scan.specs.Settled.{before};
ghost use Rattle.yaml_scan.specs.inside.Stop.{fault_at};
ghost use Rattle.yaml_scan.specs.inside.Scanner.{scanner_of};
ghost use Rattle.yaml_scan.specs.inside.Scanning.{IsRunning, StepsOn, IsLast, Halts, IsOpen};
ghost use Rattle.yaml_scan.specs.inside.Scanning.{Fails, Settles};
ghost use Rattle.yaml_scan.specs.inside.Scanning.{Stops, history};

use crate::follower::is_awaited;
use crate::state::state_t;
use crate::step::step;
use crate::stop::stop_t;
use yaml_text::yaml_text_t;

/// Whether the head of the queue is the next token.
#[inline(always)]
pub(crate) fn is_settled(state: &state_t) -> bool
    requires { (text : Text) × IsRunning (scanner_of text state.now) }
    ensures { (text : Text) → IsRunning (scanner_of text state.now)
        → result ≡ nat_lt state.now.taken (length (before state.now.limit (history (scanner_of text state.now)))) }
{
    !state.layout.queue.groups.is_empty() && !is_awaited(state)
}

/// Makes a step, or two if the next token needs both, unless the scanner has to stop there: `step`, with what it means
/// for the history that the state has.
#[inline(always)]
fn advance(text: &yaml_text_t, state: &mut state_t) -> Result<(), stop_t>
    requires runs { IsRunning (scanner_of text.now state.old) }
    requires running { ended (history (scanner_of text.now state.old)) ≡ false }
    ensures { MatchResult result (λ _. StepsOn (scanner_of text.now state.old) (scanner_of text.now state.new)) (λ s.
        ((fault_at s state.new.fault ≡ memory_fault) ⊎ IsLast (scanner_of text.now state.old)
        (fault_at s state.new.fault))
        × Halts (scanner_of text.now state.old) (scanner_of text.now state.new)) }
{
    step(text, state)
}

/// Makes steps until the head of the queue is the next token.
#[inline(always)]
pub(crate) fn settle_head(text: &yaml_text_t, state: &mut state_t) -> Result<(), stop_t>
    requires runs { IsRunning (scanner_of text.now state.old) }
    requires not_ended { IsOpen (scanner_of text.now state.old) }
    ensures { MatchResult result (λ _. Settles (scanner_of text.now state.old) (scanner_of text.now state.new)) (λ s.
        ((fault_at s state.new.fault ≡ memory_fault)
        ⊎ Fails (scanner_of text.now state.old) (scanner_of text.now state.new) (fault_at s state.new.fault))
        × Stops (scanner_of text.now state.old) (scanner_of text.now state.new)) }
{
    'steps: while !is_settled(state) {
        advance(text, state)?;
    }
    Ok(())
}
