// The scan of what stands between two events: a small machine, fed one code after the other.
ghost use Rattle.std.specs.Prelude.{◌≡◌, ◌-◌, [], if◌then◌else◌, MatchOption};
ghost use Rattle.std.specs.List.{between as part};
ghost use Rattle.graph.specs.Order.{Po};
ghost use Rattle.profiles.specs.Segments.{segment};
ghost use Rattle.profiles.specs.Threads.{codes_of};
ghost use Rattle.profiles.specs.Scans.{awaits, further, completes, stepped, Met, Sums};

use crate::mode::{is_marking, is_sc_fence};
use graph::code::{Code, FenceMode};
use graph::event::{Event, INITIAL};
use graph::lookup::event_at;
use graph::order::precedes;

/// How far a release fence, an access and an acquire fence have come, in this order.
#[derive(Clone, Copy, PartialEq, Eq, Default, Debug)]
pub enum Stage {
    #[default]
    Waiting,
    Released,
    Accessed,
    Complete,
}

impl Stage {
    /// The stage after one more event: a stage moves on exactly at what it waits for.
    pub fn next(self, code: Code) -> Stage
        ensures { result ≡ (if awaits self code then further self else self) }
    {
        match (self, code) {
            (Stage::Waiting, Code::Fence(FenceMode::Rel)) => Stage::Released,
            (Stage::Released, Code::Read(_) | Code::Write(_)) => Stage::Accessed,
            (Stage::Accessed, Code::Fence(FenceMode::Acq)) => Stage::Complete,
            (stage, _) => stage,
        }
    }

    /// Have all three been met?
    pub fn is_complete(self) -> bool
        ensures { result ≡ completes self [] }
    {
        matches!(self, Stage::Complete)
    }
}

/// What was met; by default nothing was.
#[derive(Clone, Copy, PartialEq, Eq, Default, Debug)]
pub struct Scan {
    /// An access of mode sc, rel or acq was met.
    pub marked: bool,
    /// An sc fence was met.
    pub fenced: bool,
    pub stage: Stage,
}

impl Scan {
    /// A scan that has met nothing.
    pub fn new() -> Scan
        ensures { Met result [] }
    {
        Scan::default()
    }

    /// The scan after one more event.
    pub fn step(self, code: Code) -> Scan
        ensures { result ≡ stepped self code }
    {
        Scan {
            marked: self.marked || is_marking(code),
            fenced: self.fenced || is_sc_fence(code),
            stage: self.stage.next(code),
        }
    }

    /// Scans those of `events` that are of `thread`.
    pub fn of_thread(events: &[Event], thread: u8) -> Scan
        ensures { Met result (codes_of thread events.now) }
    {
        events
            .iter()
            .filter(|event| event.thread == thread)
            .fold(Scan::new(), |met, event| met.step(event.code))
    }
}

/// What a rule over codes asks of a pair: both codes, and what stands strictly between.
#[derive(Clone, Copy, PartialEq, Eq, Debug)]
pub struct Summary {
    pub first: Code,
    pub last: Code,
    pub met: Scan,
}

impl Summary {
    /// The summary of a pair in program order, and `None` for any other pair. It costs one scan
    /// of the events between `a` and `b`.
    pub fn of(events: &[Event], a: u8, b: u8) -> Option<Summary>
        ensures { MatchOption result (Po events.now a b → ⊥) (λ s. Po events.now a b × Sums s (segment events.now a b)) }
    {
        if !precedes(events, a, b) {
            return None;
        }
        let last = event_at(events, b)?;
        Some(Summary {
            first: event_at(events, a)?.code,
            last: last.code,
            met: Scan::of_thread(part_between(events, a, b), last.thread),
        })
    }
}

// The part of the list from the event after `a` to the one before `b`, whatever their threads.
fn part_between(events: &[Event], a: u8, b: u8) -> &[Event]
    requires { Po events.now a b }
    ensures { result.now ≡ part (a - 7) (b - 8) events.now }
{
    let start = (a + 1).max(INITIAL);
    &events[(start - INITIAL) as usize..(b - INITIAL) as usize]
}
