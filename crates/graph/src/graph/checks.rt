// The checks of the calls on a graph, each in its order.
ghost use Rattle.std.specs.Prelude.{◌≡◌, ◌+◌, ◌<◌, ◌≤◌, MatchResult, OnOk};
ghost use Rattle.graph.specs.Checked.{passed};
ghost use Rattle.graph.specs.Events.{event};
ghost use Rattle.graph.specs.History.{first, add_checks, source_checks, code_of};
ghost use Rattle.graph.specs.Holds.{added_events};
ghost use Rattle.graph.specs.Memory.{room_of};

use super::{Graph, MOST_STEPS};
use crate::code::Code;
use crate::event::INITIAL;
use crate::refusal::Refusal;

/// The highest thread, and the highest location.
const HIGHEST: u8 = 7;

impl Graph<'_> {
    /// Can this event be added? Answers its code.
    pub(super) fn check_addition(
        &self,
        thread: u8,
        code: u8,
        location: u8,
        value: u32,
    ) -> Result<Code, Refusal>
        ensures value { result ≡ passed (first (add_checks (room_of self.now.events.now) self.now.count self.now.standing thread code (code_of code) location value)) (code_of code) }
        ensures fits { OnOk result ((self.now.count < room_of self.now.events.now) × (self.now.standing < 256)) }
    {
        if thread > HIGHEST {
            return Err(Refusal::ThreadTooHigh);
        }
        let kind = Code::try_from(code)?;
        if location > HIGHEST || (kind.is_fence() && location != 0) {
            return Err(Refusal::BadLocation);
        }
        if !kind.is_write() && value != 0 {
            return Err(Refusal::BadValue);
        }
        if self.count >= self.room() {
            return Err(Refusal::NoRoom);
        }
        self.check_room_for_step()?;
        Ok(kind)
    }

    /// Can `read` be sourced to `write`? Answers the source that the read has.
    pub(super) fn check_sourcing(&self, read: u8, write: u8) -> Result<Option<u8>, Refusal>
        ensures value { result ≡ passed (first (source_checks (added_events self.now) self.now.standing read write)) (event (added_events self.now) read).source }
        ensures fits { OnOk result ((8 ≤ read) × (read < self.now.count + 8) × (self.now.standing < 256)) }
    {
        let (Some(old), Some(new)) = (self.find(read), self.find(write)) else {
            return Err(Refusal::AbsentEvent);
        };
        if read < INITIAL || !old.code.is_read() {
            return Err(Refusal::NotAnAddedRead);
        }
        if !new.code.is_write() || new.location != old.location {
            return Err(Refusal::NotItsWrite);
        }
        self.check_room_for_step()?;
        Ok(old.source)
    }
    /// Can another step stand?
    fn check_room_for_step(&self) -> Result<(), Refusal>
        ensures { MatchResult result (λ _. self.now.standing < 256) (λ why. (256 ≤ self.now.standing) × (why ≡ Refusal.StepsFull)) }
    {
        if self.standing as usize >= MOST_STEPS {
            return Err(Refusal::StepsFull);
        }
        Ok(())
    }
}
