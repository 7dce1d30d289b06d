// The calls that change a graph.
ghost use Rattle.std.specs.Prelude.{◌≡◌, cond, List, [], is_ok, slice_set};
ghost use Rattle.graph.specs.Events.{fresh};
ghost use Rattle.graph.specs.History.{Step, code_of, resource};
ghost use Rattle.graph.specs.Holds.{Holds, Does, Leaves, written};
ghost use Rattle.graph.specs.Memory.{undone};

use super::{Graph, MOST_STEPS};
use crate::call::Call;
use crate::event::{Event, INITIAL};
use crate::refusal::{Refusal, Refused};
use crate::undo::Undo;

impl<'a> Graph<'a> {
    /// A graph with no added event and no step, whatever the slice holds. Nothing is written.
    pub fn new(events: &'a mut [Event]) -> Self
        ensures empty { Holds result [] }
        ensures slice { result.events.now ≡ events.old }
        ensures lent { result.events.ghost_name ≡ events.entry.ghost_name }
    {
        Graph {
            events,
            count: 0,
            log: [Undo::Added; MOST_STEPS],
            standing: 0,
        }
    }

    /// Adds an event and answers its number. A read starts with the initial write of its location.
    /// Refusals, in this order: 2, 3, 4, 5, 1, 6.
    pub fn add(&mut self, thread: u8, code: u8, location: u8, value: u32) -> Result<u8, Refused>
        ensures told { Does (Call.Add thread code location value) self.old self.new result }
        ensures slice { self.new.events.now ≡ cond (is_ok result) (slice_set self.old.events.now self.old.count (fresh thread (code_of code) location value)) self.old.events.now }
        ensures leaves { Leaves self.old self.new result }
    {
        let at = self.count;
        let kind = self.check_addition(thread, code, location, value)?;
        self.events[at as usize] = Event::fresh(thread, kind, location, value);
        self.log[self.standing as usize] = Undo::Added;
        self.count = at + 1;
        self.standing += 1;
        Ok(at + INITIAL)
    }

    /// Gives a read another source and answers how many steps stand. Refusals, in this order: 10,
    /// 7, 8, 6.
    pub fn source(&mut self, read: u8, write: u8) -> Result<u16, Refused>
        ensures told { Does (Call.Source read write) self.old self.new result }
        ensures slice { self.new.events.now ≡ cond (is_ok result) (resource self.old.events.now read (Some write)) self.old.events.now }
        ensures leaves { Leaves self.old self.new result }
    {
        let former = self.check_sourcing(read, write)?;
        self.events[(read - INITIAL) as usize].source = Some(write);
        self.log[self.standing as usize] = Undo::Sourced { read, former };
        self.standing += 1;
        Ok(self.standing)
    }

    /// Undoes the last standing step and answers how many stand then: a read gets its former source
    /// again; the room of an added event can be used again, and its record keeps its content.
    /// Refusal: 9.
    pub fn take_back(&mut self) -> Result<u16, Refused>
        ensures told { Does Call.TakeBack self.old self.new result }
        ensures slice { (hs : List Step) → Holds self.old hs → self.new.events.now ≡ undone hs self.old.events.now }
        ensures leaves { Leaves self.old self.new result }
    {
        let last = self.standing.checked_sub(1).ok_or(Refusal::NoStep)?;
        let undo = self.log[last as usize];
        match undo {
            Undo::Added => self.count -= 1,
            Undo::Sourced { read, former } => {
                self.events[(read - INITIAL) as usize].source = former;
            }
        }
        self.standing = last;
        Ok(last)
    }

    /// Makes one call and gives its answer.
    pub fn perform(&mut self, call: Call) -> Result<u16, Refused>
        ensures told { Does call self.old self.new result }
        ensures slice { (hs : List Step) → Holds self.old hs → self.new.events.now ≡ cond (is_ok result) (written call self.old hs) self.old.events.now }
        ensures leaves { Leaves self.old self.new result }
    {
        match call {
            Call::Add {
                thread,
                code,
                location,
                value,
            } => self.add(thread, code, location, value).map(u16::from),
            Call::Source { read, write } => self.source(read, write),
            Call::TakeBack => self.take_back(),
        }
    }
}
