// What a graph holds.
ghost use Rattle.std.specs.Prelude.{◌≡◌, ◌≤◌, List, length, Decides};
ghost use Rattle.graph.specs.History.{Step};
ghost use Rattle.graph.specs.Holds.{Holds, Equal, added_events};
ghost use Rattle.graph.specs.Lookup.{lookup};
ghost use Rattle.graph.specs.Memory.{room_of};
ghost use Rattle.graph.specs.Proper.{Proper};

use super::{Graph, MOST_EVENTS};
use crate::event::Event;
use crate::lookup::event_at;

impl Graph<'_> {
    /// How many events can be added in all: 56, or the length of the slice if that is less.
    pub fn room(&self) -> u8
        ensures { result ≡ room_of self.now.events.now }
    {
        self.events.len().min(MOST_EVENTS) as u8
    }

    /// How many steps stand: additions and sourcings that were not taken back.
    pub fn standing(&self) -> u16
        ensures value { result ≡ self.now.standing }
        ensures told { (hs : List Step) → Holds self.now hs → result ≡ length hs }
        ensures few { result ≤ 256 }
    {
        self.standing
    }

    /// The added events, in the order of their addition.
    pub fn events(&self) -> &[Event]
        ensures value { result.now ≡ added_events self.now }
        ensures proper { Proper result.now }
        ensures few { length result.now ≤ 56 }
    {
        &self.events[..self.count as usize]
    }

    /// The event of a number, initial writes too, where it is present.
    pub fn find(&self, number: u8) -> Option<Event>
        ensures { result ≡ lookup (added_events self.now) number }
    {
        event_at(self.events(), number)
    }

    /// Have both graphs the same added events, with the same sources?
    pub fn same_as(&self, other: &Graph) -> bool
        ensures { Decides result (Equal self.now other.now) }
    {
        self.events() == other.events()
    }
}
