// Events by number.
ghost use Rattle.std.specs.Prelude.{◌≡◌};
ghost use Rattle.graph.specs.Lookup.{lookup};

use crate::event::{Event, INITIAL};

/// The event of a number, where there is one. `events` are the added events.
pub fn event_at(events: &[Event], number: u8) -> Option<Event>
    ensures { result ≡ lookup events.now number }
{
    if number < INITIAL {
        return Some(Event::initial(number));
    }
    events.get((number - INITIAL) as usize).copied()
}
