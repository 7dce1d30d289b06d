// Program order and reads-from, between events by number. `events` are the added events.
ghost use Rattle.std.specs.Prelude.{Decides};
ghost use Rattle.graph.specs.Order.{Po, Rf};

use crate::event::{Event, INITIAL};

/// Does `a` precede `b` in program order? An initial write precedes every added event, and the
/// added events of one thread stand in the order of their addition.
pub fn precedes(events: &[Event], a: u8, b: u8) -> bool
    ensures { Decides result (Po events.now a b) }
{
    // The numbers first, and events where they stand: tables ask this of every two numbers.
    if b < INITIAL || a >= b {
        return false;
    }
    let Some(later) = events.get((b - INITIAL) as usize) else {
        return false;
    };
    a < INITIAL || events[(a - INITIAL) as usize].thread == later.thread
}

/// Does `read` take its value from `write`?
pub fn reads_from(events: &[Event], write: u8, read: u8) -> bool
    ensures { Decides result (Rf events.now write read) }
{
    read >= INITIAL
        && events
            .get((read - INITIAL) as usize)
            .is_some_and(|event| event.source == Some(write))
}
