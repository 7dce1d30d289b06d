// An execution graph in lent memory. Its calls, checks and views have files of their own.
ghost use Rattle.std.specs.Prelude.{◌≤◌};
ghost use Rattle.graph.specs.Memory.{Told, room_of};

use crate::event::Event;
use crate::undo::Undo;

mod calls;
mod checks;
mod views;

/// The most events that a graph can have besides the initial writes.
pub const MOST_EVENTS: usize = 56;

/// The most steps that can stand.
const MOST_STEPS: usize = 256;

/// A graph: the initial writes, and events added in a slice that the caller lends.
#[derive(Drop)]
pub struct Graph<'a> {
    // Fixed memory: each list is an array or a lent slice with how many of its entries are in use beside it.
    /// The records; the first `count` are the added events.
    events: &'a mut [Event],
    count: u8,
    /// What undoes the standing steps, the oldest first; `standing` entries count.
    log: [Undo; MOST_STEPS],
    standing: u16,
    ghost within: { count ≤ room_of events.now },
    ghost few: { standing ≤ 256 },
    ghost told: { Told events.now count log standing },
}
