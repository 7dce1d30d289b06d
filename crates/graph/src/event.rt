// An event of an execution graph. Events go by number: 0 to 7 are the initial writes of the
// locations 0 to 7, and the added events are numbered from 8 in the order of their addition.
ghost use Rattle.std.specs.Prelude.{◌≡◌, ◌+◌, ◌<◌, length};
ghost use Rattle.graph.specs.Events.{event, fresh, initial_write};

use crate::code::{Code, WriteMode};

/// How many initial writes there are, and the number of the first added event.
pub const INITIAL: u8 = 8;

#[derive(Clone, Copy, PartialEq, Eq, Debug)]
pub struct Event {
    pub thread: u8,
    pub code: Code,
    pub location: u8,
    /// What a write writes; 0 at a read and a fence.
    pub value: u32,
    /// The number of the write that a read takes; a write and a fence have none.
    pub source: Option<u8>,
}

impl Event {
    /// The initial write of a location.
    pub fn initial(location: u8) -> Event
        ensures { result ≡ initial_write location }
    {
        Event {
            thread: 0,
            code: Code::Write(WriteMode::Rlx),
            location,
            value: 0,
            source: None,
        }
    }

    /// An event as it is added: a read starts with the initial write of its location.
    pub fn fresh(thread: u8, code: Code, location: u8, value: u32) -> Event
        ensures { result ≡ fresh thread code location value }
    {
        Event {
            thread,
            code,
            location,
            value,
            source: code.is_read().then_some(location),
        }
    }
}
