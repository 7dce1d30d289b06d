// The shortest source cycle.
ghost use Rattle.axioms.specs.Reached.{ShortestSourceCycle};

use crate::source_steps::SourceSteps;
use crate::table::EventTable;
use cycles::shortest::shortest_cycle;
use graph::event::Event;
use measures::settling::{LARGEST, Refusal};

/// Finds a source cycle with the fewest steps, and writes its events to the front of `cycle`, the lowest first.
///
/// `events` are the added events; more than 56 are refused. Answers the number of steps, which is the number of events
/// written; the rest of `cycle` is as it was. Without a source cycle the answer is `None`, and then, as on refusal, `cycle`
/// is as it was.
pub fn source_cycle(events: &[Event], cycle: &mut [u8; LARGEST]) -> Result<Option<usize>, Refusal>
    ensures { ShortestSourceCycle events.now cycle.old cycle.new result }
{
    // No heap: the cycle goes into lent memory, and the count says how much of that is the cycle's.
    let steps = EventTable::of(events, &SourceSteps { events })?;
    shortest_cycle(steps.cells(), steps.side(), cycle)
}
