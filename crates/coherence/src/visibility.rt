// The table of visibility: what leads where by steps of reads-from, kept pairs and push steps.
ghost use Rattle.std.specs.Prelude.{◌≡◌, ◌+◌, ◌*◌, length, MatchResult};
ghost use Rattle.graph.specs.Order.{Rf};
ghost use Rattle.axioms.specs.EventTables.{cells_of};
ghost use Rattle.coherence.specs.Seen.{VisibilityOf, NoVisibility};
ghost use Rattle.coherence.specs.Visibility.{DrawnVisibility, DrawnWithin, Gained, PushedLater};

use crate::sight::Sight;
use axioms::table::{EventTable, join, side_of};
use graph::event::{Event, INITIAL};
use measures::settling::{LARGEST, Refusal, check_square};

/// What leads where by steps of visibility, one or more, among a graph's events under a push order.
#[derive(Drop)]
pub struct Visibility<'e> {
    /// The added events.
    events: &'e [Event],
    table: EventTable,
}

impl<'e> Visibility<'e> {
    /// Draws the table of visibility.
    ///
    /// `kept` and `pushed` are the yes/no tables of the pairs that a profile keeps and pushes, and `list` is the push order.
    /// Each table has a row for each event, the initial writes first; a table of another size is refused, and so are more
    /// than 56 added events. A listed number that names no event pushes nothing.
    pub fn of(
        events: &'e [Event],
        kept: &[u8],
        pushed: &[u8],
        list: &[u8],
    ) -> Result<Visibility<'e>, Refusal>
        ensures { MatchResult result (VisibilityOf events.now kept.now pushed.now list.now) (NoVisibility events.now kept.now pushed.now) }
    {
        let mut table = EventTable::copy(events, kept)?;
        check_square(pushed, table.side())?;
        add_push_steps(pushed, list, &mut table);
        add_sources(events, &mut table);
        table.settle();
        Ok(Visibility { events, table })
    }

    /// The events with the table, to be asked what is visible and which steps hold.
    pub fn sight(&self) -> Sight<'e, '_>
        ensures events { result.events.now ≡ self.now.events.now }
        ensures leads { result.leads.now ≡ cells_of self.now.table }
    {
        Sight {
            events: self.events,
            leads: self.table.cells(),
        }
    }
}

/// Draws into `cells` what leads where by steps of visibility, one or more.
///
/// `kept` and `pushed` are the yes/no tables of the pairs that a profile keeps and pushes, and `list` is the push order.
/// Each table has a row for each event, the initial writes first. A listed number that names no event pushes
/// nothing. Where more than 56 events are added, or a table has another size, nothing is written.
pub fn draw_visibility(
    events: &[Event],
    kept: &[u8],
    pushed: &[u8],
    list: &[u8],
    cells: &mut [u8],
) -> Result<(), Refusal>
    ensures drawn { DrawnVisibility events.now kept.now pushed.now list.now cells.old cells.new result }
    ensures within { DrawnWithin events.now kept.now pushed.now list.now cells.old cells.new result }
{
    check_square(cells, side_of(events)?)?;
    let visibility = Visibility::of(events, kept, pushed, list)?;
    cells.copy_from_slice(visibility.table.cells());
    Ok(())
}

// Adds the push steps: from the last listed event to the first, with the row of all that later events push to.
fn add_push_steps(pushed: &[u8], list: &[u8], table: &mut EventTable)
    requires { length pushed.now ≡ table.old.side * table.old.side }
    ensures side { table.new.side ≡ table.old.side }
    ensures steps { Gained table.old.side (PushedLater table.old.side pushed.now list.now) table.old.cells table.new.cells }
{
    let side = table.side();
    let mut later = [0; LARGEST];
    for event in list.iter().rev() {
        let row = *event as usize;
        if row < side {
            table.join_row(*event, &later);
            join(&mut later, &pushed[row * side..(row + 1) * side]);
        }
    }
}

// Adds the steps from a read's source to the read.
fn add_sources(events: &[Event], table: &mut EventTable)
    requires { table.old.side ≡ length events.now + 8 }
    ensures side { table.new.side ≡ table.old.side }
    ensures steps { Gained (length events.now + 8) (Rf events.now) table.old.cells table.new.cells }
{
    for (added, event) in events.iter().enumerate() {
        if let Some(source) = event.source {
            table.mark(source, added as u8 + INITIAL, true);
        }
    }
}
