// What reaches what by steps of program order and reads-from.
ghost use Rattle.std.specs.Prelude.{◌≡◌, ◌*◌, ◌≤◌, length, Decides, MatchResult};
ghost use Rattle.measures.specs.Walks.{Leads};
ghost use Rattle.graph.specs.Proper.{Proper};
ghost use Rattle.axioms.specs.Reached.{Reached, ReachedAmong};
ghost use Rattle.axioms.specs.Relations.{SourceStep, SourceCycle};
ghost use Rattle.axioms.specs.Tables.{Drawn, TooMany};

use crate::source_steps::SourceSteps;
use crate::table::EventTable;
use graph::event::Event;
use measures::settling::Refusal;

/// What reaches what by one or more steps of program order and reads-from, as a yes/no table.
#[derive(Drop)]
pub struct SourceReach {
    table: EventTable,
}

impl SourceReach {
    /// What reaches what among a graph's events. `events` are the added events.
    ///
    /// More than 56 added events are refused.
    pub fn of(events: &[Event]) -> Result<SourceReach, Refusal>
        ensures { MatchResult result (Reached events.now) (TooMany events.now) }
    {
        let mut table = EventTable::of(events, &SourceSteps { events })?;
        table.settle();
        Ok(SourceReach { table })
    }

    /// How many rows and columns the table has.
    pub fn side(&self) -> usize
        ensures value { result ≡ self.now.table.side }
        ensures small { result ≤ 64 }
    {
        self.table.side()
    }

    /// The table, row by row: is there a way from the row to the column?
    pub fn cells(&self) -> &[u8]
        ensures size { length result.now ≡ self.now.table.side * self.now.table.side }
        ensures told { ReachedAmong self.now (λ es. Drawn (Leads (SourceStep es)) self.now.table.side result.now) }
    {
        self.table.cells()
    }

    /// Is there a way from `a` to `b`, of one step or more? A number that names no event has none.
    pub fn leads(&self, a: u8, b: u8) -> bool
        ensures { ReachedAmong self.now (λ es. Proper es → Decides result (Leads (SourceStep es) a b)) }
    {
        self.table.says(a, b)
    }

    /// Is there a source cycle: an event with a way back to itself?
    pub fn has_cycle(&self) -> bool
        ensures { ReachedAmong self.now (λ es. Decides result (SourceCycle es)) }
    {
        self.table.has_loop()
    }
}
