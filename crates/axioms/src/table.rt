// The table that a relation between the events of a graph draws.
ghost use Rattle.std.specs.Prelude.{◌≡◌, ℕ, ◌*◌, ◌≤◌, length, Decides, MatchResult};
ghost use Rattle.axioms.specs.Tables.{SideOf, TooMany, CellsJoined};

use crate::relation::{Alone, Relation, RelationFamily, draw_family};
use graph::event::{Event, INITIAL};
use measures::reach::settle_reach;
use measures::settling::{CELLS, LARGEST, Refusal, check_square};

/// How many rows and columns a table has for a graph with these added events: one for each event, the initial writes
/// first. More than 56 added events are refused.
pub fn side_of(events: &[Event]) -> Result<usize, Refusal>
    ensures { MatchResult result (SideOf events.now) (TooMany events.now) }
{
    let side = events.len() + INITIAL as usize;
    if side > LARGEST {
        return Err(Refusal::NotSquare);
    }
    Ok(side)
}

/// Gives cells the yes of as many others, as far as both go.
pub fn join(cells: &mut [u8], gains: &[u8])
    ensures { CellsJoined gains.now cells.old cells.new }
{
    let both = cells.len().min(gains.len());
    // Two runs of cells and no test inside the loop: the compiler makes vector code of it. Not `zip`, since a proof knows no
    // value that `iter_mut` has lent to it.
    for (at, gain) in gains[..both].iter().enumerate() {
        cells[at] |= *gain;
    }
}

/// A yes/no table with a row and a column for each event of a graph, the initial writes first: 0 is no, and every other
/// number is yes.
#[derive(Drop)]
pub struct EventTable {
    side: usize,
    // Bytes and no `bool`s, which settling takes; fixed memory, as there is no heap.
    /// Row by row; the first `side` × `side` cells count.
    cells: [u8; CELLS],
    ghost small: { side ≤ 64 },
}

impl EventTable {
    ghost use Rattle.axioms.specs.EventTables.{cells_of, Says, Tells, Copied, Unfit, CellSet, Joined, Settled};

    /// Draws a relation: yes where it leads from the row to the column. `events` are the added events; more than 56 are
    /// refused.
    pub fn of<R: Relation>(events: &[Event], relation: &R) -> Result<EventTable, Refusal>
        ensures { MatchResult result (Tells (Unit {0}) (λ _. R.related relation.now) events.now) (TooMany events.now) }
    {
        EventTable::of_family(events, &Alone(relation))
    }

    /// Draws a family of relations: the table is that of each. `events` are the added events; more than 56 are refused.
    pub fn of_family<F: RelationFamily>(events: &[Event], family: &F) -> Result<EventTable, Refusal>
        ensures { MatchResult result (Tells (F.known family.now) (F.related family.now) events.now) (TooMany events.now) }
    {
        let side = side_of(events)?;
        let mut cells = [0; CELLS];
        draw_family(family, &mut cells[0..side * side], side)?;
        Ok(EventTable { side, cells })
    }

    /// Copies a table that is given by its cells. `events` are the added events. A table that has not a row and a column
    /// for each event is refused, and so are more than 56 added events.
    pub fn copy(events: &[Event], cells: &[u8]) -> Result<EventTable, Refusal>
        ensures { MatchResult result (Copied events.now cells.now) (Unfit events.now cells.now) }
    {
        let side = side_of(events)?;
        check_square(cells, side)?;
        let mut table = EventTable {
            side,
            cells: [0; CELLS],
        };
        table.cells[0..side * side].copy_from_slice(cells);
        Ok(table)
    }

    /// How many rows and columns the table has.
    pub fn side(&self) -> usize
        ensures value { result ≡ self.now.side }
        ensures small { result ≤ 64 }
    {
        self.side
    }

    /// The cells, row by row.
    pub fn cells(&self) -> &[u8]
        ensures value { result.now ≡ cells_of self.now }
        ensures size { length result.now ≡ self.now.side * self.now.side }
    {
        &self.cells[0..self.side * self.side]
    }

    /// Does the table say yes in this row and column? A number that names no event gets no.
    pub fn says(&self, row: u8, column: u8) -> bool
        ensures { Decides result (Says self.now row column) }
    {
        let (a, b) = (row as usize, column as usize);
        a < self.side && b < self.side && self.cells[a * self.side + b] != 0
    }

    /// Does the table say yes in the row and the column of one event?
    pub fn has_loop(&self) -> bool
        ensures { Decides result ((a : ℕ) × Says self.now a a) }
    {
        // `cycles::exists::has_cycle` settles its table too; this one may be settled already.
        (0..self.side as u8).any(|event| self.says(event, event))
    }

    /// Writes yes or no in this row and column. Where a number names no event, nothing is written.
    pub fn mark(&mut self, row: u8, column: u8, says: bool)
        ensures { CellSet self.old self.new row column says }
    {
        let (a, b) = (row as usize, column as usize);
        if a < self.side && b < self.side {
            self.cells[a * self.side + b] = u8::from(says);
        }
    }

    /// Gives a row the yes of other cells, as far as both go. A number that names no event has no row.
    pub fn join_row(&mut self, row: u8, gains: &[u8])
        ensures { Joined self.old self.new row gains.now }
    {
        let a = row as usize;
        if a < self.side {
            let from = a * self.side;
            join(&mut self.cells[from..from + self.side], gains);
        }
    }

    /// Makes the table say whether its yes entries lead from the row to the column, by one step or more.
    pub fn settle(&mut self)
        ensures { Settled self.old self.new }
    {
        let side = self.side;
        let Ok(()) = settle_reach(&mut self.cells[0..side * side], side) else {
            unreachable()
        };
    }
}
