// A square table of measures in lent memory.
ghost use Rattle.std.specs.Prelude.{◌≡◌, ◌+◌, ◌*◌, ◌<◌, length, MatchBool, MatchOption, slice_index_or, slice_set};
ghost use Rattle.measures.specs.Outcome.{Inside, Outcome};

use crate::measure::Measure;
use crate::settling::{Refusal, check_square, settle};

/// A table of `side` rows of `side` values, over a slice that the caller lends.
///
/// Making one asks nothing: a table whose side is above 64, or whose slice has not `side` × `side` values,
/// has no entries, and settling it is refused.
#[derive(Drop)]
pub struct Table<'a, M: Measure> {
    cells: &'a mut [M::Value],
    side: usize,
}

impl<'a, M: Measure> Table<'a, M> {
    /// A table over `cells`, row by row. Nothing is written.
    pub fn new(cells: &'a mut [M::Value], side: usize) -> Table<'a, M>
        ensures side { result.side ≡ side }
        ensures cells { result.cells.now ≡ cells.old }
        ensures lent { result.cells.ghost_name ≡ cells.entry.ghost_name }
    {
        Table { cells, side }
    }

    /// The number of rows, and of columns.
    pub fn side(&self) -> usize
        ensures { result ≡ self.now.side }
    {
        self.side
    }

    /// The value in a row and a column, where the table has them.
    pub fn at(&self, row: usize, column: usize) -> Option<M::Value>
        ensures { MatchOption result (Inside self.now.side self.now.cells.now row column → ⊥) (λ v. Inside self.now.side self.now.cells.now row column × (v ≡ slice_index_or self.now.cells.now (row * self.now.side + column) v)) }
    {
        let at = self.place_of(row, column)?;
        Some(self.cells[at])
    }

    /// Writes a value into a row and a column, and answers whether the table has them; if not, nothing is written.
    pub fn put(&mut self, row: usize, column: usize, value: M::Value) -> bool
        ensures lent { self.new.cells.ghost_name ≡ self.old.cells.ghost_name }
        ensures side { self.new.side ≡ self.old.side }
        ensures cells { MatchBool result (Inside self.old.side self.old.cells.now row column × (self.new.cells.now ≡ slice_set self.old.cells.now (row * self.old.side + column) value)) ((Inside self.old.side self.old.cells.now row column → ⊥) × (self.new.cells.now ≡ self.old.cells.now)) }
    {
        // A bool and no `Result`: that the table has no such place is all that there is to say.
        let Some(at) = self.place_of(row, column) else {
            return false;
        };
        self.cells[at] = value;
        true
    }

    /// Settles the table: each entry becomes the best over all paths of one step or more.
    pub fn settle(&mut self) -> Result<(), Refusal>
        ensures lent { self.new.cells.ghost_name ≡ self.old.cells.ghost_name }
        ensures side { self.new.side ≡ self.old.side }
        ensures outcome { Outcome M.none M.joined M.better M.means self.old.side self.old.cells.now self.new.cells.now result }
    {
        settle::<M>(self.cells, self.side)
    }

    // Where the value of a row and a column stands, if the table is square and has them.
    fn place_of(&self, row: usize, column: usize) -> Option<usize>
        ensures { MatchOption result (Inside self.now.side self.now.cells.now row column → ⊥) (λ p. Inside self.now.side self.now.cells.now row column × ((p ≡ row * self.now.side + column) × (p < length self.now.cells.now))) }
    {
        check_square(self.cells, self.side).ok()?;
        if row < self.side && column < self.side {
            Some(row * self.side + column)
        } else {
            None
        }
    }
}
