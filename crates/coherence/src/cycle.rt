// Coherence: its steps, its table and its cycles.
ghost use Rattle.std.specs.Prelude.{◌≤◌, Decides, IfOk, IfSome, MatchResult};
ghost use Rattle.axioms.specs.EventTables.{Tells};
ghost use Rattle.axioms.specs.Relations.{Co};
ghost use Rattle.coherence.specs.Coherence.{ReadBefore, ByValue, ByOrder, Shows, TableDrawn, Refused, ShortestAnswer, TestAnswer};
ghost use Rattle.coherence.specs.Sights.{Known, Throughout};
ghost use Rattle.coherence.specs.Visibility.{Fits};

use crate::sight::Sight;
use axioms::relation::{RelationFamily, draw_family};
use axioms::table::{EventTable, side_of};
use cycles::exists::has_cycle;
use cycles::shortest::shortest_cycle;
use graph::event::INITIAL;
use graph::order::{precedes, reads_from};
use measures::settling::{CELLS, LARGEST, Refusal, check_square};

impl Sight<'_, '_> {
    /// Does a step of coherence lead from `p` to `q`, by any rule?
    pub fn coheres(&self, p: u8, q: u8) -> bool
        ensures { Throughout self.now (λ es m L. Decides result (Co m es L p q)) }
    {
        if !self.are_rivals(p, q) {
            return false;
        }
        if self.is_visible(p, q) {
            return true;
        }
        let Ok(side) = side_of(self.events) else {
            return false;
        };
        (INITIAL..side as u8).any(|reader| self.shows(p, q, reader))
    }

    // Does a read show the step?
    fn shows(&self, p: u8, q: u8, reader: u8) -> bool
        ensures { Throughout self.now (λ es m L. Decides result (Shows m es L p q reader)) }
    {
        self.shows_by_value(p, q, reader) || self.shows_by_order(p, q, reader)
    }

    // Does a read show the step by what it reads? It is then the reader of cowr, or the second of corr. One pass over the readers
    // serves both rules, and asks no more for rivals, which `holds` does by each rule.
    fn shows_by_value(&self, p: u8, q: u8, reader: u8) -> bool
        ensures { Throughout self.now (λ es m L. Decides result (ByValue m es L p q reader)) }
    {
        reads_from(self.events, q, reader)
            && (self.is_visible(p, reader) || self.is_read_before(p, reader))
    }

    // Does a read show the step by standing before `q`? It is then the reader of corw.
    fn shows_by_order(&self, p: u8, q: u8, reader: u8) -> bool
        ensures { Throughout self.now (λ es m L. Decides result (ByOrder m es L p q reader)) }
    {
        precedes(self.events, reader, q)
            && self.reads_location(reader, p)
            && self.is_visible(p, reader)
    }

    // Does some read before `second` take its value from `p`?
    fn is_read_before(&self, p: u8, second: u8) -> bool
        ensures { Decides result (ReadBefore self.now.events.now p second) }
    {
        (INITIAL..second).any(|reader| {
            reads_from(self.events, p, reader) && precedes(self.events, reader, second)
        })
    }

    /// Draws coherence into a yes/no table, row by row: 1 where a step leads from the row to the column, else 0.
    ///
    /// Where more than 56 events are added, or `cells` has not a row and a column for each event, nothing is written.
    pub fn draw_coherence(&self, cells: &mut [u8]) -> Result<(), Refusal>
        ensures { TableDrawn self.now cells.old cells.new result }
    {
        draw_family(&Coherence { sight: self }, cells, side_of(self.events)?)
    }

    /// Finds a coherence cycle with the fewest steps, and writes its events to the front of `cycle`, the lowest first.
    ///
    /// Answers the number of steps, which is the number of events written; the rest of `cycle` is as it was. Without a cycle the
    /// answer is `None`. Where the table of visibility does not fit the events the call is refused. In both, `cycle` is as it was.
    pub fn coherence_cycle(&self, cycle: &mut [u8; LARGEST]) -> Result<Option<usize>, Refusal>
        ensures answer { ShortestAnswer self.now cycle.old cycle.new result }
        ensures few { IfOk result (λ found. IfSome found (λ count. count ≤ 64)) }
    {
        // No heap: the cycle goes into lent memory, and the count says how much of that is the cycle's.
        let steps = self.coherence()?;
        shortest_cycle(steps.cells(), steps.side(), cycle)
    }

    /// Is there a coherence cycle? Where the table of visibility does not fit the events the call is refused.
    pub fn has_coherence_cycle(&self) -> Result<bool, Refusal>
        ensures { TestAnswer self.now result }
    {
        let side = side_of(self.events)?;
        check_square(self.leads, side)?;
        let mut table = [0; CELLS];
        let cells = &mut table[0..side * side];
        self.draw_coherence(cells)?;
        has_cycle(cells, side)
    }

    // The table of coherence. Where the table of visibility does not fit the events the call is refused.
    fn coherence(&self) -> Result<EventTable, Refusal>
        ensures { MatchResult result (λ t. Fits self.now.events.now self.now.leads.now × Tells (Known self.now) (λ k. Co k.meaning self.now.events.now k.list) self.now.events.now t) (Refused self.now) }
    {
        check_square(self.leads, side_of(self.events)?)?;
        EventTable::of_family(self.events, &Coherence { sight: self })
    }
}

// Coherence as a family of relations: one for each profile and push order whose visibility the sight shows.
#[derive(Clone, Copy)]
struct Coherence<'s, 'e, 't> {
    sight: &'s Sight<'e, 't>,
}

impl RelationFamily for Coherence<'_, '_, '_> {
    ghost known = { λ s. Known s.sight.now };

    ghost related = { λ s k p q. Co k.meaning s.sight.now.events.now k.list p q };

    fn holds(&self, p: u8, q: u8) -> bool {
        self.sight.coheres(p, q)
    }
}
