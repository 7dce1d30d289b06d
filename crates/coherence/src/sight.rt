// What is visible in a graph, and whether a step holds by a rule.
ghost use Rattle.std.specs.Prelude.{◌≡◌, ◌+◌, ◌≤◌, false, length, Decides, MatchOption};
ghost use Rattle.graph.specs.Codes.{is_write};
ghost use Rattle.graph.specs.Events.{event};
ghost use Rattle.measures.specs.Walks.{Yes};
ghost use Rattle.axioms.specs.Relations.{PoLoc, Rivals, Holds};
ghost use Rattle.axioms.specs.declared.rule.Rule.TheVariants.{Cowr, Corw};
ghost use Rattle.coherence.specs.Sights.{Throughout, Seen, Writes, ReadsLocation, ByReaders};
ghost use Rattle.coherence.specs.Visibility.{Fits};

use axioms::rule::Rule;
use axioms::table::side_of;
use graph::event::Event;
use graph::lookup::event_at;
use graph::order::{precedes, reads_from};

/// The added events of a graph, with the table of what leads where by steps of visibility.
///
/// The answers are told of each profile and push order whose visibility is drawn in `leads`. A number that names no
/// event gets no.
#[derive(Clone, Copy)]
pub struct Sight<'e, 't> {
    pub events: &'e [Event],
    pub leads: &'t [u8],
}

impl Sight<'_, '_> {
    /// Is `a` visible to `b`? It is where steps of visibility lead from `a` to `b`, or where `a` precedes `b` in program order
    /// and both are accesses of one location; such a pair is never a step of a longer way.
    pub fn is_visible(&self, a: u8, b: u8) -> bool
        ensures { Throughout self.now (λ es m L. Decides result (Seen m es L a b)) }
    {
        self.has_way(a, b) || self.is_po_loc(a, b)
    }

    /// Does the step from `p` to `q` hold by a rule, with these readers? A rule does not ask about readers that it does not name.
    pub fn holds(&self, rule: Rule, p: u8, q: u8, reader: u8, second: u8) -> bool
        ensures { Throughout self.now (λ es m L. Decides result (Holds m es L rule p q reader second)) }
    {
        let events = self.events;
        match rule {
            Rule::ProgramOrder => precedes(events, p, q),
            Rule::ReadsFrom => reads_from(events, p, q),
            Rule::Coww => self.are_rivals(p, q) && self.is_visible(p, q),
            Rule::Cowr => self.holds_by_cowr(p, q, reader),
            Rule::Corw => self.holds_by_corw(p, q, reader),
            Rule::Corr => self.holds_by_corr(p, q, reader, second),
        }
    }

    // Does the step hold by cowr?
    fn holds_by_cowr(&self, p: u8, q: u8, reader: u8) -> bool
        ensures { Throughout self.now (λ es m L. Decides result (Holds m es L Cowr p q reader 255)) }
    {
        self.are_rivals(p, q) && reads_from(self.events, q, reader) && self.is_visible(p, reader)
    }

    // Does the step hold by corw?
    fn holds_by_corw(&self, p: u8, q: u8, reader: u8) -> bool
        ensures { Throughout self.now (λ es m L. Decides result (Holds m es L Corw p q reader 255)) }
    {
        self.are_rivals(p, q)
            && self.reads_location(reader, p)
            && self.is_visible(p, reader)
            && precedes(self.events, reader, q)
    }

    // Does the step hold by corr? That is a question of what the readers read, and not of what is visible.
    pub(crate) fn holds_by_corr(&self, p: u8, q: u8, reader: u8, second: u8) -> bool
        ensures { Decides result (ByReaders self.now.events.now p q reader second) }
    {
        self.are_rivals(p, q)
            && reads_from(self.events, p, reader)
            && precedes(self.events, reader, second)
            && reads_from(self.events, q, second)
    }

    // Are `p` and `q` distinct writes of one location?
    pub(crate) fn are_rivals(&self, p: u8, q: u8) -> bool
        ensures { Decides result (Rivals self.now.events.now p q) }
    {
        // A `match`: behind `is_some_and` a proof did not learn what `written` says.
        match self.written(p) {
            Some(location) => p != q && self.written(q) == Some(location),
            None => false,
        }
    }

    // The location that a write writes; none where the event is no write.
    fn written(&self, number: u8) -> Option<u8>
        ensures { MatchOption result (is_write (event self.now.events.now number).code ≡ false) (Writes self.now.events.now number) }
    {
        event_at(self.events, number)
            .filter(|event| event.code.is_write())
            .map(|event| event.location)
    }

    // Is `reader` a read of the location of `p`?
    pub(crate) fn reads_location(&self, reader: u8, p: u8) -> bool
        ensures { Decides result (ReadsLocation self.now.events.now reader p) }
    {
        // A `match` of both: a chain of `and_then` and `is_some_and` would nest one closure in another.
        match (event_at(self.events, reader), event_at(self.events, p)) {
            (Some(read), Some(event)) => read.code.is_read() && read.location == event.location,
            _ => false,
        }
    }

    // Does `a` precede `b` in program order, both accesses of one location?
    fn is_po_loc(&self, a: u8, b: u8) -> bool
        ensures { Decides result (PoLoc self.now.events.now a b) }
    {
        precedes(self.events, a, b)
            && match (event_at(self.events, a), event_at(self.events, b)) {
                (Some(first), Some(second)) => {
                    first.code.is_access()
                        && second.code.is_access()
                        && first.location == second.location
                }
                _ => false,
            }
    }

    // Does the table say that steps of visibility lead from `a` to `b`?
    fn has_way(&self, a: u8, b: u8) -> bool
        ensures { Fits self.now.events.now self.now.leads.now → Decides result (Yes (length self.now.events.now + 8) self.now.leads.now a b) }
    {
        // What `EventTable::says` is of a table that fits; the lent one may not.
        let Ok(side) = side_of(self.events) else {
            return false;
        };
        let (row, column) = (a as usize, b as usize);
        if row >= side || column >= side {
            return false;
        }
        self.leads
            .get(row * side + column)
            .is_some_and(|says| *says != 0)
    }
}
