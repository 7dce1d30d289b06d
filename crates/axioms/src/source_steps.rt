// The steps of program order and reads-from.
ghost use Rattle.axioms.specs.Relations.{SourceStep};

use crate::relation::Relation;
use graph::event::Event;
use graph::order::{precedes, reads_from};

/// Program order joined with reads-from, over the added events.
#[derive(Clone, Copy)]
pub struct SourceSteps<'a> {
    pub events: &'a [Event],
}

impl Relation for SourceSteps<'_> {
    ghost related = { λ s a b. SourceStep s.events.now a b };

    fn holds(&self, a: u8, b: u8) -> bool {
        precedes(self.events, a, b) || reads_from(self.events, a, b)
    }
}
