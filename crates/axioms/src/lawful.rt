// Which lists of events are lawful.
ghost use Rattle.std.specs.Prelude.{ℕ, ◌<◌, length, Decides, slice_index};
ghost use Rattle.measures.specs.Walks.{Leads};
ghost use Rattle.graph.specs.Proper.{Proper};
ghost use Rattle.axioms.specs.Orders.{Once};
ghost use Rattle.axioms.specs.Reached.{ReachedAmong};
ghost use Rattle.axioms.specs.Relations.{SourceStep, Lawful};

use crate::source_reach::SourceReach;

impl SourceReach {
    /// Is a list lawful: does each event stand before those that it reaches by steps of program order and reads-from?
    /// No event stands twice in the list; a number that names no event reaches nothing.
    pub fn is_lawful(&self, list: &[u8]) -> bool
        ensures { ReachedAmong self.now (λ es. Proper es → Once list.now → Decides result (Lawful es list.now)) }
    {
        // A `for` and no `all`, whose closure would have to require that each place lies in the list.
        for (later, event) in list.iter().enumerate() {
            if self.leads_to_any(*event, &list[..later]) {
                return false;
            }
        }
        true
    }

    // Is there a way from an event to one of the others?
    fn leads_to_any(&self, event: u8, others: &[u8]) -> bool
        ensures { ReachedAmong self.now (λ es. Proper es → Decides result ((i : ℕ) × (i < length others.now) × Leads (SourceStep es) event (slice_index others.now i))) }
    {
        others.iter().any(|other| self.leads(event, *other))
    }
}
