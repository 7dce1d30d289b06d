// Calls with the places of their answers.
ghost use Rattle.std.specs.Prelude.{◌≡◌, List};
ghost use Rattle.graph.specs.History.{Step};
ghost use Rattle.graph.specs.Holds.{Holds};
ghost use Rattle.marker.specs.Entries.{Performed};

use graph::call::Call;
use graph::graph::Graph;
use graph::refusal::Refused;

/// A call on a graph, with the place of its answer.
#[derive(Clone, Copy)]
pub struct Entry {
    pub call: Call,
    pub answer: Result<u16, Refused>,
}

/// Performs the calls of the entries in their order, and puts each answer in its place.
pub fn perform_all(graph: &mut Graph<'_>, entries: &mut [Entry])
    ensures told { (hs : List Step) → Holds graph.old hs → Performed graph.old.events.now hs graph.new entries.old entries.new }
    ensures lent { graph.new.events.ghost_name ≡ graph.old.events.ghost_name }
{
    for entry in entries {
        entry.answer = graph.perform(entry.call);
    }
}
