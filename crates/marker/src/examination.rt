// All that the marker says of a graph, in one call.
ghost use Rattle.std.specs.Prelude.{◌≡◌};
ghost use Rattle.marker.specs.Promise.{Promise};

use crate::answers::Answers;
use crate::entries::{Entry, perform_all};
use graph::event::Event;
use graph::graph::Graph;
use graph::refusal::Refused;
use judging::judging::judge;
use marking::mark;
use profiles::profile::Profile;
use searching::search::search;

/// Makes a new graph in the slice `events`, performs the calls of the entries on it, and judges, marks and searches it under a profile.
///
/// Judging takes `list` and writes its sheet to the front of `sheet`. Marking takes the sheet written, unless judging refused, and the sheet
/// `brought`. Searching writes the order that it finds to the front of `order`. Each entry then has the answer to its call; the graph is handed back,
/// with the other four answers. Its contract bears the whole promise of the marker.
// Each buffer is a parameter of its own, since a struct of both would ask of the caller to lend them together.
pub fn examine<'a, P: Profile>(
    entries: &mut [Entry],
    events: &'a mut [Event],
    profile: &P,
    list: &[u8],
    brought: &[u8],
    sheet: &mut [u8],
    order: &mut [u8],
) -> (Graph<'a>, Answers)
    ensures promise { Promise (P.meaning profile.now) events.old entries.old entries.new list.now brought.now (record { old = sheet.old; new = sheet.new }) (record { old = order.old; new = order.new }) result.1 result.0 }
    ensures lent { result.0.events.ghost_name ≡ events.entry.ghost_name }
{
    let mut graph = Graph::new(events);
    perform_all(&mut graph, entries);
    let judged = judge(&graph, profile, list, sheet);
    // A match: the closure of `ok().map(..)` would have to repeat the contract of marking.
    let own = match judged {
        Ok(length) => Some(mark(&graph, profile, &sheet[0..length])),
        Err(_) => None,
    };
    let brought = mark(&graph, profile, brought);
    let searched = search(&graph, profile, order);
    let answers = Answers {
        judged,
        own,
        brought,
        searched,
    };
    (graph, answers)
}
