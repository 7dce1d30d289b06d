// What a lawful order of events has to respect.
ghost use Rattle.std.specs.Prelude.{◌<◌, List, length, MatchOption};
ghost use Rattle.graph.specs.declared.event.Event.{Event};
ghost use Rattle.graph.specs.Proper.{Proper};
ghost use Rattle.axioms.specs.Reached.{Reached};
ghost use Rattle.searching.specs.Listing.{Leading};

use axioms::source_reach::SourceReach;
use orders::precedence::{MOST_ITEMS, Precedence};

// Each event that reaches another by steps of program order and reads-from has to come before it. The items are the places
// of the events in the list. There is no answer for more than eight events.
pub(crate) fn precedence_of(reach: &SourceReach, events: &[u8]) -> Option<Precedence>
    ensures { MatchOption result (8 < length events.now) (λ b. (es : List Event) → Reached es reach.now → Proper es → Leading es events.now b) }
{
    if events.len() > usize::from(MOST_ITEMS) {
        return None;
    }
    let count = events.len() as u8;
    let mut precedence = Precedence::none(count)?;
    for (first, earlier) in events.iter().enumerate() {
        for (second, later) in events.iter().enumerate() {
            if reach.leads(*earlier, *later) {
                precedence.add(first as u8, second as u8);
            }
        }
    }
    Some(precedence)
}
