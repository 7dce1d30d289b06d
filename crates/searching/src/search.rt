// The search for the first good push order.
ghost use Rattle.std.specs.Prelude.{◌≡◌, ℕ, ◌<◌, ◌≤◌, List, ◌++◌, length, take, drop, Result, slice_index};
ghost use Rattle.graph.specs.Holds.{added_events};
ghost use Rattle.graph.specs.declared.refusal.Refused.{Refused};
ghost use Rattle.profiles.specs.Meaning.{Meaning};
ghost use Rattle.axioms.specs.Asked.{Asked};
ghost use Rattle.axioms.specs.Relations.{CoherenceCycle};
ghost use Rattle.orders.specs.Orders.{Found};
ghost use Rattle.searching.specs.Listing.{picked};
ghost use Rattle.searching.specs.Searching.{Searches};
ghost use Rattle.searching.specs.declared.answer.Answer.{Answer};

use crate::answer::Answer;
use crate::precedence::precedence_of;
use crate::sieve::CycleSieve;
use axioms::pairs::Pairs;
use axioms::source_reach::SourceReach;
use graph::event::Event;
use graph::graph::{Graph, MOST_EVENTS};
use graph::refusal::{Refusal, Refused};
use measures::settling::LARGEST;
use orders::finding::find_order;
use orders::precedence::Precedence;
use orders::sieve::Anything;
use profiles::profile::Profile;

/// The least bytes that a buffer for a push order has: as many as a graph can have events.
pub const LEAST_BUFFER: usize = MOST_EVENTS;

/// Finds the first good push order of a graph, and writes its events to the front of `buffer`: the pushing events in an order that
/// is lawful, and under which steps of coherence make no cycle. Of two orders the one with the lower event comes first, at the
/// first place where they differ.
///
/// Refusals, in this order: 16 where the buffer has less than 56 bytes, 13 where more than eight events push, 14 where no push
/// order is lawful. A source cycle is answered before 14. But for the events of a found order, the buffer is as it was.
pub fn search<P: Profile>(
    graph: &Graph<'_>,
    profile: &P,
    buffer: &mut [u8],
) -> Result<Answer, Refused>
    ensures answered { Searches (P.meaning profile.now) (added_events graph.now) buffer.old buffer.new result }
    ensures only { (new : List ℕ) (other : Result Answer Refused) → Searches (P.meaning profile.now) (added_events graph.now) buffer.old new other → (other ≡ result) × (new ≡ buffer.new) }
{
    // Each call that writes tests its buffer itself, at its own place among its refusals.
    if buffer.len() < LEAST_BUFFER {
        return Err(Refusal::BufferTooShort.into());
    }
    let events = graph.events();
    // A graph has at most 56 events, so no table is refused. Each call asks for what it needs in a line.
    let Ok(pairs) = Pairs::ask(profile, events) else {
        unreachable()
    };
    let Ok(reach) = SourceReach::of(events) else {
        unreachable()
    };
    // A fixed list, since there is no heap; it is a slice as soon as its length is known.
    let mut list = [0; LARGEST];
    let count = pairs.pushing(&mut list);
    let pushing = &list[0..count];
    let precedence = precedence_of(&reach, pushing).ok_or(Refusal::TooManyPush)?;
    if reach.has_cycle() {
        return Ok(Answer::SourceCycle);
    }
    find_order(&precedence, &Anything).ok_or(Refusal::NoLawfulOrder)?;
    match find_good(events, &pairs, pushing, &precedence) {
        Some(order) => {
            write_order(pushing, &order, buffer);
            Ok(Answer::Found { count: count as u8 })
        }
        None => Ok(Answer::NoneGood),
    }
}

// The first order of the pushing events that respects the precedence, and under which there is no coherence cycle. The items are
// places in the list of the pushing events.
fn find_good<'a>(
    events: &'a [Event],
    pairs: &'a Pairs,
    pushing: &'a [u8],
    precedence: &Precedence,
) -> Option<[u8; 8]>
    requires { precedence.now.count ≡ length pushing.now }
    ensures { (m : Meaning) → Asked m events.now pairs.now → Found precedence.now (λ q. CoherenceCycle m events.now (picked pushing.now q)) result }
{
    let sieve = CycleSieve {
        events,
        kept: pairs.kept(),
        pushed: pairs.pushed(),
        pushing,
    };
    find_order(precedence, &sieve)
}

// Writes the events at the first places of the order to the front of the buffer.
fn write_order(pushing: &[u8], order: &[u8; 8], buffer: &mut [u8])
    requires few { length pushing.now ≤ 8 }
    requires room { 8 ≤ length buffer.old }
    requires items { (i : ℕ) → i < length pushing.now → slice_index order.now i < length pushing.now }
    ensures { buffer.new ≡ picked pushing.now (take (length pushing.now) order.now) ++ drop (length pushing.now) buffer.old }
{
    // Not `zip`, since a proof knows no value that `iter_mut` has lent to it.
    for (place, item) in order[0..pushing.len()].iter().enumerate() {
        buffer[place] = pushing[usize::from(*item)];
    }
}
