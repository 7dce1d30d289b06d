// Sorting out the push orders under which there is a coherence cycle.
ghost use Rattle.std.specs.Prelude.{◌≡◌, ◌+◌, ◌-◌, ◌<◌, ◌≤◌, ◌++◌, length, replicate, Decides, MatchOption, slice_index};
ghost use Rattle.measures.specs.Walks.{Yes};
ghost use Rattle.orders.specs.Orders.{Among};
ghost use Rattle.coherence.specs.Visibility.{Fits};
ghost use Rattle.searching.specs.Listing.{picked};
ghost use Rattle.searching.specs.Sieves.{Fails, Cyclic, CyclicSoFar, OpenPush, NoItem};

use axioms::table::EventTable;
use coherence::visibility::Visibility;
use graph::event::{Event, INITIAL};
use orders::items::is_among;
use orders::precedence::MOST_ITEMS;
use orders::sieve::Sieve;

// The initial write of location 0. It pushes nothing, so it can stand for the events that are not placed yet.
const OPEN: u8 = 0;

/// Rejects the orders under which there is a coherence cycle, as soon as there is one under every order that begins so.
///
/// Whatever comes behind the placed events, each of them stands before every open event, one that is not placed yet. So the
/// open events stand in the list as one, behind the placed ones, which pushes to whatever any of them pushes to.
#[derive(Clone, Copy)]
pub struct CycleSieve<'a> {
    // No invariant: whoever makes a sieve may bring tables that do not fit, and then it rejects nothing.
    /// The added events.
    pub events: &'a [Event],
    /// The yes/no table of the kept pairs.
    pub kept: &'a [u8],
    /// The yes/no table of the pushed pairs.
    pub pushed: &'a [u8],
    /// The pushing events: an item of an order is a place in this list.
    pub pushing: &'a [u8],
}

impl Sieve for CycleSieve<'_> {
    ghost fails = { λ s q. Fails s.events.now s.kept.now s.pushed.now s.pushing.now q };

    fn rejects(&self, placed: &[u8], count: u8) -> bool {
        let whole = usize::from(count);
        if count > MOST_ITEMS || self.pushing.len() != whole || placed.len() > whole {
            return false;
        }
        let Some(list) = pick(self.pushing, placed) else {
            return false;
        };
        if placed.len() == whole {
            return has_cycle(self.events, self.kept, self.pushed, &list[0..placed.len()]);
        }
        self.has_cycle_so_far(placed, &list[0..placed.len() + 1])
    }
}

impl CycleSieve<'_> {
    // Is there a coherence cycle by the push steps that stand however the open events come?
    fn has_cycle_so_far(&self, placed: &[u8], list: &[u8]) -> bool
        requires { length self.now.pushing.now ≤ 8 }
        ensures { Decides result (CyclicSoFar self.now.events.now self.now.kept.now self.now.pushed.now self.now.pushing.now placed.now list.now) }
    {
        let Ok(mut pushed) = EventTable::copy(self.events, self.pushed) else {
            return false;
        };
        // A column is the number of an event, and no place that is read here.
        for column in 0..pushed.side() as u8 {
            pushed.mark(OPEN, column, self.has_open_push(placed, column));
        }
        has_cycle(self.events, self.kept, pushed.cells(), list)
    }

    // Does an open event push to this one?
    fn has_open_push(&self, placed: &[u8], column: u8) -> bool
        requires few { length self.now.pushing.now ≤ 8 }
        requires fits { Fits self.now.events.now self.now.pushed.now }
        requires within { column < length self.now.events.now + 8 }
        ensures { Decides result (OpenPush (length self.now.events.now + 8) self.now.pushed.now self.now.pushing.now placed.now column) }
    {
        // By place, since an item of an order is the place of an event in the list.
        (0..self.pushing.len()).any(
            |item|
                requires within { item < length self.now.pushing.now }
                requires few { length self.now.pushing.now ≤ 8 }
                requires fits { Fits self.now.events.now self.now.pushed.now }
                requires column { column < length self.now.events.now + 8 }
                ensures { Decides result ((Among placed.entry.now item → ⊥) × Yes (length self.entry.now.events.now + 8) self.entry.now.pushed.now (slice_index self.entry.now.pushing.now item) column) }
            { !is_among(placed, item as u8) && self.pushes_to(self.pushing[item], column) },
        )
    }

    // Does this event push to the one of a column?
    fn pushes_to(&self, event: u8, column: u8) -> bool
        requires fits { Fits self.now.events.now self.now.pushed.now }
        requires within { column < length self.now.events.now + 8 }
        ensures { Decides result (Yes (length self.now.events.now + 8) self.now.pushed.now event column) }
    {
        // Not `side_of`, which would have to be taken apart, though the table fits.
        let side = self.events.len() + usize::from(INITIAL);
        let row = usize::from(event);
        row < side && self.pushed[row * side + usize::from(column)] != 0
    }
}

// The events at these places of the list, and then `OPEN`. There is no answer where the list has no such place.
// The array is longer than the places, since there is no heap; the caller knows how many there are.
fn pick(pushing: &[u8], placed: &[u8]) -> Option<[u8; 9]>
    requires { length placed.now ≤ 8 }
    ensures { MatchOption result (NoItem pushing.now placed.now) (λ list. list ≡ picked pushing.now placed.now ++ replicate (9 - length placed.now) 0) }
{
    let mut list = [OPEN; 9];
    // Not `zip`, since a proof knows no value that `iter_mut` has lent to it.
    for (place, item) in placed.iter().enumerate() {
        list[place] = *pushing.get(usize::from(*item))?;
    }
    Some(list)
}

// Is there a coherence cycle, for the profile that these tables tell and this list? There is none where a table does not fit.
fn has_cycle(events: &[Event], kept: &[u8], pushed: &[u8], list: &[u8]) -> bool
    ensures { Decides result (Cyclic events.now kept.now pushed.now list.now) }
{
    let Ok(visibility) = Visibility::of(events, kept, pushed, list) else {
        return false;
    };
    visibility.sight().has_coherence_cycle().unwrap_or(false)
}
