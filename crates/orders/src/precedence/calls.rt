// Making a precedence, and what it tells.
ghost use Rattle.std.specs.Prelude.{◌≡◌, ℕ, ◌<◌, ◌≤◌, ◌⊎◌, Decides, MatchOption};
ghost use Rattle.cycles.specs.Tables.{Same};
ghost use Rattle.orders.specs.Orders.{Precedes, Pair, Free};

use super::{MOST_ITEMS, PLACES, Precedence};
use crate::items::is_among;

impl Precedence {
    /// A precedence of `count` items, none of which has to come before another. There is none of more than eight.
    pub fn none(count: u8) -> Option<Precedence>
        ensures { MatchOption result (8 < count) (λ b. (b.count ≡ count) × ((x y : ℕ) → Precedes b x y → ⊥)) }
    {
        if count > MOST_ITEMS {
            return None;
        }
        Some(Precedence {
            count,
            cells: [[false; PLACES]; PLACES],
        })
    }

    /// How many items there are.
    pub fn count(&self) -> u8
        ensures value { result ≡ self.now.count }
        ensures small { result ≤ 8 }
    {
        self.count
    }

    /// Has `first` to come before `second`? An item never has to come before itself.
    pub fn precedes(&self, first: u8, second: u8) -> bool
        ensures { Decides result (Precedes self.now first second) }
    {
        first < self.count
            && second < self.count
            && first != second
            && self.cells[usize::from(first)][usize::from(second)]
    }

    /// From now on `first` has to come before `second`. Nothing changes where they are one item, or no items.
    pub fn add(&mut self, first: u8, second: u8)
        ensures count { self.new.count ≡ self.old.count }
        ensures added { Same (Precedes self.new) (λ x y. Precedes self.old x y ⊎ Pair self.old.count first second x y) }
    {
        if first < self.count && second < self.count {
            // The row has a name, since a proof knows how long it is only then.
            let later = &mut self.cells[usize::from(first)];
            later[usize::from(second)] = true;
        }
    }

    // May an item stand next behind those that are placed?
    pub(crate) fn is_free(&self, placed: &[u8], item: u8) -> bool
        ensures { Decides result (Free self.now placed.now item) }
    {
        !is_among(placed, item)
            && (0..self.count).all(|other| !self.precedes(other, item) || is_among(placed, other))
    }
}
