// The search for the first order that respects a precedence and passes a sieve.
ghost use Rattle.std.specs.Prelude.{◌≤◌, take};
ghost use Rattle.orders.specs.Extending.{Lined, Extended};
ghost use Rattle.orders.specs.Orders.{Found};

use crate::precedence::{PLACES, Precedence};
use crate::sieve::Sieve;

/// Finds the first order of the items that respects the precedence and passes the sieve. Of two orders the one with the
/// lower item comes first, at the first place where they differ.
///
/// The order stands at the front of the eight numbers, and 0 behind it. Where there is none, every order that respects the
/// precedence fails.
pub fn find_order<S: Sieve>(precedence: &Precedence, sieve: &S) -> Option<[u8; PLACES]>
    ensures { Found precedence.now (S.fails sieve.now) result }
{
    // Eight numbers whatever the count, since there is no heap; the precedence tells how many of them are the order's.
    extend(precedence, sieve, [0; PLACES], 0)
}

// Tries the items that may come next, lowest first, behind the first `done` items of `order`. Where no order that begins with
// those is wanted, it does not go on.
fn extend<S: Sieve>(
    precedence: &Precedence,
    sieve: &S,
    mut order: [u8; PLACES],
    done: usize,
) -> Option<[u8; PLACES]>
    requires within { done ≤ precedence.now.count }
    requires lined { Lined precedence.now (take done order) }
    ensures { Extended precedence.now (S.fails sieve.now) done order result }
{
    let count = precedence.count();
    if sieve.rejects(&order[..done], count) {
        return None;
    }
    if done == usize::from(count) {
        return Some(order);
    }
    // A `for` over items, which are no places of a slice: a closure of `find_map` would have to write the order and to recurse.
    for item in 0..count {
        if precedence.is_free(&order[..done], item) {
            order[done] = item;
            let found = extend(precedence, sieve, order, done + 1);
            if found.is_some() {
                return found;
            }
        }
    }
    None
}
