// How many orders respect a precedence.
ghost use Rattle.std.specs.Prelude.{◌≤◌, take};
ghost use Rattle.orders.specs.Counting.{Counted, CountedBehind};
ghost use Rattle.orders.specs.Extending.{Lined};
ghost use Rattle.orders.specs.Orders.{Order};

use crate::precedence::{PLACES, Precedence};

/// How many orders of the items respect the precedence: at most 40,320, which is 8!.
pub fn count_orders(precedence: &Precedence) -> u16
    ensures few { result ≤ 40320 }
    ensures counted { Counted (Order precedence.now) result }
{
    count_behind(precedence, [0; PLACES], 0)
}

// How many of them begin with the first `done` items of `order`.
fn count_behind(precedence: &Precedence, mut order: [u8; PLACES], done: usize) -> u16
    requires within { done ≤ precedence.now.count }
    requires lined { Lined precedence.now (take done order) }
    ensures { CountedBehind precedence.now done order result }
{
    let count = precedence.count();
    if done == usize::from(count) {
        return 1;
    }
    let mut total = 0;
    // A `for` over items, which are no places of a slice: a closure of `sum` would have to write the order and to recurse.
    for item in 0..count {
        if precedence.is_free(&order[..done], item) {
            order[done] = item;
            total += count_behind(precedence, order, done + 1);
        }
    }
    total
}
