// Which items have to come before which. The calls have a file of their own.
ghost use Rattle.std.specs.Prelude.{◌≤◌};

mod calls;

/// The most items that an order can have.
pub const MOST_ITEMS: u8 = 8;

// As many, as a length: an item is a byte, and a place of an array is not.
pub(crate) const PLACES: usize = 8;

/// Which of at most eight items, numbered from 0, have to come before which others.
#[derive(Clone, Copy)]
pub struct Precedence {
    /// How many items there are.
    count: u8,
    /// Has the item of the row to come before that of the column?
    cells: [[bool; PLACES]; PLACES],
    ghost small: { count ≤ 8 },
}
