// Items by number.
ghost use Rattle.std.specs.Prelude.{Decides};
ghost use Rattle.orders.specs.Orders.{Among};

/// Does an item stand among others?
pub fn is_among(items: &[u8], item: u8) -> bool
    ensures { Decides result (Among items.now item) }
{
    items.contains(&item)
}
