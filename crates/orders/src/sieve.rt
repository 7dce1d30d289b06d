// Which orders are wanted.
ghost use Rattle.std.specs.Prelude.{◌≡◌, ℕ, true, false, List};
ghost use Rattle.orders.specs.Orders.{Permutation, Begins};

/// Sorts out the orders that are not wanted, as early as it can.
pub trait Sieve {
    /// Which orders are not wanted.
    ghost fails: { Self → List ℕ → Type 0 };

    /// Is it plain from the items that stand first, that no order of `count` items which begins with them is wanted?
    /// Where all items are placed, that is whether this order is not wanted. For any other items the answer may be no.
    fn rejects(&self, placed: &[u8], count: u8) -> bool
        ensures cut { result ≡ true → (q : List ℕ) → Permutation count q → Begins placed.now q → fails self.now q }
        ensures whole { result ≡ false → Permutation count placed.now → fails self.now placed.now → ⊥ };
}

/// The sieve that every order passes.
#[derive(Clone, Copy)]
pub struct Anything;

impl Sieve for Anything {
    ghost fails = { λ _ _. ⊥ };

    fn rejects(&self, _placed: &[u8], _count: u8) -> bool {
        false
    }
}
