// A relation between numbered events, and the table that it draws.
ghost use Rattle.std.specs.Prelude.{◌≡◌, ℕ, Decides};
ghost use Rattle.axioms.specs.Tables.{Drawing, DrawingEach};

use measures::settling::{Refusal, check_square};

// Traits and no closure parameters: a closure has to be required callable, and a public call requires nothing.
/// A relation that can be asked about any two numbers.
pub trait Relation {
    ghost related: { Self → ℕ → ℕ → Type 0 };

    fn holds(&self, a: u8, b: u8) -> bool
        ensures { Decides result (related self.now a b) };
}

/// Relations that the same answers decide: one for each thing that may be known of the value. Coherence is such a family, with a
/// relation for each profile and push order whose visibility a table shows.
pub trait RelationFamily {
    /// What one may know of the value.
    ghost known: { Self → Type 0 };

    ghost related: { (s : Self) → known s → ℕ → ℕ → Type 0 };

    fn holds(&self, a: u8, b: u8) -> bool
        ensures { (k : known self.now) → Decides result (related self.now k a b) };
}

// One relation, as the family of itself alone: there is nothing to know.
#[derive(Clone, Copy)]
pub(crate) struct Alone<'a, R>(pub(crate) &'a R);

impl<R: Relation> RelationFamily for Alone<'_, R> {
    ghost known = { λ _. Unit {0} };

    ghost related = { λ s _ a b. R.related s.0.now a b };

    fn holds(&self, a: u8, b: u8) -> bool {
        self.0.holds(a, b)
    }
}

/// Draws a relation into a yes/no table, row by row: 1 where it leads from the row to the column, else 0.
///
/// Where `side` is above 64, or `cells` has not `side` × `side` values, nothing is written.
pub fn draw<R: Relation>(relation: &R, cells: &mut [u8], side: usize) -> Result<(), Refusal>
    ensures { Drawing (R.related relation.now) side cells.old cells.new result }
{
    draw_family(&Alone(relation), cells, side)
}

/// Draws a family of relations into one yes/no table, which is that of each.
///
/// Where `side` is above 64, or `cells` has not `side` × `side` values, nothing is written.
pub fn draw_family<F: RelationFamily>(
    family: &F,
    cells: &mut [u8],
    side: usize,
) -> Result<(), Refusal>
    ensures { DrawingEach (F.known family.now) (F.related family.now) side cells.old cells.new result }
{
    check_square(cells, side)?;
    // Not `chunks_exact_mut`, since a proof knows no value of a slice that it has lent.
    for a in 0..side {
        for b in 0..side {
            cells[a * side + b] = u8::from(family.holds(a as u8, b as u8));
        }
    }
    Ok(())
}
