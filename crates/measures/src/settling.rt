// Settling: a square table in lent memory becomes the table of the best over all paths.
ghost use Rattle.std.specs.Prelude.{◌≡◌, ◌*◌, ◌<◌, length, MatchResult};
ghost use Rattle.measures.specs.Paths.{entry};
ghost use Rattle.measures.specs.Outcome.{Square, Refused, Outcome, number as «number_of_lem»};
ghost use Rattle.measures.specs.Rounds.{cell, RowRelaxed, RowsRelaxed, RoundDone};

use crate::measure::Measure;

/// The largest side of a table.
pub const LARGEST: usize = 64;

/// How many values a table of the largest side has.
pub const CELLS: usize = LARGEST * LARGEST;

/// Why a table is not settled.
#[derive(Clone, Copy, PartialEq, Eq, Debug)]
pub enum Refusal {
    /// The side is above 64, or the length is not side × side.
    NotSquare = 15,
}

impl Refusal {
    /// The number by which the refusal is known outside.
    pub fn number(self) -> u8
        ensures { result ≡ «number_of_lem» self }
    {
        self as u8
    }
}

/// Checks that `cells` is a square table: `side` is at most 64, and there are `side` × `side` values.
pub fn check_square<T>(cells: &[T], side: usize) -> Result<(), Refusal>
    ensures { MatchResult result (λ _. Square side cells.now) (Refused side cells.now cells.now) }
{
    if side > LARGEST || cells.len() != side * side {
        return Err(Refusal::NotSquare);
    }
    Ok(())
}

/// Makes each entry of a table the best over all paths of one step or more, in place.
///
/// `cells` holds the table row by row. Where `side` is above 64, or `cells` has not `side` × `side` values,
/// the call is refused and `cells` is as it was.
pub fn settle<M: Measure>(cells: &mut [M::Value], side: usize) -> Result<(), Refusal>
    ensures { Outcome M.none M.joined M.better M.means side cells.old cells.new result }
{
    check_square(cells, side)?;
    for via in 0..side {
        round::<M>(cells, side, via);
    }
    Ok(())
}

// Lets every path go through the vertex `via` too. Row `via` itself gains nothing by that, so it is read while the
// rows before it and those behind it are written.
fn round<M: Measure>(cells: &mut [M::Value], side: usize, via: usize)
    requires square { Square side cells.old }
    requires vertex { via < side }
    ensures { RoundDone M.joined M.better side via (entry M.means M.none side cells.old) (entry M.means M.none side cells.new) }
{
    let (before, rest) = cells.split_at_mut(via * side);
    let (onward, behind) = rest.split_at_mut(side);
    relax_rows::<M>(before, via, onward, via);
    relax_rows::<M>(behind, side - via - 1, onward, via);
}

// Lets the paths from `count` rows go through the vertex `via` too, whose own row is `onward`.
// Not `chunks_exact_mut`, since a proof knows no value of a slice that it has lent. With a count that is below the
// side the compiler sees that no row reaches `onward`, and tests nothing for it.
fn relax_rows<M: Measure>(rows: &mut [M::Value], count: usize, onward: &[M::Value], via: usize)
    requires vertex { via < length onward.now }
    requires count { length rows.old ≡ count * length onward.now }
    ensures { RowsRelaxed M.joined M.better (length onward.now) via (length rows.old) (cell M.means M.none rows.old) (cell M.means M.none onward.now) (cell M.means M.none rows.new) }
{
    let side = onward.len();
    for a in 0..count {
        let row = &mut rows[a * side..(a + 1) * side];
        let there = row[via];
        // Nothing is gained through a vertex that cannot be reached.
        if !M::same(there, M::NONE) {
            relax::<M>(row, onward, there);
        }
    }
}

// Makes each value of a row the better of itself and the way by a vertex: `there` leads to it, and `onward` on from it.
// Two runs of values and no test inside the loop: the compiler makes vector code of it. Not `zip`, since a proof
// knows no value that `iter_mut` has lent to it.
fn relax<M: Measure>(row: &mut [M::Value], onward: &[M::Value], there: M::Value)
    requires { length row.old ≡ length onward.now }
    ensures { RowRelaxed M.joined M.better (length row.old) (M.means there) (cell M.means M.none row.old) (cell M.means M.none onward.now) (cell M.means M.none row.new) }
{
    for (j, value) in row.iter_mut().enumerate() {
        *value = M::choose(*value, M::join(there, onward[j]));
    }
}
