// What a measure has to bring, and the laws that it has to show.
ghost use Rattle.std.specs.Prelude.{◌≡◌, Decides};
ghost use Rattle.measures.specs.Laws.{Laws};

/// A measure of paths.
///
/// Values are plain data, and several values may mean the same: the laws speak of what a value means.
/// An implementation names the type of its meanings, what each value means, and the operations on meanings,
/// and gives the laws for all meanings (`laws`). Its functions do on values what the operations do on meanings.
/// Its constants are given twice, for the code and for the proofs, and mean `none` and `here`.
pub trait Measure {
    type Value: Copy + Drop;

    /// A value for two vertices that no path joins.
    const NONE: Self::Value;

    ghost NONE: { Self.Value };

    /// A value for the path of no steps, from a vertex to itself.
    const HERE: Self::Value;

    ghost HERE: { Self.Value };

    ghost Meaning: { Type 0 };

    ghost means: { Self.Value → Meaning };

    ghost none: { Meaning };

    ghost here: { Meaning };

    ghost joined: { Meaning → Meaning → Meaning };

    ghost better: { Meaning → Meaning → Meaning };

    ghost laws: { Laws none here joined better };

    ghost means_none: { means NONE ≡ none };

    ghost means_here: { means HERE ≡ here };

    /// The value of a path of value `a` and, from its end, a path of value `b`.
    fn join(a: Self::Value, b: Self::Value) -> Self::Value
        ensures { means result ≡ joined (means a) (means b) };

    /// The better of two values.
    fn choose(a: Self::Value, b: Self::Value) -> Self::Value
        ensures { means result ≡ better (means a) (means b) };

    /// Whether two values mean the same.
    fn same(a: Self::Value, b: Self::Value) -> bool
        ensures { Decides result (means a ≡ means b) };
}
