// What a search answers.

/// What the search for a good push order comes to.
#[derive(Clone, Copy, PartialEq, Eq, Debug)]
pub enum Answer {
    /// There is one. The first of them, of `count` events, stands at the front of the buffer.
    // No heap: the order is in lent memory, and the count says how much of that is the order's.
    Found { count: u8 },
    /// There is a source cycle: the graph is forbidden whatever the push order.
    SourceCycle,
    /// There is a coherence cycle under each lawful push order.
    NoneGood,
}
