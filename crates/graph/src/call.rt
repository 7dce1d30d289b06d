// The calls that change a graph, as values.

/// A call with its arguments, which may be anything: a call that does not fit the graph is refused.
#[derive(Clone, Copy, PartialEq, Eq, Debug)]
pub enum Call {
    Add {
        thread: u8,
        code: u8,
        location: u8,
        value: u32,
    },
    Source {
        read: u8,
        write: u8,
    },
    TakeBack,
}
