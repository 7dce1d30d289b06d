// What undoes a standing step.

#[derive(Clone, Copy)]
pub enum Undo {
    /// An event was added: the last one goes.
    Added,
    /// A read was sourced: it gets its former source again.
    Sourced { read: u8, former: Option<u8> },
}
