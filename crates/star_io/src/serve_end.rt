//! How the serving of connections ended.

/// The end of the serving of connections.
#[derive(Clone, Copy, Debug, PartialEq, Eq)]
pub enum ServeEnd {
    /// The door told that no connection comes any more, and each that came was served.
    Ended,
    /// A call on the door failed.
    DoorFault,
    /// The server itself found no memory.
    NoMemory,
}
