//! Where connections come from. Doors in memory are in `list_door`, real ones in `tcp_door`.
ghost use Rattle.std.specs.Prelude.{◌≡◌, true};
ghost use Rattle.star_io.specs.Door.{Accepts, DoorSide, ListensAt, closed};

use crate::failed::Failed;
use crate::link::Link;

/// Gives out connections, one after another, while it listens.
pub trait Door {
    /// One connection. It may be sent to another thread, and dropped there.
    type Link: Link + Send + Drop;

    // What it tells. Counts may stand still at a counter's last value.
    ghost accepting: { Self → DoorSide };

    /// Listens for the connections that come to `port`.
    fn listen(&mut self, port: u16) -> Result<(), Failed>
        ensures { ListensAt port (accepting self.old) (accepting self.new) result };

    /// Waits for the next connection. `None` is the end: no connection comes any more.
    fn accept(&mut self) -> Result<Option<Self::Link>, Failed>
        requires { (accepting self.old).listening ≡ true }
        ensures { Accepts (accepting self.old) (accepting self.new) result };

    /// Stops listening. Connections that were given out stay open; others are refused.
    fn close(&mut self)
        ensures { accepting self.new ≡ closed (accepting self.old) };
}
