//! Serves connections, many at once, by the seats of a board over one core.
#![tactic(auto)]

mod hand_over;
mod seats;
mod server;
mod session;
mod session_end;

pub use seats::{Server, open_server};
pub use server::serve;
pub use session::serve_session;
pub use session_end::SessionEnd;
