//! Where bytes and connections come from and where they go, and when a call on the outside failed.
//! All of the server's input and output goes through `Source`, `Sink`, `Link` and `Door`. This
//! crate stands on std alone.
#![tactic(auto)]

mod again;
mod door;
mod failed;
mod laws;
mod link;
mod list_door;
mod list_sink;
mod os_errors;
mod pair_link;
mod piece_source;
mod run_end;
mod serve_end;
mod sink;
mod source;
mod std_streams;
mod sure_source;
mod tcp_door;
mod tcp_link;

pub use door::Door;
pub use failed::Failed;
pub use laws::{a_read_leaves_the_writes, a_write_leaves_the_reads, one_more_is_a_rise};
pub use link::Link;
pub use list_door::ListDoor;
pub use list_sink::ListSink;
pub use pair_link::PairLink;
pub use piece_source::PieceSource;
pub use run_end::RunEnd;
pub use serve_end::ServeEnd;
pub use sink::{Sink, write_all};
pub use source::Source;
pub use std_streams::{StdSink, StdSource};
pub use sure_source::SureSource;
pub use tcp_door::TcpDoor;
pub use tcp_link::TcpLink;
