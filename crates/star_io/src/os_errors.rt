//! Which of the system's errors pass, so that the same call may succeed later.
ghost use Rattle.std.specs.Prelude.{◌≡◌};
ghost use Rattle.std.specs.IoError.{raw_os_error};
ghost use Rattle.star_io.specs.TcpDoor.{may_pass};

use std::io;

/// The numbers of the errors of `accept` that say nothing of the listening socket: descriptors,
/// buffers or memory are short, or the connection that came broke off before it was taken. The
/// manual page accept(2) of Linux names them under ERRORS and NOTES.
pub(crate) const PASSING: [i32; 16] = [
    1, // EPERM: a firewall refuses the connection.
    4, // EINTR: a signal came.
    11, // EAGAIN
    12, // ENOMEM: the system has no memory left.
    23, // ENFILE: the system has no descriptor left.
    24, // EMFILE: the process has no descriptor left.
    64, // ENONET
    71, // EPROTO
    92, // ENOPROTOOPT
    95, // EOPNOTSUPP
    100, // ENETDOWN
    101, // ENETUNREACH
    103, // ECONNABORTED: the connection broke off.
    105, // ENOBUFS: the system has no buffer left.
    112, // EHOSTDOWN
    113, // EHOSTUNREACH
];

/// Whether an `accept` that failed in this way may succeed later.
pub(crate) fn may_pass(error: &io::Error) -> bool
    ensures { result ≡ may_pass (raw_os_error error.now) }
{
    match error.raw_os_error() {
        Some(number) => PASSING.contains(&number),
        None => false,
    }
}
