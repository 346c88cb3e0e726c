//! Doors: where the connections of hosts and others come from, one after another. A door is a TCP port on 127.0.0.1, a
//! Unix socket, or memory; its sockets have limits on silent peers, and a full one refuses who comes.
#![tactic(auto)]

mod crowd;
mod door;
mod limits;
mod listener;
mod polling;
mod refusals;
mod socket;
mod socket_file;
mod tcp;

pub use door::{Door, MemDoor};
pub use refusals::Refusals;
pub use socket::{SocketReader, SocketWriter};
pub use socket_file::SocketFile;
pub use tcp::{ANY_NUMBER, ListenFault, Protocol, TcpDoor, TcpReader, TcpWriter, Timeouts};
