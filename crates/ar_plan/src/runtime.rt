// What a service needs of its runtime.
use log::Log;
use std::net::{Net, TcpListener, TcpStream};
use std::sync::Wait;
use std::thread::Threads;
use std::time::Clock;

/// The runtime of a service: threads that wait for one another, a clock, sockets, standard output and a log. `Sync`,
/// which it needs for its threads, too, stands beside it.
pub trait ServiceRuntime: Threads
    + Wait
    + Clock
    + Net<Listener = TcpListener, Stream = TcpStream>
    + Print
    + Log {}

impl<
    R: Threads + Wait + Clock + Net<Listener = TcpListener, Stream = TcpStream> + Print + Log,
> ServiceRuntime for R {}
