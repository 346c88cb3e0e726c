// Where the connections of a door come in: a port of 127.0.0.1, or a Unix socket. A connection is a `TcpStream` in both
// cases, since all calls of its streams are those of a descriptor.
use std::io;
use std::net::{IpAddr, Ipv4Addr, Net, SocketAddr, TcpListener, TcpStream};
use std::os::fd::OwnedFd;
use std::os::unix::net::UnixListener;
use std::time::Duration;

/// Milliseconds that a door waits for a connection before it looks at the stop flag, and after an accept that failed.
pub const PAUSE: u64 = 100;

/// A listening socket.
#[derive(Drop)]
pub enum Listener {
    Port(TcpListener),
    Unix(UnixListener),
}

impl Listener {
    /// Listens at a port of 127.0.0.1. With port 0 the system chooses one.
    pub fn at_port<R: Net<Listener = TcpListener, Stream = TcpStream>>(
        rt: &R,
        port: u16,
    ) -> io::Result<Listener> {
        in_slices(Listener::Port(TcpListener::bind(rt, ("127.0.0.1", port))?))
    }

    /// Accepts the connections of a Unix socket.
    pub fn of_socket(socket: UnixListener) -> io::Result<Listener> {
        in_slices(Listener::Unix(socket))
    }

    /// Waits for a connection, for at most `PAUSE`, and returns it with the port of 127.0.0.1 that its peer connects
    /// from, if it does. It has no Nagle's delay, which a Unix socket doesn't know.
    pub fn accept(&self) -> io::Result<(TcpStream, Option<u16>)> {
        match self {
            Listener::Port(listener) => {
                let (stream, peer) = listener.accept()?;
                stream.set_nodelay(true)?;
                Ok((stream, local_port(&peer)))
            }
            Listener::Unix(listener) => {
                let (stream, _) = listener.accept()?;
                Ok((TcpStream::from(OwnedFd::from(stream)), None))
            }
        }
    }

    /// Another handle of the socket, with the calls of a stream.
    pub fn socket(&self) -> io::Result<TcpStream> {
        let descriptor = match self {
            Listener::Port(listener) => OwnedFd::from(listener.try_clone()?),
            Listener::Unix(listener) => OwnedFd::from(listener.try_clone()?),
        };
        Ok(TcpStream::from(descriptor))
    }

    /// Its port, if it has one, and the system reports it.
    pub fn port(&self) -> Option<u16> {
        match self {
            Listener::Port(listener) => {
                let address = listener.local_addr().ok()?;
                Some(address.port())
            }
            Listener::Unix(_) => None,
        }
    }
}

// The port of an address, if that is of 127.0.0.1.
fn local_port(address: &SocketAddr) -> Option<u16> {
    if address.ip() == IpAddr::V4(Ipv4Addr::LOCALHOST) {
        Some(address.port())
    } else {
        None
    }
}

// Cuts the waits of accepts into slices: a wait that only a connection ended might never end, since a queue that is
// full takes none. (A listener has no call for that; it heeds the read timeout of its socket.)
fn in_slices(listener: Listener) -> io::Result<Listener> {
    listener
        .socket()?
        .set_read_timeout(Some(Duration::from_millis(PAUSE)))?;
    Ok(listener)
}
