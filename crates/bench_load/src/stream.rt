// Connections within this machine. Each request and each answer is sent on at once.
use std::io;
use std::net::{Net, TcpListener, TcpStream};

/// A connection to a port.
pub fn connect<R: Net<Listener = TcpListener, Stream = TcpStream>>(
    rt: &R,
    port: u16,
) -> io::Result<TcpStream> {
    let stream = TcpStream::connect(rt, ("127.0.0.1", port))?;
    stream.set_nodelay(true)?;
    Ok(stream)
}

/// The next connection to where this program listens.
pub fn accept(listener: &TcpListener) -> io::Result<TcpStream> {
    let (stream, _) = listener.accept()?;
    stream.set_nodelay(true)?;
    Ok(stream)
}
