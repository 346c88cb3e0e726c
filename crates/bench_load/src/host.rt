// A host that asks, request after request.
use crate::exchange::exchange;
use crate::failure::Failure;
use crate::figures::Figures;
use crate::plan::{Plan, Slice};
use crate::request::{Kind, Shape, zeros};
use crate::stream::connect;
use ar_frames::{Linked, hello};
use std::alloc::Global;
use std::io::Read;
use std::net::{Net, Shutdown, TcpListener, TcpStream};
use std::time::Clock;

/// A host that is ready to ask: its session with the array, its connection to the bare echo, and what it asks both.
#[derive(Drop)]
pub struct Asker {
    talk: Talk,
    array: TcpStream,
    echo: TcpStream,
}

/// Where array and echo are, at 127.0.0.1.
#[derive(Clone, Copy)]
pub struct Ports {
    pub array: u16,
    pub echo: u16,
}

// The request frames, in turn, and room for a reply.
#[derive(Drop)]
struct Talk {
    requests: Vec<Vec<u8>>,
    reply: Vec<u8>,
}

impl Asker {
    /// Logs a host in, writes all places that it will ask for, so that each block stands there, and connects to the
    /// echo.
    pub fn open<R: Net<Listener = TcpListener, Stream = TcpStream>>(
        rt: &R,
        alloc: Global,
        ports: Ports,
        host: u8,
        shape: Shape,
    ) -> Result<Asker, Failure> {
        let array = open_session(rt, ports.array, host)?;
        let kind = Kind::Overwrite;
        Talk::of(alloc, Shape { kind, ..shape })?.ask_all(&array)?;
        let echo = connect(rt, ports.echo).map_err(|_| Failure::Echo)?;
        Ok(Asker {
            talk: Talk::of(alloc, shape)?,
            array,
            echo,
        })
    }

    /// Asks the array and the echo in turn, by the plan, and answers how many requests of each were done. The session
    /// has ended then.
    pub fn run<C: Clock>(self, clock: &C, plan: Plan) -> Result<Figures, Failure> {
        let Asker {
            mut talk,
            array,
            echo,
        } = self;
        let figures = talk.ask_rounds(clock, plan, &array, &echo)?;
        leave(&array);
        Ok(figures)
    }
}

// A session of a host with the array.
fn open_session<R: Net<Listener = TcpListener, Stream = TcpStream>>(
    rt: &R,
    port: u16,
    host: u8,
) -> Result<TcpStream, Failure> {
    let Ok(stream) = connect(rt, port) else {
        return Err(Failure::Connect);
    };
    log_in(&stream, host)?;
    Ok(stream)
}

fn log_in(stream: &TcpStream, host: u8) -> Result<(), Failure> {
    match hello(&mut Linked::new(stream), &mut Linked::new(stream), host) {
        Ok(true) => Ok(()),
        Ok(false) => Err(Failure::Refused(host)),
        Err(_) => Err(Failure::Session),
    }
}

// Sends no more, and waits until the array has let the session go.
fn leave(mut stream: &TcpStream) {
    let mut rest = [0; 1];
    if stream.shutdown(Shutdown::Write).is_ok() {
        // Whatever comes of it, the session is at its end.
        let _ended = stream.read(&mut rest);
    }
}

impl Talk {
    fn of(alloc: Global, shape: Shape) -> Result<Talk, Failure> {
        Ok(Talk {
            requests: shape.requests(alloc)?,
            reply: zeros(alloc, shape.reply_len())?,
        })
    }

    // Asks once for each place.
    fn ask_all(&mut self, stream: &TcpStream) -> Result<(), Failure> {
        for request in &self.requests {
            exchange(stream, request, &mut self.reply)?;
        }
        Ok(())
    }

    // Asks array and echo in turn. The first round is not counted.
    fn ask_rounds<C: Clock>(
        &mut self,
        clock: &C,
        plan: Plan,
        array: &TcpStream,
        echo: &TcpStream,
    ) -> Result<Figures, Failure> {
        let mut figures = Figures::NONE;
        for round in 0..=plan.rounds() {
            let done = Figures {
                array: self.ask_until(clock, plan, Slice::of_array(round), array)?,
                echo: self.ask_until(clock, plan, Slice::of_echo(round), echo)?,
            };
            if round > 0 {
                figures = figures.and(done);
            }
        }
        Ok(figures)
    }

    // Asks until a slice is over. The request in which it ends is not counted.
    fn ask_until<C: Clock>(
        &mut self,
        clock: &C,
        plan: Plan,
        slice: Slice,
        stream: &TcpStream,
    ) -> Result<u64, Failure> {
        let mut asked: u64 = 0;
        for _ in 0..u32::MAX {
            for request in &self.requests {
                exchange(stream, request, &mut self.reply)?;
                if plan.is_over(clock, slice)? {
                    return Ok(asked);
                }
                asked = asked.saturating_add(1);
            }
        }
        Ok(asked)
    }
}
