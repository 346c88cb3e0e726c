// The connections that are open at a door, in the order in which they came. Where as many are open as the door serves
// at once, the oldest that hasn't logged in makes room for a new one, so that nobody is kept out by silence.
ghost use Rattle.std.specs.Prelude.{◌≡◌};
ghost use Rattle.ar_doors.specs.Limits.{makes_room};

use ar_frames::{Progress, SessionCount, Stage};
use std::alloc::{AllocError, Global};
use std::collections::VecDeque;
use std::net::{Shutdown, TcpStream};
use std::sync::Arc;

/// The connections that are open at a door.
#[derive(Drop)]
pub(crate) struct Crowd {
    links: VecDeque<Link>,
    // With this many open, one makes room.
    most: usize,
    // The sessions, if their number is limited.
    sessions: Option<Arc<SessionCount>>,
}

// A connection: its socket, which its streams have, too, and how far its session has come.
#[derive(Drop)]
struct Link {
    socket: Arc<TcpStream>,
    progress: Arc<Progress>,
}

impl Crowd {
    // None, and of any number that come later none makes room.
    pub fn unlimited(alloc: Global) -> Crowd {
        Crowd {
            links: VecDeque::new(alloc),
            most: usize::MAX,
            sessions: None,
        }
    }

    // None, with capacity for those of which `most` are open when another comes.
    pub fn limited(
        alloc: Global,
        most: usize,
        sessions: Option<Arc<SessionCount>>,
    ) -> Result<Crowd, AllocError> {
        Ok(Crowd {
            links: VecDeque::with_capacity(alloc, most.saturating_add(1))?,
            most,
            sessions,
        })
    }

    // Whether the last session has entered.
    pub fn is_complete(&self) -> bool {
        match &self.sessions {
            Some(sessions) => sessions.is_complete(),
            None => false,
        }
    }

    // The progress of a connection that was opened now, over TCP from the port `peer`.
    pub fn new_progress(&self, peer: Option<u16>) -> Result<Progress, AllocError> {
        match &self.sessions {
            Some(sessions) => Ok(Progress::new(Some(Arc::try_clone(sessions)?), peer)),
            None => Ok(Progress::new(None, peer)),
        }
    }

    // Adds a connection, if they are limited.
    pub fn add(
        &mut self,
        socket: &Arc<TcpStream>,
        progress: &Arc<Progress>,
    ) -> Result<(), AllocError> {
        if self.most == usize::MAX {
            return Ok(());
        }
        let link = Link {
            socket: Arc::try_clone(socket)?,
            progress: Arc::try_clone(progress)?,
        };
        self.links.push_back(link).map_err(|_| AllocError)
    }

    // Forgets those that have ended, which closes their sockets.
    pub fn forget_ended(&mut self) {
        for _ in 0..self.links.len() {
            self.forget_first();
        }
    }

    // Forgets the first if it has ended, and otherwise puts it after the others. (Its place is free.)
    fn forget_first(&mut self) {
        if let Some(link) = self.links.pop_front() {
            if !link.has_ended() {
                let _kept = self.links.push_back(link);
            }
        }
    }

    // Has a connection make room for one that has come, if as many are open as may be, and one of them is silent.
    pub fn make_room(&mut self) {
        self.forget_ended();
        let mut is_wanted = self.links.len() >= self.most;
        for _ in 0..self.links.len() {
            is_wanted = self.ask_first(is_wanted);
        }
    }

    // Ends all that haven't logged in: no more may.
    pub fn end_silent(&mut self) {
        for _ in 0..self.links.len() {
            self.ask_first(true);
        }
    }

    // Has the first make room, if that is wanted of it, and otherwise puts it after the others. Returns whether room
    // is still wanted.
    fn ask_first(&mut self, is_wanted: bool) -> bool {
        match self.links.pop_front() {
            Some(link) if makes_room(is_wanted, link.progress.stage()) => {
                link.end();
                false
            }
            Some(link) => {
                let _kept = self.links.push_back(link);
                is_wanted
            }
            None => is_wanted,
        }
    }
}

impl Link {
    // Whether its streams are gone.
    fn has_ended(&self) -> bool {
        Arc::strong_count(&self.socket) == 1
    }

    // Ends its streams, and with them the wait for one.
    fn end(&self) {
        let _ended = self.socket.shutdown(Shutdown::Both);
    }
}

// Whether a connection at this stage of its session makes room where it is wanted: it has no host's seat, and no order
// or request of it is being served.
fn makes_room(is_wanted: bool, stage: Stage) -> bool
    ensures { result ≡ makes_room is_wanted stage }
{
    match stage {
        Stage::Silent | Stage::Discovery => is_wanted,
        Stage::Entered => false,
    }
}
