// Where operators connect, as both programs name it.
use crate::fault::UsageFault;
use ar_cli::CommandLineFault;
use ar_numbers::number;
use std::alloc::Global;

/// The most bytes of a path: the system takes 107, and a socket is made in a folder beside it, which has a longer name.
const MOST_PATH: usize = 100;

/// Where operators connect.
#[derive(Debug, Drop, PartialEq, Eq)]
pub enum OperatorDoor {
    /// A port of 127.0.0.1, 1 or more.
    Port(u16),
    /// The path of a Unix socket, 1 to 100 bytes.
    Path(String),
}

/// The door that a word names: digits alone are a port, and anything else is a path.
pub fn door_named(alloc: Global, word: &str) -> Result<OperatorDoor, UsageFault> {
    if word.bytes().all(|byte| byte.is_ascii_digit()) {
        return match port_named(word) {
            Some(port) => Ok(OperatorDoor::Port(port)),
            None => Err(bad_door(alloc, word)),
        };
    }
    if word.len() > MOST_PATH {
        return Err(bad_door(alloc, word));
    }
    Ok(OperatorDoor::Path(String::from_str(alloc, word)?))
}

// The port that a word names, if it is one.
fn port_named(word: &str) -> Option<u16> {
    match u16::try_from(number(word)?) {
        Ok(port) if port > 0 => Some(port),
        _ => None,
    }
}

// The fault of a door, in the words that `clap` has for other values.
fn bad_door(alloc: Global, word: &str) -> UsageFault {
    match format!(in alloc;
        "invalid value '{word}' for '--operator <PORT|PATH>': a port is from 1 to 65535, a path has at most 100 bytes"
    ) {
        Ok(text) => UsageFault::Bad(text),
        Err(_) => UsageFault::Words(CommandLineFault::NoMemory),
    }
}
