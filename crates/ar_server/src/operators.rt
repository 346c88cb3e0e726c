// Where operators connect, as the command line names it. A port is opened with the service's other doors, and a Unix
// socket here, by the runtime's own type: that of the log makes no sockets with files.
use crate::serve::ServeFault;
use ar_command_line::OperatorDoor;
use ar_doors::SocketFile;
use ar_plan::OperatorListener;
use std::alloc::Global;

/// The operators' door before the service begins.
#[derive(Drop)]
pub struct OperatorsEntry {
    pub listener: Option<OperatorListener>,
    /// The file of its socket, which is removed at the end.
    pub file: Option<SocketFile>,
}

impl OperatorsEntry {
    /// The door that a command line names, if it names one.
    pub fn open(
        files: &HostRuntime,
        alloc: Global,
        door: &Option<OperatorDoor>,
    ) -> Result<OperatorsEntry, ServeFault> {
        match door {
            Some(OperatorDoor::Path(path)) => open_at(files, alloc, path.as_str()),
            Some(OperatorDoor::Port(port)) => Ok(OperatorsEntry {
                listener: Some(OperatorListener::Port(*port)),
                file: None,
            }),
            None => Ok(OperatorsEntry {
                listener: None,
                file: None,
            }),
        }
    }
}

// A socket at a path.
fn open_at(files: &HostRuntime, alloc: Global, path: &str) -> Result<OperatorsEntry, ServeFault> {
    match SocketFile::listen(files, alloc, path) {
        Ok((socket, file)) => Ok(OperatorsEntry {
            listener: Some(OperatorListener::Socket(socket)),
            file: Some(file),
        }),
        Err(_) => Err(ServeFault::Listen),
    }
}

/// Removes the file of a socket that no longer listens, if there is one.
pub fn remove_file(files: &HostRuntime, file: Option<SocketFile>) {
    if let Some(file) = file {
        file.remove(files);
    }
}
