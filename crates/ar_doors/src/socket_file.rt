// The file of a Unix socket that its owner alone may connect to. The socket is made in a folder that nobody else can
// enter, and renamed to its path once it has its mode, so that nobody else can connect at any moment.
use crate::tcp::ListenFault;
use std::alloc::Global;
use std::fs::{self, Permissions};
use std::io::{self, ErrorKind};
use std::net::Net;
use std::os::unix::fs::{FileTypeExt, MetadataExt, PermissionsExt};
use std::os::unix::net::{UnixListener, UnixStream};
use std::rt::Files;

/// The modes of the folder and of the socket.
const FOLDER_MODE: u32 = 0o700;

const SOCKET_MODE: u32 = 0o600;

/// The file of a socket that listens.
#[derive(Drop)]
pub struct SocketFile {
    path: String,
    // By these it is told from a file that has taken its place.
    device: u64,
    node: u64,
}

// Where a socket is made: `PATH.new/s`.
#[derive(Drop)]
struct Workshop {
    folder: String,
    file: String,
}

impl SocketFile {
    /// Listens at a path. A socket at which nobody listens is replaced; another file that is there, or a socket that
    /// somebody listens at, is a fault, and left as it is.
    pub fn listen<R: Files + Net>(
        rt: &R,
        alloc: Global,
        path: &str,
    ) -> Result<(UnixListener, SocketFile), ListenFault> {
        match listen_at(rt, alloc, path) {
            Ok(listening) => Ok(listening),
            Err(_) => Err(ListenFault),
        }
    }

    /// Removes the file, unless another has taken its place.
    pub fn remove<R: Files>(self, rt: &R) {
        let path = self.path.as_str();
        let Ok(found) = fs::symlink_metadata(rt, path) else {
            return;
        };
        if found.dev() == self.device && found.ino() == self.node {
            let _removed = fs::remove_file(rt, path);
        }
    }
}

fn listen_at<R: Files + Net>(
    rt: &R,
    alloc: Global,
    path: &str,
) -> io::Result<(UnixListener, SocketFile)> {
    if !is_free(rt, path)? {
        return Err(ErrorKind::AddrInUse.into());
    }
    let workshop = Workshop {
        folder: format!(in alloc; "{path}.new")?,
        file: format!(in alloc; "{path}.new/s")?,
    };
    // (a start that was killed may have left one)
    workshop.remove(rt);
    rt.create_dir_with_mode(workshop.folder.as_str(), FOLDER_MODE)?;
    let made = workshop.make(rt, alloc, path);
    workshop.remove(rt);
    made
}

// Whether nothing is at a path, or a socket at which nobody listens.
fn is_free<R: Files + Net>(rt: &R, path: &str) -> io::Result<bool> {
    match fs::symlink_metadata(rt, path) {
        Ok(found) => Ok(found.file_type().is_socket() && is_left(rt, path)),
        Err(error) if error.kind() == ErrorKind::NotFound => Ok(true),
        Err(error) => Err(error),
    }
}

// Whether nobody listens at a socket.
fn is_left<R: Net>(rt: &R, path: &str) -> bool {
    match UnixStream::connect(rt, path) {
        Ok(_stream) => false,
        Err(error) => error.kind() == ErrorKind::ConnectionRefused,
    }
}

impl Workshop {
    // Makes a socket that listens, and moves its file to a path.
    fn make<R: Files + Net>(
        &self,
        rt: &R,
        alloc: Global,
        path: &str,
    ) -> io::Result<(UnixListener, SocketFile)> {
        let file = self.file.as_str();
        let listener = UnixListener::bind(rt, file)?;
        fs::set_permissions(rt, file, Permissions::from_mode(SOCKET_MODE))?;
        let made = fs::symlink_metadata(rt, file)?;
        let kept = SocketFile {
            path: String::from_str(alloc, path)?,
            device: made.dev(),
            node: made.ino(),
        };
        fs::rename(rt, file, path)?;
        Ok((listener, kept))
    }

    // Removes the folder, and the socket where it is still there. Other files stay.
    fn remove<R: Files>(&self, rt: &R) {
        if let Ok(found) = fs::symlink_metadata(rt, self.file.as_str())
            && found.file_type().is_socket()
        {
            let _removed = fs::remove_file(rt, self.file.as_str());
        }
        let _removed = fs::remove_dir(rt, self.folder.as_str());
    }
}
