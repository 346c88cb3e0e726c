// The answers to the operator's own words. The wording is tested, not proved.
ghost use Rattle.std.specs.Prelude.{◌≡◌, ◌<◌, OnOk};
ghost use Rattle.ar_picture.specs.Writing.{AddsSome};

use ar_disks::Host;
use ar_served::{Counts, HostCounts, TaskCounts};
use std::io;
use std::io::Write;

/// Writes the operator's words, a line for each with its arguments.
pub fn write_help<W: Write>(out: &mut W) -> io::Result<()>
    ensures adds { OnOk result (AddsSome (W.contents out.old) (W.contents out.new)) }
{
    out.write_all(
        b"make H L SIZE
grow H L SIZE
drop H L
add
out D
out D force
replace D
fail D N
fail D off
end H
end H S
flush
demote
clean
balance
rebuild
levels H L
home H L RB
groups
room
health
picture
usage
units
disks
sessions
counts
version
help
stop
",
    )
}

/// Writes the version of the program, as `--version` prints it.
pub fn write_version<W: Write>(out: &mut W, version: &str) -> io::Result<()> {
    writeln!(out, "autoraid {version}")
}

/// Writes a connected host, as a line: the frames of its session, the bytes that it has read and written, and the port
/// of 127.0.0.1 that it comes from, if it does by frames.
pub fn write_session<W: Write>(
    out: &mut W,
    host: Host,
    frames: u64,
    read: u64,
    written: u64,
    peer: Option<u16>,
) -> io::Result<()>
    ensures adds { OnOk result (AddsSome (W.contents out.old) (W.contents out.new)) }
{
    let host = host.number();
    match peer {
        Some(port) => writeln!(
            out,
            "host {host} frames {frames} read {read} written {written} 127.0.0.1:{port}"
        ),
        None => writeln!(
            out,
            "host {host} frames {frames} read {read} written {written}"
        ),
    }
}

/// Writes what was counted since the start: a line for each host, and one for each kind of maintenance.
pub fn write_counts<W: Write>(out: &mut W, counts: &Counts) -> io::Result<()>
    ensures adds { OnOk result (AddsSome (W.contents out.old) (W.contents out.new)) }
{
    for (host, host_counts) in counts.hosts.iter().enumerate() {
        write_host(out, host, host_counts)?;
    }
    write_tasks(out, &counts.tasks)
}

fn write_host<W: Write>(out: &mut W, host: usize, counts: &HostCounts) -> io::Result<()>
    ensures adds { OnOk result (AddsSome (W.contents out.old) (W.contents out.new)) }
{
    let (commands, read, written) = (counts.commands, counts.read, counts.written);
    writeln!(
        out,
        "host {host} commands {commands} read {read} written {written}"
    )
}

fn write_tasks<W: Write>(out: &mut W, counts: &TaskCounts) -> io::Result<()>
    ensures adds { OnOk result (AddsSome (W.contents out.old) (W.contents out.new)) }
{
    let (flushed, demoted, cleaned) = (counts.flushed, counts.demoted, counts.cleaned);
    let (balanced, rebuilt) = (counts.balanced, counts.rebuilt);
    writeln!(
        out,
        "flushed {flushed}\ndemoted {demoted}\ncleaned {cleaned}\nbalanced {balanced}\nrebuilt {rebuilt}"
    )
}
