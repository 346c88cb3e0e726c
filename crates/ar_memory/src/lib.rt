//! How much memory a program may still take, as its system says. A file that isn't there, or has another form, is no
//! limit.
#![tactic(auto)]

ghost use Rattle.std.specs.Prelude.{◌≡◌, ◌≤◌};
ghost use Rattle.ar_memory.specs.Limits.{lesser, percent_reached, reaches, remaining_of};

use arrayvec::ArrayString;
use std::fmt::Write;
use std::fs::File;
use std::io::Read;
use std::str;

/// The most bytes that are read of a file.
const MOST_READ: usize = 4096;

/// The most bytes of a path.
const MOST_PATH: usize = 512;

/// The bytes that this program may still take: what the machine has available, what is left of the limit on its
/// addresses, or what is left to its control group (version 2), whichever is least. `None`: no limit is known.
pub fn memory_left(rt: &HostRuntime) -> Option<u64> {
    let machine = kib_in(rt, "/proc/meminfo", "MemAvailable:");
    least(least(machine, addresses_left(rt)), group_left(rt))
}

/// The greatest of 50, 80 and 90 percent of the memory that these bytes reach; 0 where they reach none, or are none.
pub fn share_reached(bytes: u64, memory: u64) -> u8
    ensures { result ≡ percent_reached bytes memory }
{
    if is_reached(90, bytes, memory) {
        90
    } else if is_reached(80, bytes, memory) {
        80
    } else if is_reached(50, bytes, memory) {
        50
    } else {
        0
    }
}

// Whether there are bytes, and they are at least `percent` percent of the memory.
fn is_reached(percent: u8, bytes: u64, memory: u64) -> bool
    requires { percent ≤ 100 }
    ensures { result ≡ reaches percent bytes memory }
{
    bytes > 0 && u128::from(memory) * u128::from(percent) <= u128::from(bytes) * 100
}

fn least(one: Option<u64>, other: Option<u64>) -> Option<u64>
    ensures { result ≡ lesser one other }
{
    match (one, other) {
        (Some(one), Some(other)) => Some(one.min(other)),
        (Some(one), None) => Some(one),
        (None, other) => other,
    }
}

// What is left of a limit.
fn left(limit: Option<u64>, taken: Option<u64>) -> Option<u64>
    ensures { result ≡ remaining_of limit taken }
{
    match (limit, taken) {
        (Some(limit), Some(taken)) => Some(limit.saturating_sub(taken)),
        _ => None,
    }
}

// What is left of the limit on this program's addresses.
fn addresses_left(rt: &HostRuntime) -> Option<u64> {
    let limit = number_in(rt, "/proc/self/limits", "Max address space");
    left(limit, kib_in(rt, "/proc/self/status", "VmSize:"))
}

// What is left to this program's control group.
fn group_left(rt: &HostRuntime) -> Option<u64> {
    let mut buffer = [0; MOST_READ];
    let group = word_after(text_of(rt, "/proc/self/cgroup", &mut buffer)?, "0::")?;
    left(
        group_number(rt, group, "memory.max"),
        group_number(rt, group, "memory.current"),
    )
}

// The number in a file of a control group. A path that is too long is no limit.
fn group_number(rt: &HostRuntime, group: &str, name: &str) -> Option<u64> {
    let mut path: ArrayString<MOST_PATH> = ArrayString::new();
    write!(path, "/sys/fs/cgroup{group}/{name}").ok()?;
    number_in(rt, path.as_str(), "")
}

// The number after a label, in KiB, as bytes.
fn kib_in(rt: &HostRuntime, path: &str, label: &str) -> Option<u64> {
    number_in(rt, path, label)?.checked_mul(1024)
}

// The number after a label in a file.
fn number_in(rt: &HostRuntime, path: &str, label: &str) -> Option<u64> {
    let mut buffer = [0; MOST_READ];
    word_after(text_of(rt, path, &mut buffer)?, label)?
        .parse()
        .ok()
}

// What a file begins with.
fn text_of<'a>(rt: &HostRuntime, path: &str, buffer: &'a mut [u8; MOST_READ]) -> Option<&'a str> {
    let mut file = File::open(rt, path).ok()?;
    let count = file.read(&mut buffer[..]).ok()?;
    str::from_utf8(&buffer[..count]).ok()
}

// The first word after a label, in the first line that begins with it.
fn word_after<'a>(text: &'a str, label: &str) -> Option<&'a str> {
    for line in text.lines() {
        if let Some(rest) = line.strip_prefix(label) {
            return rest.split_whitespace().next();
        }
    }
    None
}
