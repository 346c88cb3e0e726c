// Appends, beside a bare loop of the same writes and syncs, and reading, as a start does it.
use crate::failure::Failure;
use crate::reading::read_through;
use crate::writing::{append_all, new_log};
use std::fmt::{self, Display, Formatter, Write};
use std::fs::{self, File};
use std::os::unix::fs::FileExt;
use std::time::{Clock, Instant};

/// The lengths of records, with how many of them are appended.
const ROWS: [(usize, u64); 3] = [(512, 300), (4096, 300), (65536, 200)];

/// Prints the figures of each length.
pub fn measure(rt: &HostRuntime, path: &str) -> Result<(), Failure> {
    for (len, count) in ROWS {
        measure_row(rt, path, len, count)?;
    }
    Ok(())
}

fn measure_row(rt: &HostRuntime, path: &str, len: usize, count: u64) -> Result<(), Failure> {
    let alloc = rt.alloc();
    let _ = fs::remove_file(rt, path);
    let mut log = new_log(rt, path)?;
    let begin = now(rt)?;
    append_all(alloc, &mut log, count, len)?;
    let appended = since(rt, begin)?;
    let begin = now(rt)?;
    let found = read_through(alloc, &mut log.media)?;
    let read = since(rt, begin)?;
    drop(log);
    let bare = measure_bare(rt, path, len, count)?;
    let bytes = count.saturating_mul(len as u64);
    println!(rt;
        "{len}: {} appends/s, {} MB/s; bare {} appends/s, {} MB/s; reads {found} at {} GB/s",
        rate(count, appended),
        Decimal(rate(bytes, appended) / 10_000),
        rate(count, bare),
        Decimal(rate(bytes, bare) / 10_000),
        Decimal(rate(bytes, read) / 10_000_000)
    )?;
    Ok(())
}

/// A number of hundredths.
#[derive(Clone, Copy)]
struct Decimal(u64);

impl Display for Decimal {
    fn fmt<W: Write>(&self, f: &mut Formatter<W>) -> fmt::Result {
        let whole = self.0 / 100;
        let rest = self.0 % 100;
        write!(f, "{whole}.{rest:02}")
    }
}

// The same writes and syncs on a file of their own.
fn measure_bare(rt: &HostRuntime, path: &str, len: usize, count: u64) -> Result<u64, Failure> {
    let alloc = rt.alloc();
    let bare = format!(in alloc; "{path}.bare")?;
    let file = File::create(rt, bare.as_str())?;
    let mut batch = Vec::new(alloc);
    batch.resize(len.saturating_add(34), 1)?;
    let begin = now(rt)?;
    for number in 0..count {
        let at = number.saturating_mul(len as u64 + 34);
        file.write_all_at(&batch, at.saturating_add(2))?;
        file.sync_data()?;
        file.write_all_at(&[255, 255], at)?;
        file.sync_data()?;
    }
    since(rt, begin)
}

fn rate(count: u64, nanoseconds: u64) -> u64 {
    count
        .saturating_mul(1_000_000_000)
        .checked_div(nanoseconds)
        .unwrap_or(0)
}

fn now<C: Clock>(clock: &C) -> Result<Instant, Failure> {
    Instant::now(clock).map_err(|_| Failure::Clock)
}

fn since<C: Clock>(clock: &C, begin: Instant) -> Result<u64, Failure> {
    let duration = begin.elapsed(clock).map_err(|_| Failure::Clock)?;
    Ok(u64::try_from(duration.as_nanos()).unwrap_or(u64::MAX))
}
