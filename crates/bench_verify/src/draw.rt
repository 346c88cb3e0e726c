// Which command comes next. Most are short READs and WRITEs of any sectors; a few are long, and a few are refused.
ghost use Rattle.std.specs.Prelude.{◌<◌};

use crate::order::{Form, Order, Span};
use rand::RngExt;
use rand_core::Rng;

/// The most sectors of a command: 256 KiB.
const MOST: u32 = 512;

/// One in this many READs and WRITEs may be as long.
const LONG: u32 = 256;

/// Draws a command to a unit of `sectors` sectors.
pub fn draw<R: Rng>(rng: &mut R, sectors: u32) -> Order {
    match rng.random_range(0u32..256) {
        0..=3 => Order::TestReady,
        4..=6 => Order::Capacity,
        7 => Order::Unknown,
        8 => Order::ShortWrite(within(rng, sectors)),
        9..=12 => refused(rng, sectors),
        13..=134 => {
            let span = within(rng, sectors);
            read(rng, span)
        }
        _ => {
            let span = within(rng, sectors);
            write(rng, span)
        }
    }
}

/// Draws a LUN that no unit has.
pub fn draw_absent<R: Rng>(rng: &mut R) -> u8 {
    rng.random_range(8u8..=255)
}

// A READ or WRITE past the end.
fn refused<R: Rng>(rng: &mut R, sectors: u32) -> Order {
    let span = past_the_end(rng, sectors);
    if rng.random_range(0u32..2) == 0 {
        read(rng, span)
    } else {
        write(rng, span)
    }
}

fn read<R: Rng>(rng: &mut R, span: Span) -> Order {
    let form = form(rng, span);
    Order::Read { span, form }
}

// One WRITE in eight is forced to the disks.
fn write<R: Rng>(rng: &mut R, span: Span) -> Order {
    let form = form(rng, span);
    let fua = rng.random_range(0u32..8) == 0;
    Order::Write { span, form, fua }
}

// Either form, where a READ or WRITE (10) can name the sectors.
fn form<R: Rng>(rng: &mut R, span: Span) -> Form {
    if span.lba > u64::from(u32::MAX) || rng.random_range(0u32..2) == 0 {
        Form::Sixteen
    } else {
        Form::Ten
    }
}

// Sectors anywhere in the unit.
fn within<R: Rng>(rng: &mut R, sectors: u32) -> Span {
    let most = if rng.random_range(0..LONG) == 0 {
        MOST
    } else {
        longest_of_short(rng)
    };
    let count = rng.random_range(1..=most.min(sectors).max(1));
    let last = sectors.saturating_sub(count);
    Span {
        lba: u64::from(rng.random_range(0..=last)),
        count: u16::try_from(count).unwrap_or(0),
    }
}

// 1, 2, 4, 8 or 16 sectors.
fn longest_of_short<R: Rng>(rng: &mut R) -> u32
    ensures { 0 < result }
{
    match rng.random_range(0u32..5) {
        0 => 1,
        1 => 2,
        2 => 4,
        3 => 8,
        _ => 16,
    }
}

// Sectors of which the unit lacks at least the last. One in four lies so far past it that 32 bits can't name it.
fn past_the_end<R: Rng>(rng: &mut R, sectors: u32) -> Span {
    let most = longest_of_short(rng);
    let count = rng.random_range(1..=most);
    let first = sectors.saturating_sub(count.saturating_sub(1));
    let lba = u64::from(first) + u64::from(rng.random_range(0u32..8));
    let is_far = rng.random_range(0u32..4) == 0;
    Span {
        lba: if is_far { lba + (1 << 32) } else { lba },
        count: u16::try_from(count).unwrap_or(0),
    }
}
