// The benchmark's workloads: what the scheme has to copy and to add, worked by hand, the bare loop, and the lines of
// the report.
use ar_disks::Geometry;
use bench_workloads::{Bare, Figures, Machine, Moves, Round, Workload, WorkloadFault};
use rand_core::SeedableRng;
use rand_xoshiro::Xoshiro256PlusPlus;
use std::alloc::{AllocError, Global};
use std::fmt::Display;
use std::process::Abort;

fn round(workload: Workload, blocks: u32, passes: u32) -> Round {
    Round {
        workload,
        geometry: Geometry::SMALL,
        blocks,
        passes,
    }
}

fn has_moves(rt: &impl Abort, round: Round, wanted: [Moves; 4]) {
    let name = round.workload.name();
    assert!(rt; round.moves() == wanted, "the moves of {name}");
}

// Four groups of small extents hold 18 blocks in three of them. The first 12 are written mirrored. Three squeezes leave
// two holes each for the others. Each reads four blocks and writes two stripes of four rows, whose parity is the sum of
// three blocks.
#[test]
fn a_fill_with_its_squeezes(rt: HostRuntime) {
    let direct = Moves {
        times: 12,
        writes: 2,
        sent: 2,
        ..Moves::NONE
    };
    let late = Moves {
        times: 6,
        reads: 2,
        sums: 2,
        writes: 2,
        sent: 1,
        ..Moves::NONE
    };
    let squeezed = Moves {
        times: 6,
        reads: 2,
        kept: 2,
        sums: 2,
        writes: 4,
        ..Moves::NONE
    };
    has_moves(
        &rt,
        round(Workload::Fill, 18, 1),
        [direct, late, squeezed, Moves::NONE],
    );
}

// Eight blocks fill two mirrored groups of small extents. A group with parity has six slots, so that two are opened,
// each by eight rows of zeros. A block is read, then the zeros in its slot and their parity, and both are written.
#[test]
fn demotions_with_the_groups_that_they_open(rt: HostRuntime) {
    let zeroed = Moves {
        times: 16,
        writes: 1,
        ..Moves::NONE
    };
    let moved = Moves {
        times: 8,
        reads: 3,
        kept: 1,
        sums: 2,
        writes: 2,
        ..Moves::NONE
    };
    has_moves(
        &rt,
        round(Workload::Demote, 8, 1),
        [zeroed, moved, Moves::NONE, Moves::NONE],
    );
}

// Forty-two blocks fill seven groups, and an eighth is free. Six of them leave an extent of two rows for the added
// disk's.
#[test]
fn balancing_copies_rows(rt: HostRuntime) {
    let copied = Moves {
        times: 12,
        reads: 1,
        kept: 1,
        writes: 1,
        ..Moves::NONE
    };
    has_moves(
        &rt,
        round(Workload::Balance, 42, 1),
        [copied, Moves::NONE, Moves::NONE, Moves::NONE],
    );
}

// Both rows of a disk's extent in each of the seven are sums of three others.
#[test]
fn a_rebuild_adds_rows(rt: HostRuntime) {
    let summed = Moves {
        times: 14,
        reads: 3,
        kept: 3,
        sums: 2,
        writes: 1,
        ..Moves::NONE
    };
    has_moves(
        &rt,
        round(Workload::Rebuild, 42, 1),
        [summed, Moves::NONE, Moves::NONE, Moves::NONE],
    );
}

// Eight blocks stand in four mirrored groups, two in each. Those of the first go to the second, and those of the third
// to the fourth: each is read once and written twice, at other places.
#[test]
fn cleaning_empties_every_second_group(rt: HostRuntime) {
    let moved = Moves {
        times: 4,
        reads: 1,
        kept: 1,
        writes: 2,
        ..Moves::NONE
    };
    has_moves(
        &rt,
        round(Workload::Clean, 8, 1),
        [moved, Moves::NONE, Moves::NONE, Moves::NONE],
    );
}

// However many groups there are, block and parity are read and written.
#[test]
fn a_write_among_many_groups(rt: HostRuntime) {
    let updated = Moves {
        times: 18_426,
        reads: 2,
        sums: 2,
        writes: 2,
        sent: 1,
        ..Moves::NONE
    };
    has_moves(
        &rt,
        round(Workload::ManyGroups3072, 18_426, 1),
        [updated, Moves::NONE, Moves::NONE, Moves::NONE],
    );
}

// Of four slots of a group's first rows the fourth has its block on the first disk.
#[test]
fn reads_beside_a_lost_disk(rt: HostRuntime) {
    let sound = Moves {
        times: 6,
        fetched: 1,
        ..Moves::NONE
    };
    let summed = Moves {
        times: 2,
        reads: 3,
        sums: 2,
        ..Moves::NONE
    };
    has_moves(
        &rt,
        round(Workload::DegradedRead, 8, 1),
        [sound, summed, Moves::NONE, Moves::NONE],
    );
}

// A write through a cache is one copy into the cache, until the flush writes both mirrored copies.
#[test]
fn a_cache_that_is_flushed_at_the_end(rt: HostRuntime) {
    let cached = Moves {
        times: 32,
        writes: 1,
        sent: 1,
        ..Moves::NONE
    };
    let flushed = Moves {
        times: 4,
        writes: 2,
        ..Moves::NONE
    };
    has_moves(
        &rt,
        round(Workload::OverwriteCached, 4, 8),
        [cached, flushed, Moves::NONE, Moves::NONE],
    );
}

// One sector is written to the two places of its block, and nothing is read.
#[test]
fn one_sector_is_written(rt: HostRuntime) {
    let changed = Moves {
        times: 4,
        writes: 2,
        sent: 2,
        part: 512,
        ..Moves::NONE
    };
    has_moves(
        &rt,
        round(Workload::SmallWrite, 4, 1),
        [changed, Moves::NONE, Moves::NONE, Moves::NONE],
    );
}

// The places of a buffer, block by block, that hold a byte: a bit each, the lowest first.
fn holding(bytes: &[u8], byte: u8) -> u8 {
    let mut mask = 0;
    for (number, block) in bytes.chunks_exact(1_024).enumerate() {
        if number < 8 && block.iter().all(|other| *other == byte) {
            mask |= 1u8 << number as u32;
        }
    }
    mask
}

// The bare loop on disks of eight blocks of EE after these moves.
fn bare_after(alloc: Global, moves: Moves) -> Result<Bare, AllocError> {
    let mut bare = Bare::new(alloc, Geometry::SMALL, 8)?;
    run(&mut bare, moves);
    Ok(bare)
}

fn run(bare: &mut Bare, moves: Moves) {
    let mut rng = Xoshiro256PlusPlus::seed_from_u64(1);
    bare.run(moves, false, &mut rng);
}

fn holds(rt: &impl Abort, what: &str, bytes: &[u8], byte: u8, wanted: u8) {
    assert!(rt; holding(bytes, byte) == wanted, "{what} of {byte}");
}

// Two mirrored writes of two operations: blocks 0 and 1, and their copies after them.
#[test]
fn writes_are_copies_of_what_is_sent(rt: HostRuntime) -> Result<(), AllocError> {
    let bare = bare_after(
        rt.alloc(),
        Moves {
            times: 2,
            writes: 2,
            sent: 2,
            ..Moves::NONE
        },
    )?;
    holds(&rt, "what was sent", bare.disks(), 0x11, 0b0000_1111);
    holds(&rt, "what was there", bare.disks(), 0xEE, 0b1111_0000);
    Ok(())
}

// Of two writes of one operation the first is of what comes with the command, and the second of the block.
#[test]
fn what_is_sent_is_not_copied_into_a_block(rt: HostRuntime) -> Result<(), AllocError> {
    let bare = bare_after(
        rt.alloc(),
        Moves {
            times: 1,
            writes: 2,
            sent: 1,
            ..Moves::NONE
        },
    )?;
    holds(&rt, "what was sent", bare.disks(), 0x11, 0b0000_0001);
    holds(&rt, "the block", bare.disks(), 0x22, 0b0000_0010);
    Ok(())
}

// Two operations leave blocks 0 and 1, which they would read, as they are, and write the four after them.
#[test]
fn kept_blocks_stay_as_they_are(rt: HostRuntime) -> Result<(), AllocError> {
    let bare = bare_after(
        rt.alloc(),
        Moves {
            times: 2,
            kept: 1,
            writes: 2,
            ..Moves::NONE
        },
    )?;
    holds(&rt, "the block", bare.disks(), 0x22, 0b0011_1100);
    holds(&rt, "what was there", bare.disks(), 0xEE, 0b1100_0011);
    Ok(())
}

// A sector of a byte, and behind it one of another.
fn is_split(rt: &impl Abort, what: &str, bytes: &[u8], first: u8, second: u8) {
    let mut sectors = bytes.chunks_exact(512);
    let is_right = match (sectors.next(), sectors.next()) {
        (Some(front), Some(back)) => {
            front.iter().all(|byte| *byte == first) && back.iter().all(|byte| *byte == second)
        }
        _ => false,
    };
    assert!(rt; is_right, "{what} of {first} and {second}");
}

// Of a block one sector is fetched, and one is sent to its place.
#[test]
fn parts_of_blocks_are_copied(rt: HostRuntime) -> Result<(), AllocError> {
    let bare = bare_after(
        rt.alloc(),
        Moves {
            times: 1,
            fetched: 1,
            writes: 1,
            sent: 1,
            part: 512,
            ..Moves::NONE
        },
    )?;
    is_split(&rt, "the answer", bare.answer(), 0xEE, 0x88);
    is_split(&rt, "the disks", bare.disks(), 0x11, 0xEE);
    Ok(())
}

// A block that is fetched is in the answer, and not in the block that is written then.
#[test]
fn fetched_blocks_are_given(rt: HostRuntime) -> Result<(), AllocError> {
    let bare = bare_after(
        rt.alloc(),
        Moves {
            times: 1,
            fetched: 1,
            writes: 1,
            ..Moves::NONE
        },
    )?;
    holds(&rt, "the answer", bare.answer(), 0xEE, 1);
    holds(&rt, "the block", bare.disks(), 0x22, 0b0000_0001);
    Ok(())
}

// 22 and 44 make 66.
#[test]
fn blocks_are_added(rt: HostRuntime) -> Result<(), AllocError> {
    let bare = bare_after(
        rt.alloc(),
        Moves {
            times: 1,
            sums: 1,
            writes: 1,
            ..Moves::NONE
        },
    )?;
    holds(&rt, "the sum", bare.disks(), 0x66, 1);
    Ok(())
}

fn is_named(rt: &impl Abort, workload: Workload) {
    let name = workload.name();
    assert!(rt; Workload::of_name(name) == Some(workload), "{name}");
}

#[test]
fn every_workload_has_a_name_of_its_own(rt: HostRuntime) {
    for workload in Workload::ALL {
        is_named(&rt, workload);
    }
    assert!(rt; Workload::of_name("fil").is_none());
}

fn is_printed<R: Abort + AllocGlobal>(
    rt: &R,
    value: &impl Display,
    wanted: &str,
) -> Result<(), AllocError> {
    let text = format!(in rt.alloc(); "{value}")?;
    assert!(rt; text.as_str() == wanted, "{text}");
    Ok(())
}

// 2,000 blocks of 1,024 bytes in 1.25 ms, for which the bare loop takes a little more than 1 ms.
#[test]
fn the_line_of_a_workload(rt: HostRuntime) -> Result<(), AllocError> {
    let figures = Figures {
        operations: 2_000,
        bytes: 2_048_000,
        array: 1_250_000,
        bare: 1_000_001,
    };
    is_printed(
        &rt,
        &figures,
        "      2000 ops   1600000 ops/s   1638 MB/s   1.25 of the bare loop",
    )
}

// A clock that doesn't move divides nothing by zero.
#[test]
fn no_time_at_all(rt: HostRuntime) -> Result<(), AllocError> {
    let figures = Figures {
        operations: 1,
        bytes: 512,
        array: 0,
        bare: 0,
    };
    is_printed(
        &rt,
        &figures,
        "         1 ops 1000000000 ops/s 512000 MB/s   0.00 of the bare loop",
    )
}

// 3 GB copied in 2 s, and 1 GB added in a quarter of a second.
#[test]
fn the_line_of_the_machine(rt: HostRuntime) -> Result<(), AllocError> {
    let machine = Machine {
        copied: 3_000_000_000,
        copying: 2_000_000_000,
        added: 1_000_000_000,
        adding: 250_000_000,
    };
    is_printed(&rt, &machine, "machine copies 1500 MB/s, adds 4000 MB/s")
}

#[test]
fn faults_are_reported(rt: HostRuntime) -> Result<(), AllocError> {
    for (fault, text) in [
        (WorkloadFault::NoMemory, "no memory"),
        (
            WorkloadFault::Command("fill"),
            "fill: a command was not GOOD",
        ),
        (
            WorkloadFault::Background("clean"),
            "clean: an event in the background moved no block, or one too many",
        ),
        (
            WorkloadFault::Level("read"),
            "read: a block stands at another level",
        ),
        (
            WorkloadFault::Health("read"),
            "read: a disk is out, or none is",
        ),
    ] {
        is_printed(&rt, &fault, text)?;
    }
    Ok(())
}
