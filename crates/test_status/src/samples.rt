// What is noted of a status that is looked at again and again, and names of arrays.
use crate::rig::array_in;
use ar_status::{Activity, ArrayHealth, ArrayName, ArrayStatus, SAMPLES_MAX, Sample};
use std::process::Abort;

// A status after some seconds, commands of the first host, and bytes that it has read.
fn status_at(seconds: u64, commands: u64, read: u64) -> ArrayStatus {
    let mut status = array_in(ArrayHealth::Whole).status;
    status.uptime_seconds = seconds;
    status.hosts[0].commands = commands;
    status.hosts[0].read_bytes = read;
    status.hosts[2].commands = 0;
    status
}

fn is_sampled(rt: &impl Abort, activity: &Activity, wanted: &[Sample]) {
    let samples = activity.samples();
    let list = samples.as_slice();
    assert!(rt; list == wanted, "{list:?} instead of {wanted:?}");
}

#[test]
fn a_spell_has_five_seconds(rt: HostRuntime) {
    let mut activity = Activity::new();
    activity.look(&status_at(2, 10, 100));
    is_sampled(&rt, &activity, &[]);
    activity.look(&status_at(6, 15, 200));
    is_sampled(&rt, &activity, &[]);
    let mut status = status_at(7, 17, 300);
    status.hosts[3].written_bytes = 26;
    status.latencies.read.buckets[2] = 4;
    status.latencies.other.buckets[9] = 1;
    activity.look(&status);
    let first = Sample {
        seconds: 7,
        spell: 5,
        commands: 7,
        bytes: 220,
        slowest: Some(9),
    };
    is_sampled(&rt, &activity, &[first]);
    // A look that comes late makes the spell longer.
    status.uptime_seconds = 20;
    activity.look(&status);
    let second = Sample {
        seconds: 20,
        spell: 13,
        commands: 0,
        bytes: 0,
        slowest: None,
    };
    is_sampled(&rt, &activity, &[second, first]);
}

// An array that is looked at after some seconds in this health.
fn look_at(activity: &mut Activity, seconds: u64, health: ArrayHealth) -> Option<u64> {
    let mut status = array_in(health).status;
    status.uptime_seconds = seconds;
    activity.look(&status);
    activity.rebuild_seconds_left()
}

#[test]
fn a_rebuild_takes_as_long_as_its_pace_says(rt: HostRuntime) {
    let rebuilding = |disk, done| ArrayHealth::Rebuilding { disk, done };
    let mut activity = Activity::new();
    // Of 64 extents. Where no extent was rebuilt since the first look, nothing can be told.
    for (seconds, health, wanted) in [
        (5, ArrayHealth::Whole, None),
        (10, rebuilding(3, 4), None),
        (12, rebuilding(3, 4), None),
        (20, rebuilding(3, 14), Some(50)),
        (30, rebuilding(3, 44), Some(10)),
        (40, rebuilding(3, 64), Some(0)),
        (41, ArrayHealth::Whole, None),
        (50, rebuilding(3, 60), None),
        (51, rebuilding(3, 62), Some(1)),
        // (the disk was replaced again, and then another)
        (52, rebuilding(3, 1), None),
        (53, rebuilding(3, 2), Some(62)),
        (54, rebuilding(4, 2), None),
        (55, ArrayHealth::Out { disk: 4 }, None),
    ] {
        let left = look_at(&mut activity, seconds, health);
        assert!(&rt; left == wanted, "{left:?} seconds left after {seconds}");
    }
}

#[test]
fn the_oldest_samples_are_dropped(rt: HostRuntime) {
    let mut activity = Activity::new();
    for spell in 0..200_u64 {
        activity.look(&status_at(spell.saturating_mul(5), spell, 0));
    }
    let samples = activity.samples();
    let list = samples.as_slice();
    assert!(&rt; list.len() == SAMPLES_MAX, "{} samples", list.len());
    for (place, sample) in list.iter().enumerate() {
        let seconds = 199_u64.saturating_sub(place as u64).saturating_mul(5);
        let is_as_wanted = sample.seconds == seconds && sample.commands == 1;
        assert!(&rt; is_as_wanted, "sample {place} is {sample:?}");
    }
}

#[test]
fn counters_that_fall_count_nothing(rt: HostRuntime) {
    let mut activity = Activity::new();
    activity.look(&status_at(0, u64::MAX, u64::MAX));
    activity.look(&status_at(5, 3, 3));
    let wanted = Sample {
        seconds: 5,
        spell: 5,
        commands: 0,
        bytes: 0,
        slowest: None,
    };
    is_sampled(&rt, &activity, &[wanted]);
}

#[test]
fn names_have_at_most_64_bytes(rt: HostRuntime) {
    let (longest, longer) = ([b'n'; 64], [b'n'; 65]);
    for (bytes, wanted) in [
        (&longest[..], 64),
        (&longer[..], 0),
        (&b"a\xFF"[..], 0),
        (&b""[..], 0),
        ("K\u{fc}che".as_bytes(), 6),
    ] {
        let name = ArrayName::of(bytes);
        let len = name.as_str().len();
        assert!(&rt; len == wanted, "{len} bytes instead of {wanted}");
    }
}
