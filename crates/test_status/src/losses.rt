// What a status shows of failures: of a store, and of the disks that an array has lost which has failed.
use crate::rig::{array_in, shows};
use ar_status::{ArrayHealth, StoreHealth, StoreNumbers};
use std::hash::RandomState;

const JSON: &[u8] = b"GET /status.json HTTP/1.1\r\nHost: h\r\n\r\n";

const METRICS: &[u8] = b"GET /metrics HTTP/1.1\r\nHost: h\r\n\r\n";

// A store in this state.
fn store_in(state: StoreHealth) -> Option<StoreNumbers> {
    Some(StoreNumbers {
        state,
        log_bytes: 21,
        waiting_bytes: 22,
        commits: u64::MAX,
        checkpoints: 24,
    })
}

#[test]
fn a_store_as_json(rt: HostRuntime) {
    let keys = RandomState::new(&rt).expect(&rt, "keys");
    let mut array = array_in(ArrayHealth::Whole);
    for (state, wanted) in [
        (
            StoreHealth::Sound,
            "4096,\"store\":{\"state\":\"sound\",\"log_bytes\":21,\"waiting_bytes\":22,\
             \"commits\":18446744073709551615,\"checkpoints\":24},\"hosts\":[",
        ),
        (
            StoreHealth::Degraded,
            "\"store\":{\"state\":\"degraded\",\"log_bytes\":21,",
        ),
        (
            StoreHealth::Failing,
            "\"store\":{\"state\":\"failing\",\"log_bytes\":21,",
        ),
        (
            StoreHealth::GivenUp,
            "\"store\":{\"state\":\"given_up\",\"log_bytes\":21,",
        ),
    ] {
        array.status.store = store_in(state);
        shows(&rt, rt.alloc(), keys, &array, JSON, wanted);
    }
}

const FAILING: &str = "\
autoraid_history_bytes 4096
# HELP autoraid_unit_bytes Bytes of a unit, by its host and LUN.
# TYPE autoraid_unit_bytes gauge
autoraid_unit_bytes{host=\"0\",lun=\"0\"} 12288
autoraid_unit_bytes{host=\"3\",lun=\"7\"} 2199023255040
# HELP autoraid_store_state 1 for the state of the store, 0 for the others.
# TYPE autoraid_store_state gauge
autoraid_store_state{state=\"sound\"} 0
autoraid_store_state{state=\"degraded\"} 0
autoraid_store_state{state=\"failing\"} 1
autoraid_store_state{state=\"given_up\"} 0
# HELP autoraid_store_log_bytes Bytes of the store's log.
# TYPE autoraid_store_log_bytes gauge
autoraid_store_log_bytes 21
# HELP autoraid_store_commits_total Commits that have written records.
# TYPE autoraid_store_commits_total counter
autoraid_store_commits_total 18446744073709551615
# HELP autoraid_store_checkpoints_total Checkpoints that have replaced the log.
# TYPE autoraid_store_checkpoints_total counter
autoraid_store_checkpoints_total 24
# HELP autoraid_host_commands_total ";

const SOUND: &str = "\
autoraid_store_state{state=\"sound\"} 1
autoraid_store_state{state=\"degraded\"} 0
autoraid_store_state{state=\"failing\"} 0
autoraid_store_state{state=\"given_up\"} 0
";

const DEGRADED: &str = "\
autoraid_store_state{state=\"sound\"} 0
autoraid_store_state{state=\"degraded\"} 1
autoraid_store_state{state=\"failing\"} 0
autoraid_store_state{state=\"given_up\"} 0
";

const GIVEN_UP: &str = "\
autoraid_store_state{state=\"sound\"} 0
autoraid_store_state{state=\"degraded\"} 0
autoraid_store_state{state=\"failing\"} 0
autoraid_store_state{state=\"given_up\"} 1
";

#[test]
fn a_store_in_metrics(rt: HostRuntime) {
    let keys = RandomState::new(&rt).expect(&rt, "keys");
    let mut array = array_in(ArrayHealth::Whole);
    for (state, wanted) in [
        (StoreHealth::Sound, SOUND),
        (StoreHealth::Degraded, DEGRADED),
        (StoreHealth::Failing, FAILING),
        (StoreHealth::GivenUp, GIVEN_UP),
    ] {
        array.status.store = store_in(state);
        shows(&rt, rt.alloc(), keys, &array, METRICS, wanted);
    }
}

const LOST: &str = "\
autoraid_disk_lost{disk=\"0\"} 0
autoraid_disk_lost{disk=\"1\"} 1
autoraid_disk_lost{disk=\"2\"} 0
autoraid_disk_lost{disk=\"3\"} 0
autoraid_disk_lost{disk=\"4\"} 1
";

#[test]
fn lost_disks(rt: HostRuntime) {
    let keys = RandomState::new(&rt).expect(&rt, "keys");
    let mut array = array_in(ArrayHealth::Broken);
    array.status.lost_disks = Some([1, 4]);
    let wanted = "\"health\":{\"state\":\"broken\"},\"lost_disks\":[1,4],\"disks\":5,";
    shows(&rt, rt.alloc(), keys, &array, JSON, wanted);
    shows(&rt, rt.alloc(), keys, &array, METRICS, LOST);
}
