// Each path, byte for byte.
use crate::rig::{PICTURE, Wanted, array_in, responds};
use ar_status::{ArrayHealth, PAGE};
use std::hash::RandomState;
use std::str;

const REBUILDING: ArrayHealth = ArrayHealth::Rebuilding { disk: 3, done: 12 };

const PLAIN: &str = "text/plain; charset=utf-8";

// A response with code 200.
fn found<'a>(media_type: &'a str, body: &'a str) -> Wanted<'a> {
    Wanted {
        code: "200 OK",
        media_type,
        more: "",
        body,
    }
}

#[test]
fn page_and_picture(rt: HostRuntime) {
    let keys = RandomState::new(&rt).expect(&rt, "keys");
    let picture = str::from_utf8(PICTURE).expect(&rt, "text");
    for (request, wanted) in [
        (
            &b"GET / HTTP/1.1\r\nHost: h\r\n\r\n"[..],
            found("text/html; charset=utf-8", PAGE),
        ),
        (
            b"HEAD / HTTP/1.1\r\nHost: h\r\n\r\n",
            found("text/html; charset=utf-8", PAGE),
        ),
        (
            b"GET /?a=b HTTP/1.1\r\nHost: h\r\n\r\n",
            found("text/html; charset=utf-8", PAGE),
        ),
        (
            b"GET /picture.svg HTTP/1.1\r\nHost: h\r\n\r\n",
            found("image/svg+xml", picture),
        ),
        (
            b"HEAD /picture.svg HTTP/1.1\r\nHost: h\r\n\r\n",
            found("image/svg+xml", picture),
        ),
    ] {
        responds(
            &rt,
            rt.alloc(),
            keys,
            &array_in(REBUILDING),
            request,
            wanted,
        );
    }
}

const JSON: &str = "\
{\"version\":\"0.4.0\",\
\"latency_bounds_micros\":[50,100,250,500,1000,2500,10000,50000,250000,1000000,10000000],\
\"name\":\"the \\\"first\\\"\",\
\"uptime_seconds\":61,\"health\":{\"state\":\"rebuilding\",\"disk\":3,\"done\":12},\"lost_disks\":null,\
\"disks\":5,\"spares\":2,\"extents\":64,\"extent_rows\":2,\"disk_counters\":[\
{\"accesses\":18446744073709551615,\"errors\":0},{\"accesses\":0,\"errors\":0},{\"accesses\":0,\"errors\":0},\
{\"accesses\":0,\"errors\":0},{\"accesses\":31,\"errors\":2}],\
\"free_groups\":7,\"block_bytes\":1024,\"room_blocks\":18,\"unit_sectors\":[\
[24,null,null,null,null,null,null,null],[null,null,null,null,null,null,null,null],\
[null,null,null,null,null,null,null,null],[null,null,null,null,null,null,null,4294967295]],\"cached_blocks\":10,\
\"history_entries\":9,\"history_bytes\":4096,\"store\":null,\"hosts\":[\
{\"commands\":1,\"read_bytes\":2,\"written_bytes\":3,\"replies\":{\
\"test_unit_ready\":{\"good\":100,\"check_condition\":101,\"busy\":102},\
\"inquiry\":{\"good\":110,\"check_condition\":111,\"busy\":112},\
\"read_capacity\":{\"good\":120,\"check_condition\":121,\"busy\":122},\
\"read\":{\"good\":130,\"check_condition\":131,\"busy\":132},\
\"write\":{\"good\":140,\"check_condition\":141,\"busy\":142},\
\"other\":{\"good\":150,\"check_condition\":151,\"busy\":152}}},\
{\"commands\":0,\"read_bytes\":0,\"written_bytes\":0,\"replies\":{\
\"test_unit_ready\":{\"good\":0,\"check_condition\":1,\"busy\":2},\
\"inquiry\":{\"good\":10,\"check_condition\":11,\"busy\":12},\
\"read_capacity\":{\"good\":20,\"check_condition\":21,\"busy\":22},\
\"read\":{\"good\":30,\"check_condition\":31,\"busy\":32},\
\"write\":{\"good\":40,\"check_condition\":41,\"busy\":42},\
\"other\":{\"good\":50,\"check_condition\":51,\"busy\":52}}},\
{\"commands\":18446744073709551615,\"read_bytes\":7,\"written_bytes\":8,\"replies\":{\
\"test_unit_ready\":{\"good\":200,\"check_condition\":201,\"busy\":202},\
\"inquiry\":{\"good\":210,\"check_condition\":211,\"busy\":212},\
\"read_capacity\":{\"good\":220,\"check_condition\":221,\"busy\":222},\
\"read\":{\"good\":230,\"check_condition\":231,\"busy\":232},\
\"write\":{\"good\":240,\"check_condition\":241,\"busy\":242},\
\"other\":{\"good\":250,\"check_condition\":251,\"busy\":252}}},\
{\"commands\":4,\"read_bytes\":5,\"written_bytes\":6,\"replies\":{\
\"test_unit_ready\":{\"good\":300,\"check_condition\":301,\"busy\":302},\
\"inquiry\":{\"good\":310,\"check_condition\":311,\"busy\":312},\
\"read_capacity\":{\"good\":320,\"check_condition\":321,\"busy\":322},\
\"read\":{\"good\":330,\"check_condition\":331,\"busy\":332},\
\"write\":{\"good\":340,\"check_condition\":341,\"busy\":342},\
\"other\":{\"good\":350,\"check_condition\":351,\"busy\":352}}}],\
\"latencies\":{\"read\":{\"buckets\":[1,2,3,4,5,6,7,8,9,10,11,12],\"sum_micros\":1000023},\
\"write\":{\"buckets\":[0,0,0,0,0,0,0,0,0,0,0,0],\"sum_micros\":0},\
\"synchronize_cache\":{\"buckets\":[0,0,0,0,0,0,0,0,0,0,0,1],\"sum_micros\":18446744073709551615},\
\"other\":{\"buckets\":[7,0,0,0,0,0,0,0,0,0,0,0],\"sum_micros\":70}},\
\"sessions\":{\"hosts\":[true,false,false,false],\"discovery\":2},\"refused_logins\":{\"iscsi\":15,\"operators\":16},\
\"steps\":{\"flush\":1,\"demote\":2,\"clean\":3,\"balance\":4,\"rebuild\":5},\
\"counters\":{\"promotions\":11,\"squeezes\":12,\"cache_hits\":13,\"destages\":18446744073709551615,\"discards\":14},\
\"events\":[{\"seconds\":60,\"kind\":\"disk_replaced\",\"disk\":3},\
{\"seconds\":7,\"kind\":\"disk_failed\",\"disk\":3}],\
\"samples\":[{\"seconds\":61,\"spell\":6,\"commands\":0,\"bytes\":0,\"slowest\":null},\
{\"seconds\":55,\"spell\":5,\"commands\":6,\"bytes\":7,\"slowest\":11}],\"inventory\":{\
\"usage\":{\"room_sectors\":36,\"mirrored_sectors\":1,\"parity_sectors\":2,\"unwritten_sectors\":18446744073709551615},\
\"units\":[{\"host\":0,\"lun\":0,\"serial_number\":\"0A0B0C0D0000\",\"sectors\":24,\"blocks\":12,\
\"written_blocks\":4,\"cached_blocks\":3},\
{\"host\":3,\"lun\":7,\"serial_number\":null,\"sectors\":24,\"blocks\":12,\"written_blocks\":4,\"cached_blocks\":3}],\
\"disks\":[{\"disk\":0,\"state\":\"in use\",\"extents_used\":5,\"accesses\":31,\"errors\":2,\
\"extents_rebuilt\":null,\"seconds_left\":null},\
{\"disk\":1,\"state\":\"rebuilding\",\"extents_used\":5,\"accesses\":31,\"errors\":2,\
\"extents_rebuilt\":12,\"seconds_left\":42},\
{\"disk\":2,\"state\":\"rebuilding\",\"extents_used\":5,\"accesses\":31,\"errors\":2,\
\"extents_rebuilt\":0,\"seconds_left\":null}],\
\"host_sessions\":[{\"host\":0,\"peer_port\":null,\"commands\":21,\"read_bytes\":22,\"written_bytes\":23},\
{\"host\":3,\"peer_port\":41205,\"commands\":18446744073709551615,\"read_bytes\":0,\"written_bytes\":0}],\
\"iscsi_sessions\":[{\"number\":1,\"host\":0,\"peer_port\":41204,\"initiator\":\"iqn.2026-11.example:a\"},\
{\"number\":2,\"host\":null,\"peer_port\":null,\"initiator\":\"?\"}]}}";

#[test]
fn status_as_json(rt: HostRuntime) {
    let keys = RandomState::new(&rt).expect(&rt, "keys");
    for request in [
        &b"GET /status.json HTTP/1.1\r\nHost: h\r\n\r\n"[..],
        b"HEAD /status.json HTTP/1.1\r\nHost: h\r\n\r\n",
    ] {
        let wanted = found("application/json", JSON);
        responds(
            &rt,
            rt.alloc(),
            keys,
            &array_in(REBUILDING),
            request,
            wanted,
        );
    }
}

const METRICS: &str = "\
# HELP autoraid_build_info 1, with the program's version.
# TYPE autoraid_build_info gauge
autoraid_build_info{version=\"0.4.0\"} 1
# HELP autoraid_uptime_seconds Seconds since the start.
# TYPE autoraid_uptime_seconds gauge
autoraid_uptime_seconds 61
# HELP autoraid_disks Disks.
# TYPE autoraid_disks gauge
autoraid_disks 5
# HELP autoraid_spare_disks Spare disks that are left.
# TYPE autoraid_spare_disks gauge
autoraid_spare_disks 2
# HELP autoraid_disk_extents Extents of each disk.
# TYPE autoraid_disk_extents gauge
autoraid_disk_extents 64
# HELP autoraid_disk_bytes Bytes of each disk.
# TYPE autoraid_disk_bytes gauge
autoraid_disk_bytes 131072
# HELP autoraid_rebuild_extents_left Extents to be rebuilt.
# TYPE autoraid_rebuild_extents_left gauge
autoraid_rebuild_extents_left 52
# HELP autoraid_state 1 for the state of the array, 0 for the others.
# TYPE autoraid_state gauge
autoraid_state{state=\"whole\"} 0
autoraid_state{state=\"out\"} 0
autoraid_state{state=\"rebuilding\"} 1
autoraid_state{state=\"broken\"} 0
# HELP autoraid_disk_healthy 1 for a disk that is present and rebuilt.
# TYPE autoraid_disk_healthy gauge
autoraid_disk_healthy{disk=\"0\"} 1
autoraid_disk_healthy{disk=\"1\"} 1
autoraid_disk_healthy{disk=\"2\"} 1
autoraid_disk_healthy{disk=\"3\"} 0
autoraid_disk_healthy{disk=\"4\"} 1
# HELP autoraid_disk_lost 1 for a disk that was missing when the array failed.
# TYPE autoraid_disk_lost gauge
autoraid_disk_lost{disk=\"0\"} 0
autoraid_disk_lost{disk=\"1\"} 0
autoraid_disk_lost{disk=\"2\"} 0
autoraid_disk_lost{disk=\"3\"} 0
autoraid_disk_lost{disk=\"4\"} 0
# HELP autoraid_disk_accesses_total Rows of a disk that were accessed.
# TYPE autoraid_disk_accesses_total counter
autoraid_disk_accesses_total{disk=\"0\"} 18446744073709551615
autoraid_disk_accesses_total{disk=\"1\"} 0
autoraid_disk_accesses_total{disk=\"2\"} 0
autoraid_disk_accesses_total{disk=\"3\"} 0
autoraid_disk_accesses_total{disk=\"4\"} 31
# HELP autoraid_disk_errors_total Accesses to a disk that failed.
# TYPE autoraid_disk_errors_total counter
autoraid_disk_errors_total{disk=\"0\"} 0
autoraid_disk_errors_total{disk=\"1\"} 0
autoraid_disk_errors_total{disk=\"2\"} 0
autoraid_disk_errors_total{disk=\"3\"} 0
autoraid_disk_errors_total{disk=\"4\"} 2
# HELP autoraid_free_groups Groups that hold no block.
# TYPE autoraid_free_groups gauge
autoraid_free_groups 7
# HELP autoraid_block_bytes Bytes of a block.
# TYPE autoraid_block_bytes gauge
autoraid_block_bytes 1024
# HELP autoraid_room_blocks Blocks that units may be given.
# TYPE autoraid_room_blocks gauge
autoraid_room_blocks 18
# HELP autoraid_cached_blocks Blocks in the cache.
# TYPE autoraid_cached_blocks gauge
autoraid_cached_blocks 10
# HELP autoraid_history_entries Entries of the stored history.
# TYPE autoraid_history_entries gauge
autoraid_history_entries 9
# HELP autoraid_history_bytes Memory of the stored history, at least.
# TYPE autoraid_history_bytes gauge
autoraid_history_bytes 4096
# HELP autoraid_unit_bytes Bytes of a unit, by its host and LUN.
# TYPE autoraid_unit_bytes gauge
autoraid_unit_bytes{host=\"0\",lun=\"0\"} 12288
autoraid_unit_bytes{host=\"3\",lun=\"7\"} 2199023255040
# HELP autoraid_host_commands_total Commands of hosts, by their operation and the status of the reply.
# TYPE autoraid_host_commands_total counter
autoraid_host_commands_total{host=\"0\",operation=\"test_unit_ready\",status=\"good\"} 100
autoraid_host_commands_total{host=\"0\",operation=\"test_unit_ready\",status=\"check_condition\"} 101
autoraid_host_commands_total{host=\"0\",operation=\"test_unit_ready\",status=\"busy\"} 102
autoraid_host_commands_total{host=\"0\",operation=\"inquiry\",status=\"good\"} 110
autoraid_host_commands_total{host=\"0\",operation=\"inquiry\",status=\"check_condition\"} 111
autoraid_host_commands_total{host=\"0\",operation=\"inquiry\",status=\"busy\"} 112
autoraid_host_commands_total{host=\"0\",operation=\"read_capacity\",status=\"good\"} 120
autoraid_host_commands_total{host=\"0\",operation=\"read_capacity\",status=\"check_condition\"} 121
autoraid_host_commands_total{host=\"0\",operation=\"read_capacity\",status=\"busy\"} 122
autoraid_host_commands_total{host=\"0\",operation=\"read\",status=\"good\"} 130
autoraid_host_commands_total{host=\"0\",operation=\"read\",status=\"check_condition\"} 131
autoraid_host_commands_total{host=\"0\",operation=\"read\",status=\"busy\"} 132
autoraid_host_commands_total{host=\"0\",operation=\"write\",status=\"good\"} 140
autoraid_host_commands_total{host=\"0\",operation=\"write\",status=\"check_condition\"} 141
autoraid_host_commands_total{host=\"0\",operation=\"write\",status=\"busy\"} 142
autoraid_host_commands_total{host=\"0\",operation=\"other\",status=\"good\"} 150
autoraid_host_commands_total{host=\"0\",operation=\"other\",status=\"check_condition\"} 151
autoraid_host_commands_total{host=\"0\",operation=\"other\",status=\"busy\"} 152
autoraid_host_commands_total{host=\"1\",operation=\"test_unit_ready\",status=\"good\"} 0
autoraid_host_commands_total{host=\"1\",operation=\"test_unit_ready\",status=\"check_condition\"} 1
autoraid_host_commands_total{host=\"1\",operation=\"test_unit_ready\",status=\"busy\"} 2
autoraid_host_commands_total{host=\"1\",operation=\"inquiry\",status=\"good\"} 10
autoraid_host_commands_total{host=\"1\",operation=\"inquiry\",status=\"check_condition\"} 11
autoraid_host_commands_total{host=\"1\",operation=\"inquiry\",status=\"busy\"} 12
autoraid_host_commands_total{host=\"1\",operation=\"read_capacity\",status=\"good\"} 20
autoraid_host_commands_total{host=\"1\",operation=\"read_capacity\",status=\"check_condition\"} 21
autoraid_host_commands_total{host=\"1\",operation=\"read_capacity\",status=\"busy\"} 22
autoraid_host_commands_total{host=\"1\",operation=\"read\",status=\"good\"} 30
autoraid_host_commands_total{host=\"1\",operation=\"read\",status=\"check_condition\"} 31
autoraid_host_commands_total{host=\"1\",operation=\"read\",status=\"busy\"} 32
autoraid_host_commands_total{host=\"1\",operation=\"write\",status=\"good\"} 40
autoraid_host_commands_total{host=\"1\",operation=\"write\",status=\"check_condition\"} 41
autoraid_host_commands_total{host=\"1\",operation=\"write\",status=\"busy\"} 42
autoraid_host_commands_total{host=\"1\",operation=\"other\",status=\"good\"} 50
autoraid_host_commands_total{host=\"1\",operation=\"other\",status=\"check_condition\"} 51
autoraid_host_commands_total{host=\"1\",operation=\"other\",status=\"busy\"} 52
autoraid_host_commands_total{host=\"2\",operation=\"test_unit_ready\",status=\"good\"} 200
autoraid_host_commands_total{host=\"2\",operation=\"test_unit_ready\",status=\"check_condition\"} 201
autoraid_host_commands_total{host=\"2\",operation=\"test_unit_ready\",status=\"busy\"} 202
autoraid_host_commands_total{host=\"2\",operation=\"inquiry\",status=\"good\"} 210
autoraid_host_commands_total{host=\"2\",operation=\"inquiry\",status=\"check_condition\"} 211
autoraid_host_commands_total{host=\"2\",operation=\"inquiry\",status=\"busy\"} 212
autoraid_host_commands_total{host=\"2\",operation=\"read_capacity\",status=\"good\"} 220
autoraid_host_commands_total{host=\"2\",operation=\"read_capacity\",status=\"check_condition\"} 221
autoraid_host_commands_total{host=\"2\",operation=\"read_capacity\",status=\"busy\"} 222
autoraid_host_commands_total{host=\"2\",operation=\"read\",status=\"good\"} 230
autoraid_host_commands_total{host=\"2\",operation=\"read\",status=\"check_condition\"} 231
autoraid_host_commands_total{host=\"2\",operation=\"read\",status=\"busy\"} 232
autoraid_host_commands_total{host=\"2\",operation=\"write\",status=\"good\"} 240
autoraid_host_commands_total{host=\"2\",operation=\"write\",status=\"check_condition\"} 241
autoraid_host_commands_total{host=\"2\",operation=\"write\",status=\"busy\"} 242
autoraid_host_commands_total{host=\"2\",operation=\"other\",status=\"good\"} 250
autoraid_host_commands_total{host=\"2\",operation=\"other\",status=\"check_condition\"} 251
autoraid_host_commands_total{host=\"2\",operation=\"other\",status=\"busy\"} 252
autoraid_host_commands_total{host=\"3\",operation=\"test_unit_ready\",status=\"good\"} 300
autoraid_host_commands_total{host=\"3\",operation=\"test_unit_ready\",status=\"check_condition\"} 301
autoraid_host_commands_total{host=\"3\",operation=\"test_unit_ready\",status=\"busy\"} 302
autoraid_host_commands_total{host=\"3\",operation=\"inquiry\",status=\"good\"} 310
autoraid_host_commands_total{host=\"3\",operation=\"inquiry\",status=\"check_condition\"} 311
autoraid_host_commands_total{host=\"3\",operation=\"inquiry\",status=\"busy\"} 312
autoraid_host_commands_total{host=\"3\",operation=\"read_capacity\",status=\"good\"} 320
autoraid_host_commands_total{host=\"3\",operation=\"read_capacity\",status=\"check_condition\"} 321
autoraid_host_commands_total{host=\"3\",operation=\"read_capacity\",status=\"busy\"} 322
autoraid_host_commands_total{host=\"3\",operation=\"read\",status=\"good\"} 330
autoraid_host_commands_total{host=\"3\",operation=\"read\",status=\"check_condition\"} 331
autoraid_host_commands_total{host=\"3\",operation=\"read\",status=\"busy\"} 332
autoraid_host_commands_total{host=\"3\",operation=\"write\",status=\"good\"} 340
autoraid_host_commands_total{host=\"3\",operation=\"write\",status=\"check_condition\"} 341
autoraid_host_commands_total{host=\"3\",operation=\"write\",status=\"busy\"} 342
autoraid_host_commands_total{host=\"3\",operation=\"other\",status=\"good\"} 350
autoraid_host_commands_total{host=\"3\",operation=\"other\",status=\"check_condition\"} 351
autoraid_host_commands_total{host=\"3\",operation=\"other\",status=\"busy\"} 352
# HELP autoraid_host_read_bytes_total Bytes returned to hosts.
# TYPE autoraid_host_read_bytes_total counter
autoraid_host_read_bytes_total{host=\"0\"} 2
autoraid_host_read_bytes_total{host=\"1\"} 0
autoraid_host_read_bytes_total{host=\"2\"} 7
autoraid_host_read_bytes_total{host=\"3\"} 5
# HELP autoraid_host_written_bytes_total Bytes that hosts wrote.
# TYPE autoraid_host_written_bytes_total counter
autoraid_host_written_bytes_total{host=\"0\"} 3
autoraid_host_written_bytes_total{host=\"1\"} 0
autoraid_host_written_bytes_total{host=\"2\"} 8
autoraid_host_written_bytes_total{host=\"3\"} 6
# HELP autoraid_command_seconds How long commands took.
# TYPE autoraid_command_seconds histogram
autoraid_command_seconds_bucket{operation=\"read\",le=\"0.00005\"} 1
autoraid_command_seconds_bucket{operation=\"read\",le=\"0.0001\"} 3
autoraid_command_seconds_bucket{operation=\"read\",le=\"0.00025\"} 6
autoraid_command_seconds_bucket{operation=\"read\",le=\"0.0005\"} 10
autoraid_command_seconds_bucket{operation=\"read\",le=\"0.001\"} 15
autoraid_command_seconds_bucket{operation=\"read\",le=\"0.0025\"} 21
autoraid_command_seconds_bucket{operation=\"read\",le=\"0.01\"} 28
autoraid_command_seconds_bucket{operation=\"read\",le=\"0.05\"} 36
autoraid_command_seconds_bucket{operation=\"read\",le=\"0.25\"} 45
autoraid_command_seconds_bucket{operation=\"read\",le=\"1\"} 55
autoraid_command_seconds_bucket{operation=\"read\",le=\"10\"} 66
autoraid_command_seconds_bucket{operation=\"read\",le=\"+Inf\"} 78
autoraid_command_seconds_sum{operation=\"read\"} 1.000023
autoraid_command_seconds_count{operation=\"read\"} 78
autoraid_command_seconds_bucket{operation=\"write\",le=\"0.00005\"} 0
autoraid_command_seconds_bucket{operation=\"write\",le=\"0.0001\"} 0
autoraid_command_seconds_bucket{operation=\"write\",le=\"0.00025\"} 0
autoraid_command_seconds_bucket{operation=\"write\",le=\"0.0005\"} 0
autoraid_command_seconds_bucket{operation=\"write\",le=\"0.001\"} 0
autoraid_command_seconds_bucket{operation=\"write\",le=\"0.0025\"} 0
autoraid_command_seconds_bucket{operation=\"write\",le=\"0.01\"} 0
autoraid_command_seconds_bucket{operation=\"write\",le=\"0.05\"} 0
autoraid_command_seconds_bucket{operation=\"write\",le=\"0.25\"} 0
autoraid_command_seconds_bucket{operation=\"write\",le=\"1\"} 0
autoraid_command_seconds_bucket{operation=\"write\",le=\"10\"} 0
autoraid_command_seconds_bucket{operation=\"write\",le=\"+Inf\"} 0
autoraid_command_seconds_sum{operation=\"write\"} 0.000000
autoraid_command_seconds_count{operation=\"write\"} 0
autoraid_command_seconds_bucket{operation=\"synchronize_cache\",le=\"0.00005\"} 0
autoraid_command_seconds_bucket{operation=\"synchronize_cache\",le=\"0.0001\"} 0
autoraid_command_seconds_bucket{operation=\"synchronize_cache\",le=\"0.00025\"} 0
autoraid_command_seconds_bucket{operation=\"synchronize_cache\",le=\"0.0005\"} 0
autoraid_command_seconds_bucket{operation=\"synchronize_cache\",le=\"0.001\"} 0
autoraid_command_seconds_bucket{operation=\"synchronize_cache\",le=\"0.0025\"} 0
autoraid_command_seconds_bucket{operation=\"synchronize_cache\",le=\"0.01\"} 0
autoraid_command_seconds_bucket{operation=\"synchronize_cache\",le=\"0.05\"} 0
autoraid_command_seconds_bucket{operation=\"synchronize_cache\",le=\"0.25\"} 0
autoraid_command_seconds_bucket{operation=\"synchronize_cache\",le=\"1\"} 0
autoraid_command_seconds_bucket{operation=\"synchronize_cache\",le=\"10\"} 0
autoraid_command_seconds_bucket{operation=\"synchronize_cache\",le=\"+Inf\"} 1
autoraid_command_seconds_sum{operation=\"synchronize_cache\"} 18446744073709.551615
autoraid_command_seconds_count{operation=\"synchronize_cache\"} 1
autoraid_command_seconds_bucket{operation=\"other\",le=\"0.00005\"} 7
autoraid_command_seconds_bucket{operation=\"other\",le=\"0.0001\"} 7
autoraid_command_seconds_bucket{operation=\"other\",le=\"0.00025\"} 7
autoraid_command_seconds_bucket{operation=\"other\",le=\"0.0005\"} 7
autoraid_command_seconds_bucket{operation=\"other\",le=\"0.001\"} 7
autoraid_command_seconds_bucket{operation=\"other\",le=\"0.0025\"} 7
autoraid_command_seconds_bucket{operation=\"other\",le=\"0.01\"} 7
autoraid_command_seconds_bucket{operation=\"other\",le=\"0.05\"} 7
autoraid_command_seconds_bucket{operation=\"other\",le=\"0.25\"} 7
autoraid_command_seconds_bucket{operation=\"other\",le=\"1\"} 7
autoraid_command_seconds_bucket{operation=\"other\",le=\"10\"} 7
autoraid_command_seconds_bucket{operation=\"other\",le=\"+Inf\"} 7
autoraid_command_seconds_sum{operation=\"other\"} 0.000070
autoraid_command_seconds_count{operation=\"other\"} 7
# HELP autoraid_host_sessions 1 for a host that is logged in.
# TYPE autoraid_host_sessions gauge
autoraid_host_sessions{host=\"0\"} 1
autoraid_host_sessions{host=\"1\"} 0
autoraid_host_sessions{host=\"2\"} 0
autoraid_host_sessions{host=\"3\"} 0
# HELP autoraid_discovery_sessions iSCSI sessions for discovery.
# TYPE autoraid_discovery_sessions gauge
autoraid_discovery_sessions 2
# HELP autoraid_refused_logins_total Logins that were refused, by door.
# TYPE autoraid_refused_logins_total counter
autoraid_refused_logins_total{door=\"iscsi\"} 15
autoraid_refused_logins_total{door=\"operators\"} 16
# HELP autoraid_maintenance_steps_total Steps that did something.
# TYPE autoraid_maintenance_steps_total counter
autoraid_maintenance_steps_total{kind=\"flush\"} 1
autoraid_maintenance_steps_total{kind=\"demote\"} 2
autoraid_maintenance_steps_total{kind=\"clean\"} 3
autoraid_maintenance_steps_total{kind=\"balance\"} 4
autoraid_maintenance_steps_total{kind=\"rebuild\"} 5
# HELP autoraid_promotions_total Writes that moved a block from a parity group to a mirrored one.
# TYPE autoraid_promotions_total counter
autoraid_promotions_total 11
# HELP autoraid_squeezes_total Mirrored groups that were moved to a parity group to make room for a write.
# TYPE autoraid_squeezes_total counter
autoraid_squeezes_total 12
# HELP autoraid_cache_hits_total Blocks to be read that were in the cache.
# TYPE autoraid_cache_hits_total counter
autoraid_cache_hits_total 13
# HELP autoraid_destages_total Cached blocks that were written back.
# TYPE autoraid_destages_total counter
autoraid_destages_total 18446744073709551615
# HELP autoraid_discards_total Blocks of which all sectors were discarded at once.
# TYPE autoraid_discards_total counter
autoraid_discards_total 14
";

#[test]
fn metrics_for_prometheus(rt: HostRuntime) {
    let keys = RandomState::new(&rt).expect(&rt, "keys");
    for request in [
        &b"GET /metrics HTTP/1.1\r\nHost: h\r\n\r\n"[..],
        b"HEAD /metrics HTTP/1.1\r\nHost: h\r\n\r\n",
    ] {
        let wanted = found("text/plain; version=0.0.4; charset=utf-8", METRICS);
        responds(
            &rt,
            rt.alloc(),
            keys,
            &array_in(REBUILDING),
            request,
            wanted,
        );
    }
}

#[test]
fn health(rt: HostRuntime) {
    let keys = RandomState::new(&rt).expect(&rt, "keys");
    for (health, code, body) in [
        (ArrayHealth::Whole, "200 OK", "whole\n"),
        (
            ArrayHealth::Out { disk: 3 },
            "503 Service Unavailable",
            "out 3\n",
        ),
        (REBUILDING, "503 Service Unavailable", "rebuilding 3 12\n"),
        (ArrayHealth::Broken, "503 Service Unavailable", "broken\n"),
    ] {
        let wanted = Wanted {
            code,
            media_type: PLAIN,
            more: "",
            body,
        };
        let get = b"GET /healthz/whole HTTP/1.1\r\nHost: h\r\n\r\n";
        responds(&rt, rt.alloc(), keys, &array_in(health), get, wanted);
        let head = b"HEAD /healthz/whole HTTP/1.1\r\nHost: h\r\n\r\n";
        responds(&rt, rt.alloc(), keys, &array_in(health), head, wanted);
    }
}

#[test]
fn serving(rt: HostRuntime) {
    let keys = RandomState::new(&rt).expect(&rt, "keys");
    for (health, code, body) in [
        (ArrayHealth::Whole, "200 OK", "serves\n"),
        (ArrayHealth::Out { disk: 3 }, "200 OK", "serves\n"),
        (REBUILDING, "200 OK", "serves\n"),
        (ArrayHealth::Broken, "503 Service Unavailable", "broken\n"),
    ] {
        let wanted = Wanted {
            code,
            media_type: PLAIN,
            more: "",
            body,
        };
        let get = b"GET /healthz HTTP/1.1\r\nHost: h\r\n\r\n";
        responds(&rt, rt.alloc(), keys, &array_in(health), get, wanted);
    }
}

const SERVES: Wanted<'static> = Wanted {
    code: "200 OK",
    media_type: PLAIN,
    more: "",
    body: "serves\n",
};

// The server is asked by name: those of this machine, with or without a port, and the one that is given.
#[test]
fn names_of_the_server(rt: HostRuntime) {
    let keys = RandomState::new(&rt).expect(&rt, "keys");
    for request in [
        &b"GET /healthz HTTP/1.1\r\nHost: 127.0.0.1\r\n\r\n"[..],
        b"GET /healthz HTTP/1.1\r\nHost: 127.0.0.1:7119\r\n\r\n",
        b"GET /healthz HTTP/1.1\r\nHost: localhost\r\n\r\n",
        b"GET /healthz HTTP/1.1\r\nHost: LocalHost:1\r\n\r\n",
        b"GET /healthz HTTP/1.1\r\nHost: [::1]\r\n\r\n",
        b"GET /healthz HTTP/1.1\r\nHost: [::1]:65535\r\n\r\n",
        b"GET /healthz HTTP/1.1\r\nHost: h:7119\r\n\r\n",
        b"GET /healthz HTTP/1.1\r\nHost: H\r\n\r\n",
    ] {
        let array = array_in(ArrayHealth::Whole);
        responds(&rt, rt.alloc(), keys, &array, request, SERVES);
    }
}

// A page of another site that has resolved its own name to 127.0.0.1 learns nothing.
#[test]
fn names_of_others(rt: HostRuntime) {
    let keys = RandomState::new(&rt).expect(&rt, "keys");
    let wanted = Wanted {
        code: "421 Misdirected Request",
        media_type: PLAIN,
        more: "",
        body: "misdirected request\n",
    };
    for request in [
        &b"GET /healthz HTTP/1.1\r\nHost: evil.example\r\n\r\n"[..],
        b"GET / HTTP/1.1\r\nHost: evil.example:7119\r\n\r\n",
        b"GET /metrics HTTP/1.1\r\nHost: localhost.evil.example\r\n\r\n",
        b"GET /status.json HTTP/1.1\r\nHost: 127.0.0.1.evil.example\r\n\r\n",
        b"GET / HTTP/1.1\r\nHost: hh\r\n\r\n",
        b"GET / HTTP/1.1\r\nHost: xlocalhost\r\n\r\n",
        b"GET /nowhere HTTP/1.1\r\nHost: 127.0.0.2\r\n\r\n",
        b"POST / HTTP/1.1\r\nHost: evil.example\r\nContent-Length: 0\r\n\r\n",
    ] {
        let array = array_in(ArrayHealth::Whole);
        responds(&rt, rt.alloc(), keys, &array, request, wanted);
    }
}

#[test]
fn other_paths_and_methods(rt: HostRuntime) {
    let keys = RandomState::new(&rt).expect(&rt, "keys");
    let unknown = Wanted {
        code: "404 Not Found",
        media_type: PLAIN,
        more: "",
        body: "not found\n",
    };
    let not_allowed = Wanted {
        code: "405 Method Not Allowed",
        media_type: PLAIN,
        more: "allow: GET, HEAD\r\n",
        body: "method not allowed\n",
    };
    for (request, wanted) in [
        (
            &b"GET /favicon.ico HTTP/1.1\r\nHost: h\r\n\r\n"[..],
            unknown,
        ),
        (b"HEAD /metrics/ HTTP/1.1\r\nHost: h\r\n\r\n", unknown),
        (b"GET /Metrics HTTP/1.1\r\nHost: h\r\n\r\n", unknown),
        (
            b"POST / HTTP/1.1\r\nHost: h\r\nContent-Length: 0\r\n\r\n",
            not_allowed,
        ),
        (b"DELETE /metrics HTTP/1.1\r\nHost: h\r\n\r\n", not_allowed),
        (b"OPTIONS * HTTP/1.1\r\nHost: h\r\n\r\n", not_allowed),
        (b"get / HTTP/1.1\r\nHost: h\r\n\r\n", not_allowed),
        (
            b"FROBNICATE /nowhere HTTP/1.1\r\nHost: h\r\n\r\n",
            not_allowed,
        ),
        // A second request on the connection is not answered.
        (
            b"GET /nowhere HTTP/1.1\r\nHost: h\r\n\r\nGET / HTTP/1.1\r\nHost: h\r\n\r\n",
            unknown,
        ),
    ] {
        responds(
            &rt,
            rt.alloc(),
            keys,
            &array_in(REBUILDING),
            request,
            wanted,
        );
    }
}
