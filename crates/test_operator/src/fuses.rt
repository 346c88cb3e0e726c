// Disks that fail while the array works.
use crate::rig::{Play, plays};

// The six blocks are in slots of groups 0 and 1: four in group 0, which is extent 0 of each disk, and two in group 1.
#[test]
fn a_rebuild_meets_a_fault(rt: HostRuntime) {
    plays(
        &rt,
        rt.alloc(),
        Play::Written(&[
            (b"levels 0 0\nhome 0 0 0\n", b"MMMMMM\nhome 0 0\n"),
            (b"out 1\nreplace 1\n", b"ok\nok\n"),
            // The new disk fails at its first row.
            (b"fail 1 0\nrebuild\nhealth\n", b"ok\ngiven up\nout 1\n"),
            // A new one begins with its fuse off.
            (b"replace 1\nrebuild\n", b"ok\nrebuilt 0 left 3\n"),
            (
                b"fail 1 0\nfail 1 off\nrebuild\n",
                b"ok\nok\nrebuilt 1 left 2\n",
            ),
            // The disk that is read fails, so that two are missing.
            (
                b"out 1\nreplace 1\nfail 0 0\nrebuild\n",
                b"ok\nok\nok\nbroken\n",
            ),
            (b"health\nadd\n", b"broken\nrefused E6 Broken\n"),
        ]),
    );
}

#[test]
fn a_refused_disk_leaves_the_fuse(rt: HostRuntime) {
    plays(
        &rt,
        rt.alloc(),
        Play::Written(&[
            (b"fail 0 0\nreplace 0\n", b"ok\nrefused E3 NotOut\n"),
            // A move reads disk 0, which fails there. The block is read from its other copy.
            (b"demote\nhealth\n", b"moved 0 0 0 to 2 0\nout 0\n"),
        ]),
    );
}
