// What each word is answered with, by the tables of scripts.
use crate::rig::{Play, plays};

#[test]
fn units_and_views(rt: HostRuntime) {
    plays(
        &rt,
        rt.alloc(),
        Play::Rows(&[
            (b"room\n", b"room 18\n"),
            (b"make 0 0 4\nroom\n", b"ok\nroom 16\n"),
            (b"make 0 0 4\n", b"refused M1 Exists\n"),
            (b"make 0 8 4\n", b"refused M7 BadLun\n"),
            (b"make 1 0 0\n", b"refused M2 Size\n"),
            (b"make 1 0 4096\n", b"refused M3 NoRoom 16\n"),
            (b"grow 0 0 8\n", b"ok\n"),
            (b"grow 0 0 8\n", b"refused M2 Size\n"),
            (b"levels 0 0\n", b"----\n"),
            (b"levels 3 7\n", b"refused M5 Absent\n"),
            (b"home 0 0 0\nhome 0 0 4\n", b"home none\noutside\n"),
            (
                b"groups\n",
                b"group 0 free 0\ngroup 1 free 0\ngroup 2 free 0\ngroup 3 free 0\n",
            ),
            (b"drop 0 0\ndrop 0 0\n", b"ok\nrefused M5 Absent\n"),
            (b"health\n", b"whole\n"),
            (
                b"picture\n",
                b"4 disks (columns) of 4 extents (lines)
              0    1    2    3
   0..3      --   --   --   --
M mirrored, P with parity; 0 to 9: how full, in ninths of its slots
-- in a free group, .. in no group, ! can't be used
all disks are sound
",
            ),
        ]),
    );
}

#[test]
fn disks_and_maintenance(rt: HostRuntime) {
    plays(
        &rt,
        rt.alloc(),
        Play::Rows(&[
            (
                b"flush\ndemote\nclean\nbalance\nrebuild\n",
                b"idle\nidle\nidle\nidle\nidle\n",
            ),
            (
                b"out 4\nreplace 1\n",
                b"refused E4 NoSuchDisk\nrefused E3 NotOut\n",
            ),
            (b"replace 4\n", b"refused E4 NoSuchDisk\n"),
            (b"out 1\nhealth\n", b"ok\nout 1\n"),
            (b"replace 1\nhealth\n", b"ok\nrebuilding 1 0\n"),
            (
                b"rebuild\nrebuild\nrebuild\nrebuild\nrebuild\n",
                b"rebuilt 0 left 3\nrebuilt 1 left 2\nrebuilt 2 left 1\nfinished\nidle\n",
            ),
            (b"health\nadd\n", b"whole\nok\n"),
            (b"fail 4 off\nfail 5 off\n", b"ok\nrefused E4 NoSuchDisk\n"),
            (
                b"counts\n",
                b"host 0 commands 0 read 0 written 0
host 1 commands 0 read 0 written 0
host 2 commands 0 read 0 written 0
host 3 commands 0 read 0 written 0
flushed 0
demoted 0
cleaned 0
balanced 0
rebuilt 4
",
            ),
        ]),
    );
}

#[test]
fn the_only_copy(rt: HostRuntime) {
    plays(
        &rt,
        rt.alloc(),
        Play::Rows(&[
            // The only disk that is out, once more; one that isn't there.
            (
                b"out 1\nout 1\nout 4\nout 4 force\n",
                b"ok\nok\nrefused E4 NoSuchDisk\nrefused E4 NoSuchDisk\n",
            ),
            (
                b"out 0\nout 3\nhealth\n",
                b"refused: disk 0 has the only copy\nrefused: disk 3 has the only copy\nout 1\n",
            ),
            (
                b"replace 1\nrebuild\nout 2\nhealth\n",
                b"ok\nrebuilt 0 left 3\nrefused: disk 2 has the only copy\nrebuilding 1 1\n",
            ),
            // The disk that is rebuilt has no only copy.
            (
                b"out 1\nreplace 1\nout 1 force\nhealth\n",
                b"ok\nok\nok\nout 1\n",
            ),
            (
                b"out 2 Force\nout 2 force 1\nout force\nout 256 force\n",
                b"fault: bad argument\nfault: bad argument\nfault: bad argument\nfault: bad argument\n",
            ),
            (b"out 2 force\nhealth\n", b"ok\nbroken\n"),
            // Nothing is left to lose.
            (b"out 3\nout 0 force\n", b"ok\nok\n"),
        ]),
    );
}

#[test]
fn what_the_array_has(rt: HostRuntime) {
    plays(
        &rt,
        rt.alloc(),
        Play::Written(&[
            // Six blocks of two sectors, of the 18 that four disks of four extents have room for.
            (
                b"usage\n",
                b"room 24 sectors
mirrored 12 sectors
parity 0 sectors
unwritten 0 sectors
spares 0
",
            ),
            (b"make 3 7 5\n", b"ok\n"),
            (
                b"units\n",
                b"unit 0 0 sectors 12 blocks 6 written 6 cached 0 serial 0A0B0C0D00000000
unit 3 7 sectors 5 blocks 3 written 0 cached 0 serial 0A0B0C0D03070102
",
            ),
            (
                b"usage\n",
                b"room 18 sectors
mirrored 12 sectors
parity 0 sectors
unwritten 6 sectors
spares 0
",
            ),
            (b"version\n", b"autoraid 1.2.3\n"),
        ]),
    );
}

#[test]
fn disks_without_blocks(rt: HostRuntime) {
    plays(
        &rt,
        rt.alloc(),
        Play::Rows(&[
            (b"units\n", b""),
            (
                b"out 1\ndisks\n",
                b"ok
disk 0 extents 0 of 4 accesses 0 errors 0 in use
disk 1 extents 0 of 4 accesses 0 errors 0 out
disk 2 extents 0 of 4 accesses 0 errors 0 in use
disk 3 extents 0 of 4 accesses 0 errors 0 in use
",
            ),
            (
                b"replace 1\nrebuild\ndisks\n",
                b"ok
rebuilt 0 left 3
disk 0 extents 0 of 4 accesses 0 errors 0 in use
disk 1 extents 0 of 4 accesses 0 errors 0 rebuilding 1 of 4, 42 s left
disk 2 extents 0 of 4 accesses 0 errors 0 in use
disk 3 extents 0 of 4 accesses 0 errors 0 in use
",
            ),
            // Both disks that a failed array has lost.
            (
                b"out 3 force\ndisks\n",
                b"ok
disk 0 extents 0 of 4 accesses 0 errors 0 in use
disk 1 extents 0 of 4 accesses 0 errors 0 failed
disk 2 extents 0 of 4 accesses 0 errors 0 in use
disk 3 extents 0 of 4 accesses 0 errors 0 out
",
            ),
        ]),
    );
}

#[test]
fn help_names_each_word(rt: HostRuntime) {
    plays(
        &rt,
        rt.alloc(),
        Play::Rows(&[(
            b"help\n",
            b"make H L SIZE
grow H L SIZE
drop H L
add
out D
out D force
replace D
fail D N
fail D off
end H
end H S
flush
demote
clean
balance
rebuild
levels H L
home H L RB
groups
room
health
picture
usage
units
disks
sessions
counts
version
help
stop
",
        )]),
    );
}
