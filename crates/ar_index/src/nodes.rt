// The oldest blocks of all groups, as a complete binary tree in an array, as in a heap: node i has the children 2i and
// 2i + 1, and each inner node is the older of its children. With four leaves (`size`):
//
//                1                  node 0 is unused
//            2       3              1 is the root
//          4   5   6   7            size to 2 * size - 1 are the leaves of groups 0, 1, ..
ghost use Rattle.std.specs.Prelude.{◌≡◌, ◌≢◌, ℕ, ◌+◌, ◌-◌, ◌*◌, ◌^◌, ◌<◌, ◌≤◌, length, drop, slice_set, true, false};
ghost use Rattle.ar_index.specs.Choices.{place_in};
ghost use Rattle.ar_index.specs.Tree as spec;
ghost use Rattle.ar_index.specs.Tree.{AreJoinedAfter, HaveChanged, HaveStayed, IsChangedTo, IsTree};

use crate::choices::is_same_age;
use crate::{Age, Steps};
use ar_disks::Addr;
use indexmap::IndexMap;

/// The block of a node.
pub(crate) fn node_at(nodes: &[Option<Age>], node: usize) -> Option<Age>
    requires { node < length nodes.now }
    ensures { result ≡ spec.node_at nodes.now node }
{
    nodes[node]
}

// Sets the block of a node. Returns whether it has changed.
fn set_at(nodes: &mut Vec<Option<Age>>, node: usize, block: Option<Age>) -> bool
    requires { node < length nodes.old.items }
    ensures set { nodes.new.items ≡ slice_set nodes.old.items node block }
    ensures changed { IsChangedTo (spec.node_at nodes.old.items node) block result }
{
    let changes = !is_same_age(block, nodes[node]);
    nodes[node] = block;
    changes
}

// Which child of an inner node has the older block: 0 is the left one. The block is then loaded by this number, since
// a branch on the stamps would be mispredicted in every second node.
fn older_child<V>(nodes: &[Option<Age>], node: usize, units: &IndexMap<Addr, V>) -> usize
    requires { 2 * node + 1 < length nodes.now }
    ensures one { result ≤ 1 }
    ensures older { spec.node_at nodes.now (2 * node + result)
        ≡ spec.joined_at (place_in units.now.entries) nodes.now node }
{
    match (nodes[2 * node], nodes[2 * node + 1]) {
        (Some(left), Some(right)) => usize::from(!left.is_no_newer(&right, units)),
        (Some(_), None) => 0,
        (None, _) => 1,
    }
}

// Joins the children of an inner node. Returns whether it has changed.
fn join_at<V>(nodes: &mut Vec<Option<Age>>, node: usize, units: &IndexMap<Addr, V>) -> bool
    requires { 2 * node + 1 < length nodes.old.items }
    ensures joined { nodes.new.items
        ≡ slice_set nodes.old.items node (spec.joined_at (place_in units.now.entries) nodes.old.items node) }
    ensures changed { IsChangedTo (spec.node_at nodes.old.items node) (spec.node_at nodes.new.items node) result }
{
    let oldest = nodes[2 * node + older_child(nodes, node, units)];
    set_at(nodes, node, oldest)
}

// Joins the nodes above a leaf, if that has changed, upwards until one stays as it was, or to the root. A step is a
// node.
fn climb<V>(
    nodes: &mut Vec<Option<Age>>,
    size: usize,
    leaf: usize,
    changes: bool,
    units: &IndexMap<Addr, V>,
    steps: &mut Steps,
)
    requires twice { length nodes.old.items ≡ 2 * size }
    requires there { leaf < size }
    requires joined { AreJoinedAfter (place_in units.now.entries) size nodes.old.items changes (size + leaf) }
    ensures tree { IsTree (place_in units.now.entries) size nodes.new.items }
    ensures leaves { drop size nodes.new.items ≡ drop size nodes.old.items }
    ensures still { changes ≡ false → steps.new.count ≡ steps.old.count }
    ensures changed { HaveChanged nodes.old.items nodes.new.items (size + leaf) 1 (steps.new.count - steps.old.count) }
    ensures counted { HaveStayed nodes.old.items nodes.new.items (size + leaf) (steps.new.count - steps.old.count) }
    ensures few { 2 ^ (steps.new.count - steps.old.count) ≤ size + leaf }
    ensures on { steps.old.count ≤ steps.new.count }
{
    let mut node = size + leaf;
    let mut changes = changes;
    while changes && node > 1 {
        steps.tick();
        node /= 2;
        changes = join_at(nodes, node, units);
    }
}

/// Sets a leaf of a tree of `size` leaves, and joins the nodes above it, up to the first that stays as it was. A step
/// is a node.
pub(crate) fn put<V>(
    nodes: &mut Vec<Option<Age>>,
    size: usize,
    leaf: usize,
    block: Option<Age>,
    units: &IndexMap<Addr, V>,
    steps: &mut Steps,
)
    requires tree { IsTree (place_in units.now.entries) size nodes.old.items }
    requires there { leaf < size }
    ensures tree { IsTree (place_in units.now.entries) size nodes.new.items }
    ensures leaves { drop size nodes.new.items ≡ slice_set (drop size nodes.old.items) leaf block }
    ensures still { spec.node_at nodes.old.items (size + leaf) ≡ block → steps.new.count ≡ steps.old.count }
    ensures changed { HaveChanged nodes.old.items nodes.new.items (size + leaf) 0 (steps.new.count - steps.old.count) }
    ensures counted { HaveStayed nodes.old.items nodes.new.items (size + leaf) (steps.new.count - steps.old.count) }
    ensures few { 2 ^ (steps.new.count - steps.old.count) ≤ size + leaf }
    ensures on { steps.old.count ≤ steps.new.count }
{
    let changes = set_at(nodes, size + leaf, block);
    climb(nodes, size, leaf, changes, units, steps);
}
