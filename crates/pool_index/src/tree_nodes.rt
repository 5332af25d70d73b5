//! The nodes of a tournament tree in an array: the children of the node at `i` are at `2 i` and
//! `2 i + 1`, and an inner node is the earlier of its two children. Its leaves are the upper half.
ghost use Rattle.std.specs.Prelude.{◌≡◌, ◌*◌, ◌/◌, ◌<◌, ◌≤◌, [], length, drop, slice_set, vec_len, IfOk};
ghost use Rattle.pool_index.specs.Deadlines.{SameDeadlines};
ghost use Rattle.pool_index.specs.TreeNodes.{IsTreeExcept};

use crate::deadline_order::sooner_of;
use std::alloc::{AllocError, Global};
use swarm_model::Deadline;

/// Computes all ancestors of a node anew, from its parent up to the root.
fn update_ancestors(nodes: &mut [Option<Deadline>], width: usize, node: usize)
    requires size { length nodes.old ≡ 2 * width }
    requires inside { node < 2 * width }
    requires tree { IsTreeExcept (node / 2) width nodes.old }
    ensures tree { IsTreeExcept 0 width nodes.new }
    ensures leaves { drop width nodes.new ≡ drop width nodes.old }
{
    let mut at = node;
    while at > 1 {
        at /= 2;
        nodes[at] = sooner_of(nodes[2 * at], nodes[2 * at + 1]);
    }
}

/// Sets the leaf of a place, and its ancestors.
pub(crate) fn set_leaf(
    nodes: &mut [Option<Deadline>],
    width: usize,
    at: usize,
    end: Option<Deadline>,
)
    requires size { length nodes.old ≡ 2 * width }
    requires inside { at < width }
    requires tree { IsTreeExcept 0 width nodes.old }
    ensures tree { IsTreeExcept 0 width nodes.new }
    ensures leaves { drop width nodes.new ≡ slice_set (drop width nodes.old) at end }
{
    let leaf = width + at;
    nodes[leaf] = end;
    update_ancestors(nodes, width, leaf);
}

/// Sets the leaves of a larger tree, which are all empty, to these.
pub(crate) fn copy_leaves(leaves: &[Option<Deadline>], nodes: &mut [Option<Deadline>], width: usize)
    requires size { length nodes.old ≡ 2 * width }
    requires few { length leaves.now ≤ width }
    requires empty { SameDeadlines [] (drop width nodes.old) }
    requires tree { IsTreeExcept 0 width nodes.old }
    ensures tree { IsTreeExcept 0 width nodes.new }
    ensures same { SameDeadlines leaves.now (drop width nodes.new) }
{
    for at in 0..leaves.len() {
        set_leaf(nodes, width, at, leaves[at]);
    }
}

/// A tree of `size` nodes, all of them empty.
pub(crate) fn empty_nodes(
    alloc: Global,
    size: usize,
    width: usize,
) -> Result<Vec<Option<Deadline>>, AllocError>
    requires { size ≡ 2 * width }
    ensures size { IfOk result (λ nodes. vec_len nodes ≡ 2 * width) }
    ensures empty { IfOk result (λ nodes. SameDeadlines [] (drop width nodes.items)) }
    ensures tree { IfOk result (λ nodes. IsTreeExcept 0 width nodes.items) }
{
    let mut nodes = Vec::new(alloc);
    nodes.resize(size, None)?;
    Ok(nodes)
}
