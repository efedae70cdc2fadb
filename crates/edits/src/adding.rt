// An insert's writes: missing nodes from the top, then the rule's value.
// A position is an index here: the first missing node's is a block's start plus a slot, which no u32 need hold on unsound memory.
// That it is below 2 ^ 41 is a premise of each function: a place is a start, a slot and a turn of a loop added up, here and in `store`, and a
// type's constructor would ask for the bound again at each.
ghost use Rattle.std.specs.Prelude.{◌≡◌, ◌+◌, ◌*◌, ◌<◌, ◌≤◌, ◌^◌};
ghost use Rattle.prefix.specs.Prefix.{width};
ghost use Rattle.tiers.specs.Tiers.{stride};
ghost use Rattle.edits.specs.Adding.{keep_of, chain_of, make_of};

use crate::Made;
use crate::halves::{Half, add};
use bits::Bit;
use blocks::Pool;
use node::MultiBitNode;
use store::{Cell, Item};
use tiers::{ChildPool, DataPool, Kind, Tier, wide};

// The rule of a data bit comes into the node x at `at`.
#[tactic(auto, unfolding(crate::specs::Adding::keep_of, store::specs::Moves::widen_cells))]
pub fn keep(
    p: Pool,
    nodes: &mut [u32],
    cells: &mut [u32],
    list: &mut [u32],
    at: usize,
    x: MultiBitNode,
    bit: Bit,
    c: Cell,
) -> Pool
    requires { at < 2 ^ 41 }
    ensures { (result, nodes.new, cells.new, list.new) ≡ keep_of p nodes.old cells.old list.old at x bit c }
{
    let (y, q) = add::<DataPool>(p, cells, list, x, bit, c);
    y.save(nodes, at);
    q
}

// n single nodes, each the only child of the one before, below the empty node at `at`, depth `depth`: the lowest.
// `add` into an empty node would write the same and ask for more: a tier, and a move of no items.
#[tactic(auto, unfolding(crate::specs::Adding::chain_of))]
fn chain(
    p: Pool,
    nodes: &mut [u32],
    list: &mut [u32],
    at: usize,
    depth: u32,
    key: u32,
    n: u32,
) -> Made
    requires { (at < 2 ^ 41) × (depth + stride * n ≤ width) }
    ensures { ((result, nodes.new, list.new) ≡ chain_of n p nodes.old list.old at depth key) × (result.at < 2 ^ 41) }
{
    let mut q = p;
    let mut low = at;
    for i in 0..n {
        let bit = places::child_bit(depth + i * ChildPool::STRIDE, key);
        let g = q.take::<ChildPool>(list, Tier::FIRST);
        let next = wide(g.start);
        MultiBitNode::empty().save(nodes, next);
        ChildPool::with(MultiBitNode::empty(), bits::set_bit(0, bit), g.start).save(nodes, low);
        q = g.pool;
        low = next;
    }
    Made { at: low, pool: q }
}

// The n missing nodes below the node x at `at`, depth `depth`: the lowest.
#[tactic(auto, unfolding(crate::specs::Adding::make_of, store::specs::Moves::widen_nodes))]
pub fn make(
    p: Pool,
    nodes: &mut [u32],
    list: &mut [u32],
    at: usize,
    x: MultiBitNode,
    depth: u32,
    key: u32,
    n: u32,
) -> Made
    requires { (at < 2 ^ 41) × (0 < n) × (depth + stride * n ≤ width) }
    ensures { ((result, nodes.new, list.new) ≡ make_of p nodes.old list.old at x depth key n) × (result.at < 2 ^ 41) }
{
    let bit = places::child_bit(depth, key);
    let (y, q) = add::<ChildPool>(p, nodes, list, x, bit, MultiBitNode::empty());
    y.save(nodes, at);
    let first = wide(y.children_idx.0) + wide(x.child_slot(bit));
    chain(q, nodes, list, first, depth + ChildPool::STRIDE, key, n - 1)
}
