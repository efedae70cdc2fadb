// A removal's asks and writes: the rule's value, then nodes that have become empty, from the bottom up.
ghost use Rattle.std.specs.Prelude.{◌≡◌, true, ◌+◌, ◌/◌, ◌<◌, ◌≤◌, length};
ghost use Rattle.refusals.specs.Numbers.{ended};
ghost use Rattle.prefix.specs.Prefix.{width};
ghost use Rattle.tiers.specs.Tiers.{stride, child_top};
ghost use Rattle.blocks.specs.Shape.{shaped_of, sane_of};
ghost use Rattle.edits.specs.Removing.{drop_ask_of, drop_of, last_rule, last_child, prune_ask_of, up_of, prune_of};

use crate::halves::remove;
use bits::Bit;
use blocks::Pool;
use node::MultiBitNode;
use refusals::Refusal;
use store::Item;
use tiers::{ChildPool, DataPool, Kind, wide};
use walk::{Passed, Trail};

// May the node x lose a rule?
#[tactic(auto, using(crate::proofs::WayUp::ask_alone), unfolding(crate::specs::Removing::drop_ask_of))]
pub fn drop_ask(p: Pool, list: &[u32], x: MultiBitNode) -> Result<(), Refusal>
    ensures { ended result ≡ drop_ask_of p list.now x }
{
    let c = x.data_count();
    let at = x.data_idx.0;
    blocks::within::<DataPool>(p.mark, tiers::tier_of(c), at)?;
    p.shrink_ask::<DataPool>(p.mark, list, false, at, c)?;
    Ok(())
}

// The rule of a data bit goes out of the node x at `at`.
#[tactic(auto, unfolding(crate::specs::Removing::drop_of, store::specs::Moves::narrow_cells))]
pub fn drop_rule(
    p: Pool,
    nodes: &mut [u32],
    cells: &mut [u32],
    list: &mut [u32],
    at: u32,
    x: MultiBitNode,
    bit: Bit,
) -> Pool
    ensures { (result, nodes.new, cells.new, list.new) ≡ drop_of p nodes.old cells.old list.old at x bit }
{
    let (y, q) = remove::<DataPool>(p, cells, list, x, bit);
    y.save(nodes, wide(at));
    q
}

// Is nothing left of the node x when its last child goes? (Not one function with the next: each asks the other half too, which no half names.)
pub fn last_child(x: MultiBitNode) -> bool
    ensures { result ≡ last_child x }
{
    x.child_count() <= 1 && x.data_bitmap == 0
}

// Is nothing left of the node x when its last rule goes?
pub fn last_rule(x: MultiBitNode) -> bool
    ensures { result ≡ last_rule x }
{
    x.data_count() <= 1 && x.child_bitmap == 0
}

// From above the trail's last node up, while the node below has become empty: may its parent lose it?
// A parent that is left empty had one child: it gives back a single block, which the list as found doesn't show.
pub fn prune_ask(p: Pool, list: &[u32], t: &Trail, bare: bool) -> Result<(), Refusal>
    requires { (shaped_of p child_top (length list.now) ≡ true) × (sane_of p child_top ≡ true) }
    ensures { ended result ≡ prune_ask_of (t.now.depth / stride) p p.mark list.now t.now.nodes bare }
{
    let mut q = p;
    let mut go = bare;
    let mut spare = false;
    for i in (0..t.level()).rev() {
        if !go {
            break;
        }
        let x = t.step(i).node;
        q = q.shrink_ask::<ChildPool>(p.mark, list, spare, x.children_idx.0, x.child_count())?;
        go = last_child(x);
        spare = true;
    }
    Ok(())
}

// A parent loses the child on the key's path.
#[tactic(auto, unfolding(crate::specs::Removing::up_of, store::specs::Moves::narrow_nodes))]
fn up(p: Pool, nodes: &mut [u32], list: &mut [u32], parent: Passed, depth: u32, key: u32) -> Pool
    requires { depth + stride ≤ width }
    ensures { (result, nodes.new, list.new) ≡ up_of p nodes.old list.old parent.at parent.node depth key }
{
    let bit = places::child_bit(depth, key);
    let (y, q) = remove::<ChildPool>(p, nodes, list, parent.node, bit);
    y.save(nodes, wide(parent.at));
    q
}

// The way up, done: the pool after.
pub fn prune(p: Pool, nodes: &mut [u32], list: &mut [u32], t: &Trail, key: u32, bare: bool) -> Pool
    ensures { (result, nodes.new, list.new) ≡ prune_of (t.now.depth / stride) p nodes.old list.old t.now.places t.now.nodes key bare }
{
    let mut q = p;
    let mut go = bare;
    for i in (0..t.level()).rev() {
        if !go {
            break;
        }
        let parent = t.step(i);
        q = up(q, nodes, list, parent, i * ChildPool::STRIDE, key);
        go = last_child(parent.node);
    }
    q
}
