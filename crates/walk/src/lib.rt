// Walks over the lent words of the node pool: one step, the three lookups, the trail of an edit.
// Everything is total on any memory whose mark is within the pool: a step that leaves what is issued is number 5.
#![tactic(auto)]

mod best;
pub mod lookups;
pub mod routes;
pub mod trails;

ghost use Rattle.std.specs.Prelude.{◌≡◌, Bool, ℕ, ◌+◌, ◌*◌, ◌≤◌, eqb, length};
ghost use Rattle.bits.specs.Bits.{count};
ghost use Rattle.tiers.specs.Tiers.{spacings, spacing_of};
ghost use Rattle.store.specs.Words.{node_at};
ghost use Rattle.walk.specs.Steps.{agree, sound_of, data_whole, children_whole, block_within, children_within, data_within, step_of};

use bits::Bit;
use node::MultiBitNode;
use node::views::View;
use refusals::Refusal;
use std::marker::Model;
use store::Item;
use tiers::{CellAt, ChildPool, DataPool, Kind, wide};

// Bit 31, which no data bitmap has.
const BIT_31: u32 = 0x8000_0000;

// A rule that a lookup sees: its node's cells and data bitmap, its data bit, and its length.
#[derive(Clone, Copy)]
pub struct Rule {
    pub cells: CellAt,
    pub bitmap: u32,
    pub bit: Bit,
    pub len: u32,
}

// What a lookup sees: a rule, if there is one, and the nodes visited.
#[derive(Clone, Copy)]
pub struct Sight {
    pub rule: Option<Rule>,
    pub visits: u32,
}

// A node on the way, and where it stands.
#[derive(Clone, Copy)]
pub struct Passed {
    pub at: u32,
    pub node: MultiBitNode,
}

// The walk of an edit: the nodes on the way, by level, each with its position. A clause sees the depth of the last, and positions and
// nodes as two lists. (An array and a depth, no Vec: fixed memory, seven nodes at most.)
#[derive(Clone, Copy)]
pub struct Trail {
    pub depth: u32,
    pub steps: [Passed; 7],
}

// How the walk of an edit ended, and its trail: as far as it was read, where it was refused.
#[derive(Clone, Copy)]
pub struct Route {
    pub done: Result<(), Refusal>,
    pub trail: Trail,
}

impl Model for Trail {
    ghost use Rattle.std.specs.Prelude.{◌≤◌};
    ghost use Rattle.std.proofs.Common.{ap};
    ghost use Rattle.walk.specs.Passages.{Passage, places_of, nodes_of, steps_of, steps_again};

    ghost Value = { Passage };

    ghost view = { λ t. record { depth = t.depth; places = places_of t.steps; nodes = nodes_of t.steps } };

    ghost invariant = { λ t. t.depth ≤ 30 };

    ghost inverse = { λ p. record { depth = p.depth; steps = steps_of p.places p.nodes } };

    ghost inverse_ok = { λ t h. ap (λ l. record { depth = t.depth; steps = l }) (steps_again t.steps) };
}

// A bitmap is zero exactly where its index is empty.
fn paired(bitmap: u32, unused: bool) -> bool
    ensures { result ≡ agree (eqb bitmap 0) unused }
{
    if bitmap == 0 { unused } else { !unused }
}

// Is the node whole? Number 5 is given where it isn't.
#[tactic(auto, using(crate::proofs::Halves::halves))]
pub fn sound(x: MultiBitNode) -> bool
    ensures { result ≡ sound_of x }
{
    data_whole(x) && children_whole(x)
}

// The rules' half of that test. A lookup asks for the rules at once, so its branch on the bitmap is the same one. (By `paired`, as the
// children's half, exact took 27 and longest 62 instructions more.)
#[tactic(auto, unfolding(crate::specs::Steps::data_whole))]
fn data_whole(x: MultiBitNode) -> bool
    ensures { result ≡ data_whole x }
{
    if x.data_bitmap == 0 {
        return x.data_idx.is_empty();
    }
    !x.data_idx.is_empty() && x.data_bitmap < BIT_31
}

// The children's half. A lookup asks it only where its walk ends.
#[tactic(auto, unfolding(crate::specs::Steps::children_whole))]
fn children_whole(x: MultiBitNode) -> bool
    ensures { result ≡ children_whole x }
{
    paired(x.child_bitmap, x.children_idx.is_empty())
}

// Does the block of a bitmap that starts here lie wholly below the mark? What the bitmap has is counted only near the mark.
fn block_within<K: Kind>(lim: u32, bitmap: u32, start: u32) -> bool
    requires { (t : ℕ) → spacing_of (spacings K.WIDEST) t ≤ K.WIDEST }
    ensures { result ≡ block_within (spacings K.WIDEST) lim (count bitmap) start }
{
    let begin = wide(start);
    let end = wide(lim);
    if begin + wide(K::WIDEST) <= end {
        return true;
    }
    begin + wide(K::spacing(K::tier(bits::count_bits(bitmap)))) <= end
}

// That of a child bitmap. (The definitions name both; each is one line over block_within.)
#[tactic(auto, using(crate::proofs::Within::children_widest), unfolding(crate::specs::Steps::children_within))]
pub fn children_within(lim: u32, bitmap: u32, start: u32) -> bool
    ensures { result ≡ children_within lim (count bitmap) start }
{
    block_within::<ChildPool>(lim, bitmap, start)
}

// That of a data bitmap.
#[tactic(auto, using(crate::proofs::Within::data_widest), unfolding(crate::specs::Steps::data_within))]
pub fn data_within(lim: u32, bitmap: u32, start: u32) -> bool
    ensures { result ≡ data_within lim (count bitmap) start }
{
    block_within::<DataPool>(lim, bitmap, start)
}

// The node at a position below the mark.
fn load(nodes: &[u32], at: u32) -> MultiBitNode
    requires { at * 4 + 4 ≤ length nodes.now }
    ensures { result ≡ node_at nodes.now at }
{
    MultiBitNode::at(nodes, wide(at))
}

// On from the node x: down by the key's child while the child exists and its depth is at most the query's length.
pub fn next_step(lim: u32, v: View, x: MultiBitNode) -> Result<Option<u32>, Refusal>
    ensures { result ≡ step_of lim v.key v.len v.depth x }
{
    if v.len - v.depth < ChildPool::STRIDE {
        return Ok(None);
    }
    let bit = places::rest_child(v.rest, v.depth, v.key);
    if !x.has_child_bit(bit) {
        return Ok(None);
    }
    let start = x.children_idx.0;
    if !children_within(lim, x.child_bitmap, start) {
        return Err(Refusal::Broken);
    }
    Ok(Some(start + x.child_slot(bit)))
}
