// The two halves of a node, its rules and its children: each a bitmap, and a block of items in the pool of its kind.
ghost use Rattle.std.specs.Prelude.{◌≡◌, ℕ};
ghost use Rattle.bits.specs.Bits.{count, set_below, with_bit, without_bit};
ghost use Rattle.node.specs.declared.MultiBitNode.{MultiBitNode};
ghost use Rattle.blocks.specs.Growth.{grow_of, shrink_of, stays_of, fits_of};
ghost use Rattle.store.specs.Moves.{widen_of, narrow_of};
ghost use Rattle.edits.specs.Nodes.{with_rules, with_children};

use bits::Bit;
use blocks::Pool;
use node::MultiBitNode;
use store::{Cell, Item};
use tiers::{CellAt, ChildPool, DataPool, Kind, NodeAt};

// The half of a node whose items stand in a kind of pool.
pub trait Half: Kind {
    // The half's bitmap, its block's start, and the node with another bitmap and another block there.
    ghost bitmap_of: { MultiBitNode → ℕ };

    ghost start_of: { MultiBitNode → ℕ };

    ghost linked: { MultiBitNode → ℕ → ℕ → MultiBitNode };

    // What stands in its block.
    type Held: Item;

    fn bitmap(x: MultiBitNode) -> u32
        ensures { result ≡ bitmap_of x };

    fn start(x: MultiBitNode) -> u32
        ensures { result ≡ start_of x };

    fn with(x: MultiBitNode, bitmap: u32, start: u32) -> MultiBitNode
        ensures { result ≡ linked x bitmap start };
}

impl Half for DataPool {
    ghost bitmap_of = { λ x. x.data_bitmap };

    ghost start_of = { λ x. x.data_idx.0 };

    ghost linked = { with_rules };

    type Held = Cell;

    fn bitmap(x: MultiBitNode) -> u32 {
        x.data_bitmap
    }

    fn start(x: MultiBitNode) -> u32 {
        x.data_idx.0
    }

    fn with(x: MultiBitNode, bitmap: u32, start: u32) -> MultiBitNode {
        MultiBitNode {
            data_bitmap: bitmap,
            data_idx: CellAt(start),
            ..x
        }
    }
}

impl Half for ChildPool {
    ghost bitmap_of = { λ x. x.child_bitmap };

    ghost start_of = { λ x. x.children_idx.0 };

    ghost linked = { with_children };

    type Held = MultiBitNode;

    fn bitmap(x: MultiBitNode) -> u32 {
        x.child_bitmap
    }

    fn start(x: MultiBitNode) -> u32 {
        x.children_idx.0
    }

    fn with(x: MultiBitNode, bitmap: u32, start: u32) -> MultiBitNode {
        MultiBitNode {
            child_bitmap: bitmap,
            children_idx: NodeAt(start),
            ..x
        }
    }
}

// An item comes into a half of the node x, at its bit: the node to be written, and the pool after.
#[tactic(auto, using(bits::proofs::Slots::below_le))]
pub fn add<H: Half>(
    p: Pool,
    items: &mut [u32],
    list: &mut [u32],
    x: MultiBitNode,
    bit: Bit,
    item: H::Held,
) -> (MultiBitNode, Pool)
    ensures { let c = count (H.bitmap_of x) in
        let k = set_below (H.bitmap_of x) bit in
        let g = grow_of p H.WIDEST list.old (H.start_of x) c in
        (result.0 ≡ H.linked x (with_bit (H.bitmap_of x) bit) g.0.start)
        × (result.1 ≡ g.0.pool)
        × (items.new ≡ widen_of H.Held.item_at H.Held.save_item H.Held.vacant (stays_of H.WIDEST c) items.old (H.start_of x) g.0.start c k item)
        × (list.new ≡ g.1) }
{
    let bitmap = H::bitmap(x);
    let old = H::start(x);
    let n = bits::count_bits(bitmap);
    let slot = bits::compute_slot(bitmap, bit);
    let g = p.grow::<H>(list, old, n);
    store::widen(items, blocks::stays(n), old, g.start, n, slot, item);
    (H::with(x, bits::set_bit(bitmap, bit), g.start), g.pool)
}

// The item of a bit goes out of a half of the node x: the node to be written, and the pool after.
pub fn remove<H: Half>(
    p: Pool,
    items: &mut [u32],
    list: &mut [u32],
    x: MultiBitNode,
    bit: Bit,
) -> (MultiBitNode, Pool)
    ensures { let c = count (H.bitmap_of x) in
        let k = set_below (H.bitmap_of x) bit in
        let g = shrink_of p H.WIDEST list.old (H.start_of x) c in
        (result.0 ≡ H.linked x (without_bit (H.bitmap_of x) bit) g.0.start)
        × (result.1 ≡ g.0.pool)
        × (items.new ≡ narrow_of H.Held.item_at H.Held.save_item H.Held.vacant (fits_of H.WIDEST c) items.old (H.start_of x) g.0.start c k)
        × (list.new ≡ g.1) }
{
    let bitmap = H::bitmap(x);
    let old = H::start(x);
    let n = bits::count_bits(bitmap);
    let slot = bits::compute_slot(bitmap, bit);
    let g = p.shrink::<H>(list, old, n);
    store::narrow::<H::Held>(items, blocks::fits(n), old, g.start, n, slot);
    (H::with(x, bits::unset_bit(bitmap, bit), g.start), g.pool)
}
