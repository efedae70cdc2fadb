// Items in lent words: a cell is one word, a node four; and how items move when a block grows or shrinks.
// A block's start is a plain number here: the callers hand in the number of a NodeAt or a CellAt.
// Past the end of a slice a read gives 0 and a write does nothing, so that no position needs a test beforehand.
#![tactic(auto)]

ghost use Rattle.std.specs.Prelude.{◌≡◌, ◌+◌, ◌*◌, ◌<◌, ◌≤◌, ◌^◌, ℕ, List, length};
ghost use Rattle.node.specs.Nodes.{empty_node};
ghost use Rattle.store.specs.Words.{cell_at, save_cell, empty_cell, node_at, save_node};
ghost use Rattle.store.specs.Moves.{move_of, run_of, lift_of, open_of, close_of, widen_of, narrow_of};

use node::MultiBitNode;
use tiers::{CellAt, NodeAt, wide};
use words::{put, read};

// What stands in a slot of a block. A position counts items, not words.
pub trait Item: Copy {
    // The words of an item, the item at a position, a slice after an item is written, and the empty item.
    ghost words: { ℕ };

    ghost item_at: { List ℕ → ℕ → Self };

    ghost save_item: { List ℕ → ℕ → Self → List ℕ };

    ghost vacant: { Self };

    // The item at a position, of zeros past the end. (The bound is a premise: see edits/src/adding.rt.)
    fn load(s: &[u32], i: usize) -> Self
        requires { i < 2 ^ 41 }
        ensures { result ≡ item_at s.now i };

    // The item at a position within the slice.
    fn at(s: &[u32], i: usize) -> Self
        requires { i * words + words ≤ length s.now }
        ensures { result ≡ item_at s.now i };

    // The item is written at a position.
    fn save(self, s: &mut [u32], i: usize)
        requires { i < 2 ^ 41 }
        ensures { s.new ≡ save_item s.old i self };

    // The empty item, which a vacated position holds.
    fn vacated() -> Self
        ensures { result ≡ vacant };
}

// What a data cell holds.
#[derive(Clone, Copy)]
pub struct Cell {
    pub value: u32,
}

impl Item for Cell {
    ghost words = { 1 };

    ghost item_at = { cell_at };

    ghost save_item = { save_cell };

    ghost vacant = { empty_cell };

    // At any position.
    #[tactic(auto, unfolding(crate::specs::Words::cell_at))]
    fn load(s: &[u32], i: usize) -> Cell
        ensures { result ≡ cell_at s.now i }
    {
        Cell { value: read(s, i) }
    }

    #[tactic(auto, unfolding(crate::specs::Words::cell_at))]
    fn at(s: &[u32], i: usize) -> Cell
        requires { i < length s.now }
        ensures { result ≡ cell_at s.now i }
    {
        Cell { value: s[i] }
    }

    // At any position.
    #[tactic(auto, unfolding(crate::specs::Words::save_cell))]
    fn save(self, s: &mut [u32], i: usize)
        ensures { s.new ≡ save_cell s.old i self }
    {
        put(s, i, self.value);
    }

    fn vacated() -> Cell {
        Cell { value: 0 }
    }
}

impl Item for MultiBitNode {
    ghost words = { 4 };

    ghost item_at = { node_at };

    ghost save_item = { save_node };

    ghost vacant = { empty_node };

    #[tactic(auto, unfolding(crate::specs::Words::node_at))]
    fn load(s: &[u32], i: usize) -> MultiBitNode {
        let w = i * 4;
        MultiBitNode {
            data_bitmap: read(s, w),
            child_bitmap: read(s, w + 1),
            children_idx: NodeAt(read(s, w + 2)),
            data_idx: CellAt(read(s, w + 3)),
        }
    }

    #[tactic(auto, unfolding(crate::specs::Words::node_at))]
    fn at(s: &[u32], i: usize) -> MultiBitNode {
        let w = i * 4;
        MultiBitNode {
            data_bitmap: s[w],
            child_bitmap: s[w + 1],
            children_idx: NodeAt(s[w + 2]),
            data_idx: CellAt(s[w + 3]),
        }
    }

    #[tactic(auto, unfolding(crate::specs::Words::save_node))]
    fn save(self, s: &mut [u32], i: usize) {
        let w = i * 4;
        put(s, w, self.data_bitmap);
        put(s, w + 1, self.child_bitmap);
        put(s, w + 2, self.children_idx.0);
        put(s, w + 3, self.data_idx.0);
    }

    fn vacated() -> MultiBitNode {
        MultiBitNode::empty()
    }
}

// One item goes to another place, and an empty one stays.
fn move_item<T: Item>(s: &mut [u32], from: usize, to: usize)
    requires { (from < 2 ^ 41) × (to < 2 ^ 41) }
    ensures { s.new ≡ move_of T.item_at T.save_item T.vacant s.old from to }
{
    T::load(s, from).save(s, to);
    T::vacated().save(s, from);
}

// n items go from a to b, the first one first.
#[tactic(auto, unfolding(crate::specs::Moves::run_of))]
fn run<T: Item>(s: &mut [u32], a: usize, b: usize, n: usize)
    requires { (a < 2 ^ 40) × (b < 2 ^ 40) × (n < 2 ^ 40) }
    ensures { s.new ≡ run_of (move_of T.item_at T.save_item T.vacant) n s.old a b }
{
    for i in 0..n {
        move_item::<T>(s, a + i, b + i);
    }
}

// n items from a on go up by one place, the last one first.
#[tactic(auto, unfolding(crate::specs::Moves::lift_of))]
fn lift<T: Item>(s: &mut [u32], a: usize, n: usize)
    requires { (a < 2 ^ 40) × (n < 2 ^ 40) }
    ensures { s.new ≡ lift_of (move_of T.item_at T.save_item T.vacant) n s.old a }
{
    for i in (0..n).rev() {
        move_item::<T>(s, a + i, a + i + 1);
    }
}

// Room for one more item at a slot: in place, or in the new block.
#[tactic(auto, unfolding(crate::specs::Moves::open_of))]
fn open<T: Item>(s: &mut [u32], here: bool, old: u32, new: u32, count: u32, slot: u32)
    ensures { s.new ≡ open_of (move_of T.item_at T.save_item T.vacant) here s.old old new count slot }
{
    let a = wide(old);
    let b = wide(new);
    let k = wide(slot);
    let n = wide(count.saturating_sub(slot));
    if here {
        lift::<T>(s, a + k, n);
    } else {
        run::<T>(s, a, b, k);
        run::<T>(s, a + k, b + k + 1, n);
    }
}

// The gap at a slot is closed: in place, or in the new block.
#[tactic(auto, unfolding(crate::specs::Moves::close_of))]
fn close<T: Item>(s: &mut [u32], here: bool, old: u32, new: u32, count: u32, slot: u32)
    ensures { s.new ≡ close_of (move_of T.item_at T.save_item T.vacant) here s.old old new count slot }
{
    let a = wide(old);
    let b = wide(new);
    let k = wide(slot);
    let n = wide(count.saturating_sub(slot).saturating_sub(1));
    if here {
        run::<T>(s, a + k + 1, a + k, n);
    } else {
        run::<T>(s, a, b, k);
        run::<T>(s, a + k + 1, b + k, n);
    }
}

// A block of items gets one more, at a slot.
pub fn widen<T: Item>(s: &mut [u32], here: bool, old: u32, new: u32, count: u32, slot: u32, item: T)
    ensures { s.new ≡ widen_of T.item_at T.save_item T.vacant here s.old old new count slot item }
{
    open::<T>(s, here, old, new, count, slot);
    let start = if here { old } else { new };
    item.save(s, wide(start) + wide(slot));
}

// A block of items loses the one at a slot.
pub fn narrow<T: Item>(s: &mut [u32], here: bool, old: u32, new: u32, count: u32, slot: u32)
    ensures { s.new ≡ narrow_of T.item_at T.save_item T.vacant here s.old old new count slot }
{
    T::vacated().save(s, wide(old) + wide(slot));
    close::<T>(s, here, old, new, count, slot);
}
