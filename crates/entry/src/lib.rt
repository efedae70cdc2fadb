// What stands before every call: number 3, number 1 and the first step's 5; and what a fresh start writes.
#![tactic(auto)]

ghost use Rattle.std.specs.Prelude.{◌≡◌, cond, leb};
ghost use Rattle.refusals.specs.Numbers.{ended};
ghost use Rattle.prefix.specs.Prefix.{width};
ghost use Rattle.entry.specs.First.{lookup_shaped, edit_shaped, sane_state, lookup_first, edit_first};
ghost use Rattle.entry.specs.Fresh.{empty_nodes, zeros, pool_as};

use blocks::Pool;
use node::MultiBitNode;
use refusals::Refusal;
use store::Item;
use tiers::{ChildPool, DataPool, Kind, is_pool_size, wide};

// The slices of a lookup have just the words of n nodes and d cells.
#[tactic(auto, unfolding(crate::specs::First::lookup_shaped))]
pub fn lookup_shaped(n: u32, d: u32, nodes: usize, cells: usize) -> bool
    ensures { result ≡ lookup_shaped n d nodes cells }
{
    is_pool_size(n)
        && is_pool_size(d)
        && nodes == wide(n) * wide(ChildPool::WORDS)
        && cells == wide(d) * wide(DataPool::WORDS)
}

// The slices of an edit have just the words of n nodes and d cells, and of their free lists.
#[tactic(auto, unfolding(crate::specs::First::edit_shaped))]
pub fn edit_shaped(
    n: u32,
    d: u32,
    nodes: usize,
    cells: usize,
    node_free: usize,
    cell_free: usize,
) -> bool
    ensures { result ≡ edit_shaped n d nodes cells node_free cell_free }
{
    lookup_shaped(n, d, nodes, cells)
        && node_free == ChildPool::free_list_length(n)
        && cell_free == DataPool::free_list_length(d)
}

// No mark exceeds its pool, no free count its section, nor the rule count D. (The map's State is a type above this crate: its parts come
// one by one, and so do the lengths of the lent slices.)
#[tactic(auto, unfolding(crate::specs::First::sane_state))]
pub fn is_sane(p: Pool, q: Pool, rules: u32) -> bool
    ensures { result ≡ sane_state p q rules }
{
    p.sane::<ChildPool>() && q.sane::<DataPool>() && rules <= q.size
}

// No length is above 32.
fn fits(len: u32) -> Result<(), Refusal>
    ensures { ended result ≡ cond (leb len width) 0 1 }
{
    if 32 < len {
        Err(Refusal::TooLong)
    } else {
        Ok(())
    }
}

// The first step of every call: marks and counts.
fn first_step(p: Pool, q: Pool, rules: u32) -> Result<(), Refusal>
    ensures { ended result ≡ cond (sane_state p q rules) 0 5 }
{
    if is_sane(p, q, rules) {
        Ok(())
    } else {
        Err(Refusal::Broken)
    }
}

// Why a lookup is refused before its walk, if it is.
#[inline]
#[tactic(auto, unfolding(crate::specs::First::lookup_first))]
pub fn lookup_first(
    p: Pool,
    q: Pool,
    rules: u32,
    nodes: usize,
    cells: usize,
    len: u32,
) -> Result<(), Refusal>
    ensures { ended result ≡ lookup_first p q rules nodes cells len }
{
    if !lookup_shaped(p.size, q.size, nodes, cells) {
        return Err(Refusal::WrongSlice);
    }
    fits(len)?;
    first_step(p, q, rules)
}

// Why an edit is refused before its walk, if it is.
#[tactic(auto, unfolding(crate::specs::First::edit_first))]
pub fn edit_first(
    p: Pool,
    q: Pool,
    rules: u32,
    nodes: usize,
    cells: usize,
    node_free: usize,
    cell_free: usize,
    key: u32,
    len: u32,
) -> Result<(), Refusal>
    ensures { ended result ≡ edit_first p q rules nodes cells node_free cell_free key len }
{
    if !edit_shaped(p.size, q.size, nodes, cells, node_free, cell_free) {
        return Err(Refusal::WrongSlice);
    }
    fits(len)?;
    first_step(p, q, rules)
}

// The first n nodes become empty.
#[tactic(auto, using(crate::proofs::Ways::empty_more), unfolding(crate::specs::Fresh::empty_nodes))]
pub fn clear_nodes(nodes: &mut [u32], n: u32)
    ensures { nodes.new ≡ empty_nodes n nodes.old }
{
    for i in 0..n {
        MultiBitNode::empty().save(nodes, wide(i));
    }
}

// Every word becomes 0.
pub fn clear_words(words: &mut [u32])
    ensures { words.new ≡ zeros words.old }
{
    words.fill(0);
}

// A pool with the first `mark` places issued and nothing free.
pub fn new_pool(size: u32, mark: u32) -> Pool
    ensures { result ≡ pool_as size mark }
{
    Pool {
        size,
        mark,
        free: [0; 7],
    }
}
