// Insert: refused, replaced, stored in the node at the path's end, or stored below it. All is settled before the first write.
ghost use Rattle.std.specs.Prelude.{◌≡◌, true, List, ℕ, ◌+◌, ◌≤◌, length};
ghost use Rattle.prefix.specs.Prefix.{width};
ghost use Rattle.tiers.specs.Tiers.{stride, child_top, pool_max};
ghost use Rattle.places.specs.Places.{data_bit};
ghost use Rattle.blocks.specs.Shape.{shaped_of, sane_of};
ghost use Rattle.store.specs.Words.{cell_as};
ghost use Rattle.map.specs.Memory.{memory, edited, settled};
ghost use Rattle.map.specs.Inserts.{added_of, replace_of, here_of, below_of, insert_of};

use crate::{Answer, Edited, State};
use bits::Bit;
use blocks::Pool;
use node::MultiBitNode;
use refusals::Refusal;
use store::{Cell, Item};
use tiers::{ChildPool, DataPool, Kind, Tier, wide};

impl State {
    // A new rule, counted: these are the pools with it. (A State from C may hold any count, so its bound is no invariant: the first tests give it.)
    fn added(&mut self, key: u32, len: u32, nodes: Pool, cells: Pool) -> Answer
        requires { self.old.rules ≤ pool_max }
        ensures { edited result self.new ≡ added_of self.old key len nodes cells }
    {
        self.nodes = nodes;
        self.cells = cells;
        self.rules += 1;
        Answer::Added(key, len)
    }

    // The rule is stored in the node x already: its value is replaced.
    #[tactic(auto, unfolding(crate::specs::Inserts::replace_of))]
    fn replace(
        &self,
        cells: &mut [u32],
        key: u32,
        len: u32,
        c: Cell,
        x: MultiBitNode,
        bit: Bit,
    ) -> Result<Answer, Refusal>
        requires { bit ≡ data_bit key len }
        ensures { (n f g : List ℕ) → (settled self.now result, memory n cells.new f g) ≡ replace_of self.now (memory n cells.old f g) key len c x }
    {
        let at = x.data_idx.0;
        if !walk::data_within(self.cells.mark, x.data_bitmap, at) {
            return Err(Refusal::Broken);
        }
        let i = wide(at) + wide(x.data_slot(bit));
        let old = Cell::load(cells, i);
        c.save(cells, i);
        Ok(Answer::Replaced(key, len, old.value))
    }

    // A new rule in the node x at `at`.
    #[tactic(auto, using(bits::proofs::Slots::below_le), unfolding(crate::specs::Inserts::here_of))]
    fn here(
        &mut self,
        nodes: &mut [u32],
        cells: &mut [u32],
        cell_free: &mut [u32],
        key: u32,
        len: u32,
        c: Cell,
        at: u32,
        x: MultiBitNode,
        bit: Bit,
    ) -> Result<Answer, Refusal>
        requires { (bit ≡ data_bit key len) × (self.old.rules ≤ pool_max) }
        ensures { (f : List ℕ) → (settled self.new result, memory nodes.new cells.new f cell_free.new) ≡ here_of self.old (memory nodes.old cells.old f cell_free.old) key len c at x }
    {
        let q = self.cells;
        q.grow_ask::<DataPool>(q.mark, cell_free, x.data_idx.0, x.data_count())?;
        let grown = edits::keep(q, nodes, cells, cell_free, wide(at), x, bit, c);
        Ok(self.added(key, len, self.nodes, grown))
    }

    // A new rule below the node x at `at`, depth `depth`: first the missing nodes, then the data.
    #[tactic(auto, using(bits::proofs::Slots::below_le), unfolding(crate::specs::Inserts::below_of, blocks::specs::Growth::grow_ask_of))]
    fn below(
        &mut self,
        nodes: &mut [u32],
        cells: &mut [u32],
        node_free: &mut [u32],
        cell_free: &mut [u32],
        key: u32,
        len: u32,
        c: Cell,
        at: u32,
        depth: u32,
        x: MultiBitNode,
        bit: Bit,
    ) -> Result<Answer, Refusal>
        requires rule { (bit ≡ data_bit key len) × (self.old.rules ≤ pool_max) }
        requires deep { (depth + stride ≤ len) × (len ≤ width) }
        requires sound { (shaped_of self.old.nodes child_top (length node_free.old) ≡ true) × (sane_of self.old.nodes child_top ≡ true) }
        ensures { (settled self.new result, memory nodes.new cells.new node_free.new cell_free.new) ≡ below_of self.old (memory nodes.old cells.old node_free.old cell_free.old) key len c at depth x }
    {
        let p = self.nodes;
        let q = self.cells;
        let n = (len - depth) / ChildPool::STRIDE;
        p.chain_ask::<ChildPool>(node_free, x.children_idx.0, x.child_count(), n)?;
        q.ask::<DataPool>(q.mark, cell_free, Tier::FIRST)?;
        let made = edits::make(p, nodes, node_free, wide(at), x, depth, key, n);
        let empty = MultiBitNode::empty();
        let grown = edits::keep(q, nodes, cells, cell_free, made.at, empty, bit, c);
        Ok(self.added(key, len, made.pool, grown))
    }

    // The steps of an insert: the first tests, the walk, then what its end asks for.
    #[inline(always)]
    #[tactic(auto, unfolding(crate::specs::Inserts::insert_of, crate::specs::Inserts::walked_of, crate::specs::Inserts::arrived_of))]
    fn inserted(
        &mut self,
        nodes: &mut [u32],
        cells: &mut [u32],
        node_free: &mut [u32],
        cell_free: &mut [u32],
        key: u32,
        len: u32,
        value: u32,
    ) -> Result<Answer, Refusal>
        ensures { (settled self.new result, memory nodes.new cells.new node_free.new cell_free.new) ≡ insert_of self.old (memory nodes.old cells.old node_free.old cell_free.old) key len (cell_as value) }
    {
        let t = self.walked(nodes, cells, node_free, cell_free, key, len)?;
        let k = prefix::mask_key(key, len);
        let depth = t.depth();
        let last = t.last();
        let x = last.node;
        let bit = places::data_bit(k, len);
        let c = Cell { value };
        if depth + ChildPool::STRIDE <= len {
            return self.below(
                nodes, cells, node_free, cell_free, k, len, c, last.at, depth, x, bit,
            );
        }
        if x.has_data_bit(bit) {
            return self.replace(cells, k, len, c, x, bit);
        }
        self.here(nodes, cells, cell_free, k, len, c, last.at, x, bit)
    }

    // Inserts a rule, or replaces its value.
    pub fn insert(
        mut self,
        nodes: &mut [u32],
        cells: &mut [u32],
        node_free: &mut [u32],
        cell_free: &mut [u32],
        key: u32,
        len: u32,
        value: u32,
    ) -> Edited
        ensures { (result, memory nodes.new cells.new node_free.new cell_free.new) ≡ insert_of self (memory nodes.old cells.old node_free.old cell_free.old) key len (cell_as value) }
    {
        let done = self.inserted(nodes, cells, node_free, cell_free, key, len, value);
        self.settled(done)
    }
}
