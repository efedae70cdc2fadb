// Remove: refused, or the rule's value taken, then empty nodes given back from the bottom up. All is settled before the first write.
ghost use Rattle.std.specs.Prelude.{◌≡◌, true, ◌/◌, ◌<◌, length, get_or};
ghost use Rattle.tiers.specs.Tiers.{stride, child_top};
ghost use Rattle.places.specs.Places.{data_bit};
ghost use Rattle.node.specs.Nodes.{empty_node};
ghost use Rattle.blocks.specs.Shape.{shaped_of, sane_of};
ghost use Rattle.map.specs.Memory.{memory, settled};
ghost use Rattle.map.specs.Removals.{taken_of, remove_of};

use crate::{Answer, Edited, State};
use bits::Bit;
use refusals::Refusal;
use store::{Cell, Item};
use tiers::{ChildPool, Kind, wide};
use walk::Trail;

impl State {
    // The rule of a data bit in the trail's last node goes.
    #[tactic(auto, unfolding(crate::specs::Removals::taken_of))]
    fn taken(
        &mut self,
        nodes: &mut [u32],
        cells: &mut [u32],
        node_free: &mut [u32],
        cell_free: &mut [u32],
        key: u32,
        len: u32,
        t: &Trail,
        bit: Bit,
    ) -> Result<Answer, Refusal>
        requires rule { bit ≡ data_bit key len }
        requires sound { (shaped_of self.old.nodes child_top (length node_free.old) ≡ true) × (sane_of self.old.nodes child_top ≡ true) }
        ensures { let level = t.now.depth / stride in
            (settled self.new result, memory nodes.new cells.new node_free.new cell_free.new)
            ≡ taken_of self.old (memory nodes.old cells.old node_free.old cell_free.old) key len t.now level (get_or t.now.nodes level empty_node) }
    {
        if self.rules == 0 {
            return Err(Refusal::Broken);
        }
        let p = self.nodes;
        let q = self.cells;
        let last = t.last();
        let x = last.node;
        edits::drop_ask(q, cell_free, x)?;
        let bare = edits::last_rule(x);
        edits::prune_ask(p, node_free, t, bare)?;
        let slot = wide(x.data_idx.0) + wide(x.data_slot(bit));
        let old = Cell::load(cells, slot).value;
        self.cells = edits::drop_rule(q, nodes, cells, cell_free, last.at, x, bit);
        self.nodes = edits::prune(p, nodes, node_free, t, key, bare);
        self.rules -= 1;
        Ok(Answer::Removed(key, len, old))
    }

    // The steps of a removal: the first tests, the walk, then the rule where it ends.
    #[inline(always)]
    #[tactic(auto, unfolding(crate::specs::Removals::remove_of, crate::specs::Removals::walked_of))]
    fn removed(
        &mut self,
        nodes: &mut [u32],
        cells: &mut [u32],
        node_free: &mut [u32],
        cell_free: &mut [u32],
        key: u32,
        len: u32,
    ) -> Result<Answer, Refusal>
        ensures { (settled self.new result, memory nodes.new cells.new node_free.new cell_free.new) ≡ remove_of self.old (memory nodes.old cells.old node_free.old cell_free.old) key len }
    {
        let t = self.walked(nodes, cells, node_free, cell_free, key, len)?;
        let k = prefix::mask_key(key, len);
        if t.depth() + ChildPool::STRIDE <= len {
            return Err(Refusal::Missing);
        }
        let bit = places::data_bit(k, len);
        if !t.last().node.has_data_bit(bit) {
            return Err(Refusal::Missing);
        }
        self.taken(nodes, cells, node_free, cell_free, k, len, &t, bit)
    }

    // Removes a rule.
    pub fn remove(
        mut self,
        nodes: &mut [u32],
        cells: &mut [u32],
        node_free: &mut [u32],
        cell_free: &mut [u32],
        key: u32,
        len: u32,
    ) -> Edited
        ensures { (result, memory nodes.new cells.new node_free.new cell_free.new) ≡ remove_of self (memory nodes.old cells.old node_free.old cell_free.old) key len }
    {
        let done = self.removed(nodes, cells, node_free, cell_free, key, len);
        self.settled(done)
    }
}
