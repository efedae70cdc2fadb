// What insert and remove begin with: the first tests, then the walk.
ghost use Rattle.map.specs.Memory.{memory};
ghost use Rattle.map.specs.Walks.{Begun};

use crate::State;
use refusals::Refusal;
use walk::Trail;

impl State {
    // The trail of a prefix, past the first tests.
    #[inline(always)]
    pub(crate) fn walked(
        &self,
        nodes: &[u32],
        cells: &[u32],
        node_free: &[u32],
        cell_free: &[u32],
        key: u32,
        len: u32,
    ) -> Result<Trail, Refusal>
        ensures { Begun self.now (memory nodes.now cells.now node_free.now cell_free.now) key len result }
    {
        entry::edit_first(
            self.nodes,
            self.cells,
            self.rules,
            nodes.len(),
            cells.len(),
            node_free.len(),
            cell_free.len(),
            key,
            len,
        )?;
        walk::trails::trail(nodes, self.nodes.mark, prefix::mask_key(key, len), len)
    }
}
