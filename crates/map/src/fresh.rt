// A fresh start: all lent memory written, node 0 issued.
ghost use Rattle.std.specs.Prelude.{◌≡◌};
ghost use Rattle.entry.specs.Fresh.{pool_as};
ghost use Rattle.map.specs.Memory.{memory, state_as};
ghost use Rattle.map.specs.Fresh.{fresh_of};

use crate::{Answer, Edited, State};

// The state of n nodes, the first `mark` issued, and d cells.
fn new_state(n: u32, d: u32, mark: u32) -> State
    ensures { result ≡ state_as (pool_as n mark) (pool_as d 0) 0 }
{
    State {
        nodes: entry::new_pool(n, mark),
        cells: entry::new_pool(d, 0),
        rules: 0,
    }
}

impl State {
    // A fresh start over n nodes and d cells; refused, it hands back an all-zero state, which every later call meets with 3.
    #[tactic(auto, unfolding(crate::specs::Fresh::fresh_of))]
    pub fn fresh(
        nodes: &mut [u32],
        cells: &mut [u32],
        node_free: &mut [u32],
        cell_free: &mut [u32],
        n: u32,
        d: u32,
    ) -> Edited
        ensures { (result, memory nodes.new cells.new node_free.new cell_free.new) ≡ fresh_of (memory nodes.old cells.old node_free.old cell_free.old) n d }
    {
        if !entry::edit_shaped(
            n,
            d,
            nodes.len(),
            cells.len(),
            node_free.len(),
            cell_free.len(),
        ) {
            return Edited {
                answer: Answer::WrongSlice,
                state: new_state(0, 0, 0),
            };
        }
        entry::clear_nodes(nodes, n);
        entry::clear_words(cells);
        entry::clear_words(node_free);
        entry::clear_words(cell_free);
        Edited {
            answer: Answer::Started,
            state: new_state(n, d, 1),
        }
    }
}
