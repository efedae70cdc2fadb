// The small map of the readings: 8 nodes and 4 cells, a fresh start, then the first rules of a list of two.
ghost use Rattle.std.specs.Prelude.{◌≡◌};
ghost use Rattle.map.specs.Memory.{memory};
ghost use Rattle.readings.specs.Small.{lent, longest_after};

use map::{Answer, State};

// The longest match on lent memory after the first `rules` rules, both where more are asked: the batch's, then the held cell's.
#[tactic(auto, unfolding(crate::specs::Small::longest_after))]
fn longest_after(
    nodes: &mut [u32],
    cells: &mut [u32],
    node_free: &mut [u32],
    cell_free: &mut [u32],
    rules: u32,
    key: u32,
    len: u32,
) -> Answer
    ensures { result ≡ longest_after (memory nodes.old cells.old node_free.old cell_free.old) rules key len }
{
    let f = State::fresh(nodes, cells, node_free, cell_free, 8, 4);
    if rules == 0 {
        return f.state.longest(nodes, cells, key, len);
    }
    let a = f
        .state
        .insert(nodes, cells, node_free, cell_free, 0x0a00_0100, 27, 7);
    if rules == 1 {
        return a.state.longest(nodes, cells, key, len);
    }
    let b = a
        .state
        .insert(nodes, cells, node_free, cell_free, 0x0a00_0113, 32, 9);
    b.state.longest(nodes, cells, key, len)
}

// The longest match on a small map of its own: 4 words a node, 1 a cell, and free lists of 15 and 7 entries.
pub fn longest(rules: u32, key: u32, len: u32) -> Answer
    ensures { result ≡ longest_after lent rules key len }
{
    let mut nodes = [0u32; 32];
    let mut cells = [0u32; 4];
    let mut node_free = [0u32; 15];
    let mut cell_free = [0u32; 7];
    longest_after(
        &mut nodes,
        &mut cells,
        &mut node_free,
        &mut cell_free,
        rules,
        key,
        len,
    )
}
