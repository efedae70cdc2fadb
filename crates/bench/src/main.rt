// The bench program: records from standard input, answers to standard output, over pools of 1,024 nodes and 2,048 cells.
// A short read is no short tail: input is read until the buffer is full or the input ends.
#![tactic(auto)]

use map::State;
use std::io;
use std::io::Write;

// One read, the answers to it, one write: the state after, where more may come. Where a read fails, what came before it is answered first.
fn one_turn(
    rt: &HostRuntime,
    s: State,
    nodes: &mut [u32],
    cells: &mut [u32],
    node_free: &mut [u32],
    cell_free: &mut [u32],
) -> io::Result<Option<State>> {
    let mut input = [0u8; 49152];
    let (n, ended) = intake::read_full(&mut rt.stdin(), &mut input);
    let mut out = [0u8; 49152];
    let state = records::play::play(s, nodes, cells, node_free, cell_free, &input[..n], &mut out);
    let whole = n - n % 12;
    let mut output = rt.stdout();
    output.write_all(&out[..whole])?;
    if whole < n {
        records::play::tail(&mut out);
        output.write_all(&out[..12])?;
    }
    ended?;
    Ok((n == 49152).then_some(state))
}

fn run(
    rt: &HostRuntime,
    nodes: &mut [u32],
    cells: &mut [u32],
    node_free: &mut [u32],
    cell_free: &mut [u32],
) -> io::Result<()> {
    let mut state = State::fresh(nodes, cells, node_free, cell_free, 1024, 2048).state;
    // A proved loop ends: no run has so many turns.
    for _ in 0..u64::MAX {
        match one_turn(rt, state, nodes, cells, node_free, cell_free)? {
            Some(after) => state = after,
            None => break,
        }
    }
    Ok(())
}

fn main(rt: HostRuntime) -> io::Result<()> {
    let mut nodes = [0u32; 4096];
    let mut cells = [0u32; 2048];
    let mut node_free = [0u32; 2058];
    let mut cell_free = [0u32; 4119];
    run(&rt, &mut nodes, &mut cells, &mut node_free, &mut cell_free)
}
