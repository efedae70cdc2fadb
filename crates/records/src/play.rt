// A run of records, each answered in turn on the state and memory that the one before left.
ghost use Rattle.std.specs.Prelude.{◌≡◌, ◌+◌, ◌/◌, ◌≤◌, length};
ghost use Rattle.map.specs.Memory.{memory};
ghost use Rattle.records.specs.Records.{record_bytes, call_of, reply_of, cut_short};
ghost use Rattle.records.specs.Operations.{number_of};
ghost use Rattle.octets.specs.Octets.{written};
ghost use Rattle.records.specs.Runs.{run, one_of, wholes_of};

use crate::codec::{Operation, Record, put_reply, record_at};
use map::{Edited, State, Values};

// The program's own answers: a bad record, and a short tail.
const BAD_RECORD: Values = Values {
    number: 6,
    len: 0,
    nodes: 0,
    key: 0,
    value: 0,
};

const CUT_SHORT: Values = Values {
    number: 7,
    ..BAD_RECORD
};

// The call of a good record. (A struct of the four lent slices is no plainer: behind `&mut` its fields can't be lent one by one,
// and by value each function takes it apart and its caller makes it anew, since one that is passed on whole isn't known afterwards.)
#[tactic(auto, unfolding(crate::specs::Records::call_of))]
fn call(
    s: State,
    nodes: &mut [u32],
    cells: &mut [u32],
    node_free: &mut [u32],
    cell_free: &mut [u32],
    r: Record,
) -> Edited
    ensures { (result, memory nodes.new cells.new node_free.new cell_free.new) ≡ call_of s (memory nodes.old cells.old node_free.old cell_free.old) (number_of r.op) r.len r.key r.value }
{
    let answer = match r.op {
        Operation::Insert => {
            return s.insert(nodes, cells, node_free, cell_free, r.key, r.len, r.value);
        }
        Operation::Remove => return s.remove(nodes, cells, node_free, cell_free, r.key, r.len),
        Operation::Exact => s.exact(nodes, cells, r.key, r.len),
        Operation::Longest => s.longest(nodes, cells, r.key, r.len),
        Operation::Shortest => s.shortest(nodes, cells, r.key, r.len),
    };
    Edited { answer, state: s }
}

// The record at `at` of the input, its answer at the same place of the output.
#[tactic(auto, unfolding(crate::specs::Runs::one_of))]
fn one(
    s: State,
    nodes: &mut [u32],
    cells: &mut [u32],
    node_free: &mut [u32],
    cell_free: &mut [u32],
    input: &[u8],
    out: &mut [u8],
    at: usize,
) -> State
    requires { (at + 12 ≤ length input.now) × (at + 12 ≤ length out.old) }
    ensures { run result (memory nodes.new cells.new node_free.new cell_free.new) out.new ≡ one_of (run s (memory nodes.old cells.old node_free.old cell_free.old) out.old) input.now at }
{
    let Some(record) = record_at(input, at) else {
        put_reply(out, at, BAD_RECORD);
        return s;
    };
    let e = call(s, nodes, cells, node_free, cell_free, record);
    put_reply(out, at, e.answer.values());
    e.state
}

// All whole records of the input, each answered at its own place of the output: the state after.
#[tactic(auto, using(crate::proofs::Playing::one_more), unfolding(crate::specs::Runs::wholes_of))]
pub fn play(
    s: State,
    nodes: &mut [u32],
    cells: &mut [u32],
    node_free: &mut [u32],
    cell_free: &mut [u32],
    input: &[u8],
    out: &mut [u8],
) -> State
    requires { length input.now ≤ length out.old }
    ensures { run result (memory nodes.new cells.new node_free.new cell_free.new) out.new ≡ wholes_of (length input.now / record_bytes) (run s (memory nodes.old cells.old node_free.old cell_free.old) out.old) input.now }
{
    let mut state = s;
    for i in 0..input.len() / 12 {
        state = one(
            state,
            nodes,
            cells,
            node_free,
            cell_free,
            input,
            out,
            i * 12,
        );
    }
    state
}

// The answer to a short tail, at the start of the output.
pub fn tail(out: &mut [u8])
    requires { 12 ≤ length out.old }
    ensures { out.new ≡ written out.old 0 (reply_of cut_short) }
{
    put_reply(out, 0, CUT_SHORT);
}
