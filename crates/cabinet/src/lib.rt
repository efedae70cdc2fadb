// The map for C and Rust to link: the six calls as exported functions over numbers, slices and structs of numbers.
// Nothing is decided here: each call converts the state, calls the map and converts what it gives. include/cabinet.h tells C the same.
#![tactic(auto)]

mod convert;

ghost use Rattle.std.specs.Prelude.{◌≡◌};
ghost use Rattle.store.specs.Words.{cell_as};
ghost use Rattle.map.specs.Memory.{memory};
ghost use Rattle.map.specs.Fresh.{fresh_of};
ghost use Rattle.map.specs.Inserts.{insert_of};
ghost use Rattle.map.specs.Removals.{remove_of};
ghost use Rattle.map.specs.Lookups.{exact_of, longest_of, shortest_of};
ghost use Rattle.cabinet.specs.Conversions.{state_of, answered, handed_on};

use map::State;

// The map's state, its two pools side by side: sizes, issued marks, free counts by tier; and the rule count.
#[repr(C)]
#[derive(Clone, Copy)]
pub struct CabinetState {
    pub node_size: u32,
    pub node_mark: u32,
    pub node_free: [u32; 7],
    pub cell_size: u32,
    pub cell_mark: u32,
    pub cell_free: [u32; 7],
    pub rules: u32,
}

// An answer: document 01's number and values, 0 where it gives none.
#[repr(C)]
#[derive(Clone, Copy)]
pub struct CabinetAnswer {
    pub number: u32,
    pub len: u32,
    pub nodes: u32,
    pub key: u32,
    pub value: u32,
}

// What an edit gives: the state to hand to the next call, and the answer.
#[repr(C)]
#[derive(Clone, Copy)]
pub struct CabinetEdit {
    pub state: CabinetState,
    pub answer: CabinetAnswer,
}

// A fresh start over n nodes and d cells.
#[unsafe(no_mangle)]
pub extern "C" fn cabinet_fresh(
    nodes: &mut [u32],
    cells: &mut [u32],
    node_free: &mut [u32],
    cell_free: &mut [u32],
    n: u32,
    d: u32,
) -> CabinetEdit
    ensures { (result, memory nodes.new cells.new node_free.new cell_free.new) ≡ handed_on (fresh_of (memory nodes.old cells.old node_free.old cell_free.old) n d) }
{
    CabinetEdit::from(State::fresh(nodes, cells, node_free, cell_free, n, d))
}

// Inserts a rule, or replaces its value.
#[unsafe(no_mangle)]
pub extern "C" fn cabinet_insert(
    state: CabinetState,
    nodes: &mut [u32],
    cells: &mut [u32],
    node_free: &mut [u32],
    cell_free: &mut [u32],
    key: u32,
    len: u32,
    value: u32,
) -> CabinetEdit
    ensures { (result, memory nodes.new cells.new node_free.new cell_free.new) ≡ handed_on (insert_of (state_of state) (memory nodes.old cells.old node_free.old cell_free.old) key len (cell_as value)) }
{
    CabinetEdit::from(State::from(state).insert(
        nodes, cells, node_free, cell_free, key, len, value,
    ))
}

// Removes a rule.
#[unsafe(no_mangle)]
pub extern "C" fn cabinet_remove(
    state: CabinetState,
    nodes: &mut [u32],
    cells: &mut [u32],
    node_free: &mut [u32],
    cell_free: &mut [u32],
    key: u32,
    len: u32,
) -> CabinetEdit
    ensures { (result, memory nodes.new cells.new node_free.new cell_free.new) ≡ handed_on (remove_of (state_of state) (memory nodes.old cells.old node_free.old cell_free.old) key len) }
{
    CabinetEdit::from(State::from(state).remove(nodes, cells, node_free, cell_free, key, len))
}

// The rule of the query itself.
#[unsafe(no_mangle)]
pub extern "C" fn cabinet_exact(
    state: CabinetState,
    nodes: &[u32],
    cells: &[u32],
    key: u32,
    len: u32,
) -> CabinetAnswer
    ensures { result ≡ answered (exact_of (state_of state) nodes.now cells.now key len) }
{
    CabinetAnswer::from(State::from(state).exact(nodes, cells, key, len))
}

// The longest rule that covers the query.
#[unsafe(no_mangle)]
pub extern "C" fn cabinet_longest(
    state: CabinetState,
    nodes: &[u32],
    cells: &[u32],
    key: u32,
    len: u32,
) -> CabinetAnswer
    ensures { result ≡ answered (longest_of (state_of state) nodes.now cells.now key len) }
{
    CabinetAnswer::from(State::from(state).longest(nodes, cells, key, len))
}

// The covering rule of least length.
#[unsafe(no_mangle)]
pub extern "C" fn cabinet_shortest(
    state: CabinetState,
    nodes: &[u32],
    cells: &[u32],
    key: u32,
    len: u32,
) -> CabinetAnswer
    ensures { result ≡ answered (shortest_of (state_of state) nodes.now cells.now key len) }
{
    CabinetAnswer::from(State::from(state).shortest(nodes, cells, key, len))
}
