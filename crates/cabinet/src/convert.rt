// Conversions between the map's own types and the structs that cross to C.
ghost use Rattle.std.specs.Prelude.{◌≡◌};
ghost use Rattle.cabinet.specs.Conversions.{state_of, state_told, values_told, answered, edit_told};

use crate::{CabinetAnswer, CabinetEdit, CabinetState};
use blocks::Pool;
use map::{Answer, Edited, State, Values};

// The map's state of a state from C.
impl From<CabinetState> for State {
    ghost from_gives = { λ s r. r ≡ state_of s };

    fn from(s: CabinetState) -> State {
        let nodes = s.node_free;
        let cells = s.cell_free;
        State {
            nodes: Pool {
                size: s.node_size,
                mark: s.node_mark,
                free: nodes,
            },
            cells: Pool {
                size: s.cell_size,
                mark: s.cell_mark,
                free: cells,
            },
            rules: s.rules,
        }
    }
}

// The state for C of the map's state.
impl From<State> for CabinetState {
    ghost from_gives = { λ s r. r ≡ state_told s };

    fn from(s: State) -> CabinetState {
        let node_free = s.nodes.free;
        let cell_free = s.cells.free;
        CabinetState {
            node_size: s.nodes.size,
            node_mark: s.nodes.mark,
            node_free,
            cell_size: s.cells.size,
            cell_mark: s.cells.mark,
            cell_free,
            rules: s.rules,
        }
    }
}

// Document 01's number and values, for C. (Structs for C are laid out of their own, so they are filled field by field.)
impl From<Values> for CabinetAnswer {
    ghost from_gives = { λ v r. r ≡ values_told v };

    fn from(v: Values) -> CabinetAnswer {
        CabinetAnswer {
            number: v.number,
            len: v.len,
            nodes: v.nodes,
            key: v.key,
            value: v.value,
        }
    }
}

// An answer, for C.
impl From<Answer> for CabinetAnswer {
    ghost from_gives = { λ a r. r ≡ answered a };

    fn from(a: Answer) -> CabinetAnswer {
        CabinetAnswer::from(a.values())
    }
}

// What an edit gives, for C.
impl From<Edited> for CabinetEdit {
    ghost from_gives = { λ e r. r ≡ edit_told e };

    fn from(e: Edited) -> CabinetEdit {
        CabinetEdit {
            state: CabinetState::from(e.state),
            answer: CabinetAnswer::from(e.answer),
        }
    }
}
