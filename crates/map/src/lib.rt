// The map: six calls over memory that the caller lends, total on any key, length and memory.
// Each call's promise is one equation: its answer, the state and every lent slice afterwards are those of a definition in specs/.
// The four lent slices go one by one, as from C (why no struct: records/src/play.rt), and so do key and length, which a call takes as they come.
#![tactic(auto)]

mod fresh;
mod inserts;
mod lookups;
mod refuse;
mod removals;
mod walks;

ghost use Rattle.std.specs.Prelude.{◌≡◌};
ghost use Rattle.map.specs.Answers.{values_of};

use blocks::Pool;

// Issued marks, free counts and pool sizes, and the rule count: each edit takes it by value and hands the new one back.
#[derive(Clone, Copy)]
pub struct State {
    pub nodes: Pool,
    pub cells: Pool,
    pub rules: u32,
}

// What a call answers. specs/Answers.antt gives document 01's number and values for each.
// No Result, though five of the cases are refusals: the theorems of `history` speak of this one enum.
#[derive(Clone, Copy)]
pub enum Answer {
    Started,
    Added(u32, u32),
    Replaced(u32, u32, u32),
    Removed(u32, u32, u32),
    Found(u32, u32, u32, u32),
    TooLong,
    Missing(u32),
    WrongSlice,
    NoRoom,
    Broken,
}

// Document 01's number and values of an answer, 0 where it gives none.
#[derive(Clone, Copy, Debug, PartialEq, Eq)]
pub struct Values {
    pub number: u32,
    pub len: u32,
    pub nodes: u32,
    pub key: u32,
    pub value: u32,
}

impl Answer {
    // Its number and values: in each row number, length, node count, key and value.
    pub fn values(self) -> Values
        ensures { result ≡ values_of self }
    {
        let (number, len, nodes, key, value) = match self {
            Answer::Started => (0, 0, 0, 0, 0),
            Answer::Added(key, len) => (0, len, 0, key, 0),
            Answer::Replaced(key, len, value) => (8, len, 0, key, value),
            Answer::Removed(key, len, value) => (0, len, 0, key, value),
            Answer::Found(key, len, value, nodes) => (0, len, nodes, key, value),
            Answer::TooLong => (1, 0, 0, 0, 0),
            Answer::Missing(nodes) => (2, 0, nodes, 0, 0),
            Answer::WrongSlice => (3, 0, 0, 0, 0),
            Answer::NoRoom => (4, 0, 0, 0, 0),
            Answer::Broken => (5, 0, 0, 0, 0),
        };
        Values {
            number,
            len,
            nodes,
            key,
            value,
        }
    }
}

#[derive(Clone, Copy)]
pub struct Edited {
    pub answer: Answer,
    pub state: State,
}
