// The readings of document 01 that are marked as the small proved set: one list of inputs and results.
// The list stands in specs/Starred.antt; the one statement that proves it in proofs/Starred.antt.
#![tactic(auto)]

mod small;

ghost use Rattle.std.specs.Prelude.{◌≡◌};
ghost use Rattle.readings.specs.Reading.{reading_of};

use node::views::View;
use tiers::{ChildPool, DataPool, Kind};

// What is asked.
#[derive(Clone, Copy)]
pub enum Input {
    DataBit { key: u32, len: u32 },
    LpmMask { depth: u32, key: u32, len: u32 },
    ChildBit { depth: u32, key: u32 },
    LpmEntry { level: usize, place: usize },
    ChildCoverEntry { level: usize, place: usize },
    DataTier { count: u32 },
    ChildTier { count: u32 },
    Longest { rules: u32, key: u32, len: u32 },
}

// What it gives: a number, what the map says, or nothing where the input is outside the function's. (No Option of a reading: the list
// names a reading as it stands, as `all_starred` has it, and one arm alone gives Outside.)
#[derive(Clone, Copy)]
pub enum Reading {
    Number(usize),
    Said {
        number: u32,
        len: u32,
        nodes: u32,
        key: u32,
        value: u32,
    },
    Outside,
}

// The reading of an input.
#[tactic(auto, unfolding(crate::specs::Reading::reading_of, crate::specs::Small::said_of))]
pub fn read(input: Input) -> Reading
    ensures { result ≡ reading_of input }
{
    let number = match input {
        Input::DataBit { key, len } if len <= 32 => places::data_bit(key, len).number(),
        Input::LpmMask { depth, key, len } if depth % 5 == 0 && depth <= len && len <= 32 => {
            node::data_lpm_mask(View::at(depth, key, len))
        }
        Input::ChildBit { depth, key } if depth <= 27 => places::child_bit(depth, key).number(),
        Input::LpmEntry { level, place } if level < 5 && place < 16 => {
            patterns::data_lpm_pattern(level, place)
        }
        Input::ChildCoverEntry { level, place } if level < 5 && place < 16 => {
            patterns::child_cover_pattern(level, place)
        }
        Input::DataTier { count } => return Reading::Number(DataPool::tier(count).number()),
        Input::ChildTier { count } => return Reading::Number(ChildPool::tier(count).number()),
        Input::Longest { rules, key, len } if rules <= 2 => {
            let v = small::longest(rules, key, len).values();
            return Reading::Said {
                number: v.number,
                len: v.len,
                nodes: v.nodes,
                key: v.key,
                value: v.value,
            };
        }
        _ => return Reading::Outside,
    };
    Reading::Number(tiers::wide(number))
}
