// What an answer is, and those of slots and tiers.
use bits::Bit;
use tiers::{ChildPool, DataPool, Kind, Tier};

// One number, two numbers, nothing, or that the inputs are outside the function's.
#[derive(Clone, Copy, Debug, PartialEq, Eq)]
pub enum Answer {
    One(u32),
    Two(u32, u32),
    Nothing,
    Outside,
}

impl Answer {
    // Which answer it is, then its numbers, 0 where it has none.
    pub fn numbers(self) -> (u32, u32, u32) {
        match self {
            Answer::One(x) => (0, x, 0),
            Answer::Two(x, y) => (1, x, y),
            Answer::Nothing => (2, 0, 0),
            Answer::Outside => (3, 0, 0),
        }
    }
}

impl From<bool> for Answer {
    fn from(b: bool) -> Answer {
        Answer::One(u32::from(b))
    }
}

impl From<Tier> for Answer {
    fn from(tier: Tier) -> Answer {
        Answer::One(tier.number() as u32)
    }
}

impl From<Bit> for Answer {
    fn from(bit: Bit) -> Answer {
        Answer::One(bit.number())
    }
}

// The spacing of a tier of one kind of pool.
fn spacing<K: Kind>(tier: u32) -> Answer {
    match Tier::new(tiers::wide(tier)) {
        Some(tier) => Answer::One(K::spacing(tier)),
        None => Answer::Outside,
    }
}

// The slot of a bit, where there is such a bit.
fn slot(bitmap: u32, bit: u32) -> Answer {
    match Bit::new(bit) {
        Some(bit) => Answer::One(bits::compute_slot(bitmap, bit)),
        None => Answer::Outside,
    }
}

pub fn of_slots_and_tiers(op: u32, a: u32, b: u32) -> Answer {
    match op {
        1 => slot(a, b),
        2 if a <= 31 => Answer::from(DataPool::tier(a)),
        3 if a <= 32 => Answer::from(ChildPool::tier(a)),
        4 => spacing::<DataPool>(a),
        5 => spacing::<ChildPool>(a),
        _ => Answer::Outside,
    }
}
