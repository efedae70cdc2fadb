// Answers of the order tables and of the keys that bits stand for.
ghost use Rattle.std.specs.Prelude.{◌≡◌, ◌<◌, ◌≤◌, true};
ghost use Rattle.prefix.specs.Prefix.{width};
ghost use Rattle.places.specs.Places.{length_at};

use crate::answers::Answer;
use order::{BitPrefix, LexElem, LexMasks};
use prefix::Prefix;

impl From<LexElem> for Answer {
    fn from(e: LexElem) -> Answer {
        match e {
            LexElem::Data(bit) => Answer::Two(0, bit),
            LexElem::Child(bit) => Answer::Two(1, bit),
        }
    }
}

impl From<LexMasks> for Answer {
    fn from(m: LexMasks) -> Answer {
        Answer::Two(m.data_mask, m.child_mask)
    }
}

impl From<BitPrefix> for Answer {
    fn from(p: BitPrefix) -> Answer {
        Answer::Two(p.offset, p.level)
    }
}

impl From<Prefix> for Answer {
    fn from(p: Prefix) -> Answer {
        Answer::Two(p.key, p.len)
    }
}

// Does a data bit stand for a prefix in a node at this depth? At depth 30 only those of its first three levels do.
#[tactic(auto, using(places::proofs::Levels::level_lt, places::proofs::Prefixes::at_last), unfolding(places::specs::Places::length_at))]
fn has_prefix(depth: u32, bit: u32) -> bool
    ensures { result ≡ true → (depth ≤ 30) × ((bit < 31) × (length_at depth bit ≤ width)) }
{
    match depth {
        30 => bit < 7,
        _ => depth % 5 == 0 && depth <= 25 && bit < 31,
    }
}

pub fn of_order(op: u32, a: u32, b: u32, c: u32) -> Answer {
    match op {
        16 if a < 63 => Answer::from(order::lex_order(tiers::wide(a))),
        17 if a < 31 => Answer::from(order::lex_after_data(tiers::wide(a))),
        18 if a < 32 => Answer::from(order::lex_after_child(tiers::wide(a))),
        19 if a < 31 => Answer::from(order::data_bit_to_prefix(tiers::wide(a))),
        20 if b % 5 == 0 && b <= 30 && c < 32 => Answer::One(order::extend_repr(a, b, c)),
        21 if b <= 32 => Answer::One(prefix::mask_key(a, b)),
        22 if has_prefix(a, c) => Answer::from(order::data_prefix(a, b, c)),
        _ => Answer::Outside,
    }
}
