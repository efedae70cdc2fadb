// Answers of node bits, masks, patterns and matches.
ghost use Rattle.std.specs.Prelude.{◌≡◌, ◌<◌, true};
ghost use Rattle.node.specs.Masks.{InTree};

use crate::answers::Answer;
use bits::Bit;
use node::MultiBitNode;
use node::views::View;
use tiers::{CellAt, NodeAt};

// A bit that was found, or nothing.
impl From<Option<Bit>> for Answer {
    fn from(bit: Option<Bit>) -> Answer {
        match bit {
            Some(bit) => Answer::from(bit),
            None => Answer::Nothing,
        }
    }
}

// A node of two bitmaps alone.
fn node_of(data_bitmap: u32, child_bitmap: u32) -> MultiBitNode {
    MultiBitNode {
        data_bitmap: data_bitmap,
        child_bitmap: child_bitmap,
        children_idx: NodeAt::EMPTY,
        data_idx: CellAt::EMPTY,
    }
}

// Does a node stand at the depth, and the length at or below it?
fn in_tree(depth: u32, len: u32) -> bool
    ensures { result ≡ true → InTree depth len }
{
    depth % 5 == 0 && depth <= len && len <= 32
}

// An entry of one of the three patterns: the request's own number says which.
fn pattern(section: u32, level: usize, place: usize) -> Answer
    requires { (level < 5) × (place < 16) }
{
    match section {
        0 => Answer::One(patterns::data_lpm_pattern(level, place)),
        1 => Answer::One(patterns::data_cover_pattern(level, place)),
        2 => Answer::One(patterns::child_cover_pattern(level, place)),
        _ => Answer::Outside,
    }
}

pub fn of_masks(op: u32, a: u32, b: u32, c: u32) -> Answer {
    match op {
        6 if b <= 32 => Answer::from(places::data_bit(a, b)),
        7 if a <= 25 => Answer::from(places::child_bit(a, b)),
        8 if in_tree(a, c) => Answer::One(node::data_lpm_mask(View::at(a, b, c))),
        9 if in_tree(a, c) => Answer::One(node::data_cover_mask(View::at(a, b, c))),
        10 if in_tree(a, c) => Answer::One(node::child_cover_mask(View::at(a, b, c))),
        11 if b < 5 && c < 16 => pattern(a, tiers::wide(b), tiers::wide(c)),
        _ => Answer::Outside,
    }
}

pub fn of_matches(op: u32, bitmap: u32, depth: u32, key: u32, len: u32) -> Answer {
    if !in_tree(depth, len) {
        return Answer::Outside;
    }
    let v = View::at(depth, key, len);
    match op {
        12 => Answer::from(node_of(bitmap, 0).data_lpm(v)),
        13 => Answer::from(node_of(bitmap, 0).data_spm(v)),
        14 => Answer::One(node_of(bitmap, 0).data_cover(v)),
        15 => Answer::One(node_of(0, bitmap).child_cover(v)),
        _ => Answer::Outside,
    }
}

pub fn of_bits(op: u32, bitmap: u32, bit: u32) -> Answer {
    let Some(at) = Bit::new(bit) else {
        return Answer::Outside;
    };
    match op {
        23 if bit < 31 => Answer::from(node_of(bitmap, 0).has_data_bit(at)),
        24 if bit < 31 => Answer::One(node_of(bitmap, 0).set_data_bit(at).data_bitmap),
        25 if bit < 31 => Answer::One(node_of(bitmap, 0).unset_data_bit(at).data_bitmap),
        26 => Answer::from(node_of(0, bitmap).has_child_bit(at)),
        27 => Answer::One(node_of(0, bitmap).set_child_bit(at).child_bitmap),
        28 => Answer::One(node_of(0, bitmap).unset_child_bit(at).child_bitmap),
        _ => Answer::Outside,
    }
}
