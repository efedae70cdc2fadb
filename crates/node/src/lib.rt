// A node by value: two bitmaps and two block starts. Its bits set, unset and asked; matches and covers in it.
// What a mask and a match mean is said by prefixes, in specs/Masks.antt and specs/Matches.antt.
#![tactic(auto)]

ghost use Rattle.std.specs.Prelude.{◌≡◌, ℕ, ◌+◌, ◌-◌, ◌<◌, ◌≤◌, MatchOption};
ghost use Rattle.std.specs.Int.Bits.{bit_and};
ghost use Rattle.bits.specs.Bits.{has, count, set_below};
ghost use Rattle.tiers.specs.Tiers.{stride};
ghost use Rattle.places.specs.Places.{window};
ghost use Rattle.node.specs.Nodes.{empty_node, set_data, unset_data, set_child, unset_child};
ghost use Rattle.node.specs.Masks.{data_lpm, data_cover, child_cover};
ghost use Rattle.node.specs.Matches.{shared, longest_in, shortest_in};

pub mod views;

use bits::Bit;
use tiers::{CellAt, ChildPool, Kind, NodeAt, wide};
use views::View;

#[derive(Clone, Copy)]
pub struct MultiBitNode {
    pub data_bitmap: u32,
    pub child_bitmap: u32,
    pub children_idx: NodeAt,
    pub data_idx: CellAt,
}

// The data bits of the prefixes in the node that cover the query.
pub fn data_lpm_mask(v: View) -> u32
    ensures { result ≡ data_lpm v.depth v.key v.len }
{
    let place = places::rest_place(v.rest, v.depth, v.key);
    if v.len - v.depth < 4 {
        patterns::path_bits(v.len - v.depth, place)
    } else {
        patterns::path_bits(4, place)
    }
}

// The level and the place of the query in a row of the patterns, where its length is in the node.
fn row_of(v: View) -> Option<(usize, usize)>
    ensures { MatchOption result (v.depth + stride ≤ v.len) (λ r. (r.0 ≡ v.len - v.depth) × (r.1 ≡ window v.key v.depth 4) × (v.len < v.depth + stride)) }
{
    if v.len - v.depth < ChildPool::STRIDE {
        Some((
            wide(v.len - v.depth),
            wide(places::row_place(v.depth, v.key)),
        ))
    } else {
        None
    }
}

// The data bits of the prefixes in the node that the query covers; none where the query's length isn't in the node.
pub fn data_cover_mask(v: View) -> u32
    ensures { result ≡ data_cover v.depth v.key v.len }
{
    match row_of(v) {
        Some((level, place)) => patterns::data_cover_pattern(level, place),
        None => 0,
    }
}

// The children of the node that the query covers; none where the query's length isn't in the node.
pub fn child_cover_mask(v: View) -> u32
    ensures { result ≡ child_cover v.depth v.key v.len }
{
    match row_of(v) {
        Some((level, place)) => patterns::child_cover_pattern(level, place),
        None => 0,
    }
}

impl MultiBitNode {
    // No data, no children, no blocks.
    pub fn empty() -> MultiBitNode
        ensures { result ≡ empty_node }
    {
        MultiBitNode {
            data_bitmap: 0,
            child_bitmap: 0,
            children_idx: NodeAt::EMPTY,
            data_idx: CellAt::EMPTY,
        }
    }

    // The bits, counts and slots of the two halves are one line each over the crate `bits`, by the names that the ported crate gives them.
    pub fn has_data_bit(self, bit: Bit) -> bool
        ensures { result ≡ has self.data_bitmap bit }
    {
        bits::has_bit(self.data_bitmap, bit)
    }

    pub fn set_data_bit(self, bit: Bit) -> MultiBitNode
        ensures { result ≡ set_data self bit }
    {
        let mut node = self;
        node.data_bitmap = bits::set_bit(self.data_bitmap, bit);
        node
    }

    pub fn unset_data_bit(self, bit: Bit) -> MultiBitNode
        ensures { result ≡ unset_data self bit }
    {
        let mut node = self;
        node.data_bitmap = bits::unset_bit(self.data_bitmap, bit);
        node
    }

    pub fn has_child_bit(self, bit: Bit) -> bool
        ensures { result ≡ has self.child_bitmap bit }
    {
        bits::has_bit(self.child_bitmap, bit)
    }

    pub fn set_child_bit(self, bit: Bit) -> MultiBitNode
        ensures { result ≡ set_child self bit }
    {
        let mut node = self;
        node.child_bitmap = bits::set_bit(self.child_bitmap, bit);
        node
    }

    pub fn unset_child_bit(self, bit: Bit) -> MultiBitNode
        ensures { result ≡ unset_child self bit }
    {
        let mut node = self;
        node.child_bitmap = bits::unset_bit(self.child_bitmap, bit);
        node
    }

    // How many rules the node holds.
    pub fn data_count(self) -> u32
        ensures { result ≡ count self.data_bitmap }
    {
        bits::count_bits(self.data_bitmap)
    }

    // How many children the node has.
    pub fn child_count(self) -> u32
        ensures { result ≡ count self.child_bitmap }
    {
        bits::count_bits(self.child_bitmap)
    }

    // The place of a data bit's value in the node's block of cells.
    pub fn data_slot(self, bit: Bit) -> u32
        ensures { result ≡ set_below self.data_bitmap bit }
    {
        bits::compute_slot(self.data_bitmap, bit)
    }

    // The place of a child in the node's block of nodes.
    pub fn child_slot(self, bit: Bit) -> u32
        ensures { result ≡ set_below self.child_bitmap bit }
    {
        bits::compute_slot(self.child_bitmap, bit)
    }

    // The longest rule of the node that covers the query.
    pub fn data_lpm(self, v: View) -> Option<Bit>
        ensures { result ≡ longest_in self.data_bitmap v.depth v.key v.len }
    {
        self.shared(v, bits::highest_bit)
    }

    // The shortest rule of the node that covers the query.
    pub fn data_spm(self, v: View) -> Option<Bit>
        ensures { result ≡ shortest_in self.data_bitmap v.depth v.key v.len }
    {
        self.shared(v, bits::lowest_bit)
    }

    // One of the rules of the node that cover the query, as `pick` picks it of their bits.
    fn shared<F: FnOnce(u32) -> Bit>(self, v: View, pick: F) -> Option<Bit>
        requires { (n : ℕ) → 0 < n → F.pre pick n }
        ensures { MatchOption result (shared self.data_bitmap v.depth v.key v.len ≡ 0) (λ r. F.post pick (shared self.data_bitmap v.depth v.key v.len) r) }
    {
        let bitmap = self.data_bitmap & data_lpm_mask(v);
        if bitmap == 0 {
            return None;
        }
        Some(pick(bitmap))
    }

    // The rules of the node that the query covers, as data bits.
    pub fn data_cover(self, v: View) -> u32
        ensures { result ≡ bit_and self.data_bitmap (data_cover v.depth v.key v.len) }
    {
        self.data_bitmap & data_cover_mask(v)
    }

    // The children of the node that the query covers, as child bits.
    pub fn child_cover(self, v: View) -> u32
        ensures { result ≡ bit_and self.child_bitmap (child_cover v.depth v.key v.len) }
    {
        self.child_bitmap & child_cover_mask(v)
    }
}
