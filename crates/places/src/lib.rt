// Where a prefix stands in the tree: the depth of its node, its level there, its data bit; and the way back.
// Nodes stand at depths 0, 5, .. 30. specs/Places.antt says which prefix a bit stands for, at every depth.
#![tactic(auto)]

ghost use Rattle.std.specs.Prelude.{◌≡◌, ◌<◌, ◌≤◌, ◌+◌};
ghost use Rattle.prefix.specs.Prefix.{width};
ghost use Rattle.tiers.specs.Tiers.{stride};
ghost use Rattle.places.specs.Places.{data_bit, child_bit, window, rest_at, level_of};

use bits::Bit;
use tiers::{ChildPool, Kind};

// The data bit of a prefix in the node that its length lives in. At depth 30 the window runs past the key: it is shifted left by 3.
pub fn data_bit(key: u32, len: u32) -> Bit
    requires { len ≤ width }
    ensures { result ≡ data_bit key len }
{
    let depth = (len / ChildPool::STRIDE) * ChildPool::STRIDE;
    let level = len - depth;
    let offset = (1u32 << level) - 1;
    let number = if depth + ChildPool::STRIDE <= 32 {
        let pattern = (key >> (32 - depth - ChildPool::STRIDE)) & 31;
        (pattern >> (ChildPool::STRIDE - level)) + offset
    } else {
        let pattern = (key << (depth + ChildPool::STRIDE - 32)) & 31;
        (pattern >> (ChildPool::STRIDE - level)) + offset
    };
    Bit { number }
}

// The child that a key goes on to: the five key bits after the depth. It has no meaning at depth 30 and is never asked there.
pub fn child_bit(depth: u32, key: u32) -> Bit
    requires { depth + stride ≤ width }
    ensures { result ≡ child_bit depth key }
{
    Bit {
        number: (key >> (32 - depth - ChildPool::STRIDE)) & 31,
    }
}

// The four key bits after the depth: the place of a key in a row of the patterns. At depth 30 the key is shifted left by 2.
pub fn row_place(depth: u32, key: u32) -> u32
    requires { depth ≤ 30 }
    ensures { result ≡ window key depth 4 }
{
    if depth + ChildPool::STRIDE <= 33 {
        (key >> (33 - depth - ChildPool::STRIDE)) & 15
    } else {
        (key << (depth + ChildPool::STRIDE - 33)) & 15
    }
}

// A walk carries what is left of the key below its depth, `rest`: then no window needs a shift by the depth, nor a case at depth 30.
// `View` of `node` holds their premise; beside child_bit and row_place these stand for speed, and those have the shifts that the order names.

// The same child as child_bit's: the top five bits of what is left of the key.
pub fn rest_child(rest: u32, depth: u32, key: u32) -> Bit
    requires { (depth + stride ≤ width) × (rest ≡ rest_at key depth) }
    ensures { result ≡ child_bit depth key }
{
    Bit { number: rest >> 27 }
}

// The same place as row_place's: the top four bits.
pub fn rest_place(rest: u32, depth: u32, key: u32) -> u32
    requires { (depth ≤ 30) × (rest ≡ rest_at key depth) }
    ensures { result ≡ window key depth 4 }
{
    rest >> 28
}

// What is left one node further down.
pub fn rest_below(rest: u32, depth: u32, key: u32) -> u32
    requires { rest ≡ rest_at key depth }
    ensures { result ≡ rest_at key (depth + stride) }
{
    rest << ChildPool::STRIDE
}

// The level of a data bit in its node: level j has the bits from 2^j - 1 on. (A data bit is below 31; at 31 code and definition differ.)
pub fn level_of(bit: Bit) -> u32
    requires { bit < 31 }
    ensures { result ≡ level_of bit }
{
    31 - u32::leading_zeros(bit.number + 1)
}
