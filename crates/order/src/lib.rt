// The order of what a node holds, by masked key, then length, as tables; and the keys that a node's bits stand for.
// The rule of the tables is in specs/Order.antt. A listing walks them.
#![tactic(auto)]

ghost use Rattle.std.specs.Prelude.{◌≡◌, ◌<◌, ◌≤◌};
ghost use Rattle.prefix.specs.Prefix.{width};
ghost use Rattle.places.specs.Places.{length_at, key_at, child_key};
ghost use Rattle.order.specs.Order.{AtPlace, FromData, AfterChild, Offset};

use prefix::Prefix;
use tiers::{ChildPool, Kind};

// What a node holds at a place of the order: a rule's data bit, or a child's bit.
#[derive(Clone, Copy)]
pub enum LexElem {
    Data(u32),
    Child(u32),
}

// The data bits and the child bits of a part of the order.
#[derive(Clone, Copy)]
pub struct LexMasks {
    pub data_mask: u32,
    pub child_mask: u32,
}

// A data bit's path, filled up with zeros to four bits, and its level.
#[derive(Clone, Copy)]
pub struct BitPrefix {
    pub offset: u32,
    pub level: u32,
}

// The elements of a node in their order. (This table and the three below are static: a constant one is laid out anew at each read.)
static LEX_ORDER: [LexElem; 63] = [
    LexElem::Data(0),
    LexElem::Data(1),
    LexElem::Data(3),
    LexElem::Data(7),
    LexElem::Data(15),
    LexElem::Child(0),
    LexElem::Child(1),
    LexElem::Data(16),
    LexElem::Child(2),
    LexElem::Child(3),
    LexElem::Data(8),
    LexElem::Data(17),
    LexElem::Child(4),
    LexElem::Child(5),
    LexElem::Data(18),
    LexElem::Child(6),
    LexElem::Child(7),
    LexElem::Data(4),
    LexElem::Data(9),
    LexElem::Data(19),
    LexElem::Child(8),
    LexElem::Child(9),
    LexElem::Data(20),
    LexElem::Child(10),
    LexElem::Child(11),
    LexElem::Data(10),
    LexElem::Data(21),
    LexElem::Child(12),
    LexElem::Child(13),
    LexElem::Data(22),
    LexElem::Child(14),
    LexElem::Child(15),
    LexElem::Data(2),
    LexElem::Data(5),
    LexElem::Data(11),
    LexElem::Data(23),
    LexElem::Child(16),
    LexElem::Child(17),
    LexElem::Data(24),
    LexElem::Child(18),
    LexElem::Child(19),
    LexElem::Data(12),
    LexElem::Data(25),
    LexElem::Child(20),
    LexElem::Child(21),
    LexElem::Data(26),
    LexElem::Child(22),
    LexElem::Child(23),
    LexElem::Data(6),
    LexElem::Data(13),
    LexElem::Data(27),
    LexElem::Child(24),
    LexElem::Child(25),
    LexElem::Data(28),
    LexElem::Child(26),
    LexElem::Child(27),
    LexElem::Data(14),
    LexElem::Data(29),
    LexElem::Child(28),
    LexElem::Child(29),
    LexElem::Data(30),
    LexElem::Child(30),
    LexElem::Child(31),
];

// Data mask and child mask of each data bit. (Pairs, a line each: entries with the fields' names would take four lines each.)
static LEX_AFTER_DATA: [(u32, u32); 31] = [
    (2147483647, 4294967295),
    (2147483646, 4294967295),
    (2139125860, 4294901760),
    (2147483644, 4294967295),
    (2146991732, 4294967040),
    (2139125856, 4294901760),
    (2013290560, 4278190080),
    (2147483636, 4294967295),
    (2147385204, 4294967280),
    (2146991716, 4294967040),
    (2145418340, 4294963200),
    (2139125824, 4294901760),
    (2113957952, 4293918720),
    (2013290496, 4278190080),
    (1610629120, 4026531840),
    (2147483508, 4294967295),
    (2147450740, 4294967292),
    (2147384948, 4294967280),
    (2147253876, 4294967232),
    (2146991204, 4294967040),
    (2146466916, 4294966272),
    (2145417316, 4294963200),
    (2143320164, 4294950912),
    (2139123776, 4294901760),
    (2130735168, 4294705152),
    (2113953856, 4293918720),
    (2080399424, 4290772992),
    (2013282304, 4278190080),
    (1879064576, 4227858432),
    (1610612736, 4026531840),
    (1073741824, 3221225472),
];

// Data mask and child mask of each child.
static LEX_AFTER_CHILD: [(u32, u32); 32] = [
    (2147450740, 4294967294),
    (2147450740, 4294967292),
    (2147385204, 4294967288),
    (2147385204, 4294967280),
    (2147253876, 4294967264),
    (2147253876, 4294967232),
    (2146991732, 4294967168),
    (2146991732, 4294967040),
    (2146466916, 4294966784),
    (2146466916, 4294966272),
    (2145418340, 4294965248),
    (2145418340, 4294963200),
    (2143320164, 4294959104),
    (2143320164, 4294950912),
    (2139125860, 4294934528),
    (2139125860, 4294901760),
    (2130735168, 4294836224),
    (2130735168, 4294705152),
    (2113957952, 4294443008),
    (2113957952, 4293918720),
    (2080399424, 4292870144),
    (2080399424, 4290772992),
    (2013290560, 4286578688),
    (2013290560, 4278190080),
    (1879064576, 4261412864),
    (1879064576, 4227858432),
    (1610629120, 4160749568),
    (1610629120, 4026531840),
    (1073741824, 3758096384),
    (1073741824, 3221225472),
    (0, 2147483648),
    (0, 0),
];

// Offset, in binary, and level of each data bit.
static DATA_BIT_TO_PREFIX: [(u32, u32); 31] = [
    (0b0000, 0),
    (0b0000, 1),
    (0b1000, 1),
    (0b0000, 2),
    (0b0100, 2),
    (0b1000, 2),
    (0b1100, 2),
    (0b0000, 3),
    (0b0010, 3),
    (0b0100, 3),
    (0b0110, 3),
    (0b1000, 3),
    (0b1010, 3),
    (0b1100, 3),
    (0b1110, 3),
    (0b0000, 4),
    (0b0001, 4),
    (0b0010, 4),
    (0b0011, 4),
    (0b0100, 4),
    (0b0101, 4),
    (0b0110, 4),
    (0b0111, 4),
    (0b1000, 4),
    (0b1001, 4),
    (0b1010, 4),
    (0b1011, 4),
    (0b1100, 4),
    (0b1101, 4),
    (0b1110, 4),
    (0b1111, 4),
];

// What stands at a place of the order.
pub fn lex_order(place: usize) -> LexElem
    requires { place < 63 }
    ensures { AtPlace place result }
{
    LEX_ORDER[place]
}

// What stands at a data bit or after it. (The tables take an index, and each of the two is told of by a rule of its own.)
pub fn lex_after_data(bit: usize) -> LexMasks
    requires { bit < 31 }
    ensures { FromData bit result }
{
    let (data_mask, child_mask) = LEX_AFTER_DATA[bit];
    LexMasks {
        data_mask,
        child_mask,
    }
}

// What stands after a child, the child itself left out.
pub fn lex_after_child(bit: usize) -> LexMasks
    requires { bit < 32 }
    ensures { AfterChild bit result }
{
    let (data_mask, child_mask) = LEX_AFTER_CHILD[bit];
    LexMasks {
        data_mask,
        child_mask,
    }
}

// The path and the level that a data bit stands for.
pub fn data_bit_to_prefix(bit: usize) -> BitPrefix
    requires { bit < 31 }
    ensures { Offset bit result }
{
    let (offset, level) = DATA_BIT_TO_PREFIX[bit];
    BitPrefix { offset, level }
}

// The key that the child of a node begins with. At depth 30 the window runs past the key: the offset is shifted right by 3.
pub fn extend_repr(key: u32, depth: u32, offset: u32) -> u32
    requires { (depth ≤ 30) × (offset < 32) }
    ensures { result ≡ child_key depth key offset }
{
    let root = prefix::mask_key(key, depth);
    if depth + ChildPool::STRIDE < 32 {
        root | (offset << (32 - depth - ChildPool::STRIDE))
    } else {
        root | (offset >> (depth + ChildPool::STRIDE - 32))
    }
}

// The prefix that a data bit stands for in the node of a key at a depth. At depth 30 its offset is shifted right by 2.
pub fn data_prefix(depth: u32, key: u32, bit: u32) -> Prefix
    requires { (depth ≤ 30) × (bit < 31) × (length_at depth bit ≤ width) }
    ensures { (result.key ≡ key_at depth key bit) × (result.len ≡ length_at depth bit) }
{
    let root = prefix::mask_key(key, depth);
    let b = data_bit_to_prefix(tiers::wide(bit));
    if depth + 4 <= 32 {
        Prefix {
            key: root | (b.offset << (28 - depth)),
            len: depth + b.level,
        }
    } else {
        Prefix {
            key: root | (b.offset >> (depth - 28)),
            len: depth + b.level,
        }
    }
}
