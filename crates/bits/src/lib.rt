// Bits of a bitmap, and the slot of a bit: how many set bits stand below it.
// What a bit is, and what each answer means, is said once in specs/Bits.antt.
#![tactic(auto)]

ghost use Rattle.std.specs.Prelude.{◌≡◌, ℕ, ◌<◌, ◌≤◌, MatchOption};
ghost use Rattle.bits.specs.Bits.{has, set_below, count, with_bit, without_bit, Highest, Lowest};

use std::marker::Model;

// The position of a bit in a bitmap, 0 to 31. A clause sees its number. (The field is public: who makes one of a number proves that it is
// below 32, with no test.)
#[derive(Clone, Copy, Debug, PartialEq, Eq)]
pub struct Bit {
    pub number: u32,
}

impl Model for Bit {
    ghost Value = { ℕ };

    ghost view = { λ b. b.number };

    ghost invariant = { λ b. b.number < 32 };

    ghost inverse = { λ n. record { number = n } };
}

impl Bit {
    // The bit with the number, where there is one.
    pub fn new(number: u32) -> Option<Bit>
        ensures { MatchOption result (32 ≤ number) (λ b. (b ≡ number) × (number < 32)) }
    {
        if number < 32 {
            Some(Bit { number })
        } else {
            None
        }
    }

    // Its number.
    pub fn number(self) -> u32
        ensures same { result ≡ self }
        ensures below { result < 32 }
    {
        self.number
    }
}

// The slot of a bit: the number of set bits below it.
pub fn compute_slot(bitmap: u32, bit: Bit) -> u32
    ensures { result ≡ set_below bitmap bit }
{
    u32::count_ones(bitmap & ((1u32 << bit.number) - 1))
}

// How many bits are set.
pub fn count_bits(bitmap: u32) -> u32
    ensures { result ≡ count bitmap }
{
    u32::count_ones(bitmap)
}

// Is the bit set?
pub fn has_bit(bitmap: u32, bit: Bit) -> bool
    ensures { result ≡ has bitmap bit }
{
    bitmap & (1u32 << bit.number) != 0
}

// The bitmap with the bit set.
pub fn set_bit(bitmap: u32, bit: Bit) -> u32
    ensures { result ≡ with_bit bitmap bit }
{
    bitmap | (1u32 << bit.number)
}

// The bitmap with the bit clear.
pub fn unset_bit(bitmap: u32, bit: Bit) -> u32
    ensures { result ≡ without_bit bitmap bit }
{
    bitmap & !(1u32 << bit.number)
}

// The highest set bit of a bitmap that has one.
pub fn highest_bit(bitmap: u32) -> Bit
    requires { 0 < bitmap }
    ensures { Highest bitmap result }
{
    Bit {
        number: 31 - u32::leading_zeros(bitmap),
    }
}

// The lowest set bit of a bitmap that has one.
pub fn lowest_bit(bitmap: u32) -> Bit
    requires { 0 < bitmap }
    ensures { Lowest bitmap result }
{
    Bit {
        number: u32::trailing_zeros(bitmap),
    }
}
