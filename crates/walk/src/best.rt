// A rule that a walk has seen, before its length is worked out.
ghost use Rattle.std.specs.Prelude.{◌<◌, ◌≤◌};
ghost use Rattle.prefix.specs.Prefix.{width};

use crate::Rule;
use bits::Bit;
use tiers::CellAt;

// Its node's cells, data bitmap and depth, and its data bit.
#[derive(Clone, Copy)]
pub struct Best {
    pub cells: CellAt,
    pub bitmap: u32,
    pub bit: Bit,
    pub depth: u32,
    pub ghost low: { bit < 31 },
    pub ghost near: { depth ≤ width },
}

impl Best {
    ghost use Rattle.std.specs.Prelude.{◌≡◌};
    ghost use Rattle.walk.specs.Lookups.{rule_of};

    // The rule with its length.
    #[tactic(auto, using(places::proofs::Levels::level_lt), unfolding(places::specs::Places::length_at))]
    pub fn rule(self) -> Rule
        ensures { result ≡ rule_of self }
    {
        Rule {
            cells: self.cells,
            bitmap: self.bitmap,
            bit: self.bit,
            len: self.depth + places::level_of(self.bit),
        }
    }
}
