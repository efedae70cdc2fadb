// What the first step of every call tests of a pool: its size, its free list's length, its mark and its free counts.
ghost use Rattle.std.specs.Prelude.{◌≡◌, ◌*◌, ◌<◌, ltb};
ghost use Rattle.blocks.specs.Shape.{shaped_of, sections_of, sane_of};

use crate::Pool;
use tiers::{Tier, is_pool_size, section_start_of, spacings_of, wide};

// Are n blocks of the spacing more than the pool has room for? A product: no lookup waits for a division.
#[inline(always)]
fn over(size: u32, n: u32, spacing: u32) -> bool
    ensures { result ≡ ltb size (n * spacing) }
{
    wide(size) < wide(n) * wide(spacing)
}

impl Pool {
    // Is each free count within its section?
    #[inline(always)]
    #[tactic(auto, unfolding(crate::specs::Shape::sections_of))]
    fn sections(self, top: u32) -> bool
        requires { 0 < top }
        ensures { result ≡ sections_of 7 top self.size self.free }
    {
        let spacings = spacings_of(top);
        for t in 0..7 {
            if over(self.size, self.free[t], spacings[t]) {
                return false;
            }
        }
        true
    }

    // The mark is within the pool, and each free count within its section.
    #[inline(always)]
    #[tactic(auto, unfolding(crate::specs::Shape::sane_of))]
    pub fn sane_by(self, top: u32) -> bool
        requires { 0 < top }
        ensures { result ≡ sane_of self top }
    {
        self.mark <= self.size && self.sections(top)
    }

    // The size is allowed, and the free list has just its length.
    #[inline(always)]
    #[tactic(auto, unfolding(crate::specs::Shape::shaped_of))]
    pub fn shaped_by(self, top: u32, list: usize) -> bool
        requires { 0 < top }
        ensures { result ≡ shaped_of self top list }
    {
        is_pool_size(self.size)
            && list == section_start_of(self.size, Tier::LAST) + wide(self.size / top)
    }
}
