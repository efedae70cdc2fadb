// The blocks of a pool: sizes, issued mark and free counts by value, the free list lent.
// `ask`, `room` and the `.._ask` say whether it may be done, or the refusal; `take`, `give`, `grow` and `shrink` do it.
// Each does its work for the last spacing `top` of a kind of pool, in the functions with `_by`: of any kind, one that is chosen as the
// program runs too. The functions of a kind `K` that is a type (DataPool, ChildPool) hand them its own (`kinds.rt`).
// `lim` is the issued mark as the edit found it.
// The list goes beside its pool: a struct that lends it was tried, and what the list ends as is lost where the struct is passed on whole.
// `count` is at most 32 where one more comes: a count of bits, which no type of its own would say more plainly.
// A pool that is shaped and sane is tied to its list's length, so that is no invariant of the pool alone.
#![tactic(auto)]

mod growth;
mod kinds;
mod limits;
mod taking;

ghost use Rattle.std.specs.Prelude.{◌≡◌, ℕ, ◌+◌, ◌≤◌, leb};
ghost use Rattle.refusals.specs.Numbers.{ended};
ghost use Rattle.tiers.specs.Tiers.{spacings, spacing_of};
ghost use Rattle.blocks.specs.Blocks.{within_of};
ghost use Rattle.blocks.specs.Growth.{stays_of, fits_of};

pub use kinds::within;
use refusals::Refusal;
use tiers::{Tier, tier_of, wide};

#[derive(Clone, Copy)]
pub struct Pool {
    pub size: u32,
    pub mark: u32,
    pub free: [u32; 7],
}

// A block that was taken, and the pool after.
#[derive(Clone, Copy)]
pub struct Block {
    pub start: u32,
    pub pool: Pool,
}

// What was asked: whether it may be done, and the pool after. The pool is told where it may not be done, too.
#[derive(Clone, Copy)]
pub struct Asked {
    pub done: Result<(), Refusal>,
    pub pool: Pool,
}

// Does a block of the tier at `start` end at `end` or before?
#[inline(always)]
fn ends_before(top: u32, start: u32, tier: Tier, end: u32) -> bool
    ensures { result ≡ leb (start + spacing_of (spacings top) tier) end }
{
    wide(start) + wide(tiers::spacing_of(top, tier)) <= wide(end)
}

// The block of the tier lies wholly below the mark as found.
#[inline(always)]
#[tactic(auto, unfolding(crate::specs::Blocks::within_of))]
pub fn within_by(top: u32, lim: u32, tier: Tier, start: u32) -> Result<(), Refusal>
    ensures { ended result ≡ within_of top lim tier start }
{
    if ends_before(top, start, tier, lim) {
        Ok(())
    } else {
        Err(Refusal::Broken)
    }
}

// Does a count stay in its block when one more comes?
#[tactic(auto, unfolding(crate::specs::Growth::stays_of))]
pub fn stays(count: u32) -> bool
    requires { count ≤ 32 }
    ensures { (top : ℕ) → result ≡ stays_of top count }
{
    count != 0 && tier_of(count) == tier_of(count + 1)
}

// Does a count stay in its block when one goes? The last one's block goes with it.
#[tactic(auto, unfolding(crate::specs::Growth::fits_of))]
pub fn fits(count: u32) -> bool
    ensures { (top : ℕ) → result ≡ fits_of top count }
{
    count <= 1 || tier_of(count) == tier_of(count - 1)
}
