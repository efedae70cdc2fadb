// A block is taken, a free one before unused room; a block is returned. First whether it may be, then what is done.
ghost use Rattle.std.specs.Prelude.{◌≡◌, cond, ◌+◌, ◌^◌, ◌<◌, min, ltb, leb};
ghost use Rattle.refusals.specs.Numbers.{ended};
ghost use Rattle.tiers.specs.Tiers.{spacings, spacing_of, section_length};
ghost use Rattle.blocks.specs.Blocks.{first_out, take_out, put_in, ask_of, less_of, take_of, room_of, more_of, give_of};

use crate::{Block, Pool, ends_before, within_by};
use refusals::Refusal;
use tiers::{Tier, section_start_of, spacing_of, wide};
use words::{put, read};

// The free block that is taken first, of n in a section from `from` on: the last returned. (`from` is what section_start_of promises: a type
// would only say that again.)
#[inline(always)]
fn first_out(list: &[u32], from: usize, n: u32) -> u32
    requires { (from < 2 ^ 35) × (0 < n) }
    ensures { result ≡ first_out list.now from n }
{
    read(list, from + (wide(n) - 1))
}

// It leaves the section, and its entry becomes 0.
#[inline(always)]
fn take_out(list: &mut [u32], from: usize, n: u32)
    requires { (from < 2 ^ 35) × (0 < n) }
    ensures { list.new ≡ take_out list.old from n }
{
    put(list, from + (wide(n) - 1), 0);
}

// A block comes into a section that has n.
#[inline(always)]
fn put_in(list: &mut [u32], from: usize, n: u32, start: u32)
    requires { from < 2 ^ 35 }
    ensures { list.new ≡ put_in list.old from n start }
{
    put(list, from + wide(n), start);
}

// Has the tier's section room for one block more than n? A product, not a division.
#[inline(always)]
fn has_room(top: u32, size: u32, tier: Tier, n: u32) -> bool
    requires { 0 < top }
    ensures { result ≡ ltb n (section_length (spacings top) size tier) }
{
    (wide(n) + 1) * wide(spacing_of(top, tier)) <= wide(size)
}

// One block more in the tier's section, which has n: its length at most.
#[inline(always)]
#[tactic(auto, using(tiers::proofs::Tiers::kind_pos), unfolding(tiers::specs::Tiers::section_length))]
fn one_more(top: u32, size: u32, tier: Tier, n: u32) -> u32
    requires { 0 < top }
    ensures { result ≡ min (section_length (spacings top) size tier) (n + 1) }
{
    if has_room(top, size, tier, n) {
        n + 1
    } else {
        size / spacing_of(top, tier)
    }
}

impl Pool {
    // May a block of the tier be issued from the unused end?
    #[inline(always)]
    fn end_ask(self, top: u32, tier: Tier) -> Result<(), Refusal>
        ensures { ended result ≡ cond (leb (self.mark + spacing_of (spacings top) tier) self.size) 0 4 }
    {
        if ends_before(top, self.mark, tier, self.size) {
            Ok(())
        } else {
            Err(Refusal::NoRoom)
        }
    }

    // May a block of the tier be taken?
    #[inline(always)]
    #[tactic(auto, unfolding(crate::specs::Blocks::ask_of))]
    pub fn ask_by(self, top: u32, lim: u32, list: &[u32], tier: Tier) -> Result<(), Refusal>
        ensures { ended result ≡ ask_of self top lim list.now tier }
    {
        let n = self.free[tier.number()];
        if n == 0 {
            return self.end_ask(top, tier);
        }
        within_by(
            top,
            lim,
            tier,
            first_out(list, section_start_of(self.size, tier), n),
        )
    }

    // The mark after a block of the tier is issued, the size at most.
    #[inline(always)]
    fn issued(self, top: u32, tier: Tier) -> u32
        ensures { result ≡ min self.size (self.mark + spacing_of (spacings top) tier) }
    {
        if ends_before(top, self.mark, tier, self.size) {
            self.mark + spacing_of(top, tier)
        } else {
            self.size
        }
    }

    // The pool after a block of the tier is taken.
    #[inline(always)]
    #[tactic(auto, unfolding(crate::specs::Blocks::less_of))]
    pub fn less_by(self, top: u32, tier: Tier) -> Pool
        ensures { result ≡ less_of self top tier }
    {
        let n = self.free[tier.number()];
        let mut p = self;
        if n == 0 {
            p.mark = self.issued(top, tier);
            return p;
        }
        p.free[tier.number()] = n - 1;
        p
    }

    // A block of the tier is taken: a free one before unused room.
    #[inline(always)]
    #[tactic(auto, unfolding(crate::specs::Blocks::take_of))]
    pub fn take_by(self, top: u32, list: &mut [u32], tier: Tier) -> Block
        ensures { (result, list.new) ≡ take_of self top list.old tier }
    {
        let n = self.free[tier.number()];
        let pool = self.less_by(top, tier);
        if n == 0 {
            return Block {
                start: self.mark,
                pool,
            };
        }
        let from = section_start_of(self.size, tier);
        let start = first_out(list, from, n);
        take_out(list, from, n);
        Block { start, pool }
    }

    // May the block be returned: not where its section is full or it isn't wholly below the mark as found.
    #[inline(always)]
    #[tactic(auto, unfolding(crate::specs::Blocks::room_of))]
    pub fn room_by(self, top: u32, lim: u32, tier: Tier, start: u32) -> Result<(), Refusal>
        requires { 0 < top }
        ensures { ended result ≡ room_of self top lim tier start }
    {
        if has_room(top, self.size, tier, self.free[tier.number()]) {
            within_by(top, lim, tier, start)
        } else {
            Err(Refusal::Broken)
        }
    }

    // The pool after a block of the tier is returned.
    #[inline(always)]
    #[tactic(auto, unfolding(crate::specs::Blocks::more_of))]
    pub fn more_by(self, top: u32, tier: Tier) -> Pool
        requires { 0 < top }
        ensures { result ≡ more_of self top tier }
    {
        let n = self.free[tier.number()];
        let mut p = self;
        p.free[tier.number()] = one_more(top, self.size, tier, n);
        p
    }

    // A block of the tier is returned.
    #[inline(always)]
    #[tactic(auto, unfolding(crate::specs::Blocks::give_of))]
    pub fn give_by(self, top: u32, list: &mut [u32], tier: Tier, start: u32) -> Pool
        requires { 0 < top }
        ensures { (result, list.new) ≡ give_of self top list.old tier start }
    {
        let n = self.free[tier.number()];
        put_in(list, section_start_of(self.size, tier), n, start);
        self.more_by(top, tier)
    }
}
