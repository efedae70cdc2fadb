// The allocator for a kind of pool that is a type: each function hands on the kind's last spacing. Of an ask that is granted it tells the pool after.
ghost use Rattle.std.specs.Prelude.{◌≡◌, true, ◌<◌, ◌≤◌, length, IfOk};
ghost use Rattle.refusals.specs.Numbers.{ended};
ghost use Rattle.blocks.specs.Blocks.{within_of, ask_of, less_of, take_of, room_of, more_of, give_of};
ghost use Rattle.blocks.specs.Growth.{grow_ask_of, grow_of, shrink_of, chain_ask_of};
ghost use Rattle.blocks.specs.Shape.{shaped_of, sane_of};
ghost use Rattle.blocks.specs.Asks.{ask_found, singles_found, shrink_found};

use crate::{Asked, Block, Pool, within_by};
use refusals::Refusal;
use tiers::{Kind, Tier};

// The block of the tier lies wholly below the mark as found.
pub fn within<K: Kind>(lim: u32, tier: Tier, start: u32) -> Result<(), Refusal>
    ensures { ended result ≡ within_of K.WIDEST lim tier start }
{
    within_by(K::WIDEST, lim, tier, start)
}

impl Asked {
    // The pool after, where it may be done.
    #[inline(always)]
    fn granted(self) -> Result<Pool, Refusal>
        ensures number { ended result ≡ ended self.done }
        ensures pool { IfOk result (λ p. p ≡ self.pool) }
    {
        self.done?;
        Ok(self.pool)
    }
}

impl Pool {
    // The mark is within the pool, and each free count within its section.
    pub fn sane<K: Kind>(self) -> bool
        ensures { result ≡ sane_of self K.WIDEST }
    {
        self.sane_by(K::WIDEST)
    }

    // The size is allowed, and the free list has just its length.
    pub fn shaped<K: Kind>(self, list: usize) -> bool
        ensures { result ≡ shaped_of self K.WIDEST list }
    {
        self.shaped_by(K::WIDEST, list)
    }

    // May a block of the tier be taken?
    pub fn ask<K: Kind>(self, lim: u32, list: &[u32], tier: Tier) -> Result<(), Refusal>
        ensures { ended result ≡ ask_of self K.WIDEST lim list.now tier }
    {
        self.ask_by(K::WIDEST, lim, list, tier)
    }

    // The pool after a block of the tier is taken.
    pub fn less<K: Kind>(self, tier: Tier) -> Pool
        ensures { result ≡ less_of self K.WIDEST tier }
    {
        self.less_by(K::WIDEST, tier)
    }

    // A block of the tier is taken: a free one before unused room.
    pub fn take<K: Kind>(self, list: &mut [u32], tier: Tier) -> Block
        ensures { (result, list.new) ≡ take_of self K.WIDEST list.old tier }
    {
        self.take_by(K::WIDEST, list, tier)
    }

    // May the block be returned?
    pub fn room<K: Kind>(self, lim: u32, tier: Tier, start: u32) -> Result<(), Refusal>
        ensures { ended result ≡ room_of self K.WIDEST lim tier start }
    {
        self.room_by(K::WIDEST, lim, tier, start)
    }

    // The pool after a block of the tier is returned.
    pub fn more<K: Kind>(self, tier: Tier) -> Pool
        ensures { result ≡ more_of self K.WIDEST tier }
    {
        self.more_by(K::WIDEST, tier)
    }

    // A block of the tier is returned.
    pub fn give<K: Kind>(self, list: &mut [u32], tier: Tier, start: u32) -> Pool
        ensures { (result, list.new) ≡ give_of self K.WIDEST list.old tier start }
    {
        self.give_by(K::WIDEST, list, tier, start)
    }

    // May a block of the tier be taken, where `spare` says that a single block has just come back?
    pub fn ask_found<K: Kind>(
        self,
        lim: u32,
        list: &[u32],
        spare: bool,
        tier: Tier,
    ) -> Result<(), Refusal>
        ensures { ended result ≡ ask_found self K.WIDEST lim list.now spare tier }
    {
        self.ask_found_by(K::WIDEST, lim, list, spare, tier)
    }

    // One item more in a block of `count` items at `old`: the pool after.
    pub fn grow_ask<K: Kind>(
        self,
        lim: u32,
        list: &[u32],
        old: u32,
        count: u32,
    ) -> Result<Pool, Refusal>
        requires { count ≤ 32 }
        ensures number { ended result ≡ (grow_ask_of self K.WIDEST lim list.now old count).number }
        ensures pool { IfOk result (λ p. p ≡ (grow_ask_of self K.WIDEST lim list.now old count).pool) }
    {
        self.grow_ask_by(K::WIDEST, lim, list, old, count).granted()
    }

    // The same, done: where the block then starts.
    pub fn grow<K: Kind>(self, list: &mut [u32], old: u32, count: u32) -> Block
        requires { count ≤ 32 }
        ensures { (result, list.new) ≡ grow_of self K.WIDEST list.old old count }
    {
        self.grow_by(K::WIDEST, list, old, count)
    }

    // One item less in a block of `count` items at `old`: the pool after.
    pub fn shrink_ask<K: Kind>(
        self,
        lim: u32,
        list: &[u32],
        spare: bool,
        old: u32,
        count: u32,
    ) -> Result<Pool, Refusal>
        ensures number { ended result ≡ (shrink_found self K.WIDEST lim list.now spare old count).number }
        ensures pool { IfOk result (λ p. p ≡ (shrink_found self K.WIDEST lim list.now spare old count).pool) }
    {
        self.shrink_ask_by(K::WIDEST, lim, list, spare, old, count)
            .granted()
    }

    // The same, done: where the block then starts, "no block" where the last item went.
    pub fn shrink<K: Kind>(self, list: &mut [u32], old: u32, count: u32) -> Block
        ensures { (result, list.new) ≡ shrink_of self K.WIDEST list.old old count }
    {
        self.shrink_by(K::WIDEST, list, old, count)
    }

    // n single blocks, one after the other.
    pub fn singles<K: Kind>(
        self,
        lim: u32,
        list: &[u32],
        n: u32,
        spare: bool,
    ) -> Result<(), Refusal>
        ensures { ended result ≡ singles_found n self K.WIDEST lim list.now spare }
    {
        self.singles_by(K::WIDEST, lim, list, n, spare)
    }

    // k items, a block each but the first, which joins a block of `count` items at `old`.
    pub fn chain_ask<K: Kind>(
        self,
        list: &[u32],
        old: u32,
        count: u32,
        k: u32,
    ) -> Result<(), Refusal>
        requires { (count ≤ 32) × (0 < k) × (shaped_of self K.WIDEST (length list.now) ≡ true) × (sane_of self K.WIDEST ≡ true) }
        ensures { ended result ≡ chain_ask_of self K.WIDEST list.now old count k }
    {
        self.chain_ask_by(K::WIDEST, list, old, count, k)
    }
}
