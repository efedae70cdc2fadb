// One item more in a block, or one less: the same block, or a move to one of another tier, taken before the old one is returned.
// Each is asked on the list as found, then done; `chain_ask_by` asks for all the missing nodes of an insert.
ghost use Rattle.std.specs.Prelude.{◌≡◌, true, ◌<◌, ◌≤◌, length};
ghost use Rattle.refusals.specs.Numbers.{ended};
ghost use Rattle.blocks.specs.Growth.{move_of, grow_ask_of, grow_of, shrink_of, chain_ask_of};
ghost use Rattle.blocks.specs.Shape.{shaped_of, sane_of};
ghost use Rattle.blocks.specs.Asks.{ask_found, singles_found, move_found, shrink_found};

use crate::{Asked, Block, Pool, within_by};
use refusals::Refusal;
use tiers::{EMPTY, Tier, tier_of};

impl Pool {
    // May a block of the tier be taken, where `spare` says that a single block has just come back, which the list as found doesn't show.
    #[inline(always)]
    #[tactic(auto, unfolding(crate::specs::Asks::ask_found))]
    pub fn ask_found_by(
        self,
        top: u32,
        lim: u32,
        list: &[u32],
        spare: bool,
        tier: Tier,
    ) -> Result<(), Refusal>
        ensures { ended result ≡ ask_found self top lim list.now spare tier }
    {
        if spare && tier == Tier::FIRST {
            return Ok(());
        }
        self.ask_by(top, lim, list, tier)
    }

    // Contents that move from a block of tier a to one of tier b.
    #[inline(always)]
    #[tactic(auto, unfolding(crate::specs::Asks::move_found))]
    fn move_ask(
        self,
        top: u32,
        lim: u32,
        list: &[u32],
        spare: bool,
        old: u32,
        a: Tier,
        b: Tier,
    ) -> Asked
        requires { 0 < top }
        ensures number { ended result.done ≡ (move_found self top lim list.now spare old a b).number }
        ensures pool { result.pool ≡ (move_found self top lim list.now spare old a b).pool }
    {
        let taken = self.ask_found_by(top, lim, list, spare, b);
        if taken.is_err() {
            return Asked {
                done: taken,
                pool: self,
            };
        }
        let p = self.less_by(top, b);
        Asked {
            done: p.room_by(top, lim, a, old),
            pool: p.more_by(top, a),
        }
    }

    // The same, done: the new block is taken before the old one is returned.
    #[inline(always)]
    #[tactic(auto, unfolding(crate::specs::Growth::move_of))]
    fn moved(self, top: u32, list: &mut [u32], old: u32, a: Tier, b: Tier) -> Block
        requires { 0 < top }
        ensures { (result, list.new) ≡ move_of self top list.old old a b }
    {
        let taken = self.take_by(top, list, b);
        let p = taken.pool;
        Block {
            start: taken.start,
            pool: p.give_by(top, list, a, old),
        }
    }

    // One item more in a block of `count` items at `old`.
    #[inline(always)]
    #[tactic(auto, using(crate::proofs::Ways::no_spare), unfolding(crate::specs::Growth::grow_ask_of))]
    pub fn grow_ask_by(self, top: u32, lim: u32, list: &[u32], old: u32, count: u32) -> Asked
        requires { (count ≤ 32) × (0 < top) }
        ensures number { ended result.done ≡ (grow_ask_of self top lim list.now old count).number }
        ensures pool { result.pool ≡ (grow_ask_of self top lim list.now old count).pool }
    {
        if count == 0 {
            return Asked {
                done: self.ask_by(top, lim, list, Tier::FIRST),
                pool: self.less_by(top, Tier::FIRST),
            };
        }
        let a = tier_of(count);
        let b = tier_of(count + 1);
        if a == b {
            return Asked {
                done: within_by(top, lim, a, old),
                pool: self,
            };
        }
        self.move_ask(top, lim, list, false, old, a, b)
    }

    // The same, done: where the block then starts.
    #[inline(always)]
    #[tactic(auto, unfolding(crate::specs::Growth::grow_of))]
    pub fn grow_by(self, top: u32, list: &mut [u32], old: u32, count: u32) -> Block
        requires { (count ≤ 32) × (0 < top) }
        ensures { (result, list.new) ≡ grow_of self top list.old old count }
    {
        if count == 0 {
            return self.take_by(top, list, Tier::FIRST);
        }
        let a = tier_of(count);
        let b = tier_of(count + 1);
        if a == b {
            return Block {
                start: old,
                pool: self,
            };
        }
        self.moved(top, list, old, a, b)
    }

    // One item less in a block of `count` items at `old`.
    #[inline(always)]
    #[tactic(auto, unfolding(crate::specs::Asks::shrink_found))]
    pub fn shrink_ask_by(
        self,
        top: u32,
        lim: u32,
        list: &[u32],
        spare: bool,
        old: u32,
        count: u32,
    ) -> Asked
        requires { 0 < top }
        ensures number { ended result.done ≡ (shrink_found self top lim list.now spare old count).number }
        ensures pool { result.pool ≡ (shrink_found self top lim list.now spare old count).pool }
    {
        if count <= 1 {
            return Asked {
                done: self.room_by(top, lim, Tier::FIRST, old),
                pool: self.more_by(top, Tier::FIRST),
            };
        }
        let a = tier_of(count);
        let b = tier_of(count - 1);
        if a == b {
            return Asked {
                done: within_by(top, lim, a, old),
                pool: self,
            };
        }
        self.move_ask(top, lim, list, spare, old, a, b)
    }

    // The same, done: where the block then starts, "no block" where the last item went.
    #[inline(always)]
    #[tactic(auto, unfolding(crate::specs::Growth::shrink_of))]
    pub fn shrink_by(self, top: u32, list: &mut [u32], old: u32, count: u32) -> Block
        requires { 0 < top }
        ensures { (result, list.new) ≡ shrink_of self top list.old old count }
    {
        if count <= 1 {
            return Block {
                start: EMPTY,
                pool: self.give_by(top, list, Tier::FIRST, old),
            };
        }
        let a = tier_of(count);
        let b = tier_of(count - 1);
        if a == b {
            return Block {
                start: old,
                pool: self,
            };
        }
        self.moved(top, list, old, a, b)
    }

    // n single blocks, one after the other.
    #[inline(always)]
    pub fn singles_by(
        self,
        top: u32,
        lim: u32,
        list: &[u32],
        n: u32,
        spare: bool,
    ) -> Result<(), Refusal>
        ensures { ended result ≡ singles_found n self top lim list.now spare }
    {
        let mut p = self;
        let mut first = spare;
        for _ in 0..n {
            p.ask_found_by(top, lim, list, first, Tier::FIRST)?;
            p = p.less_by(top, Tier::FIRST);
            first = false;
        }
        Ok(())
    }

    // k items, a block each but the first, which joins a block of `count` items at `old`. The single that a growth returns serves one.
    #[inline(always)]
    #[tactic(auto, unfolding(crate::specs::Growth::chain_ask_of))]
    pub fn chain_ask_by(
        self,
        top: u32,
        list: &[u32],
        old: u32,
        count: u32,
        k: u32,
    ) -> Result<(), Refusal>
        requires { (count ≤ 32) × (0 < k) × (0 < top) × (shaped_of self top (length list.now) ≡ true) × (sane_of self top ≡ true) }
        ensures { ended result ≡ chain_ask_of self top list.now old count k }
    {
        let lim = self.mark;
        let grown = self.grow_ask_by(top, lim, list, old, count);
        grown.done?;
        let q = grown.pool;
        q.singles_by(top, lim, list, k - 1, count == 1)
    }
}
