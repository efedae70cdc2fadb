// The two kinds of pool and their blocks: stride, spacings, the tier of a count, the sections of a free list.
// A node position can't be passed where a cell position is meant: each pool's block starts have a type of their own.
#![tactic(auto)]

ghost use Rattle.std.specs.Prelude.{◌≡◌, Bool, ◌&&◌, ℕ, ◌^◌, ◌<◌, ◌≤◌, List, MatchOption, leb, eqb, refl};
ghost use Rattle.std.proofs.Common.{lit≤};
ghost use Rattle.tiers.specs.Tiers.{
  spacings,
  data_top,
  child_top,
  data_spacings,
  child_spacings,
  spacing_of,
  tier_of,
  section_start,
  section_length,
  free_list_length,
  pool_max,
  empty,
};

use std::marker::Model;

// The largest pool that is taken, of nodes or of cells.
pub const POOL_MAX: u32 = 65_536;

// The index that means "no block": a node is four lent words, so no Option.
pub const EMPTY: u32 = 4_294_967_295;

// Where a block of nodes starts in the node pool.
#[derive(Clone, Copy, Debug, PartialEq, Eq)]
pub struct NodeAt(pub u32);

// Where a block of cells starts in the data pool.
#[derive(Clone, Copy, Debug, PartialEq, Eq)]
pub struct CellAt(pub u32);

// Is the size one of 1 to POOL_MAX?
pub fn is_pool_size(size: u32) -> bool
    ensures { result ≡ (leb 1 size && leb size pool_max) }
{
    1 <= size && size <= POOL_MAX
}

// The customer wants two types here, and each kind of pool below has its own constants: `is_empty` stands in both, each a test against the
// type's own constant.
impl NodeAt {
    // No block.
    pub const EMPTY: NodeAt = NodeAt(EMPTY);

    pub fn is_empty(self) -> bool
        ensures { result ≡ eqb self.0 empty }
    {
        self == Self::EMPTY
    }
}

impl CellAt {
    // No block.
    pub const EMPTY: CellAt = CellAt(EMPTY);

    pub fn is_empty(self) -> bool
        ensures { result ≡ eqb self.0 empty }
    {
        self == Self::EMPTY
    }
}

// A number of 32 bits as an index. (std has no `From` between the two.)
pub fn wide(x: u32) -> usize
    ensures { result ≡ x }
{
    x as usize
}

// One of the seven tiers, from the smallest blocks to the largest. A clause sees its number.
#[derive(Clone, Copy, Debug, PartialEq, Eq)]
pub struct Tier {
    number: usize,
}

impl Model for Tier {
    ghost Value = { ℕ };

    ghost view = { λ t. t.number };

    ghost invariant = { λ t. t.number < 7 };

    ghost inverse = { λ n. record { number = n } };
}

impl Tier {
    // The tier of single items.
    pub const FIRST: Tier = Tier { number: 0 };

    // The tier of the kind's own widest blocks.
    pub const LAST: Tier = Tier { number: 6 };

    // The tier with the number, where there is one.
    pub fn new(number: usize) -> Option<Tier>
        ensures { MatchOption result (7 ≤ number) (λ t. (t ≡ number) × (number < 7)) }
    {
        if number < 7 {
            Some(Tier { number })
        } else {
            None
        }
    }

    // Its number.
    pub fn number(self) -> usize
        ensures same { result ≡ self }
        ensures below { result < 7 }
    {
        self.number
    }
}

// The tier of a count, one for every kind: no count is compared with the last spacing.
pub fn tier_of(count: u32) -> Tier
    ensures { (top : ℕ) → result ≡ tier_of (spacings top) count }
{
    for t in 0..6 {
        if count <= ChildPool::SPACINGS[t] {
            return Tier { number: t };
        }
    }
    Tier::LAST
}

// The spacings of the kind with the last spacing `top`, tier by tier: of a kind that is no type, being chosen as the program runs, say.
#[inline(always)]
pub fn spacings_of(top: u32) -> [u32; 7]
    ensures { result ≡ spacings top }
{
    let mut all = ChildPool::SPACINGS;
    all[6] = top;
    all
}

// The items of a block of the tier, of that kind.
#[inline(always)]
#[tactic(auto, unfolding(crate::specs::Tiers::spacing_of))]
pub fn spacing_of(top: u32, tier: Tier) -> u32
    ensures { result ≡ spacing_of (spacings top) tier }
{
    spacings_of(top)[tier.number()]
}

// Where a tier's section begins, one place for every kind: no section stands behind the last.
// Not a loop: it proved, but no edit is to take more instructions than before, and with it a move of a block takes 25 more, since its copies
// of the pool are laid out before a loop is unrolled.
pub fn section_start_of(size: u32, tier: Tier) -> usize
    ensures { (result < 2 ^ 35) × ((top : ℕ) → result ≡ section_start (spacings top) size tier) }
{
    let n = tier.number();
    if n == 0 {
        return 0;
    }
    let after_0 = wide(size / ChildPool::SPACINGS[0]);
    if n == 1 {
        return after_0;
    }
    let after_1 = after_0 + wide(size / ChildPool::SPACINGS[1]);
    if n == 2 {
        return after_1;
    }
    let after_2 = after_1 + wide(size / ChildPool::SPACINGS[2]);
    if n == 3 {
        return after_2;
    }
    let after_3 = after_2 + wide(size / ChildPool::SPACINGS[3]);
    if n == 4 {
        return after_3;
    }
    let after_4 = after_3 + wide(size / ChildPool::SPACINGS[4]);
    if n == 5 {
        return after_4;
    }
    after_4 + wide(size / ChildPool::SPACINGS[5])
}

// A kind of pool: the kinds differ in the words of an item and in the last spacing.
pub trait Kind {
    ghost WIDEST: { ℕ };

    ghost SPACINGS: { List ℕ };

    // The words of an item.
    const WORDS: u32;

    // The key bits that a node takes.
    const STRIDE: u32;

    // The items of a block of the last tier.
    const WIDEST: u32;

    // The items of a block, tier by tier.
    const SPACINGS: [u32; 7];

    // The items of a block of the tier. Each kind reads its own table: one that is known by its trait alone is built anew at each read.
    fn spacing(tier: Tier) -> u32
        ensures { result ≡ spacing_of (spacings WIDEST) tier };

    // No spacing is 0, and the last one alone is the kind's own.
    ghost some_wide: { 0 < WIDEST };

    ghost spaced: { SPACINGS ≡ spacings WIDEST };

    // The smallest tier whose spacing holds the count; 0 has the first.
    final fn tier(count: u32) -> Tier
        ensures { result ≡ tier_of (spacings WIDEST) count }
    {
        tier_of(count)
    }

    // The entries of the tier's section of the free list.
    final fn section_length(size: u32, tier: Tier) -> u32
        ensures { result ≡ section_length (spacings WIDEST) size tier }
    {
        size / Self::spacing(tier)
    }

    // Where the tier's section of the free list begins.
    final fn section_start(size: u32, tier: Tier) -> usize
        ensures { result ≡ section_start (spacings WIDEST) size tier }
    {
        section_start_of(size, tier)
    }

    // The entries of the whole free list.
    final fn free_list_length(size: u32) -> usize
        ensures { result ≡ free_list_length (spacings WIDEST) size }
    {
        section_start_of(size, Tier::LAST) + wide(Self::section_length(size, Tier::LAST))
    }
}

// The pool of cells: the values of the rules.
#[derive(Drop)]
pub struct DataPool;

// The pool of nodes: the children of a node stand in one block.
#[derive(Drop)]
pub struct ChildPool;

impl Kind for DataPool {
    ghost WIDEST = { data_top };

    ghost SPACINGS = { data_spacings };

    const WORDS: u32 = 1;

    const STRIDE: u32 = 5;

    const WIDEST: u32 = 31;

    const SPACINGS: [u32; 7] = [1, 2, 4, 8, 16, 24, Self::WIDEST];

    ghost some_wide = { lit≤ tt };

    ghost spaced = { refl };

    #[tactic(auto, unfolding(crate::specs::Tiers::spacing_of))]
    fn spacing(tier: Tier) -> u32 {
        Self::SPACINGS[tier.number()]
    }
}

impl Kind for ChildPool {
    ghost WIDEST = { child_top };

    ghost SPACINGS = { child_spacings };

    const WORDS: u32 = 4;

    const STRIDE: u32 = 5;

    const WIDEST: u32 = 32;

    const SPACINGS: [u32; 7] = [1, 2, 4, 8, 16, 24, Self::WIDEST];

    ghost some_wide = { lit≤ tt };

    ghost spaced = { refl };

    #[tactic(auto, unfolding(crate::specs::Tiers::spacing_of))]
    fn spacing(tier: Tier) -> u32 {
        Self::SPACINGS[tier.number()]
    }
}
