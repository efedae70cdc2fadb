// The three lookups, one loop over the nodes of the query's path: what each makes of a node is its way, in specs/Lookups.antt.
ghost use Rattle.std.specs.Prelude.{◌≡◌, ◌*◌, ◌<◌, ◌≤◌, cond, Option, Some, None, Ok, Err, option_map, length};
ghost use Rattle.prefix.specs.Prefix.{width};
ghost use Rattle.node.specs.declared.MultiBitNode.{MultiBitNode};
ghost use Rattle.refusals.specs.declared.Refusal.TheVariants.{Broken};
ghost use Rattle.walk.specs.declared.Rule.{Rule};
ghost use Rattle.walk.specs.Steps.{children_whole};
ghost use Rattle.walk.specs.Lookups.{Way, rule_in, rule_of, seen_at, longest_way, shortest_way, exact_way, walk_of, longest_sight, shortest_sight, exact_sight};

pub use crate::best::Best;
use crate::{Rule, Sight};
use bits::Bit;
use node::MultiBitNode;
use node::views::View;
use refusals::Refusal;
use tiers::{ChildPool, Kind};

// What a lookup has seen on its way so far.
trait Lookup: Copy {
    // What it makes of the nodes, and the best rule that it has seen.
    ghost way: { Way };

    ghost seen: { Self → Option Rule };

    // On by the node x.
    fn meet(self, x: MultiBitNode, v: View) -> Self
        ensures { seen result ≡ way.meets (seen self) x v.depth v.key v.len };

    // Does the walk end here?
    fn stops(self) -> bool
        ensures { result ≡ way.stops (seen self) };

    // What is told where the walk ends, at the node x.
    fn tell(self, x: MultiBitNode, v: View) -> Option<Rule>
        ensures { result ≡ way.tells (seen self) x v.depth v.key v.len };
}

// The rule of a data bit of the node x. (Below 31, as its level is asked: no other function asks it, so `Bit` doesn't say it.)
fn best_in(x: MultiBitNode, v: View, bit: Bit) -> Best
    requires { bit < 31 }
    ensures { rule_of result ≡ rule_in x v.depth bit }
{
    Best {
        cells: x.data_idx,
        bitmap: x.data_bitmap,
        bit,
        depth: v.depth,
    }
}

// Longest and shortest are two types: they differ in the match that they ask for and in whether it ends the walk, and one type with a flag
// would ask for the flag at both.
#[derive(Clone, Copy)]
struct Longest {
    best: Option<Best>,
}

impl Lookup for Longest {
    ghost way = { longest_way };

    ghost seen = { λ s. option_map rule_of s.best };

    // A node with no rules is passed by.
    fn meet(self, x: MultiBitNode, v: View) -> Longest {
        if x.data_bitmap == 0 {
            return self;
        }
        match x.data_lpm(v) {
            Some(bit) => Longest {
                best: Some(best_in(x, v, bit)),
            },
            None => self,
        }
    }

    fn stops(self) -> bool {
        false
    }

    fn tell(self, _x: MultiBitNode, _v: View) -> Option<Rule> {
        self.best.map(Best::rule)
    }
}

#[derive(Clone, Copy)]
struct Shortest {
    found: Option<Best>,
}

impl Lookup for Shortest {
    ghost way = { shortest_way };

    ghost seen = { λ s. option_map rule_of s.found };

    // A node with no rules is passed by.
    fn meet(self, x: MultiBitNode, v: View) -> Shortest {
        if x.data_bitmap == 0 {
            return self;
        }
        match x.data_spm(v) {
            Some(bit) => Shortest {
                found: Some(best_in(x, v, bit)),
            },
            None => self,
        }
    }

    fn stops(self) -> bool {
        self.found.is_some()
    }

    fn tell(self, _x: MultiBitNode, _v: View) -> Option<Rule> {
        self.found.map(Best::rule)
    }
}

#[derive(Clone, Copy)]
struct Exact {}

impl Lookup for Exact {
    ghost way = { exact_way };

    ghost seen = { λ s. None };

    fn meet(self, _x: MultiBitNode, _v: View) -> Exact {
        self
    }

    fn stops(self) -> bool {
        false
    }

    // The rule itself, if this is the node of its length.
    fn tell(self, x: MultiBitNode, v: View) -> Option<Rule> {
        if v.len - v.depth < ChildPool::STRIDE {
            let bit = places::data_bit(v.key, v.len);
            if x.has_data_bit(bit) {
                return Some(Rule {
                    cells: x.data_idx,
                    bitmap: x.data_bitmap,
                    bit,
                    len: v.len,
                });
            }
        }
        None
    }
}

// A walk ends at the node x: the children's half of the test is asked here alone. A step down says it, as a child is there, and no block
// below the mark starts at the empty index.
fn last(x: MultiBitNode, depth: u32, rule: Option<Rule>) -> Result<Sight, Refusal>
    requires { depth ≤ width }
    ensures { result ≡ cond (children_whole x) (Ok (seen_at depth rule)) (Err Broken) }
{
    if !crate::children_whole(x) {
        return Err(Refusal::Broken);
    }
    Ok(Sight {
        rule,
        visits: depth / ChildPool::STRIDE + 1,
    })
}

// The walk of a lookup that has seen nothing yet.
// The mark goes beside its slice and the length beside its key: this one loop uses the premises, three one-line calls hand them on.
fn sight<L: Lookup>(
    nodes: &[u32],
    lim: u32,
    key: u32,
    len: u32,
    lookup: L,
) -> Result<Sight, Refusal>
    requires { (len ≤ width) × (lim * 4 ≤ length nodes.now) × (L.seen lookup ≡ None) }
    ensures { result ≡ walk_of L.way nodes.now lim key len }
{
    if lim == 0 {
        return Err(Refusal::Broken);
    }
    let mut look = lookup;
    let mut at: u32 = 0;
    let mut v = View::root(key, len);
    // Not a `for`: the walk goes on while there is a child, and an answer would be owed behind the last turn.
    loop {
        let x = crate::load(nodes, at);
        if !crate::data_whole(x) {
            return Err(Refusal::Broken);
        }
        look = look.meet(x, v);
        if look.stops() {
            return last(x, v.depth, look.tell(x, v));
        }
        match crate::next_step(lim, v, x)? {
            Some(child) => {
                at = child;
                v = v.below();
            }
            None => return last(x, v.depth, look.tell(x, v)),
        }
    }
}

// Longest: the candidate of a deeper node wins; the path is walked to its end.
pub fn longest_sight(nodes: &[u32], lim: u32, key: u32, len: u32) -> Result<Sight, Refusal>
    requires { (len ≤ width) × (lim * 4 ≤ length nodes.now) }
    ensures { result ≡ longest_sight nodes.now lim key len }
{
    sight(nodes, lim, key, len, Longest { best: None })
}

// Shortest: the first node that holds a covering rule ends the walk, and its child block isn't read.
pub fn shortest_sight(nodes: &[u32], lim: u32, key: u32, len: u32) -> Result<Sight, Refusal>
    requires { (len ≤ width) × (lim * 4 ≤ length nodes.now) }
    ensures { result ≡ shortest_sight nodes.now lim key len }
{
    sight(nodes, lim, key, len, Shortest { found: None })
}

// Exact: the path is walked to its end, and only the node of the query's own length is asked.
pub fn exact_sight(nodes: &[u32], lim: u32, key: u32, len: u32) -> Result<Sight, Refusal>
    requires { (len ≤ width) × (lim * 4 ≤ length nodes.now) }
    ensures { result ≡ exact_sight nodes.now lim key len }
{
    sight(nodes, lim, key, len, Exact {})
}
