// Exact, longest and shortest: first tests, the walk, then the value of what was seen.
ghost use Rattle.std.specs.Prelude.{◌≡◌, ◌*◌, ◌≤◌, length};
ghost use Rattle.prefix.specs.Prefix.{width};
ghost use Rattle.walk.specs.Sights.{Seen};
ghost use Rattle.map.specs.Lookups.{answer_of, lookup_of, exact_of, longest_of, shortest_of};

use crate::{Answer, State};
use refusals::Refusal;
use store::{Cell, Item};
use tiers::wide;
use walk::Sight;

// The answer of a sight. The rule's block of cells is read for its value alone.
#[tactic(auto, unfolding(crate::specs::Lookups::answer_of, crate::specs::Lookups::told_of))]
fn answer(sight: Result<Sight, Refusal>, cells: &[u32], lim: u32, key: u32) -> Answer
    requires { (Seen key width sight) × (lim ≤ length cells.now) }
    ensures { result ≡ answer_of sight cells.now lim key }
{
    let Ok(Sight { rule, visits }) = sight else {
        return Answer::Broken;
    };
    let Some(rule) = rule else {
        return Answer::Missing(visits);
    };
    let at = rule.cells.0;
    if !walk::data_within(lim, rule.bitmap, at) {
        return Answer::Broken;
    }
    let c = Cell::at(
        cells,
        wide(at) + wide(bits::compute_slot(rule.bitmap, rule.bit)),
    );
    Answer::Found(prefix::mask_key(key, rule.len), rule.len, c.value, visits)
}

#[tactic(auto, using(crate::proofs::Sets::seen), unfolding(crate::specs::Lookups::exact_of, crate::specs::Lookups::longest_of, crate::specs::Lookups::shortest_of))]
impl State {
    // A lookup: refused before its walk, or the answer of what the walk sees.
    fn look<W>(self, nodes: &[u32], cells: &[u32], key: u32, len: u32, walk: W) -> Answer
    where
        W: FnOnce() -> Result<Sight, Refusal>,
        requires walks { len ≤ width → self.nodes.mark * 4 ≤ length nodes.now → W.pre walk }
        requires sees { len ≤ width → (seen : _) → W.post walk seen → Seen key len seen }
        ensures { (sight : _) → ((seen : _) → W.post walk seen → seen ≡ sight) → result ≡ lookup_of self nodes.now cells.now key len sight }
    {
        match entry::lookup_first(
            self.nodes,
            self.cells,
            self.rules,
            nodes.len(),
            cells.len(),
            len,
        ) {
            Ok(()) => answer(walk(), cells, self.cells.mark, key),
            Err(r) => Answer::from(r),
        }
    }

    // The rule of the query itself.
    pub fn exact(self, nodes: &[u32], cells: &[u32], key: u32, len: u32) -> Answer
        ensures { result ≡ exact_of self nodes.now cells.now key len }
    {
        self.look(nodes, cells, key, len, || {
            walk::lookups::exact_sight(nodes, self.nodes.mark, key, len)
        })
    }

    // The longest rule that covers the query.
    pub fn longest(self, nodes: &[u32], cells: &[u32], key: u32, len: u32) -> Answer
        ensures { result ≡ longest_of self nodes.now cells.now key len }
    {
        self.look(nodes, cells, key, len, || {
            walk::lookups::longest_sight(nodes, self.nodes.mark, key, len)
        })
    }

    // The covering rule of least length.
    pub fn shortest(self, nodes: &[u32], cells: &[u32], key: u32, len: u32) -> Answer
        ensures { result ≡ shortest_of self nodes.now cells.now key len }
    {
        self.look(nodes, cells, key, len, || {
            walk::lookups::shortest_sight(nodes, self.nodes.mark, key, len)
        })
    }
}
