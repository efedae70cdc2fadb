// What edits write, once their numbers are settled, and what a removal asks: over pools by value and lent slices, with no state.
// Every node handed in is as the walk read it, before the first write.
// A pool and its two lent slices go one by one: behind a struct of them, what a slice ends as isn't known unless each function
// also ensures that both fields keep their reference.
#![tactic(auto)]

mod adding;
mod halves;
mod removing;

pub use adding::{keep, make};
use blocks::Pool;
pub use halves::Half;
pub use removing::{drop_ask, drop_rule, last_rule, prune, prune_ask};

// The lowest node that was made, and the pool after.
#[derive(Clone, Copy)]
pub struct Made {
    pub at: usize,
    pub pool: Pool,
}
