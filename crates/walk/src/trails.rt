// The walk of an edit: every node on the way is read, and kept with its position, before the first write.
ghost use Rattle.std.specs.Prelude.{◌≡◌, ◌*◌, ◌/◌, ◌≤◌, length, get_or};
ghost use Rattle.prefix.specs.Prefix.{width};
ghost use Rattle.tiers.specs.Tiers.{stride};
ghost use Rattle.node.specs.Nodes.{empty_node};
ghost use Rattle.walk.specs.Trails.{trail_of};

use crate::{Passed, Trail};
use node::MultiBitNode;
use node::views::View;
use refusals::Refusal;
use tiers::{ChildPool, Kind, wide};

impl Trail {
    // The depth of its last node.
    pub fn depth(&self) -> u32
        ensures { (result ≡ self.now.depth) × (result ≤ 30) }
    {
        self.depth
    }

    // The level of its last node.
    pub fn level(&self) -> u32
        ensures { (result ≡ self.now.depth / stride) × (result ≤ 6) }
    {
        self.depth / ChildPool::STRIDE
    }

    // The node of a level that the walk came to.
    pub fn step(&self, level: u32) -> Passed
        requires { level ≤ self.now.depth / stride }
        ensures { (result.at ≡ get_or self.now.places level 0) × (result.node ≡ get_or self.now.nodes level empty_node) }
    {
        self.steps[wide(level)]
    }

    // Its last node.
    pub fn last(&self) -> Passed
        ensures { (result.at ≡ get_or self.now.places (self.now.depth / stride) 0) × (result.node ≡ get_or self.now.nodes (self.now.depth / stride) empty_node) }
    {
        self.step(self.level())
    }
}

// The nodes from the root to the end of the path; refused where a step meets number 5. (Premises as for the lookups' walk.)
pub fn trail(nodes: &[u32], lim: u32, key: u32, len: u32) -> Result<Trail, Refusal>
    requires { (len ≤ width) × (lim * 4 ≤ length nodes.now) }
    ensures { result ≡ trail_of nodes.now lim key len }
{
    if lim == 0 {
        return Err(Refusal::Broken);
    }
    let mut at: u32 = 0;
    let mut v = View::root(key, len);
    // Not a `for` over the steps: the path ends the walk, and an answer would be owed behind the seventh.
    let mut level: usize = 0;
    let unread = Passed {
        at: 0,
        node: MultiBitNode::empty(),
    };
    let mut steps: [Passed; 7] = [unread; 7];
    loop {
        let x = crate::load(nodes, at);
        steps[level] = Passed { at, node: x };
        if !crate::sound(x) {
            return Err(Refusal::Broken);
        }
        match crate::next_step(lim, v, x)? {
            Some(child) => {
                at = child;
                v = v.below();
                level += 1;
            }
            None => {
                return Ok(Trail {
                    depth: v.depth,
                    steps,
                });
            }
        }
    }
}
