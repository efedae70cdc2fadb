// A query as it is seen from a node on its path: a walk makes one at the root, and goes down with it.
ghost use Rattle.std.specs.Prelude.{◌≡◌, ◌+◌, ◌≤◌};
ghost use Rattle.prefix.specs.Prefix.{width};
ghost use Rattle.tiers.specs.Tiers.{stride};
ghost use Rattle.places.specs.Places.{rest_at};
ghost use Rattle.node.specs.Masks.{InTree};

use tiers::{ChildPool, Kind};

// The query's key and length, the node's depth, and what is left of the key below that depth.
#[derive(Clone, Copy)]
pub struct View {
    pub key: u32,
    pub len: u32,
    pub depth: u32,
    pub rest: u32,
    pub ghost in_tree: { InTree depth len },
    pub ghost left: { rest ≡ rest_at key depth },
}

impl View {
    // From the root, where the whole key is left.
    pub fn root(key: u32, len: u32) -> View
        requires { len ≤ width }
        ensures { (result.key ≡ key) × (result.len ≡ len) × (result.depth ≡ 0) }
    {
        View::at(0, key, len)
    }

    // From the node at a depth.
    #[tactic(auto, unfolding(places::specs::Places::rest_at))]
    pub fn at(depth: u32, key: u32, len: u32) -> View
        requires { InTree depth len }
        ensures { (result.key ≡ key) × (result.len ≡ len) × (result.depth ≡ depth) }
    {
        View {
            key,
            len,
            depth,
            rest: key << depth,
        }
    }

    // From the node one further down.
    pub fn below(self) -> View
        requires { self.depth + stride ≤ self.len }
        ensures { (result.key ≡ self.key) × (result.len ≡ self.len) × (result.depth ≡ self.depth + stride) }
    {
        View {
            key: self.key,
            len: self.len,
            depth: self.depth + ChildPool::STRIDE,
            rest: places::rest_below(self.rest, self.depth, self.key),
        }
    }
}
