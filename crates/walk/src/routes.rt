// The walk of an edit with what was read on the way, where it is refused too: the node that isn't whole is its last.
// A loop of its own beside that of `trails`: with a trail made of a route an edit takes some 110 instructions more, for a route is copied.
ghost use Rattle.std.specs.Prelude.{◌≡◌, ◌*◌, ◌≤◌, length};
ghost use Rattle.prefix.specs.Prefix.{width};
ghost use Rattle.walk.specs.Trails.{route_of};

use crate::{Passed, Route, Trail};
use node::MultiBitNode;
use node::views::View;
use refusals::Refusal;

// The nodes from the root to the end of the path, or to where a step meets number 5; proofs/Turns.antt says that its trail is `trail`'s where it
// isn't refused (`trail_kept`).
pub fn route(nodes: &[u32], lim: u32, key: u32, len: u32) -> Route
    requires { (len ≤ width) × (lim * 4 ≤ length nodes.now) }
    ensures { result ≡ route_of nodes.now lim key len }
{
    let unread = Passed {
        at: 0,
        node: MultiBitNode::empty(),
    };
    let mut steps: [Passed; 7] = [unread; 7];
    if lim == 0 {
        return Route {
            done: Err(Refusal::Broken),
            trail: Trail { depth: 0, steps },
        };
    }
    let mut at: u32 = 0;
    let mut v = View::root(key, len);
    // Not a `for` over the steps: the path ends the walk, and an answer would be owed behind the seventh.
    let mut level: usize = 0;
    loop {
        let x = crate::load(nodes, at);
        steps[level] = Passed { at, node: x };
        if !crate::sound(x) {
            return Route {
                done: Err(Refusal::Broken),
                trail: Trail {
                    depth: v.depth,
                    steps,
                },
            };
        }
        match crate::next_step(lim, v, x) {
            Ok(Some(child)) => {
                at = child;
                v = v.below();
                level += 1;
            }
            Ok(None) => {
                return Route {
                    done: Ok(()),
                    trail: Trail {
                        depth: v.depth,
                        steps,
                    },
                };
            }
            Err(r) => {
                return Route {
                    done: Err(r),
                    trail: Trail {
                        depth: v.depth,
                        steps,
                    },
                };
            }
        }
    }
}
