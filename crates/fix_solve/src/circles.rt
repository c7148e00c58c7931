// Short circles of edges, and which of their nodes is visited next.
ghost use Rattle.std.specs.Prelude.{◌≡◌, ◌<◌, IfSome, true};
ghost use Rattle.node_list.specs.Lists.{is_listed};

use crate::Memory;
use node_list::Links;
use std::alloc::Global;

/// A circle of more nodes is not brought to rest by itself.
const LONGEST: usize = 8;

/// Circles that edges close which lead back to a node by which the walk over all edges came. `froms` has for each node
/// the one from which the walk came to it; `backs` has the last node and the first of each circle, mostly of the inner
/// circles before the outer ones, and `done` of them were looked at. `path` has the nodes of the circle at hand, the last
/// one first; `left` of them are still looked at in this turn, and `found` says whether some other one waited in it.
///
/// What goes round in a short circle often goes round as many times as its value can rise. Where the circle is brought
/// to rest before anything else is visited, the other nodes get of it what comes at the end, and not each step. Nothing
/// is said of the circles: whatever they have, each node that waits is visited.
#[derive(Drop)]
pub(crate) struct Circles {
    froms: Vec<usize>,
    backs: Vec<(usize, usize)>,
    done: usize,
    path: Vec<usize>,
    left: usize,
    found: bool,
}

impl Circles {
    /// These circles, before the first one. It fails only with `Memory`.
    pub(crate) fn new(
        alloc: Global,
        froms: Vec<usize>,
        backs: Vec<(usize, usize)>,
    ) -> Result<Circles, Memory> {
        let path = Vec::with_capacity(alloc, LONGEST)?;
        Ok(Circles {
            froms,
            backs,
            done: 0,
            path,
            left: 0,
            found: false,
        })
    }

    /// Begins anew before the first circle. It does not allocate.
    pub(crate) fn restart(&mut self) {
        self.done = 0;
        self.left = 0;
        self.found = false;
    }

    /// The next node that waits of the circle at hand, and where none is left in it, of the next ones. It does not
    /// allocate.
    pub(crate) fn next(&mut self, waiting: &Links, nodes: usize) -> Option<usize>
        requires { waiting.now.nodes ≡ nodes }
        ensures in_range { IfSome result (λ node. node < nodes) }
        ensures waits { IfSome result (λ node. is_listed waiting.now.lists node ≡ true) }
    {
        // Each step looks at a node, or ends a turn; and a turn in which none waited ends a circle.
        let circles = self.backs.len().saturating_add(2);
        for _step in 0..circles.saturating_mul(LONGEST + 1) {
            if self.left > 0 {
                self.left -= 1;
                let node = number_at(&self.path, self.left);
                if node < nodes && waiting.is_listed(node) {
                    self.found = true;
                    return Some(node);
                }
            } else if self.found {
                self.found = false;
                self.left = self.path.len();
            } else if self.done < self.backs.len() {
                let (last, first) = self.backs[self.done];
                self.done += 1;
                self.enter(last, first);
            } else {
                return None;
            }
        }
        None
    }

    /// Goes on to the circle of these ends, if it is a short one.
    fn enter(&mut self, last: usize, first: usize) {
        self.path.clear();
        let mut node = last;
        for _count in 0..LONGEST {
            if self.path.len() == self.path.capacity() || self.path.push(node).is_err() {
                return;
            }
            if node == first {
                self.left = self.path.len();
                return;
            }
            node = number_at(&self.froms, node);
        }
    }
}

/// The number at this place, and where there is none one that is no node's.
fn number_at(numbers: &[usize], place: usize) -> usize {
    if place < numbers.len() {
        numbers[place]
    } else {
        usize::MAX
    }
}
