// Which of the nodes that wait is visited next, where many visits were made already.
ghost use Rattle.std.specs.Prelude.{◌≡◌, ◌<◌, IfSome, true};
ghost use Rattle.node_list.specs.Lists.{is_listed};

use crate::circles::Circles;
use crate::{Flow, Memory};
use node_list::Links;
use std::alloc::Global;

/// Finds the next of the nodes that wait: one of a short circle, and then up or down from the one that was taken so last,
/// as far as any waits on this way. A word has a bit for each of 64 nodes: those that wait have theirs set, and others may
/// have.
///
/// Loops within each other make a list that is taken from the front alone pass over all of them once for each level,
/// with news of one or two variables each time. On one way over the nodes, up or down, news go into loops and on the
/// other out of them, each in one pass that takes along what it finds. Nothing is said of the marks: whatever they have,
/// each node that waits is visited.
#[derive(Drop)]
pub(crate) struct Ends {
    words: Vec<u64>,
    visits: usize,
    last: usize,
    falls: bool,
    circles: Circles,
}

/// So many visits for each node are made in the order of the list. Then the nodes that wait are taken up over them, down
/// again, and so on.
const PATIENCE: usize = 2;

impl Ends {
    /// For so many nodes, with these circles. It fails only with `Memory`.
    pub(crate) fn new(alloc: Global, nodes: usize, circles: Circles) -> Result<Ends, Memory> {
        let words = vec![in alloc; 0; nodes / 64 + 1]?;
        Ok(Ends {
            words,
            visits: 0,
            last: 0,
            falls: false,
            circles,
        })
    }

    /// Begins anew, with no visit made. It does not allocate.
    pub(crate) fn restart(&mut self) {
        self.visits = 0;
        self.last = 0;
        self.falls = false;
        self.circles.restart();
    }

    /// A node that waits of the circles, where each node was visited once, if there is such a one. It does not allocate.
    pub(crate) fn on_circle(&mut self, waiting: &Links, nodes: usize) -> Option<usize>
        requires { waiting.now.nodes ≡ nodes }
        ensures in_range { IfSome result (λ node. node < nodes) }
        ensures waits { IfSome result (λ node. is_listed waiting.now.lists node ≡ true) }
    {
        if self.visits < nodes {
            None
        } else {
            self.circles.next(waiting, nodes)
        }
    }

    /// Whether the order of the list has been left, with so many nodes. It does not allocate.
    pub(crate) fn are_taken(&self, nodes: usize) -> bool {
        self.visits >= nodes.saturating_mul(PATIENCE)
    }

    /// Notes that a node was visited. Where the order of the list has been left, it and the targets of its edges are
    /// marked if they wait, and where it is left by this visit, all nodes are. It does not allocate.
    pub(crate) fn note<F: Flow>(&mut self, waiting: &Links, flow: &F, node: usize, nodes: usize)
        requires valid { F.valid flow.now }
        requires in_range { node < (F.net flow.now).nodes }
        requires nodes { waiting.now.nodes ≡ nodes }
        requires all { nodes ≡ (F.net flow.now).nodes }
    {
        let were_taken = self.are_taken(nodes);
        self.visits = self.visits.saturating_add(1);
        if were_taken {
            self.mark(waiting, node);
            self.mark_targets(waiting, flow, node);
        } else if self.are_taken(nodes) {
            self.mark_all(waiting, nodes);
        }
    }

    /// Marks the nodes that wait.
    fn mark_all(&mut self, waiting: &Links, nodes: usize)
        requires { waiting.now.nodes ≡ nodes }
    {
        for node in 0..nodes {
            self.mark(waiting, node);
        }
    }

    /// Marks the targets of a node's edges that wait.
    fn mark_targets<F: Flow>(&mut self, waiting: &Links, flow: &F, node: usize)
        requires valid { F.valid flow.now }
        requires in_range { node < (F.net flow.now).nodes }
        requires nodes { waiting.now.nodes ≡ (F.net flow.now).nodes }
    {
        let (start, stop) = flow.out(node);
        for number in start..stop {
            let (_, target) = flow.edge(number);
            self.mark(waiting, target);
        }
    }

    /// Marks a node if it waits, and else takes its mark off.
    fn mark(&mut self, waiting: &Links, node: usize)
        requires { node < waiting.now.nodes }
    {
        let word = node / 64;
        let bit = 1u64 << (node % 64);
        if word < self.words.len() {
            if waiting.is_listed(node) {
                self.words[word] |= bit;
            } else {
                self.words[word] &= !bit;
            }
        }
    }

    /// The node that is to be taken: the next marked one on the way up or down that is gone now; where none is left on it,
    /// the other way is gone. It takes its mark off, and does not allocate.
    pub(crate) fn next(&mut self) -> Option<usize> {
        let node = match self.onward() {
            Some(node) => node,
            None => self.turned()?,
        };
        self.last = node;
        Some(node)
    }

    /// Turns round, and takes the mark off the next marked node then, or else off the one that was taken so last.
    fn turned(&mut self) -> Option<usize> {
        self.falls = !self.falls;
        match self.onward() {
            Some(node) => Some(node),
            None => self.lowest_from(0),
        }
    }

    /// Takes the mark off the next marked node above the one that was taken so last, or below it.
    fn onward(&mut self) -> Option<usize> {
        if self.falls {
            self.highest_below(self.last)
        } else {
            self.lowest_from(self.last.saturating_add(1))
        }
    }

    /// Takes the mark off the lowest marked node from this one on.
    fn lowest_from(&mut self, from: usize) -> Option<usize> {
        let first = from / 64;
        let mut within = u64::MAX << (from % 64);
        for word in first..self.words.len() {
            let bits = self.words[word] & within;
            if bits != 0 {
                let bit = bits.trailing_zeros();
                self.words[word] &= !(1u64 << bit);
                return Some(node_of(word, bit as usize));
            }
            within = u64::MAX;
        }
        None
    }

    /// Takes the mark off the highest marked node below this one.
    fn highest_below(&mut self, end: usize) -> Option<usize> {
        let words = self.words.len().min(end / 64 + 1);
        let mut within = if end / 64 < words {
            (1u64 << (end % 64)).wrapping_sub(1)
        } else {
            u64::MAX
        };
        for count in 0..words {
            let word = words - 1 - count;
            let bits = self.words[word] & within;
            if bits != 0 {
                let bit = 63 - bits.leading_zeros();
                self.words[word] &= !(1u64 << bit);
                return Some(node_of(word, bit as usize));
            }
            within = u64::MAX;
        }
        None
    }
}

/// The node of a bit in a word.
fn node_of(word: usize, bit: usize) -> usize {
    word.saturating_mul(64).saturating_add(bit)
}
