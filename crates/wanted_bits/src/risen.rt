// Which of the numbers behind the blocks of a unit rose since they were passed on. Whatever stands here, no number is
// raised too far, so there is nothing to be said of it.
ghost use Rattle.std.specs.Prelude.{◌≡◌, length, IfOk};
ghost use Rattle.wanted_bits.specs.BitsOrder.{HasFew};
ghost use Rattle.wanted_bits.specs.Preparing.{IsPrepared};
ghost use Rattle.wanted_bits.specs.KeptRows.{RaisesBelow};

use crate::around::Widths;
use crate::news::SomeVariables;
use crate::preparing::Prepared;
use crate::touching::touched_by;
use fix_solve::News;
use flow_graph::{Blocks, Graph, Node};
use mir_base::Memory;
use std::alloc::Global;

/// Which variables rose behind which blocks.
#[derive(Drop)]
pub(crate) struct Risen {
    /// For each block the variables that it touches.
    touched: Vec<SomeVariables>,
    /// For each block those that rose behind it.
    news: Vec<SomeVariables>,
    /// Whether the block has to be passed.
    marks: Vec<bool>,
    /// Whether a mark was set.
    marked: bool,
    /// Those that rose behind the block at hand.
    spare: SomeVariables,
    /// The blocks that read what is asked for around the unit.
    reading: Vec<usize>,
    /// Those that ask for something.
    asking: Vec<usize>,
}

/// So many variables that rose behind a block are listed.
const ROOM: usize = 16;

impl Risen {
    /// All numbers behind all blocks.
    pub(crate) fn all(alloc: Global, graph: &Graph, prepared: &Prepared) -> Result<Risen, Memory>
        requires { IsPrepared graph.now prepared.now }
    {
        let blocks = &prepared.crossed.blocks;
        let mut noted = SomeVariables::with_room(alloc, graph.vars().len())?;
        let touched = touched_by(alloc, graph, blocks, prepared.backs.as_slice(), &mut noted)?;
        let news = all_news(alloc, blocks.len())?;
        let marks = vec![in alloc; true; blocks.len()]?;
        let spare = SomeVariables::with_room(alloc, ROOM)?;
        let reading = blocks_with(alloc, graph, blocks, false)?;
        let asking = blocks_with(alloc, graph, blocks, true)?;
        Ok(Risen {
            touched,
            news,
            marks,
            marked: true,
            spare,
            reading,
            asking,
        })
    }

    /// The blocks that ask for something.
    pub(crate) fn asking(&self) -> &[usize] {
        self.asking.as_slice()
    }

    /// Whether a block may have to be passed.
    pub(crate) fn any(&self) -> bool {
        self.marked
    }

    /// All marks are looked at from now on.
    pub(crate) fn begin(&mut self) {
        self.marked = false;
    }

    /// The blocks that read what is asked for around the unit have to be passed.
    pub(crate) fn wake(&mut self) {
        for i in 0..self.reading.len() {
            let block = self.reading[i];
            if block < self.marks.len() {
                self.marks[block] = true;
            }
        }
        self.marked = true;
    }

    /// Whether a block has to be passed; then it has not any more, and what rose behind it is at hand.
    pub(crate) fn take(&mut self, block: usize) -> bool {
        if block < self.marks.len() && block < self.news.len() && self.marks[block] {
            self.marks[block] = false;
            self.spare.take_over(&mut self.news[block]);
            true
        } else {
            false
        }
    }

    /// Raises the numbers of a row to those of the room, of the variables that are at hand and those that a block
    /// touches, and notes which rose behind the target.
    pub(crate) fn raise(&mut self, row: &mut Widths, room: &[u8], block: usize, target: usize)
        requires long { length room.now ≡ length row.old }
        requires few { HasFew room.now }
        ensures { RaisesBelow room.now row.old row.new }
    {
        if block >= self.touched.len() || target >= self.news.len() || target >= self.marks.len() {
            return;
        }
        let touched = &self.touched[block];
        let news = &mut self.news[target];
        if row.raise_some(room, &self.spare, touched, news) {
            self.marks[target] = true;
            self.marked = true;
        }
    }
}

/// For each of so many blocks all variables.
fn all_news(alloc: Global, blocks: usize) -> Result<Vec<SomeVariables>, Memory> {
    let mut all = Vec::with_capacity(alloc, blocks)?;
    for made in 0..blocks {
        let _ = made;
        let mut news = SomeVariables::with_room(alloc, ROOM)?;
        news.renew();
        all.push(news)?;
    }
    Ok(all)
}

/// The blocks that ask for something, or that read what is asked for around the unit.
fn blocks_with(
    alloc: Global,
    graph: &Graph,
    blocks: &Blocks,
    asking: bool,
) -> Result<Vec<usize>, Memory> {
    let mut found = Vec::new(alloc);
    for block in 0..blocks.len() {
        if has_node(graph, blocks.nodes(block), asking) {
            found.push(block)?;
        }
    }
    Ok(found)
}

/// Whether a node of the list asks for something, or reads.
fn has_node(graph: &Graph, list: &[usize], asking: bool) -> bool {
    let nodes = graph.nodes();
    for n in list {
        if *n < nodes.len() && is_such(&nodes[*n], asking) {
            return true;
        }
    }
    false
}

/// The same of one node.
fn is_such(node: &Node, asking: bool) -> bool {
    match node {
        Node::Start(_) => asking,
        Node::Call(_, _, _, _) => true,
        Node::Return(_) => !asking,
        _ => false,
    }
}
