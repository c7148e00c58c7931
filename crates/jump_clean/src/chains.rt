// The ends of chains of Skips, found in one pass: no Skip is passed twice.
ghost use Rattle.std.specs.Prelude.{◌≡◌, ℕ, ◌<◌, ◌≤◌, ◌∷◌, length, replicate, slice_get, IfOk, OnOk, Some};
ghost use Rattle.flow_graph.specs.Graphs.{AllWithin};
ghost use Rattle.flow_graph.specs.Numbering.{IsIn};
ghost use Rattle.mir_base.specs.Shapes.{AllBelow};
ghost use Rattle.jump_clean.specs.declared.chains.ChainPlace.TheVariants.{Nothing, InChain, End};
ghost use Rattle.jump_clean.specs.Chains.{AreEnds, IsEnd};
ghost use Rattle.jump_clean.specs.Following.{AreFound, EndsAt, IsLeastFrom, OnlyNoted, onward_of, skip_succ};

use flow_graph::Node;
use mir_base::Memory;
use std::alloc::Global;

/// What is known of a node while the ends of chains are looked for.
#[derive(Clone, Copy, Debug, PartialEq, Eq)]
pub(crate) enum ChainPlace {
    /// Nothing.
    Nothing,
    /// It is a Skip of the chain that is followed now.
    InChain,
    /// The end of its chain.
    End(usize),
}

/// The end of chain of each node: where Skips lead to from it, or, where they run in a circle, its least-numbered Skip.
/// It fails only with `Memory`.
pub fn ends(alloc: Global, nodes: &[Node]) -> Result<Vec<usize>, Memory>
    requires { AllWithin nodes.now }
    ensures { IfOk result (λ ends. AreEnds nodes.now ends.items) }
{
    let mut found = nothing_found(alloc, nodes.len())?;
    let mut ends = Vec::with_capacity(alloc, nodes.len())?;
    let mut chain = Vec::new(alloc);
    for n in 0..nodes.len() {
        let end = end_of(nodes, &mut found, &mut chain, n)?;
        ends.push(end)?;
    }
    Ok(ends)
}

/// The table in which nothing is known of so many nodes.
fn nothing_found(alloc: Global, count: usize) -> Result<Vec<ChainPlace>, Memory>
    ensures { IfOk result (λ found. found.items ≡ replicate count Nothing) }
{
    Ok(vec![in alloc; ChainPlace::Nothing; count]?)
}

/// The end of the chain that begins at a node. It is noted for each Skip of the chain, which go into the given list.
fn end_of(
    nodes: &[Node],
    found: &mut Vec<ChainPlace>,
    chain: &mut Vec<usize>,
    start: usize,
) -> Result<usize, Memory>
    requires within { AllWithin nodes.now }
    requires found { AreFound nodes.now found.old.items }
    requires start { start < length nodes.now }
    ensures end { IfOk result (λ end. IsEnd nodes.now start end) }
    ensures found { OnOk result (AreFound nodes.now found.new.items) }
{
    chain.clear();
    let mut n = start;
    while let Some(next) = onward(&nodes[n], found[n]) {
        found[n] = ChainPlace::InChain;
        chain.push(n)?;
        n = next;
    }
    let end = end_at(found[n], chain.as_slice(), n);
    note(found, chain.as_slice(), end);
    Ok(end)
}

/// The successor of a Skip of which nothing is known.
fn onward(node: &Node, found: ChainPlace) -> Option<usize>
    ensures { result ≡ onward_of node.now found }
{
    match found {
        ChainPlace::Nothing => skip_succ(node),
        ChainPlace::InChain => None,
        ChainPlace::End(_) => None,
    }
}

/// The successor of a Skip.
pub(crate) fn skip_succ(node: &Node) -> Option<usize>
    ensures { result ≡ skip_succ node.now }
{
    match node {
        Node::Skip(next) => Some(*next),
        _ => None,
    }
}

/// The end of the chain, where node `n` is no Skip, or comes for the second time, or its end of chain is known.
fn end_at(found: ChainPlace, chain: &[usize], n: usize) -> usize
    requires { found ≡ InChain → IsIn n chain.now }
    ensures { EndsAt found chain.now n result }
{
    match found {
        ChainPlace::Nothing => n,
        ChainPlace::InChain => least_on_circle(chain, n),
        ChainPlace::End(end) => end,
    }
}

/// The least number of a circle: of the last Skips of the chain, from node `first` on.
fn least_on_circle(chain: &[usize], first: usize) -> usize
    requires { IsIn first chain.now }
    ensures { IsLeastFrom chain.now first result }
{
    let place = place_of(chain, first);
    least(first, &chain[place + 1..])
}

/// The place of a number that is one of these.
fn place_of(chain: &[usize], n: usize) -> usize
    requires { IsIn n chain.now }
    ensures { slice_get chain.now result ≡ Some n }
{
    let mut place = 0;
    while chain[place] != n {
        place += 1;
    }
    place
}

/// The least of these numbers.
fn least(first: usize, others: &[usize]) -> usize
    ensures is_one { IsIn result (first ∷ others.now) }
    ensures least { (n : ℕ) → IsIn n (first ∷ others.now) → result ≤ n }
{
    let mut least = first;
    for n in others {
        least = least.min(*n);
    }
    least
}

/// Notes the end of chain of each node of the chain.
fn note(found: &mut Vec<ChainPlace>, chain: &[usize], end: usize)
    requires { AllBelow (length found.old.items) chain.now }
    ensures long { length found.new.items ≡ length found.old.items }
    ensures noted { (n : ℕ) → IsIn n chain.now → slice_get found.new.items n ≡ Some (End end) }
    ensures others { OnlyNoted found.old.items found.new.items end chain.now }
{
    for n in chain {
        found[*n] = ChainPlace::End(end);
    }
}
