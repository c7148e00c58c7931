// What the passes make of small programs, and what they find out: the examples of `examples.rt`, `value_examples.rt`,
// `bound_examples.rt`, `compare_examples.rt`, `term_examples.rt`, `extend_examples.rt`, `unread_examples.rt` and
// `row_examples.rt`.
use crate::tests::bound_examples::BOUND_EXAMPLES;
use crate::tests::compare_examples::COMPARE_EXAMPLES;
use crate::tests::copied::put_copies;
use crate::tests::delayed::{put_delays, put_live};
use crate::tests::edits::put_of;
use crate::tests::examples::EXAMPLES;
use crate::tests::extend_examples::EXTEND_EXAMPLES;
use crate::tests::known::put_all_known;
use crate::tests::paths::put_held;
use crate::tests::placing::put_motion;
use crate::tests::ranges::put_ranges;
use crate::tests::row_examples::ROW_EXAMPLES;
use crate::tests::shown::{put_changes, put_graph, show_same, text_and_shown};
use crate::tests::support::graph_of;
use crate::tests::term_examples::TERM_EXAMPLES;
use crate::tests::terms::put_all_terms;
use crate::tests::unread_examples::UNREAD_EXAMPLES;
use crate::tests::value_examples::VALUE_EXAMPLES;
use compare_flow::comparisons;
use cond_const::fold;
use copy_flow::copies;
use div_move::move_dividing;
use edge_split::split;
use extend_flow::extensions;
use flow_graph::{Blocks, Edges, Graph, is_split};
use jump_clean::clean;
use mir_base::Memory;
use sink_rounds::round;
use std::alloc::Global;
use std::mem;
use std::test::Fail;
use term_flow::terms;
use unread_div::unread;
use value_bounds::use_bounds;
use value_number::number;
use wanted_bits::narrow;

/// Each example.
#[test]
fn examples_of_passes(rt: HostRuntime) -> Result<(), Fail> {
    for examples in WORKED.iter() {
        for example in examples.split("# ").skip(1) {
            show_example(rt.alloc(), example)?;
        }
    }
    Ok(())
}

/// The texts of all examples.
const WORKED: [&str; 8] = [
    EXAMPLES,
    VALUE_EXAMPLES,
    BOUND_EXAMPLES,
    COMPARE_EXAMPLES,
    TERM_EXAMPLES,
    EXTEND_EXAMPLES,
    UNREAD_EXAMPLES,
    ROW_EXAMPLES,
];

/// Fails where passes make something else than an example says, with what they make.
fn show_example(alloc: Global, example: &str) -> Result<(), Fail> {
    let (text, shown) = text_and_shown(example).ok_or("nothing shown")?;
    for part in shown.split("$ ") {
        let (passes, wanted) = part.split_once('\n').ok_or("no lines")?;
        show_part(alloc, text, passes, wanted)?;
    }
    Ok(())
}

/// Fails where something else is shown of the graph that these passes make, in turn, of the graph of a text.
fn show_part(alloc: Global, text: &str, passes: &str, wanted: &str) -> Result<(), Fail> {
    let (names, shown) = passes.split_once(": ").unwrap_or((passes, "graph"));
    let graph = passed(alloc, text, names)?;
    let made = made_of(alloc, text, shown, &graph);
    mem::drop(graph);
    let made = made?;
    let shown = show_same(text, passes, made.as_str(), wanted);
    mem::drop(made);
    shown
}

/// What the passes make, in turn, of the graph of a text.
fn passed(alloc: Global, text: &str, passes: &str) -> Result<Graph, Fail> {
    let mut graph = graph_of(alloc, text)?;
    for pass in passes.split(' ').skip(1) {
        graph = next_of(alloc, pass, graph)?;
    }
    Ok(graph)
}

/// What is shown of a graph that was made of a text.
fn made_of(alloc: Global, text: &str, shown: &str, graph: &Graph) -> Result<String, Fail> {
    let mut made = String::new(alloc);
    put_shown(alloc, &mut made, text, shown, graph)?;
    Ok(made)
}

/// What the pass of this name makes of a graph, which is dropped.
fn next_of(alloc: Global, pass: &str, graph: Graph) -> Result<Graph, Fail> {
    let next = after(alloc, pass, &graph);
    mem::drop(graph);
    next
}

/// What the pass of this name makes of a graph, or an editor by the name `put`.
fn after(alloc: Global, pass: &str, graph: &Graph) -> Result<Graph, Fail> {
    match pass {
        "clean" => Ok(clean(alloc, graph)?),
        "fold" => Ok(fold(alloc, graph)?),
        "number" => Ok(number(alloc, graph)?),
        "copies" => Ok(copies(alloc, graph)?),
        "comparisons" => Ok(comparisons(alloc, graph)?),
        "terms" => Ok(terms(alloc, graph)?),
        "bounds" => Ok(use_bounds(alloc, graph)?),
        "extensions" => Ok(extensions(alloc, graph)?),
        "unread" => Ok(unread(alloc, graph)?),
        "narrow" => Ok(narrow(alloc, graph)?),
        "split" => Ok(split(alloc, graph)?),
        "round" => round_of(alloc, graph),
        "divide" => divided_of(alloc, graph),
        "put" => put_of(alloc, graph),
        _ => Err("no such pass".into()),
    }
}

/// What a round makes of a graph, which has to be split.
fn round_of(alloc: Global, graph: &Graph) -> Result<Graph, Fail> {
    let edges = Edges::of(alloc, graph)?;
    let split = is_split(graph, &edges);
    mem::drop(edges);
    if !split {
        return Err("not split".into());
    }
    Ok(round(alloc, graph)?.graph)
}

/// What moving the divisions makes of a graph, which has to be split.
fn divided_of(alloc: Global, graph: &Graph) -> Result<Graph, Fail> {
    let edges = Edges::of(alloc, graph)?;
    let split = is_split(graph, &edges);
    mem::drop(edges);
    if !split {
        return Err("not split".into());
    }
    Ok(move_dividing(alloc, graph)?.moved)
}

/// Appends what is shown of the graph that was made of a text: its nodes, or those that the passes changed; its blocks;
/// what is known before its nodes; where its copies hold; where its patterns are delayed and inserted; where its
/// variables are live; which terms they have; on how many edges its temporaries are held; what code motion finds out of
/// its first expression, or of its second; or where a bit holds.
fn put_shown(
    alloc: Global,
    made: &mut String,
    text: &str,
    shown: &str,
    graph: &Graph,
) -> Result<(), Fail> {
    let put = match shown {
        "graph" => put_graph(made, graph),
        "blocks" => put_blocks(alloc, made, graph),
        "known" => put_all_known(alloc, made, graph),
        "copies" => put_copies(alloc, made, graph),
        "delays" => put_delays(alloc, made, graph),
        "live" => put_live(alloc, made, graph),
        "terms" => put_all_terms(alloc, made, graph),
        "changes" => return put_changes_of(alloc, made, text, graph),
        "ranges" => return put_ranges(alloc, made, graph),
        "motion" => return put_motion(alloc, made, graph, 0),
        "motion of the second" => return put_motion(alloc, made, graph, 1),
        _ => return put_held(alloc, made, shown, graph),
    };
    Ok(put?)
}

/// Appends the nodes of a graph that the graph of a text does not have, and how many it has.
fn put_changes_of(alloc: Global, made: &mut String, text: &str, graph: &Graph) -> Result<(), Fail> {
    let lowered = graph_of(alloc, text)?;
    let before = graph_text(alloc, &lowered);
    mem::drop(lowered);
    let before = before?;
    let put = put_changes_from(alloc, made, before.as_str(), graph);
    mem::drop(before);
    Ok(put?)
}

/// Appends the nodes of a graph that this text does not have, and how many it has.
fn put_changes_from(
    alloc: Global,
    made: &mut String,
    before: &str,
    graph: &Graph,
) -> Result<(), Memory> {
    let after = graph_text(alloc, graph)?;
    let put = put_changes(made, before, after.as_str());
    mem::drop(after);
    put
}

/// The nodes of a graph.
fn graph_text(alloc: Global, graph: &Graph) -> Result<String, Memory> {
    let mut text = String::new(alloc);
    put_graph(&mut text, graph)?;
    Ok(text)
}

/// Appends a line for each block, with its nodes.
fn put_blocks(alloc: Global, made: &mut String, graph: &Graph) -> Result<(), Memory> {
    let edges = Edges::of(alloc, graph)?;
    let blocks = Blocks::of(alloc, graph, &edges);
    mem::drop(edges);
    let blocks = blocks?;
    let put = put_each(made, &blocks);
    mem::drop(blocks);
    put
}

/// Appends the lines of these blocks.
fn put_each(made: &mut String, blocks: &Blocks) -> Result<(), Memory> {
    for block in 0..blocks.len() {
        put_block(made, blocks.nodes(block))?;
    }
    Ok(())
}

/// Appends the line of a block.
fn put_block(text: &mut String, nodes: &[usize]) -> Result<(), Memory> {
    text.push_str("block")?;
    for node in nodes {
        write!(text, " {node}")?;
    }
    text.push('\n')
}
