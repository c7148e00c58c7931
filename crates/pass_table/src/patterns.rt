// The patterns of a graph that can still move, and where they are delayed and inserted. Each function fails only with
// `Memory`.
ghost use Rattle.std.specs.Prelude.{◌≡◌, length, IfOk, OnOk, Some};
ghost use Rattle.mir_base.specs.Appending.{AppendsOnOk};
ghost use Rattle.flow_graph.specs.Edges.{edges_of};
ghost use Rattle.table_text.specs.Turns.{AppendsSome};
ghost use Rattle.pass_table.specs.Patterns.{ArePatternsFound, HavePatternBit, IsPatternsText, found_of, pattern_head, pattern_lines, patterns_below};

use flow_graph::{Edges, Graph};
use key_table::KeyTable;
use mir_base::{Memory, Name};
use sink_code::{DelayedPatterns, Pattern};
use std::alloc::Global;
use table_text::{Columns, put_assigned, put_bits, put_count};

/// The patterns of a graph that can still move, and the lines of where they are blocked, delayed and inserted.
#[derive(Drop)]
pub(crate) struct PatternLines {
    /// The patterns.
    pub(crate) table: KeyTable<Pattern>,
    /// Where a pattern is blocked.
    pub(crate) blocked: Columns,
    /// Where it is delayed.
    pub(crate) delayed: Columns,
    /// Where it is inserted.
    pub(crate) inserted: Columns,
}

/// Appends the patterns of a graph that can still move, each with the nodes at which it is blocked, delayed and
/// inserted.
pub(crate) fn put_patterns(alloc: Global, text: &mut Vec<u8>, graph: &Graph) -> Result<(), Memory>
    ensures { OnOk result (AppendsSome (IsPatternsText graph.now) text.old text.new) }
{
    let edges = Edges::of(alloc, graph)?;
    put_patterns_by(alloc, text, graph, &edges)?;
    Ok(())
}

/// The same, by the edges of the graph.
pub(crate) fn put_patterns_by(
    alloc: Global,
    text: &mut Vec<u8>,
    graph: &Graph,
    edges: &Edges,
) -> Result<(), Memory>
    requires { edges.now ≡ edges_of graph.now.nodes }
    ensures { OnOk result (AppendsSome (IsPatternsText graph.now) text.old text.new) }
{
    let found = DelayedPatterns::of(alloc, graph, edges)?;
    let lines = lines_of(alloc, found)?;
    put_each(text, graph, &lines)?;
    Ok(())
}

/// The patterns that were found, with their rows turned.
fn lines_of(alloc: Global, found: DelayedPatterns) -> Result<PatternLines, Memory>
    ensures { IfOk result (λ lines. found_of lines ≡ found) }
{
    let blocked = Columns::of(alloc, &found.blocked)?;
    let delayed = Columns::of(alloc, &found.delayed)?;
    let inserted = Columns::of(alloc, &found.inserted)?;
    let DelayedPatterns { table, .. } = found;
    Ok(PatternLines {
        table,
        blocked,
        delayed,
        inserted,
    })
}

/// Appends the lines of the patterns that were found.
fn put_each(text: &mut Vec<u8>, graph: &Graph, lines: &PatternLines) -> Result<(), Memory>
    requires { ArePatternsFound graph.now (found_of lines.now) }
    ensures { AppendsOnOk result text.old text.new
        (patterns_below graph.now.vars (found_of lines.now) (length lines.now.table)) }
{
    for number in 0..lines.table.len() {
        put_pattern(text, graph.vars(), lines, number, lines.table.get(number))?;
    }
    Ok(())
}

/// Appends the lines of a pattern of this number.
fn put_pattern(
    text: &mut Vec<u8>,
    vars: &[Name],
    lines: &PatternLines,
    number: usize,
    pattern: &Pattern,
) -> Result<(), Memory>
    requires { HavePatternBit (found_of lines.now) number }
    ensures { AppendsOnOk result text.old text.new
        (pattern_lines vars.now (found_of lines.now) number (Some pattern.now)) }
{
    put_head(text, vars, number, pattern)?;
    put_bits(text, &lines.blocked, number, b"blocked")?;
    put_bits(text, &lines.delayed, number, b"delayed")?;
    put_bits(text, &lines.inserted, number, b"inserted")
}

/// Appends the number of a pattern, and the pattern.
fn put_head(
    text: &mut Vec<u8>,
    vars: &[Name],
    number: usize,
    pattern: &Pattern,
) -> Result<(), Memory>
    ensures { AppendsOnOk result text.old text.new (pattern_head vars.now number pattern.now) }
{
    text.extend_from_slice(b"pattern")?;
    put_count(text, number)?;
    text.extend_from_slice(b" ")?;
    put_assigned(text, vars, pattern.var, &pattern.rhs)?;
    text.extend_from_slice(b"\n")
}
