// What the calls of each unit pass for its arguments.
ghost use Rattle.std.specs.Prelude.{◌≡◌, ◌++◌, ◌+◌, ◌<◌, [], false, length, nat_eq, replicate, if◌then◌else◌, IfOk, OnOk};
ghost use Rattle.constant_args.specs.declared.states.ArgumentState.TheVariants.{Open};
ghost use Rattle.constant_args.specs.Gathered.{AreAllConstants, AreNotedBefore, CallIsWithin, CallsExist, JoinsArguments, NotesSite, NotesNode, kept_vars};

use crate::kept::kept_vars;
use crate::states::{ArgumentState, joined_at};
use flow_graph::{Graph, Node};
use mir_base::{Memory, Operand};
use std::alloc::Global;

/// What the calls of a unit pass for its arguments, of the calls that are noted so far.
#[derive(Drop)]
pub(crate) struct NotedCalls {
    /// Whether a call is noted.
    called: bool,
    /// What they pass for each argument; empty before the first call.
    pub(crate) arguments: Vec<ArgumentState>,
}

impl NotedCalls {
    /// The state in which no call is noted.
    fn none(alloc: Global) -> NotedCalls
        ensures uncalled { result.called ≡ false }
        ensures empty { result.arguments.items ≡ [] }
    {
        NotedCalls {
            called: false,
            arguments: Vec::new(alloc),
        }
    }

    /// Notes a call with these operands, which passes on these variables.
    fn note(&mut self, operands: &[Operand], kept: &[Option<usize>]) -> Result<(), Memory>
        ensures { OnOk result (NotesSite operands.now kept.now self.old self.new) }
    {
        if !self.called {
            open_arguments(&mut self.arguments, operands.len())?;
            self.called = true;
        }
        join_arguments(&mut self.arguments, operands, kept);
        Ok(())
    }
}

/// For each unit what its arguments are in all calls, found in the graphs of all units. It fails only with `Memory`.
pub(crate) fn gathered(alloc: Global, graphs: &Vec<Graph>) -> Result<Vec<NotedCalls>, Memory>
    requires { CallsExist graphs.now.items }
    ensures { IfOk result (λ noted. AreAllConstants graphs.now.items noted.items) }
{
    let mut noted = all_gathered(alloc, graphs)?;
    noted[0] = NotedCalls::none(alloc);
    Ok(noted)
}

/// For each unit what all calls pass for its arguments.
fn all_gathered(alloc: Global, graphs: &Vec<Graph>) -> Result<Vec<NotedCalls>, Memory>
    requires { CallsExist graphs.now.items }
    ensures { IfOk result (λ noted.
        AreNotedBefore graphs.now.items (length graphs.now.items) 0 noted.items) }
{
    let mut noted = nothing_gathered(alloc, graphs)?;
    for unit in 0..graphs.len() {
        note_calls(alloc, graphs, unit, &mut noted)?;
    }
    Ok(noted)
}

/// For each unit the state in which no call is noted.
fn nothing_gathered(alloc: Global, graphs: &Vec<Graph>) -> Result<Vec<NotedCalls>, Memory>
    ensures { IfOk result (λ noted. AreNotedBefore graphs.now.items 0 0 noted.items) }
{
    let mut noted = Vec::with_capacity(alloc, graphs.len())?;
    for made in 0..graphs.len() {
        let _ = made;
        noted.push(NotedCalls::none(alloc))?;
    }
    Ok(noted)
}

/// Notes the calls of the graph of this unit.
fn note_calls(
    alloc: Global,
    graphs: &Vec<Graph>,
    unit: usize,
    noted: &mut Vec<NotedCalls>,
) -> Result<(), Memory>
    requires exist { CallsExist graphs.now.items }
    requires there { unit < length graphs.now.items }
    requires before { AreNotedBefore graphs.now.items unit 0 noted.old.items }
    ensures { OnOk result (AreNotedBefore graphs.now.items (unit + 1) 0 noted.new.items) }
{
    let graph = &graphs[unit];
    let kept = kept_vars(alloc, graph)?;
    for n in 0..graph.len() {
        note_node(graph.node(n), unit, kept.as_slice(), noted)?;
    }
    Ok(())
}

/// Notes the call of a node of this unit, where it is one. The unit passes on these variables to itself.
fn note_node(
    node: &Node,
    unit: usize,
    kept: &[Option<usize>],
    noted: &mut Vec<NotedCalls>,
) -> Result<(), Memory>
    requires { CallIsWithin node.now (length noted.old.items) }
    ensures { OnOk result (NotesNode node.now unit kept.now noted.old.items noted.new.items) }
{
    match node {
        Node::Call(_, called, operands, _) => {
            let passed = passed_to(*called, unit, kept);
            noted[*called].note(operands.items(), passed)?;
            Ok(())
        }
        _ => Ok(()),
    }
}

/// The variables that a unit passes on to the one that it calls: these to itself, and none to another.
fn passed_to<'a>(called: usize, unit: usize, kept: &'a [Option<usize>]) -> &'a [Option<usize>]
    ensures { result.now ≡ (if nat_eq called unit then kept.now else []) }
{
    if called == unit { kept } else { &kept[..0] }
}

/// Adds the states of so many arguments for which no call has passed anything yet.
fn open_arguments(arguments: &mut Vec<ArgumentState>, count: usize) -> Result<(), Memory>
    ensures { OnOk result
        (arguments.new.items ≡ arguments.old.items ++ replicate count Open) }
{
    for opened in 0..count {
        let _ = opened;
        arguments.push(ArgumentState::Open)?;
    }
    Ok(())
}

/// Joins to the state of each argument what a call gives it that has these operands and passes on these variables.
fn join_arguments(arguments: &mut Vec<ArgumentState>, operands: &[Operand], kept: &[Option<usize>])
    ensures { JoinsArguments (length arguments.old.items) operands.now kept.now
        arguments.old.items arguments.new.items }
{
    for i in 0..arguments.len() {
        let state = joined_at(arguments[i], operands, kept, i);
        arguments[i] = state;
    }
}
