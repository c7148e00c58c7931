// The units that call a unit.
ghost use Rattle.std.specs.Prelude.{◌≡◌, ◌++◌, ◌∷◌, [], length, replicate, IfOk, OnOk};
ghost use Rattle.unit_callers.specs.Calling.{AllCallWithin, AreUnitCallers, CallIsWithin, CallsWithin, NotesCall, NotesCalls};

use flow_graph::{Graph, Node};
use mir_base::Memory;
use std::alloc::Global;
use std::marker::Model;

/// The units that call one, in order; one that calls it from several places stands there as often.
#[derive(Drop)]
pub struct Callers {
    units: Vec<usize>,
}

impl Model for Callers {
    ghost use Rattle.std.specs.Prelude.{List, ℕ};

    ghost Value = { List ℕ };

    ghost view = { λ c. c.units.items };
}

impl Callers {
    /// None.
    fn none(alloc: Global) -> Callers
        ensures { result ≡ [] }
    {
        Callers {
            units: Vec::new(alloc),
        }
    }

    /// The units. It does not allocate.
    pub fn units(&self) -> &[usize]
        ensures { result.now ≡ self.now }
    {
        self.units.as_slice()
    }

    /// Notes a unit, which may be there already.
    fn note(&mut self, unit: usize) -> Result<(), Memory>
        ensures { OnOk result (self.new ≡ self.old ++ unit ∷ []) }
    {
        self.units.push(unit)?;
        Ok(())
    }
}

/// For each unit those that call it. It fails only with `Memory`.
pub fn callers_of(alloc: Global, graphs: &Vec<Graph>) -> Result<Vec<Callers>, Memory>
    requires { AllCallWithin graphs.now.items }
    ensures { IfOk result (λ callers. AreUnitCallers graphs.now.items callers.items) }
{
    let mut callers = no_callers(alloc, graphs.len())?;
    for unit in 0..graphs.len() {
        note_calls(&graphs[unit], unit, &mut callers)?;
    }
    Ok(callers)
}

/// For each of so many units a list of callers with none in it.
fn no_callers(alloc: Global, count: usize) -> Result<Vec<Callers>, Memory>
    ensures { IfOk result (λ callers. callers.items ≡ replicate count []) }
{
    let mut callers = Vec::with_capacity(alloc, count)?;
    for made in 0..count {
        let _ = made;
        callers.push(Callers::none(alloc))?;
    }
    Ok(callers)
}

/// Notes this unit at each that its graph calls.
fn note_calls(graph: &Graph, unit: usize, callers: &mut Vec<Callers>) -> Result<(), Memory>
    requires { CallsWithin graph.now (length callers.old.items) }
    ensures { OnOk result (NotesCalls graph.now (length graph.now.nodes) unit
        callers.old.items callers.new.items) }
{
    for n in 0..graph.len() {
        note_call(graph.node(n), unit, callers)?;
    }
    Ok(())
}

/// Notes this unit at the one that a node calls.
fn note_call(node: &Node, unit: usize, callers: &mut Vec<Callers>) -> Result<(), Memory>
    requires { CallIsWithin node.now (length callers.old.items) }
    ensures { OnOk result (NotesCall node.now unit callers.old.items callers.new.items) }
{
    match node {
        Node::Call(_, called, _, _) => {
            callers[*called].note(unit)?;
            Ok(())
        }
        _ => Ok(()),
    }
}
