// What a unit hands over and back, joined to what is known around units.
ghost use Rattle.std.specs.Prelude.{◌≡◌, length, map, IfOk, OnOk, Some};
ghost use Rattle.std.specs.Option.{option_map};
ghost use Rattle.program_bounds.specs.Stale.{RaisedMarked};
ghost use Rattle.program_bounds.specs.Sweeps.{CanGive, CanGiveAt, CanJoin, GivesAt, GivesTo};
ghost use Rattle.program_bounds.specs.Tables.{facts_of};

use crate::known::Tables;
use bounds::Fact;
use cond_flow::{Facts, Knowledge};
use flow_graph::{Graph, Node};
use mir_base::Memory;
use std::alloc::Global;
use unit_callers::mark_if;

/// Joins what the nodes of a unit hand over to what is known where the called units are entered, and what they hand
/// back to what is known of that, and answers whether a fact was surer. Each unit that is entered with more is stale
/// then, and so are the callers, which are given, where more is handed back.
pub(crate) fn give(
    alloc: Global,
    graph: &Graph,
    unit: usize,
    callers: &[usize],
    all: &[Option<Vec<Fact>>],
    tables: &mut Tables,
) -> Result<bool, Memory>
    requires { CanGive graph.now unit (map (option_map (λ list. list.items)) all.now)
        (facts_of tables.old) }
    ensures gives { IfOk result (λ raised.
        GivesTo graph.now unit (map (option_map (λ list. list.items)) all.now)
        (length graph.now.nodes) (facts_of tables.old) (facts_of tables.new) raised) }
    ensures marked { OnOk result (RaisedMarked callers.now unit (facts_of tables.old)
        (facts_of tables.new) tables.old.stale.items tables.new.stale.items) }
    ensures kept { OnOk result (tables.new.made.items ≡ tables.old.made.items) }
{
    let mut raised = false;
    for n in 0..graph.len() {
        raised |= give_at(alloc, graph.node(n), unit, callers, &all[n], tables)?;
    }
    Ok(raised)
}

/// The same of one node.
fn give_at(
    alloc: Global,
    node: &Node,
    unit: usize,
    callers: &[usize],
    handed: &Option<Vec<Fact>>,
    tables: &mut Tables,
) -> Result<bool, Memory>
    requires { CanGiveAt node.now unit (option_map (λ list. list.items) handed.now)
        (facts_of tables.old) }
    ensures gives { IfOk result (λ raised.
        GivesAt node.now unit (option_map (λ list. list.items) handed.now) (facts_of tables.old)
        (facts_of tables.new) raised) }
    ensures marked { OnOk result (RaisedMarked callers.now unit (facts_of tables.old)
        (facts_of tables.new) tables.old.stale.items tables.new.stale.items) }
    ensures kept { OnOk result (tables.new.made.items ≡ tables.old.made.items) }
{
    match handed {
        None => Ok(false),
        Some(list) => {
            let facts = Facts::of_list(alloc, list.as_slice(), Fact::top())?;
            let raised = join(node, unit, callers, &facts, tables);
            Ok(raised)
        }
    }
}

/// The same of a node that hands over these.
fn join(
    node: &Node,
    unit: usize,
    callers: &[usize],
    facts: &Facts<Fact>,
    tables: &mut Tables,
) -> bool
    requires { CanJoin node.now unit facts.now (facts_of tables.old) }
    ensures gives { GivesAt node.now unit (Some facts.now) (facts_of tables.old)
        (facts_of tables.new) result }
    ensures marked { RaisedMarked callers.now unit (facts_of tables.old) (facts_of tables.new)
        tables.old.stale.items tables.new.stale.items }
    ensures kept { tables.new.made.items ≡ tables.old.made.items }
{
    match node {
        Node::Call(_, called, _, _) => {
            let raised = tables.entries[*called].raise(facts);
            mark_if(raised, &[*called], &mut tables.stale);
            raised
        }
        Node::Return(_) => {
            let raised = tables.backs[unit].join_from(facts);
            mark_if(raised, callers, &mut tables.stale);
            raised
        }
        _ => false,
    }
}
