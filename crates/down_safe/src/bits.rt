// Rows that are made of others, row by row and along the edges.
ghost use Rattle.std.specs.Prelude.{◌≡◌, length, IfOk};
ghost use Rattle.flow_graph.specs.Blocks.{AreBlocksOf};
ghost use Rattle.flow_graph.specs.Edges.{edges_of};
ghost use Rattle.path_laws.specs.Paths.{AreRows, width};
ghost use Rattle.down_safe.specs.Bits.{AreAvailableRows, AreEarliestRows, AreFrontierRows, HaveShapeOf};

use crate::Sites;
use bit_rows::Rows;
use mir_base::Memory;
use path_laws::{forward_all_over, some_predecessor};
use std::alloc::Global;

/// At which nodes each bit is available: on every path from Start it was used, and killed neither by that node nor by a
/// later one.
pub(crate) fn available_rows(alloc: Global, sites: &Sites<'_>) -> Result<Rows, Memory>
    requires edges { sites.now.edges.now ≡ edges_of sites.now.graph.now.nodes }
    requires blocks { AreBlocksOf sites.now.graph.now.nodes sites.now.blocks.now }
    requires uses { HaveShapeOf sites.now sites.now.uses.now }
    requires kills { HaveShapeOf sites.now sites.now.kills.now }
    ensures shape { IfOk result (HaveShapeOf sites.now) }
    ensures available { IfOk result
        (AreAvailableRows sites.now.graph.now sites.now.uses.now sites.now.kills.now) }
{
    let born = sites.uses.without(alloc, sites.kills)?;
    let blocks = sites.blocks;
    let rows = forward_all_over(alloc, sites.graph, sites.edges, blocks, &born, sites.kills)?;
    Ok(rows)
}

/// At which nodes each bit is earliest: it is anticipatable there, and at some predecessor it is killed, or neither
/// available nor anticipatable. The rows of available bits become those of frontiers.
pub(crate) fn earliest_rows(
    alloc: Global,
    sites: &Sites<'_>,
    available: Rows,
    anticipatable: &Rows,
) -> Result<Rows, Memory>
    requires edges { sites.now.edges.now ≡ edges_of sites.now.graph.now.nodes }
    requires kills { HaveShapeOf sites.now sites.now.kills.now }
    requires available { HaveShapeOf sites.now available }
    requires anticipatable { HaveShapeOf sites.now anticipatable.now }
    ensures shape { IfOk result (HaveShapeOf sites.now) }
    ensures earliest { IfOk result
        (AreEarliestRows sites.now.graph.now sites.now.kills.now available anticipatable.now) }
{
    let frontier = frontier_rows(sites.kills, available, anticipatable);
    let mut rows = some_predecessor(alloc, sites.graph, sites.edges, &frontier)?;
    rows.and_rows(anticipatable);
    Ok(rows)
}

/// For which bits a node is a frontier, before which no evaluation of them moves: those that it kills, and those that
/// are neither available nor anticipatable there.
fn frontier_rows(kills: &Rows, available: Rows, anticipatable: &Rows) -> Rows
    requires kills { AreRows (length kills.now) (width kills.now) kills.now }
    requires available { AreRows (length kills.now) (width kills.now) available }
    requires anticipatable { AreRows (length kills.now) (width kills.now) anticipatable.now }
    ensures shape { AreRows (length kills.now) (width kills.now) result }
    ensures bits { AreFrontierRows kills.now available anticipatable.now result }
{
    let mut rows = available;
    rows.or_rows(anticipatable);
    rows.flip_rows(0);
    rows.or_rows(kills);
    rows
}
