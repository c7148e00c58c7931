// The passes on graphs.
ghost use Rattle.std.specs.Prelude.{IfOk};
ghost use Rattle.flow_graph.specs.Graphs.{GraphShape};
ghost use Rattle.cond_const.specs.Folded.{IsFolded};
ghost use Rattle.value_number.specs.Numbered.{IsNumbered};
ghost use Rattle.copy_flow.specs.Copied.{IsCopied};
ghost use Rattle.compare_flow.specs.Compared.{IsCompared};
ghost use Rattle.term_flow.specs.Termed.{IsTermed};
ghost use Rattle.value_bounds.specs.Bounded.{IsBounded};
ghost use Rattle.extend_flow.specs.Extended.{IsExtended};
ghost use Rattle.unread_div.specs.Unread.{IsUnread};
ghost use Rattle.wanted_bits.specs.Narrowed.{IsNarrowed};
ghost use Rattle.pass_chain.specs.Passes.{IsUnchanged, SunkInRounds};
ghost use Rattle.pass_chain.specs.GraphPasses.{IsMadeOf};

use compare_flow::comparisons;
use cond_const::fold;
use copy_flow::copies;
use edge_split::split;
use extend_flow::extensions;
use flow_graph::Graph;
use mir_base::{Memory, Unit as MirUnit};
use program_pass::{into_laid_out, laid_out};
use sink_rounds::last_of_rounds;
use std::alloc::Global;
use term_flow::terms;
use unread_div::unread;
use value_bounds::use_bounds;
use value_number::number;
use wanted_bits::narrow;

/// A pass on graphs: from the graph of a unit, with clean jumps, to the unit that it makes. `exact` says when a graph
/// is the result of the pass on another.
pub(crate) trait GraphPass {
    ghost exact: { GraphShape → GraphShape → Type 0 };

    /// The unit of the result of the pass on a graph: cleaned and laid out. It fails only with `Memory`.
    fn unit_of(alloc: Global, graph: &Graph) -> Result<MirUnit, Memory>
        ensures { IfOk result (IsMadeOf exact graph.now) };
}

/// Nothing but the cleaning before and after.
pub(crate) struct Cleaning;

impl GraphPass for Cleaning {
    ghost exact = { IsUnchanged };

    fn unit_of(alloc: Global, graph: &Graph) -> Result<MirUnit, Memory> {
        let unit = laid_out(alloc, graph)?;
        Ok(unit)
    }
}

/// Known values, of `cond_const`.
pub(crate) struct Folding;

impl GraphPass for Folding {
    ghost exact = { IsFolded };

    fn unit_of(alloc: Global, graph: &Graph) -> Result<MirUnit, Memory> {
        let folded = fold(alloc, graph)?;
        let unit = laid_out(alloc, &folded)?;
        Ok(unit)
    }
}

/// Numbers of values, of `value_number`.
pub(crate) struct Numbering;

impl GraphPass for Numbering {
    ghost exact = { IsNumbered };

    fn unit_of(alloc: Global, graph: &Graph) -> Result<MirUnit, Memory> {
        let numbered = number(alloc, graph)?;
        let unit = laid_out(alloc, &numbered)?;
        Ok(unit)
    }
}

/// Copies, of `copy_flow`.
pub(crate) struct Copying;

impl GraphPass for Copying {
    ghost exact = { IsCopied };

    fn unit_of(alloc: Global, graph: &Graph) -> Result<MirUnit, Memory> {
        let copied = copies(alloc, graph)?;
        let unit = laid_out(alloc, &copied)?;
        Ok(unit)
    }
}

/// Rounds of sinking on the split graph, of `sink_rounds`.
pub(crate) struct Sinking;

impl GraphPass for Sinking {
    ghost exact = { SunkInRounds };

    fn unit_of(alloc: Global, graph: &Graph) -> Result<MirUnit, Memory> {
        let split = split(alloc, graph)?;
        let last = last_of_rounds(alloc, split)?;
        let unit = into_laid_out(alloc, last)?;
        Ok(unit)
    }
}

/// Bounds of values, of `value_bounds`.
pub(crate) struct Bounding;

impl GraphPass for Bounding {
    ghost exact = { IsBounded };

    fn unit_of(alloc: Global, graph: &Graph) -> Result<MirUnit, Memory> {
        let bounded = use_bounds(alloc, graph)?;
        let unit = laid_out(alloc, &bounded)?;
        Ok(unit)
    }
}

/// Comparisons in tests, of `compare_flow`.
pub(crate) struct Comparing;

impl GraphPass for Comparing {
    ghost exact = { IsCompared };

    fn unit_of(alloc: Global, graph: &Graph) -> Result<MirUnit, Memory> {
        let compared = comparisons(alloc, graph)?;
        let unit = laid_out(alloc, &compared)?;
        Ok(unit)
    }
}

/// Two operators as one, of `term_flow`.
pub(crate) struct Combining;

impl GraphPass for Combining {
    ghost exact = { IsTermed };

    fn unit_of(alloc: Global, graph: &Graph) -> Result<MirUnit, Memory> {
        let termed = terms(alloc, graph)?;
        let unit = laid_out(alloc, &termed)?;
        Ok(unit)
    }
}

/// Extensions of values that fit, of `extend_flow`.
pub(crate) struct Extending;

impl GraphPass for Extending {
    ghost exact = { IsExtended };

    fn unit_of(alloc: Global, graph: &Graph) -> Result<MirUnit, Memory> {
        let extended = extensions(alloc, graph)?;
        let unit = laid_out(alloc, &extended)?;
        Ok(unit)
    }
}

/// Divisions that nothing reads, of `unread_div`.
pub(crate) struct Omitting;

impl GraphPass for Omitting {
    ghost exact = { IsUnread };

    fn unit_of(alloc: Global, graph: &Graph) -> Result<MirUnit, Memory> {
        let lessened = unread(alloc, graph)?;
        let unit = laid_out(alloc, &lessened)?;
        Ok(unit)
    }
}

/// Wanted bits, of `wanted_bits`.
pub(crate) struct Narrowing;

impl GraphPass for Narrowing {
    ghost exact = { IsNarrowed };

    fn unit_of(alloc: Global, graph: &Graph) -> Result<MirUnit, Memory> {
        let narrowed = narrow(alloc, graph)?;
        let unit = laid_out(alloc, &narrowed)?;
        Ok(unit)
    }
}
