// The graphs of a unit on its way through a pass, and what the pass finds out between them. Each function fails only
// with `Memory`.
ghost use Rattle.std.specs.Prelude.{◌≡◌, ◌<◌, ℕ, List, IfOk, OnOk, length};
ghost use Rattle.mir_base.specs.Appending.{AppendsOnOk};
ghost use Rattle.mir_base.specs.Shapes.{UnitShape};
ghost use Rattle.flow_graph.specs.Graphs.{GraphShape};
ghost use Rattle.program_pass.specs.Steps.{AreStepsAt};
ghost use Rattle.table_text.specs.Lines.{names_of_units};
ghost use Rattle.table_text.specs.Steps.{IsStepsText, ShowsPass, ShowsSteps, back_text, front_text, pass_line, start_text, table_line};
ghost use Rattle.table_text.specs.Turns.{AppendsSome};

use crate::graphs::{put_stage, put_unit};
use crate::turns::{Pieces, put_in_turn};
use flow_graph::Graph;
use mir_base::{Memory, Program, Unit as MirUnit};
use program_pass::PassSteps;
use std::alloc::Global;

/// A pass over the units of a program, and the text of what it finds out about the graph of a unit: `exact` says which
/// graph the pass makes of the graph with clean jumps of the unit of a number, and `finds` which text tells what it
/// finds out about that graph.
pub trait PassTable {
    ghost exact: { Self → ℕ → GraphShape → GraphShape → Type 0 };

    ghost finds: { Self → List UnitShape → ℕ → GraphShape → List ℕ → Type 0 };

    /// The graphs of the unit of this number on its way through the pass. It fails only with `Memory`.
    fn steps(&self, alloc: Global, program: &Program, number: usize) -> Result<PassSteps, Memory>
        requires { number < length program.now.units }
        ensures { IfOk result (AreStepsAt (exact self.now) program.now.units number) };

    /// Appends what the pass finds out about this graph, which is that of the unit of this number with clean jumps. It
    /// fails only with `Memory`.
    fn put_found(
        &self,
        alloc: Global,
        text: &mut Vec<u8>,
        units: &[MirUnit],
        number: usize,
        graph: &Graph,
    ) -> Result<(), Memory>
        ensures { OnOk result (AppendsSome (finds self.now units.now number graph.now)
            text.old text.new) };
}

/// The tables of the pass of this name: for each unit of a program the graphs on its way through the pass, and between
/// them what is found out.
pub fn text_of_pass<T: PassTable>(
    alloc: Global,
    program: &Program,
    pass: &[u8],
    table: &T,
) -> Result<Vec<u8>, Memory>
    ensures { IfOk result (λ text. ShowsPass pass.now (T.exact table.now) (T.finds table.now)
        program.now text.items) }
{
    let mut text = Vec::new(alloc);
    put_table_line(&mut text, pass)?;
    let units = PassUnits {
        program,
        pass,
        table,
    };
    put_in_turn(alloc, &mut text, &units)?;
    Ok(text)
}

/// Appends the first line of the tables of the pass of this name.
fn put_table_line(text: &mut Vec<u8>, pass: &[u8]) -> Result<(), Memory>
    ensures { AppendsOnOk result text.old text.new (table_line pass.now) }
{
    text.extend_from_slice(b"tables 1 ")?;
    text.extend_from_slice(pass)?;
    text.extend_from_slice(b"\n")
}

/// The units of a program, whose tables are written in turn.
#[derive(Drop)]
struct PassUnits<'a, T: PassTable> {
    program: &'a Program,
    /// The name of the pass.
    pass: &'a [u8],
    table: &'a T,
}

impl<T: PassTable> Pieces for PassUnits<'_, T> {
    ghost count = { λ s. length s.program.now.units };

    ghost is_piece = { λ s number text. IsStepsText s.pass.now (T.exact s.table.now)
        (T.finds s.table.now) s.program.now.units number text };

    fn len(&self) -> usize {
        unit_count(self.program)
    }

    fn put(&self, alloc: Global, text: &mut Vec<u8>, number: usize) -> Result<(), Memory> {
        let steps = self.table.steps(alloc, self.program, number)?;
        put_steps(alloc, text, units_of(self.program), self, number, &steps)?;
        Ok(())
    }
}

/// Appends the graphs of the unit of this number, and what the pass finds out about the one with clean jumps. `units`
/// are those of the program, which calls name.
fn put_steps<T: PassTable>(
    alloc: Global,
    text: &mut Vec<u8>,
    units: &[MirUnit],
    through: &PassUnits<'_, T>,
    number: usize,
    steps: &PassSteps,
) -> Result<(), Memory>
    ensures { OnOk result (AppendsSome (ShowsSteps through.now.pass.now
        (T.finds through.now.table.now units.now number)
        (names_of_units units.now) steps.now) text.old text.new) }
{
    let table = through.table;
    put_front(text, units, &steps.lowered, &steps.cleaned)?;
    put_pass(text, through.pass)?;
    table.put_found(alloc, text, units, number, &steps.cleaned)?;
    put_back(text, units, through.pass, &steps.passed, &steps.swept)?;
    Ok(())
}

/// How many units a program has. It does not allocate.
pub fn unit_count(program: &Program) -> usize
    ensures { result ≡ length program.now.units }
{
    units_of(program).len()
}

/// The units of a program. It does not allocate.
pub fn units_of(program: &Program) -> &[MirUnit]
    ensures { result.now ≡ program.now.units }
{
    program.units.items()
}

/// Appends the line with the name of a pass.
pub fn put_pass(text: &mut Vec<u8>, pass: &[u8]) -> Result<(), Memory>
    ensures { AppendsOnOk result text.old text.new (pass_line pass.now) }
{
    text.extend_from_slice(b"pass ")?;
    text.extend_from_slice(pass)?;
    text.extend_from_slice(b"\n")
}

/// Appends the name of a unit and its first two graphs, the second with clean jumps, among the units of its program.
pub fn put_front(
    text: &mut Vec<u8>,
    units: &[MirUnit],
    lowered: &Graph,
    cleaned: &Graph,
) -> Result<(), Memory>
    ensures { AppendsOnOk result text.old text.new
        (front_text (names_of_units units.now) lowered.now cleaned.now) }
{
    put_start(text, units, lowered)?;
    text.extend_from_slice(b"pass clean\n")?;
    put_stage(text, units, b"clean", cleaned)
}

/// Appends the name of a unit and its first graph.
fn put_start(text: &mut Vec<u8>, units: &[MirUnit], lowered: &Graph) -> Result<(), Memory>
    ensures { AppendsOnOk result text.old text.new
        (start_text (names_of_units units.now) lowered.now) }
{
    put_unit(text, lowered.name())?;
    put_stage(text, units, b"lower", lowered)
}

/// Appends the last two graphs of a unit: what the pass of this name made, and the same with clean jumps.
pub fn put_back(
    text: &mut Vec<u8>,
    units: &[MirUnit],
    pass: &[u8],
    passed: &Graph,
    swept: &Graph,
) -> Result<(), Memory>
    ensures { AppendsOnOk result text.old text.new
        (back_text (names_of_units units.now) pass.now passed.now swept.now) }
{
    put_stage(text, units, pass, passed)?;
    text.extend_from_slice(b"pass clean\n")?;
    put_stage(text, units, b"result", swept)
}
