// The texts of the stages.
ghost use Rattle.std.specs.Prelude.{◌++◌, codes, IfOk, OnOk};
ghost use Rattle.mir_base.specs.Appending.{AppendsOnOk};
ghost use Rattle.mir_base.specs.Text.{canonical_text};
ghost use Rattle.mir_opt.specs.Stages.{AllKeep, graph_at, stage_name};
ghost use Rattle.mir_top.specs.StageTexts.{AppendsStage, AppendsStages, ShowsStages, title};

use mir_base::{Memory, Program};
use mir_opt::{Stage, Trail, stage_program, stages_of};
use mir_print::print;
use std::alloc::Global;

/// The text of the source, and then, for each stage, that of the program whose units are the layouts of the graphs of
/// the stage, each behind a line with its name. It fails only with `Memory`.
pub(crate) fn text_of_stages(alloc: Global, trail: &Trail) -> Result<Vec<u8>, Memory>
    requires { AllKeep graph_at trail.now.source.units trail.now.units }
    ensures { IfOk result (λ text. ShowsStages trail.now text.items) }
{
    let stages = stages_of(alloc, trail)?;
    let mut text = Vec::new(alloc);
    put_source(alloc, &mut text, &trail.source)?;
    put_stages(alloc, &mut text, trail, &stages)?;
    Ok(text)
}

/// Appends the title and the text of the source.
fn put_source(alloc: Global, text: &mut Vec<u8>, source: &Program) -> Result<(), Memory>
    ensures { AppendsOnOk result text.old text.new
        (title (codes "source") ++ canonical_text source.now) }
{
    text.extend_from_slice(b"|| source\n")?;
    put_program(alloc, text, source)
}

/// Appends the title and the text of each of these stages.
fn put_stages(
    alloc: Global,
    text: &mut Vec<u8>,
    trail: &Trail,
    stages: &[Stage],
) -> Result<(), Memory>
    requires { AllKeep graph_at trail.now.source.units trail.now.units }
    ensures { OnOk result (AppendsStages trail.now stages.now text.old text.new) }
{
    for stage in stages {
        put_stage(alloc, text, trail, *stage)?;
    }
    Ok(())
}

/// Appends the title and the text of a stage.
fn put_stage(alloc: Global, text: &mut Vec<u8>, trail: &Trail, stage: Stage) -> Result<(), Memory>
    requires { AllKeep graph_at trail.now.source.units trail.now.units }
    ensures { OnOk result (AppendsStage trail.now stage text.old text.new) }
{
    let program = stage_program(alloc, trail, stage)?;
    // Has no effect; hands on that the units of a program fit together, which is its invariant.
    let _ = &program.units;
    put_title(text, stage)?;
    put_program(alloc, text, &program)?;
    Ok(())
}

/// Appends the line with the name of a stage.
fn put_title(text: &mut Vec<u8>, stage: Stage) -> Result<(), Memory>
    ensures { AppendsOnOk result text.old text.new (title (stage_name stage)) }
{
    text.extend_from_slice(b"|| ")?;
    stage.put_name(text)?;
    text.extend_from_slice(b"\n")
}

/// Appends the canonical text of a program.
fn put_program(alloc: Global, text: &mut Vec<u8>, program: &Program) -> Result<(), Memory>
    ensures { AppendsOnOk result text.old text.new (canonical_text program.now) }
{
    let printed = print(alloc, program)?;
    text.extend_from_slice(&printed)
}
