// What becomes of programs and of their runs: the examples of `program_examples.rt` and `leaf_examples.rt`.
use crate::tests::leaf_examples::LEAF_EXAMPLES;
use crate::tests::program_examples::PROGRAM_EXAMPLES;
use crate::tests::shown::{put_program, show_same, text_and_shown};
use crate::tests::support::program_of;
use crate::tests::turn_examples::TURN_EXAMPLES;
use mir_base::{Memory, Program};
use mir_interp::{Report, RunFault, run};
use pass_chain::{Pass, pass_program};
use program_turns::thorough_program;
use std::alloc::Global;
use std::mem;
use std::test::Fail;

/// Each example.
#[test]
fn examples_of_programs(rt: HostRuntime) -> Result<(), Fail> {
    for examples in WORKED.iter() {
        for example in examples.split("# ").skip(1) {
            show_example(rt.alloc(), example)?;
        }
    }
    Ok(())
}

/// The texts of all examples.
const WORKED: [&str; 3] = [PROGRAM_EXAMPLES, LEAF_EXAMPLES, TURN_EXAMPLES];

/// Fails where passes make something else than an example says, with what they make.
fn show_example(alloc: Global, example: &str) -> Result<(), Fail> {
    let (text, shown) = text_and_shown(example).ok_or("nothing shown")?;
    for part in shown.split("$ ") {
        let (passes, wanted) = part.split_once('\n').ok_or("no lines")?;
        let wanted = if wanted == "same\n" { text } else { wanted };
        show_part(alloc, text, passes, wanted)?;
    }
    Ok(())
}

/// Fails where these passes make something else of a text.
fn show_part(alloc: Global, text: &str, passes: &str, wanted: &str) -> Result<(), Fail> {
    let made = made_of(alloc, text, passes)?;
    let shown = show_same(text, passes, made.as_str(), wanted);
    mem::drop(made);
    shown
}

/// What the passes make of the program of a text, in turn, or of its run.
fn made_of(alloc: Global, text: &str, passes: &str) -> Result<String, Fail> {
    let mut made = String::new(alloc);
    put_made(alloc, &mut made, text, passes)?;
    Ok(made)
}

/// Appends it.
fn put_made(alloc: Global, made: &mut String, text: &str, passes: &str) -> Result<(), Fail> {
    let (passes, numbers) = passes.split_once("run ").unwrap_or((passes, ""));
    let program = passed(alloc, text, passes)?;
    let put = put_shown(alloc, made, numbers, &program);
    mem::drop(program);
    Ok(put?)
}

/// What the passes make of the program of a text, in turn.
fn passed(alloc: Global, text: &str, passes: &str) -> Result<Program, Fail> {
    let mut program = program_of(alloc, text)?;
    for pass in passes.split_whitespace() {
        program = next_of(alloc, pass, program)?;
    }
    Ok(program)
}

/// What the pass of this name makes of a program, which is dropped.
fn next_of(alloc: Global, pass: &str, program: Program) -> Result<Program, Fail> {
    let next = after(alloc, pass, &program);
    mem::drop(program);
    next
}

/// What the pass of this name makes of a program; after `thorough`, what its turns make.
fn after(alloc: Global, pass: &str, program: &Program) -> Result<Program, Fail> {
    if pass == "thorough" {
        return Ok(thorough_program(alloc, program)?);
    }
    let pass = pass_named(pass).ok_or("no such pass")?;
    Ok(pass_program(alloc, pass, program)?)
}

/// The pass of this name.
fn pass_named(name: &str) -> Option<Pass> {
    match name {
        "tails" => Some(Pass::Tails),
        "join" => Some(Pass::Join),
        "arguments" => Some(Pass::Arguments),
        "optimise" => Some(Pass::Optimise),
        "clean" => Some(Pass::Clean),
        "fold" => Some(Pass::Fold),
        "number" => Some(Pass::Number),
        "copies" => Some(Pass::Copies),
        "motion" => Some(Pass::Motion),
        "divisions" => Some(Pass::Divisions),
        "sink" => Some(Pass::Sink),
        "comparisons" => Some(Pass::Comparisons),
        "terms" => Some(Pass::Terms),
        "bounds" => Some(Pass::Bounds),
        "extensions" => Some(Pass::Extensions),
        "unread" => Some(Pass::Unread),
        "wanted" => Some(Pass::Wanted),
        "demanded" => Some(Pass::Demanded),
        "known" => Some(Pass::Known),
        "called" => Some(Pass::Called),
        _ => None,
    }
}

/// Appends the text of a program, or where there are numbers its run with so many steps and these inputs.
fn put_shown(
    alloc: Global,
    made: &mut String,
    numbers: &str,
    program: &Program,
) -> Result<(), Memory> {
    if numbers.is_empty() {
        return put_program(alloc, made, program);
    }
    let (steps, inputs) = numbers.split_once(' ').unwrap_or((numbers, ""));
    let steps = steps.parse::<u64>().unwrap_or(0);
    let inputs = inputs_of(alloc, inputs)?;
    let put = put_run(made, run(alloc, program, inputs.as_slice(), steps));
    mem::drop(inputs);
    put
}

/// The inputs of these words.
fn inputs_of(alloc: Global, words: &str) -> Result<Vec<i64>, Memory> {
    let mut inputs = Vec::new(alloc);
    push_inputs(&mut inputs, words)?;
    Ok(inputs)
}

/// Appends them.
fn push_inputs(inputs: &mut Vec<i64>, words: &str) -> Result<(), Memory> {
    for word in words.split_whitespace() {
        inputs.push(word.parse::<i64>().unwrap_or(0))?;
    }
    Ok(())
}

/// Appends how a run stands, how many evaluations it counted, and what it printed; or why there is no report.
fn put_run(made: &mut String, answer: Result<Report, RunFault>) -> Result<(), Memory> {
    match answer {
        Ok(report) => {
            let put = put_report(made, &report);
            mem::drop(report);
            put
        }
        Err(fault) => write!(made, "{fault}\n"),
    }
}

/// Appends the line of a report.
fn put_report(made: &mut String, report: &Report) -> Result<(), Memory> {
    let lines = report.lines.items();
    write!(made, "{:?} {} {lines:?}\n", report.finish, report.evals)
}
