// How many instructions a small program and a large one have.
use mir_base::Program;
use mir_trial::trial_program;
use std::mem;
use std::test::Fail;

/// One unit, and as many as a program may have.
#[test]
fn lengths_of_bodies(rt: HostRuntime) -> Result<(), Fail> {
    assert!(rt; instructions_of(trial_program(rt.alloc(), 0, 1)?) == 152);
    assert!(rt; instructions_of(trial_program(rt.alloc(), 0, 256)?) == 35_668);
    Ok(())
}

/// How many instructions all units of a program have.
fn instructions_of(program: Program) -> usize {
    let mut count = 0usize;
    for unit in program.units.items() {
        count = count.saturating_add(unit.insts().len());
    }
    mem::drop(program);
    count
}
