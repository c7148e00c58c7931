// Whether two units are equal, and two programs.
ghost use Rattle.std.specs.Prelude.{◌≡◌, ◌↔◌, IsTrue};

use mir_base::{Args, Inst, Name, Operand, Program, Rhs, Test, Unit as MirUnit};

/// Whether two programs are equal: the names of their globals, and their units. It does not allocate.
pub fn same_program(a: &Program, b: &Program) -> bool
    ensures { IsTrue result ↔ (a.now ≡ b.now) }
{
    same_items(a.globals.items(), b.globals.items()) && same_items(a.units.items(), b.units.items())
}

/// Whether two units are equal: name, number of globals, variables and instructions. It does not allocate.
pub fn same_unit(a: &MirUnit, b: &MirUnit) -> bool
    ensures { IsTrue result ↔ (a.now ≡ b.now) }
{
    a.shared == b.shared
        && same_items(a.insts(), b.insts())
        && same_items(a.vars.items(), b.vars.items())
        && a.name.is_equal(&b.name)
}

/// What can be compared with another of its type.
trait Equal {
    /// Whether the two are equal. It does not allocate.
    fn is_equal(&self, other: &Self) -> bool
        ensures { IsTrue result ↔ (self.now ≡ other.now) };
}

impl Equal for Name {
    fn is_equal(&self, other: &Name) -> bool {
        self.bytes() == other.bytes()
    }
}

impl Equal for MirUnit {
    fn is_equal(&self, other: &MirUnit) -> bool {
        same_unit(self, other)
    }
}

impl Equal for Inst {
    fn is_equal(&self, other: &Inst) -> bool {
        same_inst(self, other)
    }
}

impl Equal for Operand {
    fn is_equal(&self, other: &Operand) -> bool {
        same_operand(*self, *other)
    }
}

/// Whether two lists are equal, item by item.
fn same_items<T: Equal>(a: &[T], b: &[T]) -> bool
    ensures { IsTrue result ↔ (a.now ≡ b.now) }
{
    if a.len() != b.len() {
        return false;
    }
    for n in 0..a.len() {
        if !a[n].is_equal(&b[n]) {
            return false;
        }
    }
    true
}

/// Whether two instructions are equal.
fn same_inst(a: &Inst, b: &Inst) -> bool
    ensures { IsTrue result ↔ (a.now ≡ b.now) }
{
    match a {
        Inst::Receive(x) => is_receive(b, *x),
        Inst::Assign(x, rhs) => is_assign(b, *x, rhs),
        Inst::Goto(place) => is_goto(b, *place),
        Inst::If(test, place) => is_if(b, test, *place),
        Inst::Call(into, unit, args) => is_call(b, *into, *unit, args),
        Inst::Print(operand) => is_print(b, *operand),
        Inst::TrapIf(test, number) => is_trap_if(b, test, *number),
        Inst::Return(operand) => is_return(b, *operand),
    }
}

/// Whether the instruction is the receive of this variable.
fn is_receive(inst: &Inst, x: usize) -> bool
    ensures { IsTrue result ↔ (Inst.Receive x ≡ inst.now) }
{
    match inst {
        Inst::Receive(y) => x == *y,
        _ => false,
    }
}

/// Whether it is this assignment.
fn is_assign(inst: &Inst, x: usize, rhs: &Rhs) -> bool
    ensures { IsTrue result ↔ (Inst.Assign x rhs.now ≡ inst.now) }
{
    match inst {
        Inst::Assign(y, other) => x == *y && same_rhs(rhs, other),
        _ => false,
    }
}

/// Whether it is the jump to this place.
fn is_goto(inst: &Inst, place: usize) -> bool
    ensures { IsTrue result ↔ (Inst.Goto place ≡ inst.now) }
{
    match inst {
        Inst::Goto(other) => place == *other,
        _ => false,
    }
}

/// Whether it is the jump to this place under this test.
fn is_if(inst: &Inst, test: &Test, place: usize) -> bool
    ensures { IsTrue result ↔ (Inst.If test.now place ≡ inst.now) }
{
    match inst {
        Inst::If(other, to) => place == *to && same_test(test, other),
        _ => false,
    }
}

/// Whether it is this call.
fn is_call(inst: &Inst, into: Option<usize>, unit: usize, args: &Args) -> bool
    ensures { IsTrue result ↔ (Inst.Call into unit args.now ≡ inst.now) }
{
    match inst {
        Inst::Call(other, called, operands) => {
            unit == *called && same_into(into, *other) && same_items(args.items(), operands.items())
        }
        _ => false,
    }
}

/// Whether it prints this operand.
fn is_print(inst: &Inst, operand: Operand) -> bool
    ensures { IsTrue result ↔ (Inst.Print operand ≡ inst.now) }
{
    match inst {
        Inst::Print(other) => same_operand(operand, *other),
        _ => false,
    }
}

/// Whether it traps with this number under this test.
fn is_trap_if(inst: &Inst, test: &Test, number: u8) -> bool
    ensures { IsTrue result ↔ (Inst.TrapIf test.now number ≡ inst.now) }
{
    match inst {
        Inst::TrapIf(other, raised) => number == *raised && same_test(test, other),
        _ => false,
    }
}

/// Whether it returns this operand.
fn is_return(inst: &Inst, operand: Operand) -> bool
    ensures { IsTrue result ↔ (Inst.Return operand ≡ inst.now) }
{
    match inst {
        Inst::Return(other) => same_operand(operand, *other),
        _ => false,
    }
}

/// Whether both calls give their results to the same variable, or both to none.
fn same_into(a: Option<usize>, b: Option<usize>) -> bool
    ensures { IsTrue result ↔ (a ≡ b) }
{
    match a {
        None => b.is_none(),
        Some(x) => match b {
            None => false,
            Some(y) => x == y,
        },
    }
}

/// Whether two operands are equal.
#[tactic(auto, using(key_table::specs::SameValues::same_operands, key_table::specs::SameValues::operand_self))]
fn same_operand(a: Operand, b: Operand) -> bool
    ensures { IsTrue result ↔ (a ≡ b) }
{
    a == b
}

/// Whether two right sides are equal.
fn same_rhs(a: &Rhs, b: &Rhs) -> bool
    ensures { IsTrue result ↔ (a.now ≡ b.now) }
{
    a == b
}

/// Whether two tests are equal.
#[tactic(auto, using(key_table::specs::SameValues::same_tests, key_table::specs::SameValues::test_self))]
fn same_test(a: &Test, b: &Test) -> bool
    ensures { IsTrue result ↔ (a.now ≡ b.now) }
{
    a == b
}
