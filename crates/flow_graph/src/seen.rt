// The variables that occur in a body, in the order of their first occurrence.
ghost use Rattle.std.specs.Prelude.{◌≡◌, ◌<◌, ◌≤◌, [], ◌∷◌, ◌++◌, flat_map, length, IfOk, OnOk};
ghost use Rattle.mir_base.specs.Shapes.{AllBelow, inst_vars, into_vars, operand_vars, rhs_vars, test_vars};
ghost use Rattle.mir_base.specs.Frames.{shared_vars};
ghost use Rattle.flow_graph.specs.Numbering.{first_index, seen_after, seen_in};

use mir_base::{Inst, Memory, Operand, Rhs, Test};
use std::alloc::Global;
use std::marker::Model;

/// The variables seen so far, and a table that has the place of each of them in that order. Contracts see it as the
/// number of variables and the list of those seen.
#[derive(Drop)]
pub(crate) struct SeenVars {
    seen: Vec<usize>,
    places: Vec<Option<usize>>,
}

impl Model for SeenVars {
    ghost use Rattle.std.specs.Prelude.{length};
    ghost use Rattle.flow_graph.specs.Placing.{ArePositions, Seen};

    ghost Value = { Seen };

    ghost view = { λ vars. record { vars = length vars.places.items; seen = vars.seen.items } };

    ghost invariant = { λ vars. ArePositions vars.seen.items vars.places.items };
}

impl SeenVars {
    /// No variable is seen; the variables are numbered below `vars`.
    fn new(alloc: Global, vars: usize) -> Result<SeenVars, Memory>
        ensures { IfOk result (λ new. new ≡ record { vars = vars; seen = [] }) }
    {
        let places = vec![in alloc; None; vars]?;
        Ok(SeenVars {
            seen: Vec::new(alloc),
            places,
        })
    }

    /// The variables seen, in the order of their first occurrence.
    pub(crate) fn seen(&self) -> &[usize]
        ensures { result.now ≡ self.now.seen }
    {
        self.seen.as_slice()
    }

    /// The place of a variable in that order; of one that was not seen, the number of those that were.
    pub(crate) fn first_index(&self, x: usize) -> usize
        requires { x < self.now.vars }
        ensures { result ≡ first_index self.now.seen x }
    {
        match self.places[x] {
            Some(place) => place,
            None => self.seen.len(),
        }
    }

    /// Sees a variable.
    fn see(&mut self, x: usize) -> Result<(), Memory>
        requires { x < self.old.vars }
        ensures vars { self.new.vars ≡ self.old.vars }
        ensures seen { OnOk result (self.new.seen ≡ seen_after self.old.seen (x ∷ [])) }
    {
        if self.places[x].is_none() {
            let place = self.seen.len();
            self.seen.push(x)?;
            self.places[x] = Some(place);
        }
        Ok(())
    }

    /// Sees the variable of an operand, where it is one.
    fn see_operand(&mut self, a: Operand) -> Result<(), Memory>
        requires { AllBelow self.old.vars (operand_vars a) }
        ensures vars { self.new.vars ≡ self.old.vars }
        ensures seen { OnOk result (self.new.seen ≡ seen_after self.old.seen (operand_vars a)) }
    {
        match a {
            Operand::Var(x) => self.see(x),
            Operand::Const(_) => Ok(()),
        }
    }

    /// Sees the variables of two operands.
    fn see_two(&mut self, a: Operand, b: Operand) -> Result<(), Memory>
        requires { AllBelow self.old.vars (operand_vars a ++ operand_vars b) }
        ensures vars { self.new.vars ≡ self.old.vars }
        ensures seen { OnOk result
            (self.new.seen ≡ seen_after self.old.seen (operand_vars a ++ operand_vars b)) }
    {
        self.see_operand(a)?;
        self.see_operand(b)?;
        Ok(())
    }

    /// Sees the variables of several operands.
    fn see_operands(&mut self, operands: &[Operand]) -> Result<(), Memory>
        requires { AllBelow self.old.vars (flat_map operand_vars operands.now) }
        ensures vars { self.new.vars ≡ self.old.vars }
        ensures seen { OnOk result
            (self.new.seen ≡ seen_after self.old.seen (flat_map operand_vars operands.now)) }
    {
        for a in operands {
            self.see_operand(*a)?;
        }
        Ok(())
    }

    /// Sees the variables of an assignment: the one that it assigns first.
    fn see_assign(&mut self, x: usize, rhs: Rhs) -> Result<(), Memory>
        requires { AllBelow self.old.vars (x ∷ rhs_vars rhs) }
        ensures vars { self.new.vars ≡ self.old.vars }
        ensures seen { OnOk result (self.new.seen ≡ seen_after self.old.seen (x ∷ rhs_vars rhs)) }
    {
        self.see(x)?;
        match rhs {
            Rhs::Plain(a) => self.see_operand(a),
            Rhs::Unary(_, a) => self.see_operand(a),
            Rhs::Binary(_, a, b) => self.see_two(a, b),
        }
    }

    /// Sees the variables of a call: the one that gets the result first.
    fn see_call(&mut self, into: Option<usize>, operands: &[Operand]) -> Result<(), Memory>
        requires { AllBelow self.old.vars (into_vars into ++ flat_map operand_vars operands.now) }
        ensures vars { self.new.vars ≡ self.old.vars }
        ensures seen { OnOk result
            (self.new.seen ≡ seen_after self.old.seen
            (into_vars into ++ flat_map operand_vars operands.now)) }
    {
        match into {
            None => self.see_operands(operands),
            Some(x) => {
                self.see(x)?;
                self.see_operands(operands)
            }
        }
    }

    /// Sees the variables of a test.
    fn see_test(&mut self, test: Test) -> Result<(), Memory>
        requires { AllBelow self.old.vars (test_vars test) }
        ensures vars { self.new.vars ≡ self.old.vars }
        ensures seen { OnOk result (self.new.seen ≡ seen_after self.old.seen (test_vars test)) }
    {
        match test {
            Test::Rel(_, a, b) => self.see_two(a, b),
            Test::Holds(a) => self.see_operand(a),
            Test::Fails(a) => self.see_operand(a),
        }
    }

    /// Sees the variables of an instruction.
    fn see_inst(&mut self, inst: &Inst) -> Result<(), Memory>
        requires { AllBelow self.old.vars (inst_vars inst.now) }
        ensures vars { self.new.vars ≡ self.old.vars }
        ensures seen { OnOk result (self.new.seen ≡ seen_after self.old.seen (inst_vars inst.now)) }
    {
        match inst {
            Inst::Receive(x) => self.see(*x),
            Inst::Assign(x, rhs) => self.see_assign(*x, *rhs),
            Inst::Goto(_) => Ok(()),
            Inst::If(test, _) => self.see_test(*test),
            Inst::Call(into, _, args) => self.see_call(*into, args.items()),
            Inst::Print(a) => self.see_operand(*a),
            Inst::TrapIf(test, _) => self.see_test(*test),
            Inst::Return(a) => self.see_operand(*a),
        }
    }

    /// Sees the first so many variables, where none is seen yet.
    fn see_globals(&mut self, shared: usize) -> Result<(), Memory>
        requires shared { shared ≤ self.old.vars }
        requires none { self.old.seen ≡ [] }
        ensures vars { self.new.vars ≡ self.old.vars }
        ensures seen { OnOk result (self.new.seen ≡ shared_vars shared) }
    {
        for x in 0..shared {
            self.see(x)?;
        }
        Ok(())
    }

    /// The globals, which are the first `shared` variables, and the other variables that occur in a body. All are
    /// numbered below `vars`.
    pub(crate) fn of(
        alloc: Global,
        vars: usize,
        shared: usize,
        body: &[Inst],
    ) -> Result<SeenVars, Memory>
        requires shared { shared ≤ vars }
        requires below { AllBelow vars (flat_map inst_vars body.now) }
        ensures { IfOk result (λ seen. seen ≡ record {
          vars = vars;
          seen = seen_in shared body.now;
        }) }
    {
        let mut seen = SeenVars::new(alloc, vars)?;
        seen.see_globals(shared)?;
        for inst in body {
            seen.see_inst(inst)?;
        }
        Ok(seen)
    }
}
