// Units and programs, whose parts are known to fit together.
ghost use Rattle.std.specs.Prelude.{◌≡◌, ◌+◌, ◌<◌, ◌^◌, [], ◌∷◌, length, slice_get, Some, None, IfNone, IfOk, IfSome, All};
ghost use Rattle.mir_base.specs.Shapes.{BodyFits, IsProgram, IsTidy, AllBelow, SharesGlobals, inst_vars, receives_in};
ghost use Rattle.mir_base.specs.Runs.{inputs_of};

use crate::{Inst, Items, Memory, Name};
use std::alloc::{AllocError, Global};
use std::marker::Model;

/// A unit: a procedure with its own variables, and with the globals. It is tidy: the first `shared` names of `vars` are
/// the globals, in order; the others are exactly the names of the other variables that occur in the body, numbered in
/// the order in which they first occur in the unit's canonical text; all are distinct. Contracts see it as its name,
/// the number of globals, the list of its variables' names and the list of its instructions.
#[derive(Drop)]
pub struct Unit {
    /// The unit's name.
    pub name: Name,
    /// How many of the variables are globals.
    pub shared: usize,
    /// The names of the variables, by number.
    pub vars: Items<Name>,
    /// The instructions, by place.
    pub body: Items<Inst>,
}

impl Model for Unit {
    ghost use Rattle.std.specs.Prelude.{length};
    ghost use Rattle.mir_base.specs.Shapes.{UnitShape, IsTidy};

    ghost Value = { UnitShape };

    ghost view = { λ u. record { name = u.name; shared = u.shared; vars = u.vars; body = u.body } };

    ghost invariant = { λ unit. IsTidy unit.shared unit.vars unit.body };
}

impl Unit {
    /// The instructions, by place. Their variables have names; those that are not globals are numbered in the order in
    /// which they first occur. It does not allocate.
    pub fn insts(&self) -> &[Inst]
        ensures value { result.now ≡ self.now.body }
        ensures tidy { IsTidy self.now.shared self.now.vars result.now }
        ensures below { All (λ inst. AllBelow (length self.now.vars) (inst_vars inst)) result.now }
    {
        self.body.items()
    }

    /// The instruction at this place, and `None` exactly where there is none. Its variables have names. It does not
    /// allocate.
    pub fn inst(&self, place: usize) -> Option<&Inst>
        ensures none { IfNone result (slice_get self.now.body place ≡ None) }
        ensures some { IfSome result (λ inst. slice_get self.now.body place ≡ Some inst.now) }
        ensures below { let count = length self.now.vars in
            IfSome result (λ inst. AllBelow count (inst_vars inst.now)) }
        ensures next { IfSome result (λ _. place + 1 < 2 ^ 64) }
    {
        match self.body.items().get(place) {
            None => None,
            Some(inst) => Some(inst),
        }
    }
}

impl Clone for Unit {
    ghost is_clone = { λ unit copy. copy ≡ unit };

    fn clone(&self) -> Result<Unit, AllocError> {
        let name = self.name.clone()?;
        let shared = self.shared;
        let vars = self.vars.clone()?;
        let body = self.body.clone()?;
        Ok(Unit {
            name,
            shared,
            vars,
            body,
        })
    }
}

/// A program, whose first unit is the one that a run begins with. Its parts fit together: there is a unit; the names of
/// units are distinct; in each unit the receives stand first and name distinct variables; targets of jumps are at least
/// the number of receives and at most the length of the body; the units that are called exist, and get as many
/// arguments as they have receives; and in each unit the globals are the first variables, and no receive sets one, so
/// that their names are distinct. Contracts see it as the list of the names of its globals and the list of its units.
#[derive(Drop)]
pub struct Program {
    /// The names of the globals, by number.
    pub globals: Items<Name>,
    /// The units, by number.
    pub units: Items<Unit>,
}

impl Model for Program {
    ghost use Rattle.mir_base.specs.Shapes.{ProgramShape, IsProgram};

    ghost Value = { ProgramShape };

    ghost view = { λ program. record { globals = program.globals; units = program.units } };

    ghost invariant = { λ program. IsProgram program.globals program.units };
}

impl Program {
    /// The program of this one unit, which has no globals, and whose body fits on its own: its receives stand first and
    /// name distinct variables, its jumps go to places after them and at most to its end, and it calls none but itself,
    /// with as many arguments as it has receives. It fails only with `Memory`.
    pub fn of_unit(alloc: Global, unit: Unit) -> Result<Program, Memory>
        requires fits { BodyFits (unit ∷ []) unit.body }
        requires no_globals { unit.shared ≡ 0 }
        ensures units { IfOk result (λ program. program.units ≡ unit ∷ []) }
        ensures no_globals { IfOk result (λ program. program.globals ≡ []) }
    {
        let mut units = Vec::new(alloc);
        units.push(unit)?;
        Ok(Program {
            globals: Items::new(alloc),
            units: Items::of(units),
        })
    }

    /// The program of these units with the globals of this one, where they fit together. It fails only with `Memory`.
    pub fn with_units(&self, units: Vec<Unit>) -> Result<Program, Memory>
        requires { IsProgram self.now.globals units.items }
        ensures { IfOk result (λ program. program
            ≡ record { globals = self.now.globals; units = units.items }) }
    {
        let globals = self.globals.clone()?;
        Ok(Program {
            globals,
            units: Items::of(units),
        })
    }

    /// Has no effect; carries the theorem that the units of a program fit together, which is its invariant.
    pub fn fits_together(&self)
        ensures { IsProgram self.now.globals self.now.units }
    {
        let _ = &self.units;
    }

    /// The unit of this number. It does not allocate.
    pub fn unit(&self, number: usize) -> &Unit
        requires { number < length self.now.units }
        ensures unit { slice_get self.now.units number ≡ Some result.now }
        ensures fits { BodyFits self.now.units result.now.body }
        ensures shares { SharesGlobals self.now.globals result.now }
    {
        &self.units.items()[number]
    }

    /// How many inputs a run takes: as many as the first unit has receives. It does not allocate.
    pub fn inputs(&self) -> usize
        ensures inputs { result ≡ inputs_of self.now }
        ensures some_unit { 0 < length self.now.units }
    {
        let first = &self.units.items()[0];
        receives(first.body.items())
    }
}

impl Clone for Program {
    ghost is_clone = { λ program copy. copy ≡ program };

    fn clone(&self) -> Result<Program, AllocError> {
        let globals = self.globals.clone()?;
        let units = self.units.clone()?;
        Ok(Program { globals, units })
    }
}

/// How many receives the body begins with.
fn receives(body: &[Inst]) -> usize
    ensures { result ≡ receives_in body.now }
{
    let mut count = 0;
    for inst in body {
        match inst {
            Inst::Receive(_) => count += 1,
            _ => break,
        }
    }
    count
}
