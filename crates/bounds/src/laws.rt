// What the facts say, as laws that callers cite.
ghost use Rattle.std.specs.Prelude.{◌≡◌, ◌*ℤ◌, ◌^◌, Bool, List, bit_and, unsigned_abs, ◌≤ℤ◌, ◌<ℤ◌, ◌⊎◌, ℤ, pos, negsuc, true, false, not, FitsSigned};
ghost use Rattle.mir_base.specs.declared.operators.Op.{Op};
ghost use Rattle.mir_base.specs.declared.operators.Op.TheVariants.{And, Max, Min, Mod, Shl, Shra};
ghost use Rattle.mir_base.specs.declared.operators.RelOp.{RelOp};
ghost use Rattle.mir_base.specs.declared.operators.UnOp.{UnOp};
ghost use Rattle.mir_base.specs.Numbers.{distance, relation_holds, traps, unsigned, value_of_op, value_of_un_op};
ghost use Rattle.bounds.specs.declared.facts.Fact.{Fact};
ghost use Rattle.mir_base.specs.declared.instructions.Rhs.{Rhs};
ghost use Rattle.mir_base.specs.declared.instructions.Test as tests;
ghost use Rattle.mir_base.specs.Expressions.{rhs_traps, rhs_value};
ghost use Rattle.mir_base.specs.FrameLaws.{ValuesFit};
ghost use Rattle.mir_base.specs.Frames.{Values};
ghost use Rattle.mir_base.specs.Units.{test_holds};
ghost use Rattle.bounds.specs.declared.ends.End.{End};
ghost use Rattle.bounds.specs.declared.facts.Fact.TheVariants.{Between};
ghost use Rattle.bounds.specs.Ends.{end_value};
ghost use Rattle.bounds.specs.Edges.{AreBounds, BelowFacts, fact_of_rhs, facts_along, may_go};
ghost use Rattle.bounds.specs.Facts.{BelowFact, Bounds, high_of, low_of};
ghost use Rattle.bounds.specs.Bounding.{bounds_of, bounds_of_un, span_of};
ghost use Rattle.bounds.specs.NonemptyLaws.{IsPossible};
ghost use Rattle.bounds.specs.Narrowing.{denied, may_relate, narrowed};
ghost use mir.Syntax.{w64};

/// Has no effect; carries the theorem that the fact of a result holds of the operator's value where the facts of the
/// operands hold of them and it does not trap.
pub fn bounds_hold()
    ensures binary { (op : Op) (x y : Fact) (a b : ℤ) → FitsSigned w64 a → FitsSigned w64 b
        → Bounds x a → Bounds y b → traps op b ≡ false
        → Bounds (bounds_of op x y) (value_of_op op a b) }
    ensures unary { (op : UnOp) (x : Fact) (a : ℤ) → FitsSigned w64 a → Bounds x a
        → Bounds (bounds_of_un op x) (value_of_un_op op a) }
{}

/// Has no effect; carries the theorem that the surer the operands are, the surer is the result.
pub fn bounds_rise()
    ensures binary { (op : Op) (x x' y y' : Fact) → BelowFact x x' → BelowFact y y'
        → BelowFact (bounds_of op x y) (bounds_of op x' y') }
    ensures unary { (op : UnOp) (x x' : Fact) → BelowFact x x'
        → BelowFact (bounds_of_un op x) (bounds_of_un op x') }
{}

/// Has no effect; carries the theorem that an operand narrowed by a relation is a fact that holds where the relation
/// does, and is the surer the surer the operands are; and that what is in a relation may be by the facts.
pub fn narrowing_holds()
    ensures holds { (op : RelOp) (x y : Fact) (a b : ℤ) → FitsSigned w64 a → Bounds x a
        → Bounds y b → relation_holds op a b ≡ true → Bounds (narrowed op x y) a }
    ensures rises { (op : RelOp) (x x' y y' : Fact) → BelowFact x x' → BelowFact y y'
        → BelowFact (narrowed op x y) (narrowed op x' y') }
    ensures may { (op : RelOp) (x y : Fact) (a b : ℤ) → Bounds x a → Bounds y b
        → relation_holds op a b ≡ true → may_relate op (span_of x) (span_of y) ≡ true }
    ensures possible { (op : RelOp) (x y : Fact) → IsPossible x → IsPossible y
        → may_relate op (span_of x) (span_of y) ≡ true → IsPossible (narrowed op x y) }
    ensures denied { (op : RelOp) (a b : ℤ)
        → relation_holds (denied op) a b ≡ not (relation_holds op a b) }
{}

/// Has no effect; carries the theorem that the fact of a right side holds of its value, and that along the edge of a
/// test that a run takes the facts hold that pass along it; and that both are monotone.
pub fn edges_hold()
    ensures right_side { (facts : List Fact) (values : Values) (rhs : Rhs)
        → AreBounds facts values → ValuesFit values → rhs_traps values rhs ≡ false
        → Bounds (fact_of_rhs facts rhs) (rhs_value values rhs) }
    ensures test { (test : tests.Test) (b : Bool) (facts : List Fact) (values : Values)
        → AreBounds facts values → ValuesFit values → test_holds values test ≡ b
        → (may_go test b facts ≡ true) × AreBounds (facts_along test b facts) values }
    ensures right_side_rises { (rhs : Rhs) (xs ys : List Fact) → BelowFacts xs ys
        → BelowFact (fact_of_rhs xs rhs) (fact_of_rhs ys rhs) }
    ensures test_rises { (test : tests.Test) (b : Bool) (xs ys : List Fact) → BelowFacts xs ys
        → BelowFacts (facts_along test b xs) (facts_along test b ys) }
    ensures way_rises { (test : tests.Test) (b : Bool) (xs ys : List Fact) → BelowFacts xs ys
        → may_go test b xs ≡ true → may_go test b ys ≡ true }
{}

/// Has no effect; carries the theorem that a divisor does not trap whose fact leaves out 0, that a remainder by what is
/// greater is the number, that an `and` with all bits of the fact and a shift to the left and back that does not wrap
/// keep the number, and that the lesser and the greater of two numbers are known where their facts lie apart.
pub fn uses_hold()
    ensures safe { (op : Op) (y : Fact) (b : ℤ)
        → (pos 1 ≤ℤ low_of y) ⊎ (high_of y ≤ℤ negsuc 0) → Bounds y b → traps op b ≡ false }
    ensures remainder { (x y : Fact) (a d : ℤ) → pos 0 ≤ℤ low_of x → high_of x <ℤ low_of y
        → Bounds x a → Bounds y d → value_of_op Mod a d ≡ a }
    ensures masked { (e f : End) (a m : ℤ) → FitsSigned w64 a → pos 0 ≤ℤ end_value e
        → pos (bit_and (unsigned m) (unsigned_abs (end_value f))) ≡ end_value f
        → Bounds (Between e f) a → value_of_op And a m ≡ a }
    ensures shifted { (a s : ℤ) → FitsSigned w64 (a *ℤ pos (2 ^ distance s))
        → value_of_op Shra (value_of_op Shl a s) s ≡ a }
    ensures decided { (e : End) (z : ℤ) → Bounds (Between e e) z → z ≡ end_value e }
    ensures lesser { (x y : Fact) (a b : ℤ) → high_of x ≤ℤ low_of y → Bounds x a → Bounds y b
        → value_of_op Min a b ≡ a }
    ensures greater { (x y : Fact) (a b : ℤ) → high_of y ≤ℤ low_of x → Bounds x a → Bounds y b
        → value_of_op Max a b ≡ a }
{}
