// What is true of every raw program.
ghost use Rattle.std.specs.Prelude.{◌≡◌, Some};
ghost use Rattle.mir_parse.specs.declared.raw.Raw.{Raw as ARaw};
ghost use Rattle.mir_valid.specs.declared.faults.ValidFault.{ValidFault as AFault};
ghost use Rattle.mir_valid.specs.Refusals.{IsValidMemory, IsValid, refusal};
ghost use Rattle.mir_valid.specs.Stands.{StandsForAtMostOne};

/// Has no effect; carries the theorem that no valid raw program stands for two programs.
pub fn program_is_unique()
    ensures { (raw : ARaw) → IsValid raw → StandsForAtMostOne raw }
{}

/// Has no effect; carries the theorem that what is refused is not valid, and a refusal is not of memory.
pub fn refused_is_not_valid()
    ensures valid { (raw : ARaw) (fault : AFault) → refusal raw ≡ Some fault → IsValid raw → ⊥ }
    ensures memory { (raw : ARaw) (fault : AFault) →
        refusal raw ≡ Some fault → IsValidMemory fault → ⊥ }
{}
