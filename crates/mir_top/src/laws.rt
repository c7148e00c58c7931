// That a text has one meaning, and a call one thing that is due.
ghost use Rattle.std.specs.Prelude.{◌≡◌, ℕ, List};
ghost use Rattle.mir_top.specs.Complaints.{Complaint};
ghost use Rattle.mir_top.specs.Due.{Completes, Refuses};
ghost use Rattle.mir_top.specs.Texts.{OneReading};

use mir_parse::{raw_is_unique, refusal_is_unique};
use mir_valid::{program_is_unique, refused_is_not_valid};

/// Has no effect; carries the theorem that a text is that of at most one program, or is refused for one fault.
pub fn text_has_one_reading()
    ensures { OneReading }
{
    raw_is_unique();
    refusal_is_unique();
    refused_is_not_valid();
    program_is_unique();
}

/// Has no effect; carries the theorem that for words and a text at most one refusal is due, with its status and line,
/// or an output with one status, and never both.
pub fn one_thing_is_due()
    ensures refusal { (words : List (List ℕ)) (text : List ℕ) (one other : Complaint)
        → Refuses words text one → Refuses words text other → one ≡ other }
    ensures status { (words : List (List ℕ)) (text : List ℕ) (one other : ℕ)
        → Completes words text one → Completes words text other → one ≡ other }
    ensures either { (words : List (List ℕ)) (text : List ℕ) (status : ℕ) (complaint : Complaint)
        → Completes words text status → Refuses words text complaint → ⊥ }
{
    text_has_one_reading();
}
