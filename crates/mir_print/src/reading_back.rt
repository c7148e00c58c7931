// The canonical text of a program is read as that program.
ghost use Rattle.mir_base.specs.Text.{canonical_text};
ghost use Rattle.mir_print.specs.Texts.{SpellsFor, KeepsLimits, IsReadBack};

use crate::well_typed::hand_out_program;
use mir_base::Program;
use mir_parse::raw_is_unique;
use mir_valid::program_is_unique;

/// Has no effect; carries the theorem that the canonical text of a program spells a raw program that stands for the
/// program. Where the program keeps the limits, that raw program is valid, and the text is read as no other program: so
/// where the text has at most 1,048,576 bytes, which is what `lex` takes, `lex`, `parse` and `check` give the program
/// back. It does not allocate, and visits each part of the program once.
pub fn text_is_read_back(program: &Program)
    // The text spells a raw program that stands for the program, whatever its size.
    ensures spelled { SpellsFor (canonical_text program.now) program.now }

    // Within the limits it is the text of this program alone.
    ensures read_back { KeepsLimits program.now → IsReadBack program.now }
{
    hand_out_program(program);
    raw_is_unique();
    program_is_unique();
}
