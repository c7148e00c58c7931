// Why nothing is made of what the words ask.
use mir_interp::RunFault;
use mir_outside::ReadFault;
use mir_parse::TextFault;
use mir_valid::ValidFault;

/// Why a call made no output, by the stage at which it ended. Each stage has its own refusals, of which one is that
/// memory ran out.
#[derive(Debug, Drop)]
pub enum Cause {
    /// The words are not those of a command.
    Usage,
    /// The text was not read.
    Reading(ReadFault),
    /// The text spells no raw program.
    Text(TextFault),
    /// The raw program is not valid.
    Program(ValidFault),
    /// The command makes nothing of the program.
    Making(RunFault),
}
