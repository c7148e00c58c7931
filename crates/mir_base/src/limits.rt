// The limits of the language and of the command, each said once. `specs/Limits.antt` has a word for each.

/// The most bytes of the text of a program.
pub const MOST_BYTES: usize = 1_048_576;

/// The most bytes of a name.
pub const MOST_NAME_BYTES: usize = 64;

/// The most globals of a program.
pub const MOST_GLOBALS: usize = 64;

/// The most units of a program.
pub const MOST_UNITS: usize = 256;

/// The most instructions of a unit, receives included.
pub const MOST_INSTS: usize = 16_384;

/// The most receives of a unit, one for each of its arguments.
pub const MOST_RECEIVES: usize = 16;

/// The most steps that a run may be asked to make.
pub const MOST_STEPS: u64 = 1_000_000;

/// The most frames, calls that have not returned, that a run may have at a time.
pub const MOST_FRAMES: usize = 10_000;
