// Patterns as keys of a table.
ghost use Rattle.sink_code.specs.SamePatterns.{same_patterns};

use crate::patterns::Pattern;
use key_table::Key;

impl Key for Pattern {
    ghost same = { same_patterns };
}
