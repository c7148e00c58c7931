// Terms are keys of a table.
ghost use Rattle.value_number.specs.SameTerms.{same_terms};

use crate::terms::TermKey;
use key_table::Key;

impl Key for TermKey {
    ghost same = { same_terms };
}
