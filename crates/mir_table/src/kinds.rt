// Which tables the words ask for.
ghost use Rattle.std.specs.Prelude.{◌≡◌};
ghost use Rattle.mir_top.specs.Commands.{word_bytes};
ghost use Rattle.mir_table.specs.Kinds.{kind_named, kind_of};

use mir_base::is_text;

/// Which tables are written.
#[derive(Clone, Copy, Debug, PartialEq, Eq)]
pub enum TableKind {
    /// `optimise`, or no word: what all passes find out.
    Optimise,
    /// `divisions`: what the motion of divisions finds out.
    Divisions,
    /// `tails`: how each call stands.
    Tails,
    /// `join`: which units are leaves, and what becomes of each call.
    Join,
    /// `bounds`: between which numbers the values of variables lie.
    Bounds,
    /// `wanted`: how many bits of variables are wanted.
    Wanted,
    /// `demanded`: how many are wanted by what units ask of one another.
    Demanded,
}

impl TableKind {
    /// The tables that these words ask for, and `None` exactly where they ask for none. It does not allocate.
    pub fn of(words: &[String]) -> Option<TableKind>
        ensures { result ≡ kind_of (word_bytes words.now) }
    {
        match words {
            [] => Some(TableKind::Optimise),
            [word] => kind_named(word.as_bytes()),
            [_, _, ..] => None,
        }
    }
}

/// The tables of this word.
fn kind_named(word: &[u8]) -> Option<TableKind>
    ensures { result ≡ kind_named word.now }
{
    if is_text(b"optimise", word) {
        Some(TableKind::Optimise)
    } else if is_text(b"divisions", word) {
        Some(TableKind::Divisions)
    } else if is_text(b"tails", word) {
        Some(TableKind::Tails)
    } else if is_text(b"join", word) {
        Some(TableKind::Join)
    } else if is_text(b"bounds", word) {
        Some(TableKind::Bounds)
    } else if is_text(b"wanted", word) {
        Some(TableKind::Wanted)
    } else if is_text(b"demanded", word) {
        Some(TableKind::Demanded)
    } else {
        None
    }
}
