// What of a row is news.
ghost use Rattle.std.specs.Prelude.{◌≡◌, true, IfOk};
ghost use Rattle.path_laws.specs.RowMarks.{AllMarked, AreMarksFor, NoneMarked};

use bit_rows::Row;
use fix_solve::News;
use mir_base::Memory;
use std::alloc::Global;
use std::marker::Model;

/// In which words of a row something is news, by a mark for each word. A short row has no marks: all of it is always
/// news, since to look at its few words costs no more than to look at marks. Contracts see the marks.
#[derive(Drop)]
pub struct RowNews {
    /// If this is set, each word is marked: the row is taken whole, without a look at the marks.
    pub(crate) all: bool,
    pub(crate) marks: Row,
}

impl Model for RowNews {
    ghost use Rattle.std.specs.Prelude.{◌≡◌, true, List, Bool};
    ghost use Rattle.path_laws.specs.RowMarks.{AllMarked};

    ghost Value = { List Bool };

    ghost view = { λ news. news.marks };

    ghost invariant = { λ news. news.all ≡ true → AllMarked news.marks };
}

/// The number of bits up to which a row is short.
pub(crate) const MOST_SHORT: usize = 1024;

impl RowNews {
    /// News for a row of so many bits: nothing is news; but of a short row, which has no marks, all is. It fails only
    /// with `Memory`.
    pub(crate) fn new(alloc: Global, bits: usize) -> Result<RowNews, Memory>
        ensures { IfOk result (λ news. AreMarksFor news bits) }
    {
        if bits <= MOST_SHORT {
            Ok(RowNews {
                all: true,
                marks: Row::empty(alloc),
            })
        } else {
            let marks = Row::new(alloc, bits.div_ceil(64))?;
            Ok(RowNews { all: false, marks })
        }
    }

    /// Whether it is known that each word is marked. It does not allocate.
    #[inline(always)]
    pub(crate) fn are_all(&self) -> bool
        ensures { result ≡ true → AllMarked self.now }
    {
        self.all
    }
}

impl News for RowNews {
    ghost fits = { AreMarksFor };

    ghost is_all = { AllMarked };

    ghost is_none = { NoneMarked };

    fn renew(&mut self) {
        if self.all {
            return;
        }
        self.marks.clear();
        self.marks.flip();
        self.all = true;
    }

    fn settle(&mut self) {
        if self.marks.view().len() == 0 {
            return;
        }
        self.marks.clear();
        self.all = false;
    }
}
