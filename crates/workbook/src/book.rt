// Open and sealed workbooks.
ghost use Rattle.std.specs.Prelude.{◌≡◌, ◌+◌, ◌<◌, ◌≤◌};

use crate::counts::Counts;

// A workbook that takes orders. It has no lines: seal it first.
// It and the sealed one are two types that move from one to the other, so none is asked which it is; a generic one would
// share no more than one field and how it is read.
#[derive(Drop)]
pub struct Open {
    counts: Counts,
}

// A workbook that takes no order, and whose text can be read.
#[derive(Drop)]
pub struct Sealed {
    counts: Counts,
}

impl Open {
    // An empty workbook. No table is written: what their rows hold counts for nothing.
    pub fn begin() -> Open
        ensures { (result.counts.sources ≡ 0) × (result.counts.rows ≡ 0) × (result.counts.assertions ≡ 0) }
    {
        Open {
            counts: Counts {
                sources: 0,
                rows: 0,
                assertions: 0,
            },
        }
    }

    pub fn counts(&self) -> Counts
        ensures { result ≡ self.now.counts }
    {
        self.counts
    }

    // Counts one source row more, with so many target rows and assertions.
    pub(crate) fn advance(&mut self, rows: usize, assertions: usize)
        requires sources { self.old.counts.sources < 1024 }
        requires rows { self.old.counts.rows + rows ≤ 32768 }
        requires assertions { self.old.counts.assertions + assertions ≤ 4096 }
        ensures sources { self.new.counts.sources ≡ self.old.counts.sources + 1 }
        ensures rows { self.new.counts.rows ≡ self.old.counts.rows + rows }
        ensures assertions { self.new.counts.assertions ≡ self.old.counts.assertions + assertions }
    {
        self.counts = Counts {
            sources: self.counts.sources + 1,
            rows: self.counts.rows + rows,
            assertions: self.counts.assertions + assertions,
        };
    }

    // The same workbook, taking no more orders.
    pub fn seal(self) -> Sealed
        ensures { result.counts ≡ self.counts }
    {
        let Open { counts } = self;
        Sealed { counts }
    }
}

impl Sealed {
    pub fn counts(&self) -> Counts
        ensures { result ≡ self.now.counts }
    {
        self.counts
    }
}
