// Tables that a caller supplies, filled from their fronts.
ghost use Rattle.std.specs.Prelude.{◌≡◌, ◌+◌, ◌<◌, nat_le, length, replicate, slice_set};
ghost use Rattle.script.specs.Filled.{filled, room_of};

// A table, how many of its rows are used, and how many may be at most.
// No ghost field bounds `used`: with one, the proof loses what the slice holds when the struct ends (tried).
#[derive(Drop)]
pub(crate) struct Table<'a, T> {
    pub(crate) rows: &'a mut [T],
    pub(crate) used: usize,
    pub(crate) limit: usize,
}

impl<'a, T: Copy> Table<'a, T> {
    // A table on these rows, none of them used.
    pub(crate) fn new(rows: &'a mut [T], limit: usize) -> Self
        ensures rows { result.rows.now ≡ rows.old }
        ensures used { result.used ≡ 0 }
        ensures limit { result.limit ≡ limit }
        ensures lent { result.rows.ghost_name ≡ rows.entry.ghost_name }
    {
        Table {
            rows,
            used: 0,
            limit,
        }
    }

    // Blanks the table from end to end.
    pub(crate) fn clear(&mut self, blank: T)
        ensures rows { self.new.rows.now ≡ replicate (length self.old.rows.now) blank }
        ensures used { self.new.used ≡ 0 }
        ensures limit { self.new.limit ≡ self.old.limit }
        ensures lent { self.new.rows.ghost_name ≡ self.old.rows.ghost_name }
    {
        for row in self.rows.iter_mut() {
            *row = blank;
        }
        self.used = 0;
    }

    // The rows that are used.
    pub(crate) fn filled(&self) -> &[T]
        ensures { result.now ≡ filled self.now }
    {
        &self.rows[..self.used.min(self.rows.len())]
    }

    // Whether the table is used up to its limit or its end.
    pub(crate) fn is_full(&self) -> bool
        ensures { result ≡ nat_le (room_of self.now) self.now.used }
    {
        self.used >= self.rows.len().min(self.limit)
    }

    // Appends a row, where there is room.
    pub(crate) fn push(&mut self, row: T)
        requires { self.old.used < room_of self.old }
        ensures rows { self.new.rows.now ≡ slice_set self.old.rows.now self.old.used row }
        ensures used { self.new.used ≡ self.old.used + 1 }
        ensures limit { self.new.limit ≡ self.old.limit }
        ensures lent { self.new.rows.ghost_name ≡ self.old.rows.ghost_name }
    {
        self.rows[self.used] = row;
        self.used += 1;
    }
}
