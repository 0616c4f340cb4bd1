// A table in memory: rows that are some words apart.
ghost use Rattle.std.specs.Prelude.{◌≡◌, ℕ, ◌+◌, ◌*◌, ◌<◌};
ghost use Rattle.dcel.specs.Layout.{real, total};
ghost use Rattle.dcel.specs.Memory.{row, put_row};

use crate::layout::Memory;

#[derive(Clone, Copy)]
pub(crate) struct Table {
    // The word of row 0, how many words the rows are apart, and how many rows there are.
    pub(crate) start: u64,
    pub(crate) stride: u64,
    pub(crate) rows: u64,
    ghost inside: { (i : ℕ) → i < rows → start + stride * i < total real },
}

impl Table {
    // The word of row `i`; past the last row it is 0.
    pub(crate) fn get(self, memory: &Memory, i: u64) -> u64
        ensures { result ≡ row self.start self.stride self.rows memory.now i }
    {
        if i < self.rows {
            memory[(self.start + self.stride * i) as usize]
        } else {
            0
        }
    }

    // Past the last row nothing is written.
    pub(crate) fn set(self, memory: &mut Memory, i: u64, value: u64)
        ensures { memory.new ≡ put_row self.start self.stride self.rows memory.old i value }
    {
        if i < self.rows {
            memory[(self.start + self.stride * i) as usize] = value;
        }
    }
}
