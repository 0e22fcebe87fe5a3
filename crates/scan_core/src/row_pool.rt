//! Reuses the memory of rows.
ghost use Rattle.std.specs.Prelude.{IfErr, IfOk, false, ◌≡◌, ◌≤◌, ◌+◌, []};

use crate::fault::RunFault;
use crate::runs::{Kept, Runs, new_kept};
use std::alloc::{AllocError, Global};
use std::marker::Model;
use std::mem;

/// How many rows' memory a pool keeps at most. `live` answers some 450 rows at a time.
const MOST_ROWS: usize = 1_024;

/// How many widths the memory of a row may hold so that the pool keeps it: most rows have fewer.
const MANY_WIDTHS: usize = 1_024;

/// The memory of rows that are no longer used, for rows that come: a program that reads one row after another need
/// not allocate memory for each.
///
/// Contracts see it as the number of rows whose memory it keeps, at most 1,024. None has room for more than 1,024
/// widths.
#[derive(Debug, Drop)]
pub struct RowPool {
    pub(crate) alloc: Global,
    pub(crate) rows: Vec<Box<Kept>>,
    /// A list for the widths of the next row, before they move into the row.
    spare: Vec<u16>,
}

impl Model for RowPool {
    ghost use Rattle.std.specs.Prelude.{All, ℕ, vec_capacity, vec_len, ◌≤◌};

    ghost Value = { ℕ };

    ghost view = { λ pool. vec_len pool.rows };

    ghost invariant = { λ pool. (vec_len pool.rows ≤ 1024) × All (λ kept. kept.value.widths.room ≤ 1024) pool.rows.items
        × (vec_capacity pool.spare ≤ 1024) };
}

impl RowPool {
    /// An empty pool with room for all rows that it may keep.
    pub fn new(alloc: Global) -> Result<RowPool, AllocError>
        ensures { IfOk result (λ pool. pool ≡ 0) }
    {
        Ok(RowPool {
            alloc,
            rows: Vec::with_capacity(alloc, MOST_ROWS)?,
            spare: Vec::new(alloc),
        })
    }

    /// A pool that keeps no row.
    pub fn none(alloc: Global) -> RowPool
        ensures { result ≡ 0 }
    {
        RowPool {
            alloc,
            rows: Vec::new(alloc),
            spare: Vec::new(alloc),
        }
    }

    /// An empty list for the widths of the next row, with the memory of an earlier row if there is one. The call
    /// allocates nothing.
    pub fn take_widths(&mut self) -> Vec<u16>
        ensures empty { result.items ≡ [] }
        ensures same { self.new ≡ self.old }
    {
        let mut widths = mem::replace(&mut self.spare, Vec::new(self.alloc));
        widths.clear();
        widths
    }

    /// Keeps a list for the widths of the next row, unless it is large.
    pub(crate) fn keep_widths(&mut self, widths: Vec<u16>)
        ensures { self.new ≡ self.old }
    {
        if widths.capacity() <= MANY_WIDTHS {
            self.spare = widths;
        }
    }

    /// The memory of an earlier row, or else new memory.
    pub(crate) fn take_kept(&mut self) -> Result<Box<Kept>, RunFault>
        ensures ok { IfOk result (λ kept. kept.value.is_read ≡ false) }
        ensures refused { IfErr result (λ f. f ≡ RunFault.NoMemory) }
    {
        match self.rows.pop() {
            Some(mut kept) => {
                kept.is_read = false;
                Ok(kept)
            }
            None => new_kept(self.alloc),
        }
    }

    /// Keeps the memory of a row that is no longer used, unless it is large or the pool is full. The call allocates
    /// nothing.
    pub fn put_back(&mut self, row: Runs)
        ensures more { self.old ≤ self.new }
        ensures one { self.new ≤ self.old + 1 }
        ensures few { self.new ≤ 1024 }
    {
        self.keep(row.kept);
    }

    /// The same of the content of a row.
    pub(crate) fn keep(&mut self, kept: Box<Kept>)
        ensures more { self.old ≤ self.new }
        ensures one { self.new ≤ self.old + 1 }
        ensures few { self.new ≤ 1024 }
    {
        if self.rows.len() < self.rows.capacity().min(MOST_ROWS)
            && kept.widths.room() <= MANY_WIDTHS
        {
            self.rows.push_reserved(kept);
        }
    }
}
