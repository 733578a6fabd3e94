//! A value for some of the cells.

ghost use Rattle.std.specs.Prelude.{◌≡◌, ℕ, Some, None, is_some, OnOk, if◌then◌else◌, ◌==◌};
ghost use Rattle.std.specs.Option.{option_copied};
ghost use Rattle.brc_report.specs.Tables.{at};

use std::alloc::{AllocError, Allocator};
use std::collections::HashMap;
use std::hash::{BuildHasherDefault, FoldHasher};

/// A value for some of the cells: `specs/Tables.antt` reads it as a function of the cell.
#[derive(Drop)]
pub struct Table<V: Drop, A: Allocator> {
    pub(crate) map: HashMap<u32, V, BuildHasherDefault<FoldHasher>, A>,
}

impl<V: Drop, A: Allocator + Clone> Table<V, A> {
    /// No cell has a value.
    pub fn new(alloc: A) -> Self
        ensures { (cell : ℕ) → at result cell ≡ None }
    {
        Table {
            map: HashMap::new(alloc),
        }
    }

    pub fn get(&self, cell: u32) -> Option<&V>
        ensures { option_copied result ≡ at self.now cell }
    {
        self.map.get(&cell)
    }

    pub fn has(&self, cell: u32) -> bool
        ensures { result ≡ is_some (at self.now cell) }
    {
        self.map.contains_key(&cell)
    }

    /// That value for the cell, whatever it had.
    pub fn put(&mut self, cell: u32, value: V) -> Result<(), AllocError>
        ensures { OnOk result
            ((other : ℕ) → at self.new other ≡ (if cell == other then Some value else at self.old other)) }
    {
        match self.map.insert(cell, value) {
            Ok(_old) => Ok(()),
            Err(_refused) => Err(AllocError),
        }
    }
}
