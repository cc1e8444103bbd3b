ghost use Rattle.std.specs.Prelude.{◌≡◌, ◌+◌, ◌<◌, ◌∷◌, ◌++◌, [], if◌then◌else◌, IsTrue, length, remove as remove_at, slice_get, Some, IfOk, OnOk, OnErr};
ghost use Rattle.std.specs.Borrow.{sem};
ghost use Rattle.ilk_base.specs.Row.{BorrowWritesToItem};

use std::alloc::{AllocError, Global};
use std::marker::Model;

/// A list of items that may grow. Contracts see it as a plain list.
#[derive(Drop)]
pub struct Row<T> {
    items: Vec<T>,
}

impl<T> Model for Row<T> {
    ghost use Rattle.std.specs.Prelude.{List};

    ghost Value = { List T };

    ghost view = { λ r. r.items.items };
}

impl<T> Row<T> {
    /// Creates an empty row.
    pub fn new(alloc: Global) -> Self
        ensures { result ≡ [] }
    {
        Row {
            items: Vec::new(alloc),
        }
    }

    /// Creates an empty row and requests memory for `items` items at once. Contracts don't promise
    /// this capacity. Fails only if memory runs out.
    pub fn with_capacity(alloc: Global, items: u64) -> Result<Self, AllocError>
        ensures { IfOk result (λ row. row ≡ []) }
    {
        Ok(Row {
            items: Vec::with_capacity(alloc, items as usize)?,
        })
    }

    /// Returns the row's allocator.
    pub fn allocator(&self) -> Global {
        *self.items.allocator()
    }

    /// Returns the number of items.
    pub fn len(&self) -> u64
        ensures { result ≡ length self.now }
    {
        self.items.len() as u64
    }

    /// Returns the items as a slice.
    pub fn as_slice(&self) -> &[T]
        ensures { result.now ≡ self.now }
    {
        self.items.as_slice()
    }

    /// Returns item `i`, from 0.
    pub fn at(&self, i: u64) -> &T
        requires { i < length self.now }
        ensures { slice_get self.now i ≡ Some result.now }
    {
        &self.items[i as usize]
    }

    /// Returns item `i`, from 0, for writing.
    pub fn at_mut(&mut self, i: u64) -> &mut T
        requires { i < length self.old }
        ensures* writes_back { sem 𝓛 (BorrowWritesToItem T.row self.entry i result) }
        ensures value { slice_get self.old i ≡ Some result.now }
    {
        &mut self.items[i as usize]
    }

    /// Removes item `i` and returns it. The index of each later item falls by 1.
    pub fn remove(&mut self, i: u64) -> T
        requires { i < length self.old }
        ensures taken { slice_get self.old i ≡ Some result }
        ensures rest { self.new ≡ remove_at self.old i }
    {
        self.items.remove(i as usize)
    }
}

impl<T: Drop> Row<T> {
    /// Adds `item` at the end. Fails only if memory runs out; the row is then unchanged.
    pub fn push(&mut self, item: T) -> Result<(), AllocError>
        ensures ok { OnOk result (self.new ≡ self.old ++ item ∷ []) }
        ensures err { OnErr result (self.new ≡ self.old) }
    {
        self.items.push(item)?;
        Ok(())
    }

    /// Adds `item` at the end if `is_wanted`; otherwise does nothing. Fails only if memory runs
    /// out; the row is then unchanged.
    pub fn push_if(&mut self, is_wanted: bool, item: T) -> Result<(), AllocError>
        ensures ok { OnOk result (self.new ≡ self.old ++ (if is_wanted then item ∷ [] else [])) }
        ensures err { OnErr result (self.new ≡ self.old) }
        ensures wanted { OnErr result (IsTrue is_wanted) }
    {
        if is_wanted {
            self.push(item)?;
        }
        Ok(())
    }
}

impl<T: Copy> Row<T> {
    /// Returns a copy of the row. Fails only if memory runs out.
    pub fn copy(&self) -> Result<Self, AllocError>
        ensures { IfOk result (λ row. row ≡ self.now) }
    {
        Ok(Row {
            items: Vec::from_slice(self.allocator(), self.items.as_slice())?,
        })
    }
}
