//! A list.
ghost use Rattle.std.specs.Prelude.{◌≡◌, [], ◌∷◌, ◌++◌, OnOk, OnErr};

use crate::fault::OutOfMemory;
use std::alloc::Global;
use std::marker::Model;

/// Values in order, seen as the list of them.
#[derive(Debug)]
pub struct List<T: Drop> {
    values: Vec<T>,
}

/// By hand, so that dropping one is one call.
impl<T: Drop> Drop for List<T> {
    fn drop(self) {
        let List { values } = self;
        drop(values);
    }
}

impl<T: Drop> Model for List<T> {
    ghost use Rattle.std.specs.Prelude.{List as Items};
    ghost use Rattle.std.specs.Coded.{coded_list};

    ghost Value = { Items T };

    ghost coded = { coded_list T.code };

    ghost view = { λ l. l.values.items };
}

impl<T: Drop> List<T> {
    /// The empty list; takes no memory.
    pub fn new(alloc: Global) -> List<T>
        ensures { result ≡ [] }
    {
        List {
            values: Vec::new(alloc),
        }
    }

    /// The same values as a list; takes no memory.
    pub fn from_vec(values: Vec<T>) -> List<T>
        ensures { result ≡ values.items }
    {
        List { values }
    }

    /// The values again; takes no memory.
    pub fn into_vec(self) -> Vec<T>
        ensures { result.items ≡ self }
    {
        let List { values } = self;
        values
    }

    /// Makes room for so many values more, which are then added without memory.
    pub fn reserve(&mut self, more: usize) -> Result<(), OutOfMemory>
        ensures { self.new ≡ self.old }
    {
        self.values.reserve(more)?;
        Ok(())
    }

    /// Adds a value at the end. After an error the list is as before. A list of one value has room for one: most stay so.
    pub fn push(&mut self, value: T) -> Result<(), OutOfMemory>
        ensures ok { OnOk result (self.new ≡ self.old ++ value ∷ []) }
        ensures err { OnErr result (self.new ≡ self.old) }
    {
        if self.values.is_empty() {
            self.values.reserve_exact(1)?;
        }
        self.values.push(value)?;
        Ok(())
    }

    /// Adds values at the end. After an error the list is as before.
    pub fn append(&mut self, more: List<T>) -> Result<(), OutOfMemory>
        ensures ok { OnOk result (self.new ≡ self.old ++ more) }
        ensures err { OnErr result (self.new ≡ self.old) }
    {
        let List { values: mut more } = more;
        self.values.append(&mut more)?;
        Ok(())
    }

    /// The values in order.
    pub fn as_slice(&self) -> &[T]
        ensures { result.now ≡ self.now }
    {
        self.values.as_slice()
    }
}
