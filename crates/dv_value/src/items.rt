ghost use Rattle.std.specs.Prelude.{◌≡◌, ◌<◌, [], ◌∷◌, ◌++◌, Some, length, slice_get, slice_set};
ghost use Rattle.std.specs.Prelude.{IfOk, OnOk, OnErr};

use std::alloc::{AllocError, Global};
use std::marker::Model;
use std::mem;

/// A `Vec` that contracts see as the list of its elements, without an address and without a
/// capacity.
#[derive(Debug, Drop)]
pub struct Items<T> {
    items: Vec<T>,
}

impl<T> Model for Items<T> {
    ghost use Rattle.std.specs.Prelude.{List};
    ghost use Rattle.std.specs.Coded.{coded_list};

    ghost Value = { List T };

    ghost coded = { coded_list T.code };

    ghost view = { λ i. i.items.items };
}

impl<T> Items<T> {
    /// No items. It takes no memory before the first is pushed.
    pub fn new(alloc: Global) -> Items<T>
        ensures { result ≡ [] }
    {
        Items {
            items: Vec::new(alloc),
        }
    }

    /// No items, with memory for `capacity` of them: pushing so many allocates no more.
    pub fn with_capacity(alloc: Global, capacity: usize) -> Result<Items<T>, AllocError>
        ensures { IfOk result (λ items. items ≡ []) }
    {
        Ok(Items {
            items: Vec::with_capacity(alloc, capacity)?,
        })
    }

    /// The items, in the order that they were pushed.
    pub fn as_slice(&self) -> &[T]
        ensures { result.now ≡ self.now }
    {
        self.items.as_slice()
    }

    /// The items, as a `Vec`.
    pub fn into_vec(self) -> Vec<T>
        ensures { result.items ≡ self }
    {
        self.items
    }

    /// Puts an item in the place of another, which comes back.
    pub fn replace(&mut self, place: usize, item: T) -> T
        requires within { place < length self.old }
        ensures given { Some result ≡ slice_get self.old place }
        ensures put { self.new ≡ slice_set self.old place item }
    {
        mem::replace(&mut self.items[place], item)
    }
}

impl<T: Drop> Items<T> {
    /// Adds an item at the end. On allocation failure, the item is dropped and the others stay.
    #[inline(always)]
    pub fn push(&mut self, item: T) -> Result<(), AllocError>
        ensures ok { OnOk result (self.new ≡ self.old ++ item ∷ []) }
        ensures err { OnErr result (self.new ≡ self.old) }
    {
        if self.items.reserve(1).is_err() {
            drop(item);
            return Err(AllocError);
        }
        self.items.push_reserved(item);
        Ok(())
    }
}
