ghost use Rattle.std.specs.Prelude.{◌≡◌, ◌↔◌, [], ◌∷◌, ◌++◌, ◌-◌, OnOk, OnErr, IsTrue, length};
ghost use Rattle.std.specs.Prelude.{take, drop, slice_get};
ghost use Rattle.std.specs.Option.{option_copied};

use std::alloc::{AllocError, Global};
use std::collections::VecDeque;
use std::marker::Model;

/// A `VecDeque` that contracts see as the list of its elements, from the front, without an address
/// and without a capacity.
#[derive(Drop)]
pub struct Deque<T> {
    items: VecDeque<T>,
}

impl<T> Model for Deque<T> {
    ghost use Rattle.std.specs.Prelude.{List};
    ghost use Rattle.std.specs.Coded.{coded_list};

    ghost Value = { List T };

    ghost coded = { coded_list T.code };

    ghost view = { λ d. d.items.items };
}

impl<T> Deque<T> {
    /// No items. It takes no memory before the first is pushed.
    pub fn new(alloc: Global) -> Deque<T>
        ensures { result ≡ [] }
    {
        Deque {
            items: VecDeque::new(alloc),
        }
    }

    /// Items, of which the first is in front.
    pub fn of(items: Vec<T>) -> Deque<T>
        ensures { result ≡ items.items }
    {
        Deque {
            items: VecDeque::from(items),
        }
    }

    /// Whether there is nothing to pop.
    pub fn is_empty(&self) -> bool
        ensures { IsTrue result ↔ (self.now ≡ []) }
    {
        self.items.is_empty()
    }

    /// How many items there are.
    pub fn len(&self) -> usize
        ensures { result ≡ length self.now }
    {
        self.items.len()
    }

    /// The item that was pushed first of those that are left.
    pub fn front(&self) -> Option<&T>
        ensures { option_copied result ≡ slice_get self.now 0 }
    {
        self.items.front()
    }

    /// Takes the item that was pushed first of those that are left, in constant time.
    pub fn pop_front(&mut self) -> Option<T>
        ensures value { result ≡ slice_get self.old 0 }
        ensures rest { self.new ≡ drop 1 self.old }
    {
        self.items.pop_front()
    }
}

impl<T: Drop> Deque<T> {
    /// Drops the item that was pushed last, if there is one.
    pub fn drop_back(&mut self)
        ensures { self.new ≡ take (length self.old - 1) self.old }
    {
        let _ = self.items.pop_back();
    }

    /// Adds an item at the end. On allocation failure, the item is dropped and the others stay.
    pub fn push_back(&mut self, item: T) -> Result<(), AllocError>
        ensures ok { OnOk result (self.new ≡ self.old ++ item ∷ []) }
        ensures err { OnErr result (self.new ≡ self.old) }
    {
        self.items.push_back(item)?;
        Ok(())
    }
}
