ghost use Rattle.std.specs.Prelude.{◌≡◌, ◌↔◌, [], ◌∷◌, ◌++◌, ◌-◌, OnOk, OnErr, IsTrue, length};
ghost use Rattle.std.specs.Prelude.{take, drop, slice_get};
ghost use Rattle.std.specs.Option.{option_copied};

use dv_value::deque::Deque;
use std::alloc::{AllocError, Global};
use std::marker::Model;

/// A `Deque` that lies on the heap as a whole, so that an empty one takes little room. Contracts
/// see it as the list of its elements, from the front.
#[derive(Drop)]
pub struct BoxedDeque<T> {
    held: Option<Box<Deque<T>>>,
}

impl<T> Model for BoxedDeque<T> {
    ghost use Rattle.std.specs.Prelude.{List};
    ghost use Rattle.std.specs.Coded.{coded_list};
    ghost use Rattle.dv_store.specs.BoxedDeque.{elements_of};

    ghost Value = { List T };

    ghost coded = { coded_list T.code };

    ghost view = { λ d. elements_of d.held };
}

impl<T> BoxedDeque<T> {
    /// No items. It takes no memory before the first is pushed.
    pub fn new() -> BoxedDeque<T>
        ensures { result ≡ [] }
    {
        BoxedDeque { held: None }
    }

    /// The items, in a deque that isn't boxed.
    pub fn into_deque(self, alloc: Global) -> Deque<T>
        ensures { result ≡ self }
    {
        match self.held {
            None => Deque::new(alloc),
            Some(deque) => Box::into_inner(deque),
        }
    }

    /// Whether there is no item.
    fn is_empty(&self) -> bool
        ensures { IsTrue result ↔ (self.now ≡ []) }
    {
        match &self.held {
            None => true,
            Some(deque) => deque.is_empty(),
        }
    }

    /// Takes the item that was pushed first of those that are left, and keeps the room.
    fn pop_front(&mut self) -> Option<T>
        ensures value { result ≡ slice_get self.old 0 }
        ensures rest { self.new ≡ drop 1 self.old }
    {
        match &mut self.held {
            None => None,
            Some(deque) => deque.pop_front(),
        }
    }

    /// The item that was pushed first of those that are left.
    pub fn front(&self) -> Option<&T>
        ensures { option_copied result ≡ slice_get self.now 0 }
    {
        match &self.held {
            None => None,
            Some(deque) => deque.front(),
        }
    }
}

impl<T: Drop> BoxedDeque<T> {
    /// Takes the item that was pushed first of those that are left, in constant time, and frees the
    /// room where it was the last.
    pub fn take_front(&mut self) -> Option<T>
        ensures value { result ≡ slice_get self.old 0 }
        ensures rest { self.new ≡ drop 1 self.old }
    {
        let item = self.pop_front();
        if self.is_empty() {
            self.held = None;
        }
        item
    }

    /// Drops the item that was pushed last, if there is one.
    pub fn drop_back(&mut self)
        ensures { self.new ≡ take (length self.old - 1) self.old }
    {
        match &mut self.held {
            None => {}
            Some(deque) => deque.drop_back(),
        }
    }

    /// Adds an item at the end. On allocation failure, the item is dropped and the others stay.
    pub fn push_back(&mut self, alloc: Global, item: T) -> Result<(), AllocError>
        ensures ok { OnOk result (self.new ≡ self.old ++ item ∷ []) }
        ensures err { OnErr result (self.new ≡ self.old) }
    {
        match &mut self.held {
            None => {
                let mut deque = Deque::new(alloc);
                deque.push_back(item)?;
                self.held = Some(Box::new(alloc, deque)?);
                Ok(())
            }
            Some(deque) => deque.push_back(item),
        }
    }
}
