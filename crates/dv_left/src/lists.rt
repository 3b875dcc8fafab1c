ghost use Rattle.std.specs.Prelude.{◌≡◌, [], IfOk, OnOk, replicate};
ghost use Rattle.dv_left.specs.Lists.{joined, list_at};

use dv_value::items::Items;
use std::alloc::{AllocError, Global};
use std::marker::Model;

/// A list for each of so many numbers, which contracts see as the list of them.
#[derive(Drop)]
pub struct Lists<T> {
    lists: Vec<Items<T>>,
}

impl<T> Model for Lists<T> {
    ghost use Rattle.std.specs.Prelude.{List};
    ghost use Rattle.std.specs.Coded.{coded_list};

    ghost Value = { List (List T) };

    ghost coded = { coded_list (coded_list T.code) };

    ghost view = { λ l. l.lists.items };
}

impl<T: Drop> Lists<T> {
    /// An empty list for each number below this one.
    pub fn new(alloc: Global, count: usize) -> Result<Lists<T>, AllocError>
        ensures { IfOk result (λ lists. lists ≡ replicate count []) }
    {
        let mut lists = Vec::new(alloc);
        for number in 0..count {
            lists.push(Items::new(alloc))?;
        }
        Ok(Lists { lists })
    }

    /// An item joins the list of a number, last; where there is no such number, it is dropped.
    pub fn push(&mut self, number: usize, item: T) -> Result<(), AllocError>
        ensures { OnOk result (self.new ≡ joined number item self.old) }
    {
        let Some(list) = self.lists.get_mut(number) else {
            drop(item);
            return Ok(());
        };
        list.push(item)?;
        Ok(())
    }

    /// The list of a number; an empty one where there is no such number.
    pub fn at(&self, number: usize) -> &[T]
        ensures { result.now ≡ list_at number self.now }
    {
        match self.lists.get(number) {
            None => &[],
            Some(list) => list.as_slice(),
        }
    }
}
