use atomic_table::{Join, Split};
use std::collections::LinkedList;

/// What a token's owner has put into a queue and taken from it, and its parts of the right to know
/// the whole. No value of it is made.
pub struct Hand<T> {
    pub parts: u64,
    pub put: LinkedList<T>,
    pub taken: LinkedList<T>,
}

/// One part goes to a token of its own, and comes back with what was put and taken under it.
pub struct Cut;

impl<T> Split<Hand<T>> for Cut {
    ghost use Rattle.std.specs.Prelude.{[], ◌-◌};
    ghost use Rattle.dv_pool.specs.Rules.{hand};

    ghost left = { λ v. hand (v.parts - 1) v.put v.taken };

    ghost right = { λ v. hand 1 [] [] };
}

impl<T> Join<Hand<T>> for Cut {
    ghost use Rattle.std.specs.Prelude.{[], ◌+◌, ◌++◌};
    ghost use Rattle.dv_pool.specs.Rules.{hand};

    ghost both = { λ v w. hand (v.parts + w.parts) (v.put ++ w.put) (v.taken ++ w.taken) };

    ghost spent = { hand 0 [] [] };
}
