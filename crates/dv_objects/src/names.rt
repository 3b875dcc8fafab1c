ghost use Rattle.std.specs.Prelude.{◌≡◌, [], OnOk, OnErr};

use crate::name_hashers::NameHashers;
use indexmap::IndexMap;
use std::alloc::{AllocError, Global};
use std::hash::RandomState;
use std::marker::Model;

/// The names of one kind of objects, each bound to one; a name that is made again is rebound.
/// The names are lent by the script.
#[derive(Drop)]
pub struct Names<'s, I> {
    bound: IndexMap<&'s str, I, NameHashers>,
}

impl<'s, I> Model for Names<'s, I> {
    ghost use Rattle.std.specs.Prelude.{map, List, ℕ};
    ghost use Rattle.std.specs.Coded.{codes};

    ghost Value = { List (List ℕ × I) };

    ghost coded = { Prim.hlevel (codes, I.code) };

    ghost view = { λ n. map (λ e. (e.0.now, e.1)) n.bound.entries };
}

impl<'s, I: Copy + Drop> Names<'s, I> {
    ghost use Rattle.dv_objects.specs.Names.{number_of, with_name};

    /// No names, whose hashes depend on these keys. It takes no memory before the first is bound.
    pub fn new(alloc: Global, keys: RandomState) -> Names<'s, I>
        ensures { result ≡ [] }
    {
        Names {
            bound: IndexMap::with_hasher(alloc, NameHashers::new(keys)),
        }
    }

    /// The object that a name is bound to.
    #[tactic(auto, using(crate::proofs::NamesLemmas::number_of_shown))]
    pub fn find(&self, name: &str) -> Option<I>
        ensures { result ≡ number_of name.now self.now }
    {
        self.bound.get(name).copied()
    }

    /// Binds a name. Where the allocation fails, it stays bound to what it was.
    #[tactic(auto, using(crate::proofs::NamesLemmas::with_name_shown))]
    pub fn bind(&mut self, name: &'s str, id: I) -> Result<(), AllocError>
        ensures ok { OnOk result (self.new ≡ with_name name.now id self.old) }
        ensures err { OnErr result (self.new ≡ self.old) }
    {
        self.bound.insert(name, id)?;
        Ok(())
    }
}
