ghost use Rattle.std.specs.Prelude.{◌≡◌};

use dv_forms::declaration::Declaration;
use dv_script::script::Script;
use dv_value::items::Items;

/// What a document says by its shape alone.
#[derive(Drop)]
pub struct Draft {
    /// The version of the grammar that it is in, from 1 to the last.
    pub version: u32,
    /// The classes that it declares, whether they may be declared or not.
    pub declared: Items<Declaration>,
    /// Whether each of them may be declared.
    pub all_declared: bool,
    pub script: Script,
}

impl Draft {
    /// The script that it has.
    pub fn into_script(self) -> Script
        ensures { result ≡ self.script }
    {
        self.script
    }

    /// Drops a draft. Prefer this to an implicit drop: the caller's crate then doesn't re-prove how
    /// its fields are dropped.
    pub fn discard(self) {
        drop(self);
    }
}
