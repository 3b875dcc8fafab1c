//! Deferreds and objects as JSON, which is added at the end of a text.

ghost use Rattle.std.specs.Prelude.{OnOk, string_bytes};
ghost use Rattle.dv_facts.specs.Parts.{Adds};

use crate::members::{
    write_comma, write_index_or_null, write_number, write_quoted, write_quoted_or_null,
};
use crate::names::Object;
use dv_journal::deferred_id::DeferredId;
use dv_value::writing::write_text;
use std::alloc::{AllocError, Global};

/// Adds an object: its kind, its name and its number.
pub fn write_object(alloc: Global, out: &mut String, object: Object<'_>) -> Result<(), AllocError>
    ensures { OnOk result (Adds (string_bytes out.old) (string_bytes out.new)) }
{
    write_quoted(alloc, out, r#"{"kind":"#, object.kind)?;
    write_quoted_or_null(alloc, out, r#","name":"#, object.name)?;
    write_index_or_null(out, r#","number":"#, object.number)?;
    write_text(out, "}")
}

/// The names of all Deferreds, by number.
#[derive(Drop)]
pub struct Deferreds<'e> {
    pub names: Vec<Option<&'e str>>,
}

impl<'e> Deferreds<'e> {
    /// The name of a Deferred at its making.
    pub fn name(&self, id: DeferredId) -> Option<&'e str> {
        *self.names.get(id.number() as usize)?
    }

    /// Adds a Deferred: its name and its number.
    pub fn write(&self, alloc: Global, out: &mut String, id: DeferredId) -> Result<(), AllocError>
        ensures { OnOk result (Adds (string_bytes out.old) (string_bytes out.new)) }
    {
        write_quoted_or_null(alloc, out, r#"{"name":"#, self.name(id))?;
        write_number(out, r#","number":"#, u64::from(id.number()))?;
        write_text(out, "}")
    }

    /// Adds Deferreds as an array.
    #[tactic(auto, using(crate::proofs::Added::parts))]
    pub fn write_all(
        &self,
        alloc: Global,
        out: &mut String,
        ids: &[DeferredId],
    ) -> Result<(), AllocError>
        ensures { OnOk result (Adds (string_bytes out.old) (string_bytes out.new)) }
    {
        write_text(out, "[")?;
        for (place, id) in ids.iter().enumerate() {
            write_comma(out, place)?;
            self.write(alloc, out, *id)?;
        }
        write_text(out, "]")
    }
}
