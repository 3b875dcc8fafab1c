ghost use Rattle.std.specs.Prelude.{◌≤◌, ℕ, List, length, IfOk, IfErr};
ghost use Rattle.dv_script.specs.declared.limits.TheConstants.{MOST_POOLS};
ghost use Rattle.dv_forms.specs.declared.limits.TheConstants.{WIDEST_LIMIT, WIDEST_NODES};
ghost use Rattle.dv_reader.specs.Refusal.{Says, Refuses};

use crate::error::ScriptFault;
use crate::passes::read_script;
use dv_script::script::Script;
use std::alloc::Global;

/// What is read of the text of a script.
pub trait ReadScript: Sized {
    ghost IsSaidBy: { List ℕ → Self → Type 0 };

    /// Reads a script, a JSON text in UTF-8. Where several reasons to refuse it hold, the answer is
    /// the least; of a key that is given twice the last value counts. It takes time and memory in
    /// proportion to the text, in which repeats are written out.
    fn read(alloc: Global, bytes: &[u8]) -> Result<Self, ScriptFault>
        ensures ok { IfOk result (λ read. IsSaidBy bytes.now read) }
        ensures err { IfErr result (λ fault. Refuses fault bytes.now) };
}

impl ReadScript for Script {
    ghost IsSaidBy = { Says };

    fn read(alloc: Global, bytes: &[u8]) -> Result<Script, ScriptFault>
        ensures ok { IfOk result (λ script. Says bytes.now script) }
        ensures err { IfErr result (λ fault. Refuses fault bytes.now) }
        ensures few { IfOk result (λ script. length script.events ≤ WIDEST_NODES) }
        ensures limited { IfOk result (λ script. script.limit ≤ WIDEST_LIMIT) }
        ensures pools { IfOk result (λ script. length script.pools ≤ MOST_POOLS) }
    {
        read_script(alloc, bytes)
    }
}
