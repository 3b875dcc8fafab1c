//! Entries that show a value: the entry shows a copy, so that the value itself is moved only once
//! the entry is written.

ghost use Rattle.std.specs.Prelude.{◌≡◌, ◌+◌, ◌↔◌, false, IfOk, OnOk, OnErr, IsErrOf};
ghost use Rattle.dv_value.specs.Size.{size};
ghost use Rattle.dv_journal.specs.Journal.{has_room, fits, with_entry};
ghost use Rattle.dv_journal.specs.declared.entry.Entry.TheVariants as entry;

use dv_journal::deferred_id::DeferredId;
use dv_journal::entry::Entry;
use dv_journal::error::Stop;
use dv_journal::journal::Journal;
use dv_value::boxed::Boxed;
use dv_value::value::Value;
use std::alloc::Global;

/// A Deferred is fired with a value.
pub(crate) fn tell_fire(
    alloc: Global,
    journal: &mut Journal,
    id: DeferredId,
    value: &Value,
) -> Result<(), Stop>
    ensures ok { OnOk result (journal.new ≡ with_entry journal.old (entry.Fire id value.now)) }
    ensures limit { IsErrOf result Stop.Limit
        ↔ (fits journal.old (entry.Fire id value.now) ≡ false) }
    ensures err { OnErr result (journal.new ≡ journal.old) }
{
    let shown = shown(alloc, journal, value)?;
    journal.write(Entry::Fire(id, shown))
}

/// What a side gave becomes the value of its Deferred.
pub(crate) fn tell_set(
    alloc: Global,
    journal: &mut Journal,
    id: DeferredId,
    value: &Value,
) -> Result<(), Stop>
    ensures ok { OnOk result (journal.new ≡ with_entry journal.old (entry.Set id value.now)) }
    ensures limit { IsErrOf result Stop.Limit
        ↔ (fits journal.old (entry.Set id value.now) ≡ false) }
    ensures err { OnErr result (journal.new ≡ journal.old) }
{
    let shown = shown(alloc, journal, value)?;
    journal.write(Entry::Set(id, shown))
}

/// A Deferred takes the value of another.
pub(crate) fn tell_take(
    alloc: Global,
    journal: &mut Journal,
    id: DeferredId,
    from: DeferredId,
    value: &Value,
) -> Result<(), Stop>
    ensures ok { OnOk result (journal.new ≡ with_entry journal.old (entry.Take id from value.now)) }
    ensures limit { IsErrOf result Stop.Limit
        ↔ (fits journal.old (entry.Take id from value.now) ≡ false) }
    ensures err { OnErr result (journal.new ≡ journal.old) }
{
    let shown = Boxed::new(alloc, shown(alloc, journal, value)?)?;
    journal.write(Entry::Take(id, from, shown))
}

/// A Deferred hands its value over to another.
pub(crate) fn tell_hand(
    alloc: Global,
    journal: &mut Journal,
    from: DeferredId,
    to: DeferredId,
    value: &Value,
) -> Result<(), Stop>
    ensures ok { OnOk result (journal.new ≡ with_entry journal.old (entry.Hand from to value.now)) }
    ensures limit { IsErrOf result Stop.Limit
        ↔ (fits journal.old (entry.Hand from to value.now) ≡ false) }
    ensures err { OnErr result (journal.new ≡ journal.old) }
{
    let shown = Boxed::new(alloc, shown(alloc, journal, value)?)?;
    journal.write(Entry::Hand(from, to, shown))
}

/// A copy of a value, where an entry that shows it fits.
fn shown(alloc: Global, journal: &Journal, value: &Value) -> Result<Value, Stop>
    ensures ok { IfOk result (λ copy. copy ≡ value.now) }
    ensures limit { IsErrOf result Stop.Limit
        ↔ (has_room journal.now (1 + size value.now) ≡ false) }
{
    if !journal.fits_value(value) {
        return Err(Stop::Limit);
    }
    Ok(value.copy(alloc)?)
}
