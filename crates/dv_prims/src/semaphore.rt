ghost use Rattle.std.specs.Prelude.{◌≡◌, IfOk};

use crate::error::{NotHeld, ReleaseFault};
use crate::waiting_list::{WaitingList, join};
use dv_journal::deferred_id::DeferredId;
use dv_journal::entry::Entry;
use dv_journal::error::{Fault, Stop};
use dv_journal::journal::Journal;
use dv_value::items::Items;
use dv_value::text::Text;
use std::alloc::{AllocError, Global};
use std::marker::Model;

/// Whether a Deferred that asks for a token gets one.
#[derive(Clone, Copy, Debug, PartialEq, Eq)]
pub enum Grant {
    /// It has one now.
    Now,
    /// It waits for one.
    Waits,
}

/// What a semaphore has when it is dropped.
#[derive(Drop)]
pub struct SemaphoreParts {
    /// Its name at its making.
    pub name: Text,
    /// How many tokens it has.
    pub tokens: u32,
    /// How many of them are given.
    pub given: u32,
    /// The Deferreds that wait for a token, from the one that has waited longest.
    pub waiting: Items<DeferredId>,
}

/// A semaphore, or a lock, which is one of one token (Twisted: `DeferredSemaphore`,
/// `DeferredLock`). Those that wait for a token get it in the order in which they asked; one that
/// asks twice waits twice.
#[derive(Drop)]
pub struct Semaphore {
    alloc: Global,
    name: Text,
    tokens: u32,
    given: u32,
    waiting: WaitingList,
}

impl Model for Semaphore {
    ghost use Rattle.std.specs.Prelude.{◌≡◌, ◌≤◌, ◌<◌, length};
    ghost use Rattle.std.specs.Coded.{codes};
    ghost use Rattle.dv_prims.specs.Tokens.{Semaphore as Seen};

    ghost Value = { Seen };

    ghost coded = { Prim.hlevel codes };

    ghost view = { λ s. record {
      name = s.name;
      tokens = s.tokens;
      given = s.given;
      waiting = s.waiting;
    } };

    ghost invariant = { λ s. (s.given ≤ s.tokens) × (0 < length s.waiting → s.given ≡ s.tokens) };
}

impl Semaphore {
    ghost use Rattle.dv_prims.specs.Laws.{GivesAllBeforeAnyWaits};
    ghost use Rattle.dv_journal.specs.Telling.{UnlessMemory};
    ghost use Rattle.dv_prims.specs.Tokens.{make_lock, make_semaphore, has_free, is_unheld};
    ghost use Rattle.dv_prims.specs.Tokens.{first_waiting, acquire, release, ReleasesUnlessMemory};
    ghost use Rattle.dv_prims.specs.Tokens.{is_waiting, forgotten};

    /// Makes a lock, whose one token is free, and logs it (Twisted: `DeferredLock`).
    pub fn lock(alloc: Global, journal: &mut Journal, name: &str) -> Result<Semaphore, Stop>
        ensures { UnlessMemory result journal.old journal.new (make_lock name.now journal.old) }
    {
        if !journal.fits_plain() {
            return Err(Stop::Limit);
        }
        let kept = Text::of(alloc, name)?;
        let shown = Text::of(alloc, name)?;
        journal.write(Entry::Lock(shown))?;
        Ok(all_free(alloc, kept, 1))
    }

    /// Makes a semaphore of so many tokens, which are free, and logs it (Twisted:
    /// `DeferredSemaphore`).
    pub fn new(
        alloc: Global,
        journal: &mut Journal,
        name: &str,
        tokens: u32,
    ) -> Result<Semaphore, Stop>
        ensures { UnlessMemory result journal.old journal.new
            (make_semaphore name.now tokens journal.old) }
    {
        if !journal.fits_plain() {
            return Err(Stop::Limit);
        }
        let kept = Text::of(alloc, name)?;
        let shown = Text::of(alloc, name)?;
        journal.write(Entry::Semaphore(shown, tokens))?;
        Ok(all_free(alloc, kept, tokens))
    }

    /// Its name.
    pub fn name(&self) -> &str
        ensures { result.now ≡ self.now.name }
    {
        self.name.as_str()
    }

    /// Whether a token is free.
    pub fn has_free(&self) -> bool
        ensures { result ≡ has_free self.now }
    {
        self.given < self.tokens
    }

    /// Whether no token is held.
    pub fn is_unheld(&self) -> bool
        ensures { result ≡ is_unheld self.now }
    {
        self.given == 0
    }

    /// The waiter that gets the next token that is released; None if there is none.
    pub fn first_waiting(&self) -> Option<DeferredId>
        ensures { result ≡ first_waiting self.now }
    {
        self.waiting.first()
    }

    /// No more tokens are given than there are, and somebody waits only where all of them are.
    pub fn gives_all_before_any_waits(&self)
        ensures { GivesAllBeforeAnyWaits self.now }
    {
        let _ = &self.alloc;
    }

    /// A Deferred asks for a token (Twisted: `DeferredSemaphore.acquire`, `DeferredLock.acquire`,
    /// which also fire it where it gets one).
    pub fn acquire(&mut self, journal: &mut Journal, id: DeferredId) -> Result<Grant, Stop>
        ensures { UnlessMemory result (self.old, journal.old) (self.new, journal.new)
            (acquire id (self.old, journal.old)) }
    {
        if !journal.fits_plain() {
            return Err(Stop::Limit);
        }
        let shown = self.name.copy(self.alloc)?;
        if self.given < self.tokens {
            journal.write(Entry::Acquire(shown, id))?;
            self.given += 1;
            return Ok(Grant::Now);
        }
        join(journal, Entry::Acquire(shown, id), &mut self.waiting, id)?;
        Ok(Grant::Waits)
    }

    /// Releases a token: the first that waits gets it, and is answered, to be fired; with nobody
    /// waiting it is free (Twisted: `DeferredSemaphore.release`, `DeferredLock.release`). Where
    /// none is held, nothing is logged.
    pub fn release(&mut self, journal: &mut Journal) -> Result<Option<DeferredId>, ReleaseFault>
        ensures { ReleasesUnlessMemory result (self.old, journal.old) (self.new, journal.new)
            (release (self.old, journal.old)) }
    {
        if self.given == 0 {
            return Err(Fault::Refused(NotHeld));
        }
        if !journal.fits_plain() {
            return Err(Fault::Limit);
        }
        let shown = self.name.copy(self.alloc)?;
        journal.write(Entry::Release(shown))?;
        match self.waiting.pop_front() {
            Some(id) => Ok(Some(id)),
            None => {
                self.given -= 1;
                Ok(None)
            }
        }
    }

    /// A Deferred waits no longer, or once less where it asked more than once, and whether it
    /// waited is answered (Twisted: `DeferredSemaphore._cancelAcquire`).
    #[tactic(auto, using(crate::proofs::WaitingLemmas::no_more_left))]
    pub fn forget(&mut self, id: DeferredId) -> bool
        ensures waited { result ≡ is_waiting id self.old.waiting }
        ensures rest { self.new ≡ forgotten id self.old }
    {
        self.waiting.remove(id)
    }

    /// Drops it, and returns what it had.
    pub fn into_parts(self) -> Result<SemaphoreParts, AllocError>
        ensures name { IfOk result (λ parts. parts.name ≡ self.name) }
        ensures tokens { IfOk result (λ parts. parts.tokens ≡ self.tokens) }
        ensures given { IfOk result (λ parts. parts.given ≡ self.given) }
        ensures waiting { IfOk result (λ parts. parts.waiting ≡ self.waiting) }
    {
        let Semaphore {
            alloc,
            name,
            tokens,
            given,
            waiting,
        } = self;
        Ok(SemaphoreParts {
            name,
            tokens,
            given,
            waiting: waiting.into_items(alloc)?,
        })
    }
}

ghost use Rattle.dv_prims.specs.Tokens.{new_semaphore};

/// A semaphore of which no token is held.
fn all_free(alloc: Global, name: Text, tokens: u32) -> Semaphore
    ensures { result ≡ new_semaphore name tokens }
{
    Semaphore {
        alloc,
        name,
        tokens,
        given: 0,
        waiting: WaitingList::new(alloc),
    }
}
