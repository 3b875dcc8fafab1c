ghost use Rattle.std.specs.Prelude.{◌≡◌};
ghost use Rattle.dv_objects.specs.Waiting.{body_of, awaited_of, is_adding, resume, taken};

use dv_journal::deferred_id::DeferredId;
use dv_value::value::Value;
use std::mem;

/// What an inline body waits for. `B` is the body where contracts see it, and the key under which
/// it is parked where it is kept.
#[derive(Drop)]
pub enum Waiting<B> {
    /// It doesn't wait: it hasn't begun to, or what it waited for has reached it.
    Nothing,
    /// Its pair is being added to the Deferred that it is going to await.
    Adding,
    /// The result that it is going to await arrived while its pair was being added.
    Arrived(Value),
    /// It awaits the Deferred.
    Awaiting(DeferredId, B),
}

impl<B> Waiting<B> {
    /// The Deferred that is awaited, where one is.
    pub fn awaited(&self) -> Option<DeferredId>
        ensures { result ≡ awaited_of self.now }
    {
        match self {
            Waiting::Awaiting(awaited, _) => Some(*awaited),
            Waiting::Nothing | Waiting::Adding | Waiting::Arrived(_) => None,
        }
    }

    /// Whether its pair is being added to a Deferred.
    pub fn is_adding(&self) -> bool
        ensures { result ≡ is_adding self.now }
    {
        match self {
            Waiting::Adding => true,
            Waiting::Nothing | Waiting::Arrived(_) | Waiting::Awaiting(_, _) => false,
        }
    }
}

impl<B: Drop> Waiting<B> {
    /// Its pair is being added to a Deferred from now on. Returns the body, if it awaited.
    pub fn begin_adding(&mut self) -> Option<B>
        ensures body { result ≡ body_of self.old }
        ensures rest { self.new ≡ Waiting.Adding }
    {
        match mem::replace(self, Waiting::Adding) {
            Waiting::Awaiting(_, body) => Some(body),
            Waiting::Nothing | Waiting::Adding | Waiting::Arrived(_) => None,
        }
    }

    /// The result that is awaited arrives. A body that awaits is returned with it, to go on. If its
    /// pair is still being added, the result is kept for the end of that; else it is dropped.
    pub fn resume(&mut self, input: Value) -> Option<(B, Value)>
        ensures { (result, self.new) ≡ resume input self.old }
    {
        match mem::replace(self, Waiting::Nothing) {
            Waiting::Nothing => {
                drop(input);
                None
            }
            Waiting::Adding => {
                self.set(Waiting::Arrived(input));
                None
            }
            Waiting::Arrived(earlier) => {
                drop(input);
                self.set(Waiting::Arrived(earlier));
                None
            }
            Waiting::Awaiting(_, body) => Some((body, input)),
        }
    }

    /// Takes the result that arrived while its pair was being added, if one did.
    pub fn take(&mut self) -> Option<Value>
        ensures { (result, self.new) ≡ taken self.old }
    {
        match mem::replace(self, Waiting::Nothing) {
            Waiting::Nothing => None,
            Waiting::Adding => {
                self.set(Waiting::Adding);
                None
            }
            Waiting::Arrived(input) => Some(input),
            Waiting::Awaiting(awaited, body) => {
                self.set(Waiting::Awaiting(awaited, body));
                None
            }
        }
    }

    /// It waits for this from now on; what it waited for before is dropped.
    pub fn set(&mut self, waiting: Waiting<B>)
        ensures { self.new ≡ waiting }
    {
        drop(mem::replace(self, waiting));
    }
}
