ghost use Rattle.std.specs.Prelude.{List, ◌≡◌, ◌+◌, ◌++◌, length, replicate, slice_set, IfOk};
ghost use Rattle.std.specs.Prelude.{IsFalse, IsTrue, OnOk};
ghost use Rattle.dv_posts.specs.Batches.{AreNext, joined};
ghost use Rattle.dv_posts.specs.Taking.{Counted, IsNext, untaken, with_batch};
ghost use Rattle.dv_posts.specs.declared.posted.Posted.{Posted as SpecPosted};

use crate::posted::Posted;
use dv_script::body::Body;
use dv_value::items::Items;
use std::alloc::{AllocError, Global};
use std::marker::Model;

/// The batches that were taken of the callers' posts. Contracts see them, and the bodies of the
/// callers.
#[derive(Drop)]
pub struct Batches<'s> {
    callers: &'s [Items<Body>],
    /// How many posts of each caller are in the batches.
    counts: Vec<usize>,
    /// Where those of one batch more are counted, so that to look at a batch takes no memory.
    more: Vec<usize>,
    batches: Items<Items<Posted>>,
}

impl<'s> Model for Batches<'s> {
    ghost use Rattle.std.specs.Coded.{codes};
    ghost use Rattle.std.specs.Prelude.{◌≡◌, length};
    ghost use Rattle.dv_script.specs.contracts.body.Body as body_contract;
    ghost use Rattle.dv_posts.specs.Taking.{CountsAll, Taken as Seen};

    ghost Value = { Seen };

    ghost coded = { Prim.hlevel (codes, body_contract.the_row.coded) };

    ghost view = { λ b. record { callers = b.callers.now; batches = b.batches } };

    ghost invariant = { λ b.
        CountsAll (record { callers = b.callers.now; batches = b.batches }) b.counts.items
        × (length b.more.items ≡ length b.callers.now) };
}

impl<'s> Batches<'s> {
    /// No batch was taken yet of these callers.
    #[tactic(auto, using(crate::proofs::CountLemmas::none_counted))]
    pub fn new(alloc: Global, callers: &'s [Items<Body>]) -> Result<Batches<'s>, AllocError>
        ensures { IfOk result (λ batches. batches ≡ untaken callers.now) }
    {
        Ok(Batches {
            callers,
            counts: zeros(alloc, callers.len())?,
            more: zeros(alloc, callers.len())?,
            batches: Items::new(alloc),
        })
    }

    /// The bodies of the callers.
    pub fn callers(&self) -> &'s [Items<Body>]
        ensures { result.now ≡ self.now.callers }
    {
        self.callers
    }

    /// Whether each post of a batch is the next one of its caller.
    pub fn are_next(&mut self, batch: &[Posted]) -> bool
        ensures yes { IsTrue result
            → AreNext self.old.callers (joined self.old.batches ++ batch.now) }
        ensures no { IsFalse result
            → AreNext self.old.callers (joined self.old.batches ++ batch.now) → ⊥ }
        ensures same { self.new ≡ self.old }
    {
        count_with(self.callers, self.counts.as_slice(), &mut self.more, batch)
    }

    /// Takes a batch, each post of which is the next one of its caller.
    pub fn put(&mut self, batch: Items<Posted>) -> Result<(), AllocError>
        requires { AreNext self.old.callers (joined self.old.batches ++ batch) }
        ensures ok { OnOk result (self.new ≡ with_batch batch self.old) }
        ensures callers { self.new.callers ≡ self.old.callers }
    {
        if !count_with(
            self.callers,
            self.counts.as_slice(),
            &mut self.more,
            batch.as_slice(),
        ) {
            unreachable!()
        }
        self.batches.push(batch)?;
        self.counts.copy_from_slice(self.more.as_slice());
        Ok(())
    }

    /// The batches, in the order in which they were taken.
    #[tactic(auto, using(crate::proofs::CountLemmas::counted_next))]
    pub fn into_items(self) -> Items<Items<Posted>>
        ensures same { result ≡ self.entry.batches }
        ensures next { AreNext self.entry.callers (joined self.entry.batches) }
    {
        self.batches
    }
}

/// So many zeros.
fn zeros(alloc: Global, len: usize) -> Result<Vec<usize>, AllocError>
    ensures { IfOk result (λ zeros. zeros.items ≡ replicate len 0) }
{
    let mut zeros = Vec::with_capacity(alloc, len)?;
    for _ in 0..len {
        zeros.push_reserved(0_usize);
    }
    Ok(zeros)
}

/// Counts the posts of a batch more, as far as each is the next one of its caller, and answers
/// whether all are.
fn count_with(
    callers: &[Items<Body>],
    counts: &[usize],
    more: &mut Vec<usize>,
    batch: &[Posted],
) -> bool
    requires counts { length counts.now ≡ length callers.now }
    requires more { length more.old.items ≡ length callers.now }
    ensures len { length more.new.items ≡ length callers.now }
    ensures yes { IsTrue result → (before : List SpecPosted) → Counted callers.now counts.now before
        → Counted callers.now more.new.items (before ++ batch.now) }
    ensures no { IsFalse result → (before : List SpecPosted) → Counted callers.now counts.now before
        → AreNext callers.now (before ++ batch.now) → ⊥ }
{
    more.copy_from_slice(counts);
    count_all(callers, more, batch)
}

/// Counts posts, as far as each is the next one of its caller, and answers whether all are.
fn count_all(callers: &[Items<Body>], counts: &mut Vec<usize>, batch: &[Posted]) -> bool
    requires { length counts.old.items ≡ length callers.now }
    ensures len { length counts.new.items ≡ length callers.now }
    ensures yes { IsTrue result → (before : List SpecPosted)
        → Counted callers.now counts.old.items before
        → Counted callers.now counts.new.items (before ++ batch.now) }
    ensures no { IsFalse result → (before : List SpecPosted)
        → Counted callers.now counts.old.items before → AreNext callers.now (before ++ batch.now)
        → ⊥ }
{
    for posted in batch {
        if !count_one(callers, counts, posted) {
            return false;
        }
    }
    true
}

/// Counts a post, where it is the next one of its caller, and answers whether it is.
fn count_one(callers: &[Items<Body>], counts: &mut Vec<usize>, posted: &Posted) -> bool
    requires { length counts.old.items ≡ length callers.now }
    ensures next { IsTrue result → IsNext callers.now counts.old.items posted.now }
    ensures counted { IsTrue result
        → counts.new.items ≡ slice_set counts.old.items posted.now.caller (posted.now.index + 1) }
    ensures strange { IsFalse result → IsNext callers.now counts.old.items posted.now → ⊥ }
    ensures kept { IsFalse result → counts.new ≡ counts.old }
{
    let caller = posted.caller as usize;
    if caller >= callers.len() {
        return false;
    }
    let index = posted.index as usize;
    if index >= callers[caller].as_slice().len() || index != counts[caller] {
        return false;
    }
    counts[caller] = index + 1;
    true
}
