//! The sequences in which the posts of a script's callers are taken, from one to the next.

ghost use Rattle.std.specs.Prelude.{◌≡◌, ◌+◌, ◌<◌, ◌≤◌, ◌^◌, ◌∷◌, ◌++◌, [], length, map, replicate};
ghost use Rattle.std.specs.Prelude.{slice_index, sum, true, false, if◌then◌else◌, IfOk, IfSome};
ghost use Rattle.std.specs.Prelude.{MatchBool, OnOk};
ghost use Rattle.dv_orders.specs.Orders.{counts_of};
ghost use Rattle.dv_orders.specs.Sequencing.{FindsCaller, IsPath, later_sequences};
ghost use Rattle.dv_orders.specs.Sequencing.{listed_sequences, sequences_through, with_taken};
ghost use Rattle.dv_posts.specs.Posts.{post};

use dv_posts::posted::Posted;
use dv_script::body::Body;
use dv_value::items::Items;
use std::alloc::{AllocError, Global};

/// A sequence of posts.
#[derive(Drop)]
pub(crate) struct Sequence {
    /// How many posts each caller has.
    pub(crate) counts: Vec<u32>,
    /// How many of these the sequence has.
    pub(crate) taken: Vec<u32>,
    pub(crate) posts: Vec<Posted>,
}

impl Sequence {
    /// The sequence of no posts.
    pub(crate) fn empty(alloc: Global, callers: &[Items<Body>]) -> Result<Sequence, AllocError>
        ensures counts { IfOk result (λ s. s.counts.items ≡ counts_of callers.now) }
        ensures taken { IfOk result (λ s. s.taken.items ≡ replicate (length callers.now) 0) }
        ensures posts { IfOk result (λ s. s.posts.items ≡ []) }
        ensures path { IfOk result (λ s. IsPath s.counts.items s.taken.items s.posts.items) }
    {
        Ok(Sequence {
            counts: counts_of(alloc, callers)?,
            taken: vec![in alloc; 0_u32; callers.len()]?,
            posts: Vec::new(alloc),
        })
    }

    /// The first sequence of all posts.
    pub(crate) fn first(alloc: Global, callers: &[Items<Body>]) -> Result<Sequence, AllocError>
        ensures counts { IfOk result (λ s. s.counts.items ≡ counts_of callers.now) }
        ensures path { IfOk result (λ s. IsPath s.counts.items s.taken.items s.posts.items) }
        ensures full { IfOk result (λ s. length s.posts.items ≡ sum s.counts.items) }
        ensures first { IfOk result
            (λ s. listed_sequences s.counts.items (replicate (length callers.now) 0) []
            ≡ s.posts.items ∷ later_sequences s.counts.items s.taken.items s.posts.items) }
    {
        let mut sequence = Sequence::empty(alloc, callers)?;
        sequence.complete()?;
        Ok(sequence)
    }

    /// Goes on to the next sequence of all posts. Returns false at the last one.
    pub(crate) fn advance(&mut self) -> Result<bool, AllocError>
        requires { IsPath self.old.counts.items self.old.taken.items self.old.posts.items }
        ensures counts { self.new.counts.items ≡ self.old.counts.items }
        ensures path { OnOk result
            (IsPath self.new.counts.items self.new.taken.items self.new.posts.items) }
        ensures full { IfOk result (λ more. more ≡ true
            → length self.new.posts.items ≡ sum self.new.counts.items) }
        ensures next { IfOk result (λ more. let later =
            later_sequences self.old.counts.items self.old.taken.items self.old.posts.items in
            MatchBool more (later ≡ self.new.posts.items ∷ later_sequences self.new.counts.items
            self.new.taken.items self.new.posts.items) (later ≡ [])) }
    {
        while let Some(posted) = self.posts.pop() {
            self.taken[posted.caller as usize] = posted.index;
            if self.take_from(posted.caller + 1)? {
                self.complete()?;
                return Ok(true);
            }
        }
        Ok(false)
    }

    /// Adds all posts that are left, those of the first caller first.
    fn complete(&mut self) -> Result<(), AllocError>
        requires { IsPath self.old.counts.items self.old.taken.items self.old.posts.items }
        ensures counts { self.new.counts.items ≡ self.old.counts.items }
        ensures path { OnOk result
            (IsPath self.new.counts.items self.new.taken.items self.new.posts.items) }
        ensures full { OnOk result (length self.new.posts.items ≡ sum self.new.counts.items) }
        ensures first { OnOk result (listed_sequences self.old.counts.items self.old.taken.items
            self.old.posts.items ≡ self.new.posts.items
            ∷ later_sequences self.new.counts.items self.new.taken.items self.new.posts.items) }
    {
        while self.take_from(0)? {}
        Ok(())
    }

    /// Adds the next post of the first caller that has one left, from this one on. Returns false
    /// where there is none.
    fn take_from(&mut self, from: u32) -> Result<bool, AllocError>
        requires { IsPath self.old.counts.items self.old.taken.items self.old.posts.items }
        ensures counts { self.new.counts.items ≡ self.old.counts.items }
        ensures path { OnOk result
            (IsPath self.new.counts.items self.new.taken.items self.new.posts.items) }
        ensures one { IfOk result (λ more. sum self.new.taken.items
            ≡ (if more then sum self.old.taken.items + 1 else sum self.old.taken.items)) }
        ensures none { IfOk result (λ more. more ≡ false → self.new ≡ self.old) }
        ensures all { IfOk result (λ more. more ≡ false → from ≡ 0
            → sum self.old.counts.items ≤ sum self.old.taken.items) }
        ensures next { IfOk result (λ more. sequences_through self.old.counts.items
            self.old.taken.items self.old.posts.items from ≡ (if more
            then listed_sequences self.new.counts.items self.new.taken.items self.new.posts.items
            else later_sequences self.old.counts.items self.old.taken.items self.old.posts.items)) }
    {
        match caller_from(self.counts.as_slice(), self.taken.as_slice(), from) {
            Some(caller) => {
                self.take(caller)?;
                Ok(true)
            }
            None => Ok(false),
        }
    }

    /// Adds the next post of this caller.
    pub(crate) fn take(&mut self, caller: u32) -> Result<(), AllocError>
        requires within { caller < length self.old.taken.items }
        requires small { slice_index self.old.taken.items caller + 1 < 2 ^ 32 }
        ensures counts { self.new.counts.items ≡ self.old.counts.items }
        ensures taken { OnOk result
            (self.new.taken.items ≡ with_taken self.old.taken.items caller) }
        ensures posts { OnOk result (self.new.posts.items
            ≡ self.old.posts.items ++ post caller (slice_index self.old.taken.items caller) ∷ []) }
    {
        let index = self.taken[caller as usize];
        self.posts.push(Posted { caller, index })?;
        self.taken[caller as usize] = index + 1;
        Ok(())
    }
}

/// The first caller that has a post left, from this one on.
fn caller_from(counts: &[u32], taken: &[u32], from: u32) -> Option<u32>
    requires few { length counts.now < 2 ^ 32 }
    requires len { length taken.now ≡ length counts.now }
    ensures found { FindsCaller result counts.now taken.now from }
    ensures small { IfSome result (λ caller. slice_index taken.now caller + 1 < 2 ^ 32) }
{
    for caller in from..counts.len() as u32 {
        if taken[caller as usize] < counts[caller as usize] {
            return Some(caller);
        }
    }
    None
}

/// How many posts each caller has. AllocError where the callers or the posts of one are more than
/// 2^32 - 1.
pub(crate) fn counts_of(alloc: Global, callers: &[Items<Body>]) -> Result<Vec<u32>, AllocError>
    ensures counts { IfOk result (λ counts. counts.items ≡ counts_of callers.now) }
    ensures few { IfOk result (λ counts. length counts.items < 2 ^ 32) }
{
    if callers.len() > u32::MAX as usize {
        return Err(AllocError);
    }
    let mut counts = Vec::new(alloc);
    for posts in callers {
        counts.push(count_of(posts.as_slice())?)?;
    }
    Ok(counts)
}

/// How many posts these are. AllocError where they are more than 2^32 - 1.
fn count_of(posts: &[Body]) -> Result<u32, AllocError>
    ensures { IfOk result (λ count. count ≡ length posts.now) }
{
    let count = posts.len();
    if count > u32::MAX as usize {
        return Err(AllocError);
    }
    Ok(count as u32)
}
