//! The ways in which a sequence is cut into batches, from one to the next.

ghost use Rattle.std.specs.Prelude.{◌≡◌, ◌+◌, ◌<◌, ◌≤◌, ◌^◌, ◌∷◌, [], length, replicate, sum};
ghost use Rattle.std.specs.Prelude.{false, IfOk, MatchBool};
ghost use Rattle.dv_orders.specs.Batching.{cut_by, later_lengths, lengths_of};

use dv_posts::posted::Posted;
use dv_value::items::Items;
use std::alloc::{AllocError, Global};

/// A way to cut a sequence into batches.
#[derive(Drop)]
pub(crate) struct Cut {
    /// How many posts each drain takes.
    pub(crate) lengths: Vec<usize>,
    /// How many are left for the end.
    pub(crate) left: usize,
}

impl Cut {
    /// The first way: all posts are left for the end.
    pub(crate) fn first(alloc: Global, drains: &[u32], posts: usize) -> Result<Cut, AllocError>
        ensures lengths { IfOk result (λ cut. cut.lengths.items ≡ replicate (length drains.now) 0) }
        ensures left { IfOk result (λ cut. cut.left ≡ posts) }
    {
        Ok(Cut {
            lengths: vec![in alloc; 0_usize; drains.len()]?,
            left: posts,
        })
    }

    /// Goes on to the next way. Returns false at the last one, and is then the first again.
    pub(crate) fn advance(&mut self, drains: &[u32]) -> bool
        requires len { length self.old.lengths.items ≡ length drains.now }
        requires fits { sum self.old.lengths.items + self.old.left < 2 ^ 64 }
        ensures len { length self.new.lengths.items ≡ length drains.now }
        ensures same { sum self.new.lengths.items + self.new.left
            ≡ sum self.old.lengths.items + self.old.left }
        ensures again { result ≡ false → self.new.lengths.items ≡ replicate (length drains.now) 0 }
        ensures next { let later = later_lengths drains.now self.old.left self.old.lengths.items in
            MatchBool result (later ≡ self.new.lengths.items
            ∷ later_lengths drains.now self.new.left self.new.lengths.items) (later ≡ []) }
    {
        let mut place = drains.len();
        while place > 0 {
            place -= 1;
            let length = self.lengths[place];
            if self.left > 0 && length < drains[place] as usize {
                self.lengths[place] = length + 1;
                self.left -= 1;
                return true;
            }
            self.lengths[place] = 0;
            self.left += length;
        }
        false
    }
}

/// The batches of these lengths, and one more with what is left.
pub(crate) fn batches(
    alloc: Global,
    lengths: &[usize],
    posts: &[Posted],
) -> Result<Vec<Items<Posted>>, AllocError>
    requires { sum lengths.now ≤ length posts.now }
    ensures { IfOk result (λ batches. batches.items ≡ cut_by lengths.now posts.now) }
{
    let mut batches = Vec::new(alloc);
    let mut rest = posts;
    for length in lengths {
        let (batch, left) = rest.split_at(*length);
        batches.push(batch_of(alloc, batch)?)?;
        rest = left;
    }
    batches.push(batch_of(alloc, rest)?)?;
    Ok(batches)
}

/// A batch of these posts.
pub(crate) fn batch_of(alloc: Global, posts: &[Posted]) -> Result<Items<Posted>, AllocError>
    ensures { IfOk result (λ batch. batch ≡ posts.now) }
{
    let mut batch = Items::new(alloc);
    for posted in posts {
        batch.push(Posted {
            caller: posted.caller,
            index: posted.index,
        })?;
    }
    Ok(batch)
}
