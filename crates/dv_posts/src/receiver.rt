ghost use Rattle.std.specs.Prelude.{◌≡◌, ◌<◌, [], ◌∷◌, length, map, IfNone, IfSome, OnOk};
ghost use Rattle.rtrb.specs.Ring.{received, known_items};
ghost use Rattle.dv_posts.specs.Posts.{count_of, known, post, posted_by};
ghost use Rattle.dv_posts.specs.Receiving.{Gives, Leaves};
ghost use Rattle.dv_posts.specs.Ring.{ring_of};

use crate::posted::Posted;
use crate::poster::Poster;
use dv_value::items::Items;
use rtrb::Consumer;
use std::alloc::AllocError;
use std::marker::Model;

/// Where a caller's posts are taken, and how many were taken, or `u32::MAX` where there were more.
#[derive(Drop)]
pub(crate) struct Receiver {
    ring: Consumer<u32>,
    count: u32,
}

impl Model for Receiver {
    ghost use Rattle.std.specs.Prelude.{◌≡◌};
    ghost use Rattle.std.specs.Coded.{codes};
    ghost use Rattle.rtrb.specs.Ring.{received, known_items};
    ghost use Rattle.dv_posts.specs.Posts.{Receiver as Seen, count_of};
    ghost use Rattle.dv_posts.specs.Ring.{ring_of};

    ghost Value = { Seen };

    ghost coded = { Prim.hlevel codes };

    ghost view = { λ r. record {
      ring = ring_of r.ring.end;
      taken = received r.ring;
      seen = known_items r.ring;
    } };

    ghost invariant = { λ r. r.count ≡ count_of (received r.ring) };
}

impl Receiver {
    /// Takes of a new ring.
    pub(crate) fn new(ring: Consumer<u32>) -> Receiver
        requires { (received ring ≡ []) × (known_items ring ≡ []) }
        ensures { result ≡ record { ring = ring_of ring.end; taken = []; seen = [] } }
    {
        Receiver { ring, count: 0 }
    }

    /// How many posts were taken, or `u32::MAX` where there were more.
    pub(crate) fn count(&self) -> u32
        ensures { result ≡ count_of self.now.taken }
    {
        self.count
    }

    /// Takes the next post's index.
    pub(crate) fn take(&mut self) -> Option<u32>
        ensures some { IfSome result (Gives self.old self.new) }
        ensures kept { IfNone result (self.new ≡ self.old) }
        ensures none { IfNone result (self.old.seen ≡ []) }
    {
        let index = self.ring.pop().ok()?;
        self.count = self.count.saturating_add(1);
        Some(index)
    }

    /// Takes the next of the posts that were seen.
    fn take_seen(&mut self) -> u32
        requires { 0 < length self.old.seen }
        ensures { self.old.seen ≡ result ∷ self.new.seen }
    {
        let index = self.ring.pop_known();
        self.count = self.count.saturating_add(1);
        index
    }

    /// All that the poster posted is seen from now on. Answers how many of these posts weren't
    /// taken.
    pub(crate) fn learn(&mut self, poster: &mut Poster) -> usize
        requires pair { poster.old.ring ≡ self.old.ring }
        ensures ring { self.new.ring ≡ self.old.ring }
        ensures taken { self.new.taken ≡ self.old.taken }
        ensures all { map (post poster.old.caller) (known self.new) ≡ posted_by poster.old }
        ensures poster { poster.new ≡ poster.old }
        ensures count { result ≡ length self.new.seen }
    {
        self.ring.slots_beside(&mut poster.producer)
    }

    /// Takes the posts that are left, and appends them to others.
    pub(crate) fn take_left(
        &mut self,
        poster: &mut Poster,
        rest: &mut Items<Posted>,
    ) -> Result<(), AllocError>
        requires pair { poster.old.ring ≡ self.old.ring }
        ensures { OnOk result (Leaves self.old poster.old rest.old rest.new) }
    {
        let left = self.learn(poster);
        let caller = poster.caller();
        for _ in 0..left {
            let index = self.take_seen();
            rest.push(Posted { caller, index })?;
        }
        Ok(())
    }
}
