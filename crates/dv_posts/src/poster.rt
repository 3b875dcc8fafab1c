ghost use Rattle.std.specs.Prelude.{◌≡◌, ◌<◌, ◌≤◌, [], length, IfErr, IsOk, OnErr, OnOk};
ghost use Rattle.rtrb.specs.Ring.{sent, known_free, producer_capacity};

use crate::posted::Posted;
use rtrb::{Producer, PushError};
use std::marker::Model;

/// Where a caller posts. It may move to a thread of its own.
#[derive(Drop)]
pub struct Poster {
    pub(crate) producer: Producer<u32>,
    caller: u32,
}

impl Model for Poster {
    ghost use Rattle.std.specs.Coded.{codes};
    ghost use Rattle.std.specs.Prelude.{map};
    ghost use Rattle.rtrb.specs.Ring.{sent, producer_capacity};
    ghost use Rattle.dv_posts.specs.Posts.{Poster as Seen, post};
    ghost use Rattle.dv_posts.specs.Ring.{HasRoom, ring_of};

    ghost Value = { Seen };

    ghost coded = { Prim.hlevel codes };

    ghost view = { λ p. record {
      caller = p.caller;
      ring = ring_of p.producer.end;
      capacity = producer_capacity p.producer;
      posts = map (post p.caller) (sent p.producer);
    } };

    ghost invariant = { λ p. HasRoom p.producer };
}

impl Poster {
    ghost use Rattle.dv_posts.specs.Posts.{SamePoster, posted_by, capacity_of, with_post};
    ghost use Rattle.dv_posts.specs.Ring.{ring_of};

    /// The poster of a caller.
    pub(crate) fn new(producer: Producer<u32>, caller: u32) -> Poster
        requires fresh { sent producer ≡ [] }
        requires room { producer_capacity producer ≤ known_free producer }
        ensures { result ≡ record {
          caller = caller;
          ring = ring_of producer.end;
          capacity = producer_capacity producer;
          posts = [];
        } }
    {
        Poster { producer, caller }
    }

    /// The caller whose poster it is, by its place among the callers.
    pub fn caller(&self) -> u32
        ensures { result ≡ self.now.caller }
    {
        self.caller
    }

    /// Posts, without waiting (Twisted: `reactor.callFromThread`). The post is returned if the ring
    /// is full of posts that weren't yet taken; the first ones, as many as the ring has room for,
    /// are always accepted.
    pub fn post(&mut self, posted: Posted) -> Result<(), Posted>
        requires own { posted.caller ≡ self.old.caller }
        ensures same { SamePoster self.old self.new }
        ensures ok { OnOk result (self.new ≡ with_post posted self.old) }
        ensures err { IfErr result (λ back. back ≡ posted) }
        ensures kept { OnErr result (self.new ≡ self.old) }
        ensures succeeds { length (posted_by self.old) < capacity_of self.old → IsOk result }
    {
        match self.producer.push(posted.index) {
            Ok(()) => Ok(()),
            Err(PushError::Full(_)) => Err(posted),
        }
    }
}
