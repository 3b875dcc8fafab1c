ghost use Rattle.std.specs.Prelude.{◌≡◌, length, IfOk, OnOk};

use super::World;
use dv_inline::body::InlineBody;
use dv_journal::deferred_id::DeferredId;
use dv_journal::entry::Entry;
use dv_objects::inline_id::{Inline, InlineId};
use dv_value::value::Value;
use std::alloc::AllocError;

impl<'s> World<'s> {
    ghost use Rattle.dv_world.specs.World.{add_inline, begin_await, resume_inline, end_await};
    ghost use Rattle.dv_world.specs.World.{awaited_in};

    /// Makes an inline body, which waits for nothing (Twisted: `inlineCallbacks`). It isn't logged,
    /// and in a run that has stopped none is made.
    #[tactic(auto, unfolding(crate::specs::World::arrange))]
    pub fn add_inline(&mut self) -> Result<InlineId, AllocError>
        ensures added { OnOk result (self.new ≡ add_inline self.old) }
        ensures id { IfOk result (λ id. id ≡ length self.old.objects.inlines) }
    {
        let id = InlineId::new(self.inlines.len());
        if !self.stopped {
            self.inlines.push()?;
        }
        Ok(id)
    }

    /// Logs that an inline body is to await a Deferred (Twisted: `yield` under `inlineCallbacks`).
    /// A result that arrives before `end_await` is kept for it.
    #[tactic(auto, unfolding(crate::specs::World::aside))]
    pub fn begin_await(&mut self, inline: Inline, awaited: DeferredId) -> Result<(), AllocError>
        ensures { OnOk result (self.new ≡ begin_await inline awaited self.old) }
    {
        if self.stopped {
            return Ok(());
        }
        match self.journal.write(Entry::Await(inline.of, awaited)) {
            Ok(()) => {
                self.inlines.begin_adding(inline.id.number());
                Ok(())
            }
            Err(stop) => self.stopped_by(stop, ()),
        }
    }

    /// The result that an inline body awaits arrives. A body that awaits it is returned with it, to
    /// go on. If the pair by which it awaits is still being added, the result is kept for
    /// `end_await`.
    #[tactic(auto, unfolding(crate::specs::World::resume_inline, crate::specs::World::arrange))]
    pub fn resume_inline(
        &mut self,
        inline: InlineId,
        value: Value,
    ) -> Option<(InlineBody<'s>, Value)>
        ensures { (result, self.new) ≡ resume_inline inline value self.old }
    {
        if self.stopped {
            drop(value);
            return None;
        }
        self.inlines.resume(inline.number(), value)
    }

    /// The pair by which an inline body awaits a Deferred has been added. If its result arrived
    /// meanwhile, the body is returned with it, to go on; else it is parked, and awaits from now
    /// on.
    #[tactic(auto, unfolding(crate::specs::World::end_await, crate::specs::World::arrange))]
    pub fn end_await(
        &mut self,
        inline: InlineId,
        awaited: DeferredId,
        body: InlineBody<'s>,
    ) -> Result<Option<(InlineBody<'s>, Value)>, AllocError>
        ensures { IfOk result
            (λ gone_on. (gone_on, self.new) ≡ end_await inline awaited body.entry self.old) }
    {
        if self.stopped {
            drop(body);
            return Ok(None);
        }
        self.inlines.end_adding(inline.number(), awaited, body)
    }

    /// The Deferred that an inline body awaits, where it awaits one.
    pub fn awaited(&self, inline: InlineId) -> Option<DeferredId>
        ensures { result ≡ awaited_in inline self.now }
    {
        self.inlines.awaited(inline.number())
    }
}
