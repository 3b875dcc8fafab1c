ghost use Rattle.std.specs.Prelude.{◌≡◌, ◌<◌, length, slice_get, IfOk, IfSome, OnOk};
ghost use Rattle.dv_objects.specs.Looping.{is_scheduled};
ghost use Rattle.dv_world.specs.World.{not_running};
ghost use Rattle.dv_objects.specs.declared.performed.Performed.TheVariants.{Raised};

use super::World;
use dv_clock::due::Due;
use dv_clock::interval::Interval;
use dv_clock::loop_id::LoopId;
use dv_journal::deferred_id::DeferredId;
use dv_journal::entry::Entry;
use dv_objects::looping_call::LoopingCall;
use dv_objects::performed::Performed;
use dv_script::lent::{BodiesRef, BodyRef, TextRef};
use dv_value::class_id::ClassId;
use dv_value::fault::failure;
use dv_value::text::Text;
use std::alloc::{AllocError, Global};

impl<'s> World<'s> {
    ghost use Rattle.std.specs.Option.{option_copied};
    ghost use Rattle.dv_journal.specs.declared.entry.Entry.TheVariants as entry;
    ghost use Rattle.dv_objects.specs.Names.{number_of};
    ghost use Rattle.dv_objects.specs.Looping.{with_new_loop, with_added_loop, with_stopped};
    ghost use Rattle.dv_world.specs.World.{aside, begin_turn, schedule_turn, stop_loop, end_loop};

    /// Makes a loop that is started now, whose Deferred this is, and binds its name to it, also
    /// where that was bound to another (Twisted: `LoopingCall.start`). No turn is scheduled yet.
    /// AllocError where there are more loops than numbers of 32 bits.
    #[tactic(auto, unfolding(crate::specs::World::aside))]
    pub fn make_loop(
        &mut self,
        name: TextRef<'s>,
        of: DeferredId,
        interval: u64,
        body: BodyRef<'s>,
        bodies: BodiesRef<'s>,
    ) -> Result<LoopId, AllocError>
        ensures made { OnOk result (self.new ≡ aside (entry.Loop name.entry of)
            (with_new_loop name.entry of interval body.entry bodies.entry) self.old) }
        ensures id { IfOk result (λ id. id ≡ length self.old.objects.loops) }
    {
        let Ok(number) = u32::try_from(self.loops.len()) else {
            return Err(AllocError);
        };
        let id = LoopId::new(number);
        if self.stopped {
            return Ok(id);
        }
        let shown = Text::of(self.alloc, name.as_str())?;
        let looping = LoopingCall {
            name,
            of,
            start: self.clock.now(),
            interval: Interval::new(interval),
            running: true,
            turn: None,
            body,
            bodies,
        };
        match self.journal.write(Entry::Loop(shown, of)) {
            Ok(()) => self.add_loop(id, looping),
            Err(stop) => self.stopped_by(stop, id),
        }
    }

    /// Adds a loop that was logged, and binds its name to it.
    fn add_loop(&mut self, id: LoopId, looping: LoopingCall<'s>) -> Result<LoopId, AllocError>
        requires next { id ≡ length self.old.objects.loops }
        ensures added { OnOk result (self.new ≡ record self.old {
          objects = with_added_loop looping.entry self.old.objects;
        }) }
        ensures id { IfOk result (λ added. added ≡ id) }
    {
        self.loop_names.bind(looping.name.as_str(), id)?;
        self.loops.push(looping)?;
        Ok(id)
    }

    /// The loop that a name stands for.
    pub fn find_loop(&self, name: &str) -> Option<LoopId>
        ensures { result ≡ number_of name.now self.now.objects.loop_names }
    {
        self.loop_names.find(name)
    }

    /// A loop by its id.
    pub fn looping(&self, id: LoopId) -> Option<&LoopingCall<'s>>
        ensures { option_copied result ≡ slice_get self.now.objects.loops id }
    {
        self.loops.get(id.number() as usize)
    }

    /// Whether a turn of a loop is scheduled, and still waits.
    pub fn is_scheduled(&self, looping: &LoopingCall<'s>) -> bool
        ensures { result ≡ is_scheduled looping.now self.now.objects.clock }
    {
        match looping.turn {
            None => false,
            Some(turn) => self.clock.waits(turn),
        }
    }

    /// A turn of a loop has begun: from now on its next turn performs the next of its bodies, where
    /// one is left, or else the same.
    #[tactic(auto, unfolding(crate::specs::World::arrange))]
    pub fn begin_turn(&mut self, id: LoopId)
        ensures { self.new ≡ begin_turn id self.old }
    {
        if self.stopped {
            return;
        }
        let Some(looping) = self.loops.get_mut(id.number() as usize) else {
            return;
        };
        if let Some((body, rest)) = looping.bodies.split() {
            looping.body = BodyRef::new(body);
            looping.bodies = rest;
        }
    }

    /// Schedules the next turn of a loop: at the first time later than now that is a whole number
    /// of intervals after its start (Twisted: `LoopingCall._scheduleFrom`).
    #[tactic(auto, unfolding(crate::specs::World::aside))]
    pub fn schedule_turn(&mut self, id: LoopId) -> Result<(), AllocError>
        ensures { OnOk result (self.new ≡ schedule_turn id self.old) }
    {
        if self.stopped {
            return Ok(());
        }
        let place = id.number() as usize;
        if place >= self.loops.len() {
            return Ok(());
        }
        if !self.journal.fits_plain() {
            self.stopped = true;
            return Ok(());
        }
        let looping = &self.loops[place];
        let what = Due::Turn(Text::of(self.alloc, looping.name.as_str())?, id.number());
        match self
            .clock
            .next_turn(&mut self.journal, what, looping.start, looping.interval)
        {
            Ok(turn) => {
                self.loops[place].turn = Some(turn);
                Ok(())
            }
            Err(stop) => self.stopped_by(stop, ()),
        }
    }

    /// A loop is stopped, and its next turn, where it is scheduled, is dropped (Twisted:
    /// `LoopingCall.stop`).
    #[tactic(auto, unfolding(crate::specs::World::aside))]
    pub fn stop_loop(&mut self, id: LoopId) -> Result<(), AllocError>
        ensures { OnOk result (self.new ≡ stop_loop id self.old) }
    {
        if self.stopped {
            return Ok(());
        }
        let place = id.number() as usize;
        if place >= self.loops.len() {
            return Ok(());
        }
        let shown = Text::of(self.alloc, self.loops[place].name.as_str())?;
        match self.journal.write(Entry::Stop(shown)) {
            Ok(()) => {
                self.drop_turn(place);
                Ok(())
            }
            Err(stop) => self.stopped_by(stop, ()),
        }
    }

    /// A loop doesn't run any more, and its turn that was scheduled last is dropped.
    fn drop_turn(&mut self, place: usize)
        requires { place < length self.old.objects.loops }
        ensures { IfSome (slice_get self.old.objects.loops place)
            (λ x. self.new ≡ record self.old { objects = with_stopped place x self.old.objects }) }
    {
        let looping = &mut self.loops[place];
        looping.running = false;
        if let Some(turn) = looping.turn {
            let _ = self.clock.drop_call(turn);
        }
    }

    /// A loop doesn't run any more, since a turn of it has failed.
    #[tactic(auto, unfolding(crate::specs::World::arrange))]
    pub fn end_loop(&mut self, id: LoopId)
        ensures { self.new ≡ end_loop id self.old }
    {
        if self.stopped {
            return;
        }
        if let Some(looping) = self.loops.get_mut(id.number() as usize) {
            looping.running = false;
        }
    }
}

/// What the stopping of a loop raises that doesn't run.
pub fn not_running<'s>(alloc: Global) -> Result<Performed<'s>, AllocError>
    ensures { IfOk result (λ p. p ≡ Raised not_running) }
{
    let failure = failure(alloc, ClassId::ASSERTION_ERROR, "not running")?;
    Ok(Performed::Raised(failure))
}
