ghost use Rattle.std.specs.Prelude.{◌≡◌, [], ◌∷◌, OnOk, OnErr, MatchOption};
ghost use Rattle.dv_frames.specs.declared.frame.Frame.TheVariants as Seen;
ghost use Rattle.dv_frames.specs.Frames.{frame_of};

use crate::frame::{Frame, Inlining, Purpose, Rest};
use dv_clock::cooperator_id::CooperatorId;
use dv_clock::task_id::TaskId;
use dv_journal::deferred_id::DeferredId;
use dv_objects::pair::Pair;
use dv_objects::performed::Performed;
use dv_value::stack::Stack;
use std::alloc::{AllocError, Global};
use std::marker::Model;

/// A frame, without what takes room.
#[derive(Drop)]
enum Kind {
    Settle(DeferredId),
    Place(DeferredId),
    /// What is on top of the rests.
    Rest,
    Canceller(DeferredId),
    Cancel(DeferredId),
    Stepped(TaskId),
    Halt(TaskId),
    Tell,
    Due,
    /// What is on top of the large ones.
    Large,
}

/// A frame that takes room, and isn't the rest of a body.
#[derive(Drop)]
enum Large<'s> {
    Maybe(Purpose<'s>),
    Add(DeferredId, Pair<'s>),
    Give(Performed<'s>),
    Notify(DeferredId, TaskId),
    Tick(CooperatorId, u32),
    Inline(Inlining<'s>),
}

/// Frames that lie on each other. Each takes as much room as it has to say, since as many lie here
/// as cancels, firings and bodies lie in each other. Contracts see the list of them, from the one
/// that was pushed last.
#[derive(Drop)]
pub struct Frames<'s> {
    kinds: Stack<Kind>,
    rests: Stack<Rest<'s>>,
    larges: Stack<Large<'s>>,
}

impl<'s> Model for Frames<'s> {
    ghost use Rattle.std.specs.Prelude.{List};
    ghost use Rattle.dv_frames.specs.Frames.{frames_of, AreThere};
    ghost use Rattle.dv_frames.specs.declared.frame.Frame.{Frame as Seen};
    ghost use Rattle.dv_script.specs.contracts.action.Action as action_contract;
    ghost use Rattle.dv_script.specs.contracts.body.Body as body_contract;
    ghost use Rattle.dv_script.specs.contracts.body.Statement as statement_contract;
    ghost use Rattle.dv_value.specs.contracts.classes.Class as class_contract;
    ghost use Rattle.dv_value.specs.contracts.failure.Failure as failure_contract;
    ghost use Rattle.dv_value.specs.contracts.value.Value as value_contract;
    ghost use Rattle.std.specs.Coded.{codes};

    ghost Value = { List Seen };

    ghost coded = { Prim.hlevel (
      codes,
      action_contract.the_row.coded,
      body_contract.the_row.coded,
      statement_contract.the_row.coded,
      class_contract.the_row.coded,
      failure_contract.the_row.coded,
      value_contract.the_row.coded,
    ) };

    ghost view = { λ f. frames_of f.kinds f.rests f.larges };

    ghost invariant = { λ f. AreThere f.kinds f.rests f.larges };
}

impl<'s> Frames<'s> {
    /// No frames. They take no memory before the first is pushed.
    #[tactic(auto, unfolding(crate::specs::Frames::frames_of, crate::specs::Frames::AreThere))]
    pub fn new(alloc: Global) -> Frames<'s>
        ensures { result ≡ [] }
    {
        Frames {
            kinds: Stack::new(alloc),
            rests: Stack::new(alloc),
            larges: Stack::new(alloc),
        }
    }

    /// Takes the frame that was pushed last.
    #[inline(always)]
    #[tactic(auto, unfolding(crate::specs::Frames::frames_of, crate::specs::Frames::AreThere))]
    pub fn pop(&mut self) -> Option<Frame<'s>>
        ensures { MatchOption result ((self.old ≡ []) × (self.new ≡ []))
            (λ frame. self.old ≡ frame ∷ self.new) }
    {
        match self.kinds.pop()? {
            Kind::Settle(id) => Some(Frame::Settle(id)),
            Kind::Place(id) => Some(Frame::Place(id)),
            Kind::Rest => match self.rests.pop() {
                Some(rest) => Some(Frame::Rest(rest)),
                None => unreachable!(),
            },
            Kind::Canceller(id) => Some(Frame::Canceller(id)),
            Kind::Cancel(id) => Some(Frame::Cancel(id)),
            Kind::Stepped(task) => Some(Frame::Stepped(task)),
            Kind::Halt(task) => Some(Frame::Halt(task)),
            Kind::Tell => Some(Frame::Tell),
            Kind::Due => Some(Frame::Due),
            Kind::Large => match self.larges.pop() {
                Some(large) => Some(frame_of(large)),
                None => unreachable!(),
            },
        }
    }

    /// Drops all frames, and keeps the room for as many.
    #[tactic(auto, unfolding(crate::specs::Frames::frames_of, crate::specs::Frames::AreThere))]
    pub fn clear(&mut self)
        ensures { self.new ≡ [] }
    {
        self.kinds.clear();
        self.rests.clear();
        self.larges.clear();
    }

    /// Adds a frame on top. Where the allocation fails, the frame is dropped.
    #[inline(always)]
    #[tactic(auto, unfolding(crate::specs::Frames::frames_of, crate::specs::Frames::AreThere))]
    pub fn push(&mut self, frame: Frame<'s>) -> Result<(), AllocError>
        ensures added { OnOk result (self.new ≡ frame.entry ∷ self.old) }
        ensures kept { OnErr result (self.new ≡ self.old) }
    {
        match frame {
            Frame::Settle(id) => self.kinds.push(Kind::Settle(id)),
            Frame::Place(id) => self.kinds.push(Kind::Place(id)),
            Frame::Rest(rest) => self.push_rest(rest),
            Frame::Canceller(id) => self.kinds.push(Kind::Canceller(id)),
            Frame::Maybe(purpose) => self.push_large(Large::Maybe(purpose)),
            Frame::Add(id, pair) => self.push_large(Large::Add(id, pair)),
            Frame::Cancel(id) => self.kinds.push(Kind::Cancel(id)),
            Frame::Give(performed) => self.push_large(Large::Give(performed)),
            Frame::Notify(id, task) => self.push_large(Large::Notify(id, task)),
            Frame::Stepped(task) => self.kinds.push(Kind::Stepped(task)),
            Frame::Halt(task) => self.kinds.push(Kind::Halt(task)),
            Frame::Tick(of, left) => self.push_large(Large::Tick(of, left)),
            Frame::Tell => self.kinds.push(Kind::Tell),
            Frame::Due => self.kinds.push(Kind::Due),
            Frame::Inline(inlining) => self.push_large(Large::Inline(inlining)),
        }
    }

    /// Adds the rest of a body on top.
    #[inline(always)]
    #[tactic(auto, unfolding(crate::specs::Frames::frames_of, crate::specs::Frames::AreThere))]
    fn push_rest(&mut self, rest: Rest<'s>) -> Result<(), AllocError>
        ensures added { OnOk result (self.new ≡ Seen.Rest rest.entry ∷ self.old) }
        ensures kept { OnErr result (self.new ≡ self.old) }
    {
        self.rests.push(rest)?;
        let pushed = self.kinds.push(Kind::Rest);
        if pushed.is_err() {
            let _ = self.rests.pop();
        }
        pushed
    }

    /// Adds a large frame on top.
    #[inline(always)]
    #[tactic(auto, unfolding(crate::specs::Frames::frames_of, crate::specs::Frames::AreThere))]
    fn push_large(&mut self, large: Large<'s>) -> Result<(), AllocError>
        ensures added { OnOk result (self.new ≡ frame_of large.entry ∷ self.old) }
        ensures kept { OnErr result (self.new ≡ self.old) }
    {
        self.larges.push(large)?;
        let pushed = self.kinds.push(Kind::Large);
        if pushed.is_err() {
            let _ = self.larges.pop();
        }
        pushed
    }
}

/// A large frame as the frame that it is.
fn frame_of(large: Large<'_>) -> Frame<'_>
    ensures { result ≡ frame_of large.entry }
{
    match large {
        Large::Maybe(purpose) => Frame::Maybe(purpose),
        Large::Add(id, pair) => Frame::Add(id, pair),
        Large::Give(performed) => Frame::Give(performed),
        Large::Notify(id, task) => Frame::Notify(id, task),
        Large::Tick(of, left) => Frame::Tick(of, left),
        Large::Inline(inlining) => Frame::Inline(inlining),
    }
}
