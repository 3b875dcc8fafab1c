ghost use Rattle.std.specs.Prelude.{◌≡◌, OnOk};
ghost use Rattle.dv_definition.specs.Definition as page;
ghost use Rattle.dv_definition.specs.Rule.{after};
ghost use Rattle.dv_frames.specs.Bounds.{Bounded};
ghost use Rattle.dv_objects.specs.declared.performed.Performed.TheVariants.{Done};

use dv_clock::delay_from::DelayFrom;
use dv_defer::firing::{add, cancel_named, chain, fire, make, maybe, note, pause, unpause};
use dv_frames::turn::Turn;
use dv_journal::deferred_id::DeferredId;
use dv_locks::listing::{gather, list};
use dv_locks::locking::{acquire, release, run_with};
use dv_locks::queueing::{get, put};
use dv_objects::given::Given;
use dv_objects::pair::Pair;
use dv_script::action::Action;
use dv_script::lent::{BodiesRef, BodyRef, Statements, TextRef, WorkRef};
use dv_task::cooperating::{
    cooperate, cooperate_in, pause_task, resume_task, set_units_in, stop_cooperator, stop_task,
    when_done,
};
use dv_task::looping::{start_loop, stop_loop};
use dv_task::timing::{add_timeout, cancel_call, reset_call};
use dv_threads::inlining::begin_inline;
use dv_threads::threading::thread;
use std::alloc::AllocError;

/// Starts an action by its rule, and puts on the stack what is to follow. A name that isn't bound
/// raises NameError, a further firing AlreadyCalledError unless it is swallowed, and an unpausing
/// of what isn't paused AssertionError; each changes no Deferred.
pub fn act<'s>(
    turn: &mut Turn<'s>,
    itself: Option<DeferredId>,
    action: &'s Action,
) -> Result<(), AllocError>
    requires bounded { Bounded turn.old.world }
    requires done { turn.old.performed ≡ Done }
    ensures { OnOk result (turn.new ≡ after (page.act itself action.now) turn.old) }
{
    match action {
        Action::Note(text) => note(turn, text),
        Action::Deferred(name, canceller) => make(turn, name, canceller),
        Action::Callback(name, value) => fire(turn, itself, name.as_str(), Given::lent(value)),
        Action::Errback(name, class, message) => {
            fire(turn, itself, name.as_str(), Given::failed(*class, message))
        }
        Action::AddCallback(name, body) => add(turn, itself, name.as_str(), Pair::callback(body)),
        Action::AddErrback(name, body) => add(turn, itself, name.as_str(), Pair::errback(body)),
        Action::AddBoth(name, body) => add(turn, itself, name.as_str(), Pair::both(body, body)),
        Action::AddCallbacks(name, callback, errback) => {
            add(
                turn,
                itself,
                name.as_str(),
                Pair::both(callback.get(), errback.get()),
            )
        }
        Action::Chain(name, other) => chain(turn, itself, name.as_str(), other.as_str()),
        Action::Pause(name) => pause(turn, itself, name.as_str()),
        Action::Unpause(name) => unpause(turn, itself, name.as_str()),
        Action::Cancel(name) => cancel_named(turn, itself, name.as_str()),
        Action::AddTimeout(name, delay, body) => {
            add_timeout(turn, itself, name.as_str(), *delay, body)
        }
        Action::Lock(name) => turn.world.make_lock(name.as_str()),
        Action::Semaphore(name, tokens) => turn.world.make_semaphore(name.as_str(), *tokens),
        Action::Acquire(name, lock) => acquire(turn, TextRef::new(name), lock.as_str()),
        Action::Release(lock) => release(turn, lock.as_str()),
        Action::RunWith(name, lock, body) => {
            run_with(
                turn,
                TextRef::new(name),
                lock.as_str(),
                BodyRef::new(body.get()),
            )
        }
        Action::Maybe(name, body) => maybe(turn, name, body),
        Action::Queue(name, size, backlog) => turn.world.make_queue(name.as_str(), *size, *backlog),
        Action::Put(queue, value) => put(turn, queue.as_str(), Given::lent(value)),
        Action::Get(name, queue) => get(turn, TextRef::new(name), queue.as_str()),
        Action::List(name, children, flags) => {
            list(turn, itself, name, children, flags.as_slice())
        }
        Action::Gather(name, children, flags) => {
            gather(turn, itself, name, children, flags.as_slice())
        }
        Action::Later(name, delay, body) => {
            let name = TextRef::new(name);
            turn.world.call_later(name, *delay, BodyRef::new(body))
        }
        Action::CancelCall(name) => cancel_call(turn, name.as_str()),
        Action::ResetCall(name, delay) => {
            reset_call(turn, name.as_str(), DelayFrom::Now, *delay)
        }
        Action::DelayCall(name, delay) => {
            reset_call(turn, name.as_str(), DelayFrom::Due, *delay)
        }
        Action::Loop(name, of, interval, at_once, body, bodies) => {
            let (name, of) = (TextRef::new(name), TextRef::new(of));
            start_loop(
                turn,
                name,
                of,
                *interval,
                *at_once,
                BodyRef::new(body.get()),
                BodiesRef::new(bodies.as_slice()),
            )
        }
        Action::StopLoop(name) => stop_loop(turn, name.as_str()),
        Action::Units(units) => turn.world.set_units(*units),
        Action::Cooperate(name, bodies) => {
            cooperate(turn, TextRef::new(name), BodiesRef::new(bodies.as_slice()))
        }
        Action::CooperateIn(name, of, bodies) => {
            let bodies = BodiesRef::new(bodies.as_slice());
            cooperate_in(turn, TextRef::new(name), of.as_str(), bodies)
        }
        Action::UnitsIn(name, units) => set_units_in(turn, name.as_str(), *units),
        Action::StopCooperator(name) => stop_cooperator(turn, name.as_str()),
        Action::WhenDone(name, task) => when_done(turn, TextRef::new(name), task.as_str()),
        Action::PauseTask(name) => pause_task(turn, name.as_str()),
        Action::StopTask(name) => stop_task(turn, name.as_str()),
        Action::ResumeTask(name) => resume_task(turn, name.as_str()),
        Action::Inline(name, statements) => {
            let statements = Statements::new(statements.as_slice());
            begin_inline(turn, TextRef::new(name), statements)
        }
        Action::Thread(name, delay, work) => {
            thread(turn, TextRef::new(name), None, *delay, WorkRef::new(work))
        }
        Action::ThreadIn(name, pool, delay, work) => {
            let pool = Some(TextRef::new(pool));
            thread(turn, TextRef::new(name), pool, *delay, WorkRef::new(work))
        }
    }
}
