//! What is left, as JSON, which is added at the end of a text.

ghost use Rattle.std.specs.Prelude.{◌++◌, OnOk, string_bytes};
ghost use Rattle.dv_facts.specs.Parts.{Adds};

use crate::entries::Story;
use crate::members::{write_bool, write_comma, write_number, write_number_or_null, write_quoted};
use crate::names::{Object, cooperator, job};
use crate::values::write_object;
use dv_journal::deferred_id::DeferredId;
use dv_journal::entry::Entry;
use dv_journal::form::ObjectKind;
use dv_journal::state::State;
use dv_left::left::{Hang, Left, LeftDeferred, LeftLoop, LeftTask, LeftTokens, Stage};
use dv_store::outcome::Outcome;
use dv_value::classes::Classes;
use dv_value::deque::Deque;
use dv_value::value::Value;
use dv_value::value_text::{write_failure_json, write_json};
use dv_value::writing::write_text;
use std::alloc::{AllocError, Global};

/// What is known of a run when what is left is reported.
#[derive(Clone, Copy)]
pub struct Known<'k, 'e> {
    pub alloc: Global,
    pub classes: &'k Classes,
    pub story: &'k Story<'e>,
    pub entries: &'k [Entry],
    pub outcomes: &'k [Outcome],
}

fn stage_word(stage: Stage) -> &'static str {
    match stage {
        Stage::Unfired => "unfired",
        Stage::Waiting => "waiting",
        Stage::Fired => "fired",
    }
}

impl<'k, 'e> Known<'k, 'e> {
    /// Adds the line of what is left, without its end. The values of a queue are taken out of it.
    pub fn write(&self, out: &mut String, left: &mut Left) -> Result<(), AllocError>
        ensures { OnOk result (Adds (string_bytes out.old) (string_bytes out.new)) }
    {
        match left {
            Left::Deferred(left) => self.write_deferred(out, left),
            Left::Failure(id) => self.write_failure(out, *id),
            Left::Call(number, due) => self.write_call(out, *number, *due),
            Left::Tick(due) => write_tick(out, *due),
            Left::TickIn(name, due) => self.write_tick_in(out, name.as_str(), *due),
            Left::Delivery(number, id, due) => self.write_delivery(out, *number, *id, *due),
            Left::Timeout(id, due) => self.write_timeout(out, *id, *due),
            Left::Loop(left) => self.write_loop(out, left),
            Left::Task(left) => self.write_task(out, left),
            Left::Tokens(left) => self.write_tokens(out, left),
            Left::Getters(number, waiting) => self.write_getters(out, *number, waiting.as_slice()),
            Left::Values(number, values) => self.write_values(out, *number, values),
            Left::Unhandled(place) => self.write_unhandled(out, *place),
        }
    }

    #[tactic(auto, using(crate::proofs::Added::parts))]
    fn id(&self, out: &mut String, before: &str, id: DeferredId) -> Result<(), AllocError>
        ensures { OnOk result (Adds (string_bytes out.old ++ before.now) (string_bytes out.new)) }
    {
        write_text(out, before)?;
        self.story.deferreds.write(self.alloc, out, id)
    }

    #[tactic(auto, using(crate::proofs::Added::parts))]
    fn ids(&self, out: &mut String, before: &str, ids: &[DeferredId]) -> Result<(), AllocError>
        ensures { OnOk result (Adds (string_bytes out.old ++ before.now) (string_bytes out.new)) }
    {
        write_text(out, before)?;
        self.story.deferreds.write_all(self.alloc, out, ids)
    }

    #[tactic(auto, using(crate::proofs::Added::parts))]
    fn object(&self, out: &mut String, before: &str, object: Object<'_>) -> Result<(), AllocError>
        ensures { OnOk result (Adds (string_bytes out.old ++ before.now) (string_bytes out.new)) }
    {
        write_text(out, before)?;
        write_object(self.alloc, out, object)
    }

    fn at(&self, kind: ObjectKind, number: usize) -> Object<'e> {
        self.story.objects.at(kind, number)
    }

    fn write_deferred(&self, out: &mut String, left: &LeftDeferred) -> Result<(), AllocError>
        ensures { OnOk result (Adds (string_bytes out.old) (string_bytes out.new)) }
    {
        self.id(out, r#"{"deferred":"#, left.id)?;
        self.write_hangs(out, left.hangs.as_slice())?;
        write_number(
            out,
            r#","kind":"deferred","pauses":"#,
            u64::from(left.pauses),
        )?;
        write_bool(out, r#","running":"#, left.running)?;
        write_quoted(self.alloc, out, r#","state":"#, stage_word(left.stage))?;
        write_text(out, r#","type":"left"}"#)
    }

    #[tactic(auto, using(crate::proofs::Added::parts))]
    fn write_hangs(&self, out: &mut String, hangs: &[Hang]) -> Result<(), AllocError>
        ensures { OnOk result (Adds (string_bytes out.old) (string_bytes out.new)) }
    {
        write_text(out, r#","hangs":["#)?;
        for (place, hang) in hangs.iter().enumerate() {
            write_comma(out, place)?;
            self.write_hang(out, *hang)?;
        }
        write_text(out, "]")
    }

    #[tactic(auto, using(crate::proofs::Added::parts))]
    fn write_hang(&self, out: &mut String, hang: Hang) -> Result<(), AllocError>
        ensures { OnOk result (Adds (string_bytes out.old) (string_bytes out.new)) }
    {
        match hang {
            Hang::Waits(id) => self.write_at_deferred(out, r#"{"at":"deferred","deferred":"#, id),
            Hang::Child(id, place) => self.write_at_child(out, id, place),
            Hang::Chain(id) => self.write_at_deferred(out, r#"{"at":"chain","deferred":"#, id),
            Hang::Await(id) => self.write_at_deferred(out, r#"{"at":"await","deferred":"#, id),
            Hang::Lock(number) => self.write_at_object(out, self.at(ObjectKind::Lock, number)),
            Hang::Queue(number) => self.write_at_object(out, self.at(ObjectKind::Queue, number)),
            Hang::Job(number) => self.write_at_object(out, job(number)),
            Hang::Timeout(due) => write_at_timeout(out, due),
            Hang::Loop(number) => self.write_at_object(out, self.at(ObjectKind::Loop, number)),
            Hang::Task(number) => self.write_at_object(out, self.at(ObjectKind::Task, number)),
        }
    }

    fn write_at_child(&self, out: &mut String, id: DeferredId, place: u32) -> Result<(), AllocError>
        ensures { OnOk result (Adds (string_bytes out.old) (string_bytes out.new)) }
    {
        self.id(out, r#"{"at":"child","deferred":"#, id)?;
        write_number(out, r#","place":"#, u64::from(place))?;
        write_text(out, "}")
    }

    #[tactic(auto, using(crate::proofs::Added::parts))]
    fn write_at_deferred(
        &self,
        out: &mut String,
        before: &str,
        id: DeferredId,
    ) -> Result<(), AllocError>
        ensures { OnOk result (Adds (string_bytes out.old ++ before.now) (string_bytes out.new)) }
    {
        self.id(out, before, id)?;
        write_text(out, "}")
    }

    fn write_at_object(&self, out: &mut String, object: Object<'_>) -> Result<(), AllocError>
        ensures { OnOk result (Adds (string_bytes out.old) (string_bytes out.new)) }
    {
        write_quoted(self.alloc, out, r#"{"at":"#, object.kind)?;
        self.object(out, r#","object":"#, object)?;
        write_text(out, "}")
    }

    fn write_failure(&self, out: &mut String, id: DeferredId) -> Result<(), AllocError>
        ensures { OnOk result (Adds (string_bytes out.old) (string_bytes out.new)) }
    {
        self.id(out, r#"{"deferred":"#, id)?;
        write_text(out, r#","kind":"failure","type":"left","value":"#)?;
        self.write_value_of(out, id)?;
        write_text(out, "}")
    }

    /// Adds the value of a Deferred at the end.
    #[tactic(auto, using(crate::proofs::Added::parts))]
    fn write_value_of(&self, out: &mut String, id: DeferredId) -> Result<(), AllocError>
        ensures { OnOk result (Adds (string_bytes out.old) (string_bytes out.new)) }
    {
        match self.outcomes.get(id.number() as usize) {
            None => write_text(out, "null"),
            Some(outcome) => write_value(self.alloc, self.classes, out, &outcome.state),
        }
    }

    fn write_call(&self, out: &mut String, number: u32, due: u64) -> Result<(), AllocError>
        ensures { OnOk result (Adds (string_bytes out.old) (string_bytes out.new)) }
    {
        write_number(out, r#"{"due":"#, due)?;
        self.object(
            out,
            r#","kind":"call","object":"#,
            self.at(ObjectKind::Call, number as usize),
        )?;
        write_text(out, r#","type":"left"}"#)
    }

    fn write_tick_in(&self, out: &mut String, name: &str, due: u64) -> Result<(), AllocError>
        ensures { OnOk result (Adds (string_bytes out.old) (string_bytes out.new)) }
    {
        write_number(out, r#"{"due":"#, due)?;
        self.object(out, r#","kind":"tick","object":"#, cooperator(name))?;
        write_text(out, r#","type":"left"}"#)
    }

    fn write_delivery(
        &self,
        out: &mut String,
        number: u32,
        id: DeferredId,
        due: u64,
    ) -> Result<(), AllocError>
        ensures { OnOk result (Adds (string_bytes out.old) (string_bytes out.new)) }
    {
        self.id(out, r#"{"deferred":"#, id)?;
        write_number(out, r#","due":"#, due)?;
        self.object(out, r#","kind":"delivery","object":"#, job(number))?;
        write_text(out, r#","type":"left"}"#)
    }

    fn write_timeout(&self, out: &mut String, id: DeferredId, due: u64) -> Result<(), AllocError>
        ensures { OnOk result (Adds (string_bytes out.old) (string_bytes out.new)) }
    {
        self.id(out, r#"{"deferred":"#, id)?;
        write_number(out, r#","due":"#, due)?;
        write_text(out, r#","kind":"timeout","type":"left"}"#)
    }

    fn write_loop(&self, out: &mut String, left: &LeftLoop) -> Result<(), AllocError>
        ensures { OnOk result (Adds (string_bytes out.old) (string_bytes out.new)) }
    {
        self.id(out, r#"{"deferred":"#, left.of)?;
        write_number_or_null(out, r#","due":"#, left.due)?;
        self.object(
            out,
            r#","kind":"loop","object":"#,
            self.at(ObjectKind::Loop, left.number),
        )?;
        self.ids(
            out,
            r#","type":"left","waits_for":"#,
            left.waits_for.as_slice(),
        )?;
        write_text(out, "}")
    }

    fn write_task(&self, out: &mut String, left: &LeftTask) -> Result<(), AllocError>
        ensures { OnOk result (Adds (string_bytes out.old) (string_bytes out.new)) }
    {
        write_number(out, r#"{"bodies":"#, left.bodies as u64)?;
        self.object(
            out,
            r#","kind":"task","object":"#,
            self.at(ObjectKind::Task, left.number),
        )?;
        write_number(out, r#","pauses":"#, left.pauses)?;
        self.ids(
            out,
            r#","type":"left","waits_for":"#,
            left.waits_for.as_slice(),
        )?;
        write_text(out, "}")
    }

    fn write_tokens(&self, out: &mut String, left: &LeftTokens) -> Result<(), AllocError>
        ensures { OnOk result (Adds (string_bytes out.old) (string_bytes out.new)) }
    {
        write_number(out, r#"{"given":"#, u64::from(left.given))?;
        self.object(
            out,
            r#","kind":"tokens","object":"#,
            self.at(ObjectKind::Lock, left.number),
        )?;
        write_number(out, r#","tokens":"#, u64::from(left.tokens))?;
        self.ids(out, r#","type":"left","waiting":"#, left.waiting.as_slice())?;
        write_text(out, "}")
    }

    fn write_getters(
        &self,
        out: &mut String,
        number: usize,
        waiting: &[DeferredId],
    ) -> Result<(), AllocError>
        ensures { OnOk result (Adds (string_bytes out.old) (string_bytes out.new)) }
    {
        self.object(
            out,
            r#"{"kind":"getters","object":"#,
            self.at(ObjectKind::Queue, number),
        )?;
        self.ids(out, r#","type":"left","waiting":"#, waiting)?;
        write_text(out, "}")
    }

    #[tactic(auto, using(crate::proofs::Added::parts))]
    fn write_values(
        &self,
        out: &mut String,
        number: usize,
        values: &mut Deque<Value>,
    ) -> Result<(), AllocError>
        ensures { OnOk result (Adds (string_bytes out.old) (string_bytes out.new)) }
    {
        self.object(
            out,
            r#"{"kind":"values","object":"#,
            self.at(ObjectKind::Queue, number),
        )?;
        write_text(out, r#","type":"left","values":["#)?;
        for place in 0..values.len() {
            write_comma(out, place)?;
            self.write_first(out, values)?;
        }
        write_text(out, "]}")
    }

    /// Adds the first of these values, which is taken out of them.
    #[tactic(auto, using(crate::proofs::Added::parts))]
    fn write_first(&self, out: &mut String, values: &mut Deque<Value>) -> Result<(), AllocError>
        ensures { OnOk result (Adds (string_bytes out.old) (string_bytes out.new)) }
    {
        match values.pop_front() {
            None => Ok(()),
            Some(value) => write_json(self.alloc, self.classes, out, &value),
        }
    }

    fn write_unhandled(&self, out: &mut String, place: usize) -> Result<(), AllocError>
        ensures { OnOk result (Adds (string_bytes out.old) (string_bytes out.new)) }
    {
        write_number(out, r#"{"entry":"#, place as u64)?;
        write_text(out, r#","kind":"unhandled","type":"left","value":"#)?;
        self.write_failure_at(out, place)?;
        write_text(out, "}")
    }

    /// Adds the failure that an entry logs as unhandled.
    #[tactic(auto, using(crate::proofs::Added::parts))]
    fn write_failure_at(&self, out: &mut String, place: usize) -> Result<(), AllocError>
        ensures { OnOk result (Adds (string_bytes out.old) (string_bytes out.new)) }
    {
        match self.entries.get(place) {
            Some(Entry::Unhandled(failure)) => write_failure_json(
                self.alloc,
                self.classes,
                out,
                failure.get(),
            ),
            Some(_) | None => write_text(out, "null"),
        }
    }
}

#[tactic(auto, using(crate::proofs::Added::parts))]
fn write_at_timeout(out: &mut String, due: u64) -> Result<(), AllocError>
    ensures { OnOk result (Adds (string_bytes out.old) (string_bytes out.new)) }
{
    write_number(out, r#"{"at":"timeout","due":"#, due)?;
    write_text(out, "}")
}

#[tactic(auto, using(crate::proofs::Added::parts))]
fn write_tick(out: &mut String, due: u64) -> Result<(), AllocError>
    ensures { OnOk result (Adds (string_bytes out.old) (string_bytes out.new)) }
{
    write_number(out, r#"{"due":"#, due)?;
    write_text(out, r#","kind":"tick","type":"left"}"#)
}

/// Adds the value of a state, or null where it has none.
#[tactic(auto, using(crate::proofs::Added::parts))]
pub fn write_value(
    alloc: Global,
    classes: &Classes,
    out: &mut String,
    state: &State,
) -> Result<(), AllocError>
    ensures { OnOk result (Adds (string_bytes out.old) (string_bytes out.new)) }
{
    match state {
        State::Unfired | State::Waiting(_) => write_text(out, "null"),
        State::Fired(value) => write_json(alloc, classes, out, value),
    }
}
