//! The passes of the reader, in the order of the refusals that they find.

ghost use Rattle.std.specs.Prelude.{◌≡◌, ◌≤◌, ◌-◌, ◌^◌, min, length, true, IfOk, IfErr};
ghost use Rattle.dv_document.specs.View.{view};
ghost use Rattle.dv_script.specs.declared.limits.TheConstants.{MOST_POOLS};
ghost use Rattle.dv_forms.specs.declared.limits.TheConstants.{WIDEST_LIMIT, WIDEST_NODES};
ghost use Rattle.dv_questions.specs.Questions.{asked_by};
ghost use Rattle.dv_reader.specs.Limits.{added_to};
ghost use Rattle.dv_reader.specs.Refusal.{answers, keeps_version, are_named, are_known};
ghost use Rattle.dv_reader.specs.Refusal.{are_distinct, are_pooled, have_own_names, have_bodies};
ghost use Rattle.dv_reader.specs.Refusal.{are_apart, have_cooperators, Says, Refuses};
ghost use Rattle.dv_reader.specs.Passes.{is_version, Accepts, IsSound, Judged, Passes};

use crate::error::ScriptFault;
use crate::limits::{added_to, adds_few_nodes, is_small, most_bytes_of};
use dv_document::document::{Document, DocumentFault};
use dv_document::places::Json;
use dv_document::room::Room;
use dv_forms::limits::WIDEST_BYTES;
use dv_forms::versions::LAST_VERSION;
use dv_forms::want::{Keyed, Want};
use dv_grammar::draft::Draft;
use dv_grammar::reading::script::shape;
use dv_questions::asking::all_suit;
use dv_questions::question::{Question, has_body, has_cooperator, is_among};
use dv_script::limits::{MOST_BYTES, MOST_LEVELS};
use dv_script::script::{NamedBody, NamedCooperator, NamedPool, Script};
use std::alloc::Global;

fn is_version(json: Json<'_>) -> bool
    ensures { result ≡ is_version (view json.entry) }
{
    match json.get("version") {
        Some(version) => match version.as_u64() {
            Some(n) => 1 <= n && n <= u64::from(LAST_VERSION),
            None => false,
        },
        None => false,
    }
}

/// Whether each text of the document answers the question well, as one of a script of its version.
fn answers(question: &Question<'_>, json: Json<'_>, draft: &Draft) -> bool
    ensures { result ≡ answers (asked_by question.now) (view json.entry) draft.now }
{
    let script = Want::Keyed(Keyed::Script(draft.version));
    all_suit(question, MOST_LEVELS + 1, script, json)
}

/// Whether the document answers all six questions well, which are asked in one pass.
fn is_sound(json: Json<'_>, draft: &Draft) -> bool
    ensures { result ≡ true → IsSound (view json.entry) draft.now }
{
    let pools = draft.script.pools.as_slice();
    let bodies = draft.script.bodies.as_slice();
    let cooperators = draft.script.cooperators.as_slice();
    let every = Question::Every(
        draft.version,
        &draft.script.classes,
        pools,
        bodies,
        cooperators,
    );
    answers(&every, json, draft)
}

fn keeps_version(sound: bool, json: Json<'_>, draft: &Draft) -> bool
    requires { sound ≡ true → IsSound (view json) draft.now }
    ensures { result ≡ keeps_version (view json.entry) draft.now }
{
    sound || answers(&Question::Words(draft.version), json, draft)
}

fn are_named(sound: bool, json: Json<'_>, draft: &Draft) -> bool
    requires { sound ≡ true → IsSound (view json) draft.now }
    ensures { result ≡ are_named (view json.entry) draft.now }
{
    sound || answers(&Question::Names(draft.version), json, draft)
}

fn are_known(sound: bool, json: Json<'_>, draft: &Draft) -> bool
    requires { sound ≡ true → IsSound (view json) draft.now }
    ensures { result ≡ are_known (view json.entry) draft.now }
{
    draft.all_declared && (sound || answers(&Question::Classes(&draft.script.classes), json, draft))
}

fn are_distinct(pools: &[NamedPool]) -> bool
    ensures { result ≡ are_distinct pools.now }
{
    match pools.split_first() {
        None => true,
        Some((pool, rest)) => !is_among(pool.name.as_str(), rest) && are_distinct(rest),
    }
}

fn are_pooled(sound: bool, json: Json<'_>, draft: &Draft) -> bool
    requires { sound ≡ true → IsSound (view json) draft.now }
    ensures { result ≡ are_pooled (view json.entry) draft.now }
{
    let pools = draft.script.pools.as_slice();
    are_distinct(pools) && (sound || answers(&Question::Pools(pools), json, draft))
}

fn have_own_names(bodies: &[NamedBody]) -> bool
    ensures { result ≡ have_own_names bodies.now }
{
    match bodies.split_first() {
        None => true,
        Some((body, rest)) => !has_body(body.name.as_str(), rest) && have_own_names(rest),
    }
}

fn have_bodies(sound: bool, json: Json<'_>, draft: &Draft) -> bool
    requires { sound ≡ true → IsSound (view json) draft.now }
    ensures { result ≡ have_bodies (view json.entry) draft.now }
{
    let bodies = draft.script.bodies.as_slice();
    have_own_names(bodies) && (sound || answers(&Question::Bodies(bodies), json, draft))
}

fn are_apart(cooperators: &[NamedCooperator]) -> bool
    ensures { result ≡ are_apart cooperators.now }
{
    match cooperators.split_first() {
        None => true,
        Some((cooperator, rest)) => {
            !has_cooperator(cooperator.name.as_str(), rest) && are_apart(rest)
        }
    }
}

fn have_cooperators(sound: bool, json: Json<'_>, draft: &Draft) -> bool
    requires { sound ≡ true → IsSound (view json) draft.now }
    ensures { result ≡ have_cooperators (view json.entry) draft.now }
{
    let cooperators = draft.script.cooperators.as_slice();
    are_apart(cooperators) && (sound || answers(&Question::Cooperators(cooperators), json, draft))
}

/// Whether a draft of this JSON value keeps to its version, is small enough, is named well and
/// knows its classes, pools, bodies and Cooperators, or the least refusal. Its repeats add so many nodes. The
/// questions are asked one by one only where the pass that asks all at once has failed.
fn accept(json: Json<'_>, added: u64, draft: &Draft) -> Result<(), ScriptFault>
    requires { added ≡ min (added_to (view json)) (2 ^ 64 - 1) }
    ensures { Accepts (view json.entry) draft.now result }
{
    let sound = is_sound(json, draft);
    if !keeps_version(sound, json, draft) {
        return Err(ScriptFault::BadShape);
    }
    if !is_small(json, added, draft) {
        return Err(ScriptFault::TooMany);
    }
    if !are_named(sound, json, draft) {
        return Err(ScriptFault::BadName);
    }
    if !are_known(sound, json, draft) {
        return Err(ScriptFault::BadClass);
    }
    if !are_pooled(sound, json, draft) {
        return Err(ScriptFault::BadPool);
    }
    if !have_bodies(sound, json, draft) {
        return Err(ScriptFault::BadBody);
    }
    if !have_cooperators(sound, json, draft) {
        return Err(ScriptFault::BadCooperator);
    }
    Ok(())
}

/// The script that a JSON value is, or the least refusal.
#[tactic(auto, using(crate::proofs::Accepted::accepted, crate::proofs::Accepted::refused, crate::proofs::Accepted::unshaped))]
fn judge(alloc: Global, json: Json<'_>) -> Result<Script, ScriptFault>
    ensures { Judged (view json.entry) result }
{
    if !is_version(json) {
        return Err(ScriptFault::BadVersion);
    }
    let added = added_to(json);
    let expands = adds_few_nodes(json, added);
    let draft = shape(alloc, expands, json)?;
    match accept(json, added, &draft) {
        Ok(()) => Ok(draft.into_script()),
        Err(fault) => {
            draft.discard();
            Err(fault)
        }
    }
}

/// The script that the passes find in the bytes, or the least refusal.
#[tactic(auto, using(crate::proofs::Lengths::too_wide, crate::proofs::Lengths::too_long_value, crate::proofs::Lengths::too_long_text))]
fn passed(alloc: Global, bytes: &[u8]) -> Result<Script, ScriptFault>
    ensures { Passes bytes.now result }
{
    if bytes.len() > WIDEST_BYTES {
        return Err(ScriptFault::TooLong);
    }
    let mut room = Room::new(alloc);
    match Document::read(alloc, bytes, &mut room) {
        Ok(document) => if bytes.len() > most_bytes_of(document.root()) {
            Err(ScriptFault::TooLong)
        } else {
            judge(alloc, document.root())
        },
        Err(DocumentFault::OutOfMemory) => Err(ScriptFault::OutOfMemory),
        Err(DocumentFault::NotJson) => if bytes.len() > MOST_BYTES {
            Err(ScriptFault::TooLong)
        } else {
            Err(ScriptFault::NotJson)
        },
    }
}

/// The script that the bytes say, or the least refusal.
#[tactic(auto, using(crate::proofs::Answers::says, crate::proofs::Answers::refuses, crate::proofs::Answers::few, crate::proofs::Answers::limited, crate::proofs::Answers::few_pools))]
pub fn read_script(alloc: Global, bytes: &[u8]) -> Result<Script, ScriptFault>
    ensures ok { IfOk result (λ script. Says bytes.now script) }
    ensures err { IfErr result (λ fault. Refuses fault bytes.now) }
    ensures few { IfOk result (λ script. length script.events ≤ WIDEST_NODES) }
    ensures limited { IfOk result (λ script. script.limit ≤ WIDEST_LIMIT) }
    ensures pools { IfOk result (λ script. length script.pools ≤ MOST_POOLS) }
{
    passed(alloc, bytes)
}
