ghost use Rattle.std.specs.Prelude.{◌≡◌, ◌≤◌, ℕ, List, [], IfOk, codes, string_bytes};
ghost use Rattle.std.specs.Str.Lossy.{utf8_lossy};
ghost use Rattle.serde_json.specs.Data.{depth};
ghost use Rattle.serde_json.specs.View.{view, items_view};
ghost use Rattle.dv_reader.specs.Refusal.{Refuses};
ghost use Rattle.dv_reader.specs.declared.error.ScriptFault.TheVariants.{NotJson, BadVersion};
ghost use Rattle.dv_reader.specs.declared.error.ScriptFault.TheVariants.{BadShape, BadName};
ghost use Rattle.dv_reader.specs.declared.error.ScriptFault.TheVariants.{BadClass, BadPool};
ghost use Rattle.dv_reader.specs.declared.error.ScriptFault.TheVariants.{BadBody, BadCooperator};
ghost use Rattle.dv_why.specs.Documents.{BodiesDistinct, CooperatorsDistinct, PoolsDistinct};
ghost use Rattle.dv_why.specs.Documents.{list_in, script_in};
ghost use Rattle.dv_why.specs.Finds.{IsTableOf, Leads, Misfits};
ghost use Rattle.dv_why.specs.Reasons.{IsRefusedFor};
ghost use Rattle.dv_why.specs.Why.{accepted, first_characters, refused, refused_text, Shows};
ghost use Rattle.dv_why.specs.Why.{Explains, TellsOf, TellsOfJson, TellsOfText, IsToldOf, Answers};
ghost use Rattle.dv_why.specs.Wrong.{IsAtVersion, IsWrong};

use crate::bodies::second_body;
use crate::classes::{Table, make_table};
use crate::cooperators::second_cooperator;
use crate::counts::{items_of, too_many};
use crate::document::{script_of, value_of, version_of, whole};
use crate::expected::Expected;
use crate::find::find;
use crate::line::{shown_bytes, shown_json};
use crate::misfit::Misfit;
use crate::place::pointer_of;
use crate::pools::second_pool;
use crate::question::Question;
use dv_reader::error::{ScriptFault, refusal_name, refusal_number};
use dv_reader::read_script::ReadScript;
use dv_script::limits::MOST_LEVELS;
use dv_script::script::Script;
use dv_value::classes::Classes;
use serde_json::{Value as Json, json};
use std::alloc::{AllocError, Global};

/// What is reported about a script.
#[derive(Drop)]
pub struct Told {
    /// Why it is refused, where it is.
    pub fault: Option<ScriptFault>,
    /// The same, and where and what is wrong, as a line of JSON without its end.
    pub line: String,
}

/// Returns whether a script is accepted, and where it isn't, why. AllocError when out of memory.
pub fn tell(alloc: Global, bytes: &[u8]) -> Result<Told, AllocError>
    ensures { IfOk result (λ told. Answers bytes.now told.fault (string_bytes told.line)) }
{
    match Script::read(alloc, bytes) {
        Ok(script) => {
            script.discard();
            Ok(Told {
                fault: None,
                line: accepted(alloc)?.to_string(alloc)?,
            })
        }
        Err(ScriptFault::OutOfMemory) => Err(AllocError),
        Err(fault) => Ok(Told {
            fault: Some(fault),
            line: refusal(alloc, fault, bytes)?.to_string(alloc)?,
        }),
    }
}

fn accepted(alloc: Global) -> Result<Json, AllocError>
    ensures { IfOk result (λ told. view told ≡ accepted) }
{
    json!(in alloc; {"accepted": true})
}

/// What is reported about a refusal.
fn refusal(alloc: Global, fault: ScriptFault, bytes: &[u8]) -> Result<Json, AllocError>
    requires { Refuses fault bytes.now }
    ensures { IfOk result (λ told. IsToldOf fault bytes.now (view told)) }
{
    match fault {
        ScriptFault::TooLong => of_text(alloc, fault, Expected::Short, bytes),
        ScriptFault::NotJson => of_no_json(alloc, bytes),
        ScriptFault::BadVersion
        | ScriptFault::BadShape
        | ScriptFault::TooMany
        | ScriptFault::BadName
        | ScriptFault::BadClass
        | ScriptFault::OutOfMemory
        | ScriptFault::BadPool
        | ScriptFault::BadBody
        | ScriptFault::BadCooperator => of_json(alloc, fault, bytes),
    }
}

fn sentence(alloc: Global, expected: Expected) -> Result<String, AllocError> {
    let mut text = String::new(alloc);
    expected.write(&mut text)?;
    Ok(text)
}

/// What is reported about a refusal with this place, this that is expected there, and this that
/// stands there.
fn refused(
    alloc: Global,
    fault: ScriptFault,
    at: &str,
    expected: &str,
    found: &str,
) -> Result<Json, AllocError>
    ensures { IfOk result (λ told. view told ≡ refused fault at.now expected.now found.now) }
{
    json!(in alloc; {
        "refusal": refusal_number(fault),
        "name": refusal_name(fault),
        "at": at,
        "expected": expected,
        "found": found,
    })
}

/// A text that is wrong as a whole.
fn of_text(
    alloc: Global,
    fault: ScriptFault,
    expected: Expected,
    bytes: &[u8],
) -> Result<Json, AllocError>
    ensures { IfOk result (λ told. (expected : List ℕ)
        × (view told ≡ refused fault [] expected (first_characters (utf8_lossy bytes.now)))) }
{
    let expected = sentence(alloc, expected)?;
    let found = shown_bytes(alloc, bytes)?;
    refused(alloc, fault, "", expected.as_str(), found.as_str())
}

/// A text that is no JSON, with the line and the column from which it can't be.
fn of_no_json(alloc: Global, bytes: &[u8]) -> Result<Json, AllocError>
    ensures { IfOk result (λ told. TellsOfText bytes.now (view told)) }
{
    match Json::from_slice(alloc, bytes) {
        Ok(_) => of_text(alloc, ScriptFault::NotJson, Expected::JsonText, bytes),
        Err(error) => {
            if error.is_memory() {
                return Err(AllocError);
            }
            let expected = sentence(alloc, Expected::JsonText)?;
            let found = shown_bytes(alloc, bytes)?;
            of_place(
                alloc,
                error.line() as u64,
                error.column() as u64,
                expected.as_str(),
                found.as_str(),
            )
        }
    }
}

fn of_place(
    alloc: Global,
    line: u64,
    column: u64,
    expected: &str,
    found: &str,
) -> Result<Json, AllocError>
    ensures { IfOk result
        (λ told. view told ≡ refused_text NotJson line column expected.now found.now) }
{
    json!(in alloc; {
        "refusal": refusal_number(ScriptFault::NotJson),
        "name": refusal_name(ScriptFault::NotJson),
        "at": "",
        "line": line,
        "column": column,
        "expected": expected,
        "found": found,
    })
}

/// A JSON text that is no script.
#[tactic(auto, using(crate::proofs::Reasons::refused_for))]
fn of_json(alloc: Global, fault: ScriptFault, bytes: &[u8]) -> Result<Json, AllocError>
    requires { Refuses fault bytes.now }
    ensures { IfOk result (λ told. TellsOfJson fault bytes.now (view told)) }
{
    let Ok(json) = Json::from_slice(alloc, bytes) else {
        return Err(AllocError);
    };
    of_value(alloc, fault, &json)
}

/// A JSON value that is no script.
fn of_value(alloc: Global, fault: ScriptFault, json: &Json) -> Result<Json, AllocError>
    requires refused { IsRefusedFor fault (view json.now) }
    requires shallow { depth (view json.now) ≤ MOST_LEVELS }
    ensures { IfOk result (λ told. TellsOf fault (view json.now) (view told)) }
{
    let (misfit, expected) = misfit_of(alloc, fault, json)?;
    let at = pointer_of(alloc, misfit.steps.as_slice())?;
    let expected = sentence(alloc, expected)?;
    at_part(alloc, fault, at.as_str(), expected.as_str(), misfit.found)
}

/// What is reported about a part at this place.
fn at_part(
    alloc: Global,
    fault: ScriptFault,
    at: &str,
    expected: &str,
    part: &Json,
) -> Result<Json, AllocError>
    ensures { IfOk result (λ told. (found : List ℕ) × Shows found (view part.now)
        × (view told ≡ refused fault at.now expected.now found)) }
{
    let found = shown_json(alloc, part)?;
    refused(alloc, fault, at, expected, found.as_str())
}

/// What is wrong in a document that is refused so, and what is expected there.
fn misfit_of(
    alloc: Global,
    fault: ScriptFault,
    json: &Json,
) -> Result<(Misfit<'_>, Expected), AllocError>
    requires refused { IsRefusedFor fault (view json.now) }
    requires shallow { depth (view json.now) ≤ MOST_LEVELS }
    ensures { IfOk result (λ found. Explains fault (view json.now) found.0) }
{
    match fault {
        ScriptFault::BadVersion => wrong_version(alloc, json),
        ScriptFault::BadShape => bad_shape(alloc, json),
        ScriptFault::TooMany => too_many(alloc, json),
        ScriptFault::BadName => bad_name(alloc, json),
        ScriptFault::BadClass => bad_class(alloc, json),
        ScriptFault::BadPool => bad_pool(alloc, json),
        ScriptFault::BadBody => bad_body(alloc, json),
        ScriptFault::BadCooperator => bad_cooperator(alloc, json),
        ScriptFault::TooLong | ScriptFault::NotJson | ScriptFault::OutOfMemory => Ok((
            whole(alloc, json),
            Expected::Wanted(version_of(json), script_of(json)),
        )),
    }
}

/// The version of a document that has a wrong one, or the document where there is none.
fn wrong_version(alloc: Global, json: &Json) -> Result<(Misfit<'_>, Expected), AllocError>
    ensures { IfOk result (λ found. Explains BadVersion (view json.now) found.0) }
{
    let misfit = value_of(alloc, json, "version")?;
    let expected = match json.get("version") {
        Some(_) => Expected::Wanted(version_of(json), misfit.want),
        None => Expected::Document,
    };
    Ok((misfit, expected))
}

/// The first part of a document that answers the question badly, or the document.
fn in_script<'j>(
    alloc: Global,
    question: Question<'_>,
    json: &'j Json,
) -> Result<(Misfit<'j>, Expected), AllocError>
    ensures leads { IfOk result (λ found. Leads (script_in (view json.now))
        (view json.now) found.0) }
    ensures wrong { IfOk result (λ found. Misfits question.entry (view json.now) found.0) }
{
    let version = version_of(json);
    match find(alloc, question, script_of(json), MOST_LEVELS, json)? {
        Some(misfit) => Ok(with_expected(version, misfit)),
        None => Ok(with_expected(version, whole(alloc, json))),
    }
}

/// A misfit, and what is expected at its place in a script of this version.
fn with_expected(version: u32, misfit: Misfit<'_>) -> (Misfit<'_>, Expected)
    ensures { result.0 ≡ misfit.entry }
{
    let expected = Expected::at(version, misfit.want, misfit.found);
    (misfit, expected)
}

/// The first part of a document that doesn't fit.
fn bad_shape(alloc: Global, json: &Json) -> Result<(Misfit<'_>, Expected), AllocError>
    requires refused { IsRefusedFor BadShape (view json.now) }
    requires shallow { depth (view json.now) ≤ MOST_LEVELS }
    ensures { IfOk result (λ found. Explains BadShape (view json.now) found.0) }
{
    in_script(alloc, Question::Shape(version_of(json)), json)
}

/// The first name of a document that hasn't its form.
fn bad_name(alloc: Global, json: &Json) -> Result<(Misfit<'_>, Expected), AllocError>
    requires refused { IsRefusedFor BadName (view json.now) }
    requires shallow { depth (view json.now) ≤ MOST_LEVELS }
    ensures { IfOk result (λ found. Explains BadName (view json.now) found.0) }
{
    in_script(alloc, Question::Names(version_of(json)), json)
}

fn bad_class(alloc: Global, json: &Json) -> Result<(Misfit<'_>, Expected), AllocError>
    requires refused { IsRefusedFor BadClass (view json.now) }
    requires shallow { depth (view json.now) ≤ MOST_LEVELS }
    ensures { IfOk result (λ found. Explains BadClass (view json.now) found.0) }
{
    match make_table(alloc, json)? {
        Table::Wrong(misfit, expected) => Ok((misfit, expected)),
        Table::Whole(classes) => unknown_class(alloc, &classes, json),
    }
}

/// The first class that is used and isn't in the table of the document.
fn unknown_class<'j>(
    alloc: Global,
    classes: &Classes,
    json: &'j Json,
) -> Result<(Misfit<'j>, Expected), AllocError>
    requires refused { IsRefusedFor BadClass (view json.now) }
    requires shallow { depth (view json.now) ≤ MOST_LEVELS }
    requires table { IsTableOf (view json.now) (Table.Whole classes.now) }
    ensures { IfOk result (λ found. Explains BadClass (view json.now) found.0) }
{
    in_script(alloc, Question::Classes(classes), json)
}

fn bad_pool(alloc: Global, json: &Json) -> Result<(Misfit<'_>, Expected), AllocError>
    requires refused { IsRefusedFor BadPool (view json.now) }
    requires shallow { depth (view json.now) ≤ MOST_LEVELS }
    ensures { IfOk result (λ found. Explains BadPool (view json.now) found.0) }
{
    match second_pool(alloc, json)? {
        Some(misfit) => Ok((misfit, Expected::FreePool)),
        None => unknown_pool(alloc, items_of(json, "pools"), json),
    }
}

/// The first pool that is used and isn't among those of the document.
fn unknown_pool<'j>(
    alloc: Global,
    pools: &[Json],
    json: &'j Json,
) -> Result<(Misfit<'j>, Expected), AllocError>
    requires refused { IsRefusedFor BadPool (view json.now) }
    requires shallow { depth (view json.now) ≤ MOST_LEVELS }
    requires once { PoolsDistinct (view json.now) }
    requires pools { items_view pools.now ≡ list_in (codes "pools") (view json.now) }
    ensures { IfOk result (λ found. Explains BadPool (view json.now) found.0) }
{
    in_script(alloc, Question::Pools(pools), json)
}

fn bad_body(alloc: Global, json: &Json) -> Result<(Misfit<'_>, Expected), AllocError>
    requires refused { IsRefusedFor BadBody (view json.now) }
    requires shallow { depth (view json.now) ≤ MOST_LEVELS }
    ensures { IfOk result (λ found. Explains BadBody (view json.now) found.0) }
{
    match second_body(alloc, json)? {
        Some(misfit) => Ok((misfit, Expected::FreeBody)),
        None => unknown_body(alloc, items_of(json, "bodies"), json),
    }
}

/// The first body that is used by its name and isn't among those of the document.
fn unknown_body<'j>(
    alloc: Global,
    bodies: &[Json],
    json: &'j Json,
) -> Result<(Misfit<'j>, Expected), AllocError>
    requires refused { IsRefusedFor BadBody (view json.now) }
    requires shallow { depth (view json.now) ≤ MOST_LEVELS }
    requires once { BodiesDistinct (view json.now) }
    requires bodies { items_view bodies.now ≡ list_in (codes "bodies") (view json.now) }
    ensures { IfOk result (λ found. Explains BadBody (view json.now) found.0) }
{
    in_script(alloc, Question::Bodies(bodies), json)
}

fn bad_cooperator(alloc: Global, json: &Json) -> Result<(Misfit<'_>, Expected), AllocError>
    requires refused { IsRefusedFor BadCooperator (view json.now) }
    requires shallow { depth (view json.now) ≤ MOST_LEVELS }
    ensures { IfOk result (λ found. Explains BadCooperator (view json.now) found.0) }
{
    match second_cooperator(alloc, json)? {
        Some(misfit) => Ok((misfit, Expected::FreeCooperator)),
        None => unknown_cooperator(alloc, items_of(json, "cooperators"), json),
    }
}

/// The first Cooperator that is used by its name and isn't among those of the document.
fn unknown_cooperator<'j>(
    alloc: Global,
    cooperators: &[Json],
    json: &'j Json,
) -> Result<(Misfit<'j>, Expected), AllocError>
    requires refused { IsRefusedFor BadCooperator (view json.now) }
    requires shallow { depth (view json.now) ≤ MOST_LEVELS }
    requires once { CooperatorsDistinct (view json.now) }
    requires cooperators { items_view cooperators.now
        ≡ list_in (codes "cooperators") (view json.now) }
    ensures { IfOk result (λ found. Explains BadCooperator (view json.now) found.0) }
{
    in_script(alloc, Question::Cooperators(cooperators), json)
}
