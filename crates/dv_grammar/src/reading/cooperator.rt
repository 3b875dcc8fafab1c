ghost use Rattle.std.specs.Prelude.{◌≡◌, option_map, option_and_then};
ghost use Rattle.dv_document.specs.View.{view};
ghost use Rattle.dv_clock.specs.declared.limits.TheConstants.{MOST_DELAY};
ghost use Rattle.dv_forms.specs.Answer.{Reads, Gives};
ghost use Rattle.dv_forms.specs.Parts.{number_at, field, fields_at, turn_rule_at};
ghost use Rattle.dv_grammar.specs.Shape.{cooperator_at};
ghost use Rattle.dv_grammar.specs.Grammar.{cooperator_keys, plain_cooperator, usual_turns};
ghost use Rattle.dv_script.specs.declared.limits.TheConstants.{MOST_UNITS};

use dv_clock::limits::MOST_DELAY;
use dv_document::places::Json;
use dv_forms::leaf::{fields, number, small, turn_rule};
use dv_forms::shape_fault::ShapeFault;
use dv_forms::versions::RULES_SINCE;
use dv_script::limits::MOST_UNITS;
use dv_script::script::Cooperator;
use dv_script::turn_rule::TurnRule;

/// A cooperator that a script of this version may leave out.
pub fn cooperator_or_plain(version: u32, json: Option<Json<'_>>) -> Result<Cooperator, ShapeFault>
    ensures { Reads result (field (plain_cooperator version) (cooperator_at version)
        (option_map (λ d. view d) json.entry)) }
{
    match json {
        None => Ok(Cooperator {
            units: 1,
            delay: 1,
            turns: usual_turns(version),
        }),
        Some(json) => cooperator(version, json),
    }
}

/// A Cooperator in a script of this version.
#[tactic(auto, unfolding(crate::specs::Shape::cooperator_at))]
pub fn cooperator(version: u32, json: Json<'_>) -> Result<Cooperator, ShapeFault>
    ensures { Reads result (cooperator_at version (view json.entry)) }
{
    fields_of(version, json)?;
    let units = units(json.get("units"))?;
    let delay = delay(json.get("delay"))?;
    let turns = turns(version, json.get("turns"))?;
    Ok(Cooperator {
        units,
        delay,
        turns,
    })
}

/// An object with no other keys than those of a Cooperator, but maybe a comment.
fn fields_of(version: u32, json: Json<'_>) -> Result<(), ShapeFault>
    ensures { Gives (λ _. tt) result (fields_at (cooperator_keys version) (view json.entry)) }
{
    if version < RULES_SINCE {
        fields(json, &["units", "delay"])
    } else {
        fields(json, &["turns", "units", "delay"])
    }
}

/// The rule of the turns of a Cooperator that names none.
fn usual_turns(version: u32) -> TurnRule
    ensures { result ≡ usual_turns version }
{
    if version < RULES_SINCE {
        TurnRule::Earlier
    } else {
        TurnRule::Fair
    }
}

fn turns(version: u32, json: Option<Json<'_>>) -> Result<TurnRule, ShapeFault>
    ensures { Reads result (field (usual_turns version) turn_rule_at
        (option_map (λ d. view d) json.entry)) }
{
    match json {
        None => Ok(usual_turns(version)),
        Some(json) => turn_rule(json),
    }
}

fn units(json: Option<Json<'_>>) -> Result<u32, ShapeFault>
    ensures { Reads result (option_and_then (number_at 1 MOST_UNITS)
        (option_map (λ d. view d) json.entry)) }
{
    match json {
        None => Err(ShapeFault::BadShape),
        Some(json) => small(json, 1, MOST_UNITS),
    }
}

fn delay(json: Option<Json<'_>>) -> Result<u64, ShapeFault>
    ensures { Reads result (option_and_then (number_at 1 MOST_DELAY)
        (option_map (λ d. view d) json.entry)) }
{
    match json {
        None => Err(ShapeFault::BadShape),
        Some(json) => number(json, 1, MOST_DELAY),
    }
}
