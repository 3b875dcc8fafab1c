//! Events that repeat.

ghost use Rattle.std.specs.Prelude.{◌≡◌, option_map};
ghost use Rattle.dv_document.specs.View.{view, items_view};
ghost use Rattle.dv_forms.specs.Parts.{number_at};
ghost use Rattle.dv_forms.specs.Repeat.{repeat_at, times_at, with_items};
ghost use Rattle.dv_forms.specs.declared.limits.TheConstants.{MOST_TIMES};

use crate::limits::MOST_TIMES;
use dv_document::places::{Elements, Json};

/// How often the events of a repeat happen, and the array of these, where this is a repeat.
#[tactic(auto, unfolding(crate::specs::Repeat::repeat_at))]
pub fn repeat_of<'t>(json: Json<'t>) -> Option<(u64, Elements<'t>)>
    ensures { option_map (λ r. (r.0, items_view r.1)) result ≡ repeat_at (view json.entry) }
{
    let Some(parts) = json.as_array() else {
        return None;
    };
    let Some((first, arguments)) = parts.split_first() else {
        return None;
    };
    let Some(word) = first.as_str() else {
        return None;
    };
    if word == "repeat" {
        times_of(arguments)
    } else {
        None
    }
}

#[tactic(auto, unfolding(crate::specs::Repeat::times_at))]
fn times_of<'t>(arguments: Elements<'t>) -> Option<(u64, Elements<'t>)>
    ensures { option_map (λ r. (r.0, items_view r.1)) result
        ≡ times_at (items_view arguments.entry) }
{
    let Some((times, rest)) = arguments.split_first() else {
        return None;
    };
    let Some((events, rest)) = rest.split_first() else {
        return None;
    };
    let Some(events) = events.as_array() else {
        return None;
    };
    match rest.split_first() {
        Some(_) => None,
        None => with_times(times, events),
    }
}

fn with_times<'t>(times: Json<'_>, events: Elements<'t>) -> Option<(u64, Elements<'t>)>
    ensures { option_map (λ r. (r.0, items_view r.1)) result
        ≡ with_items (items_view events.entry) (number_at 0 MOST_TIMES (view times.entry)) }
{
    match times.as_u64() {
        Some(n) => if n <= MOST_TIMES {
            Some((n, events))
        } else {
            None
        },
        None => None,
    }
}
