use crate::action::Action;
use dv_value::expected::Expected;
use dv_value::text::Text;

/// What happens in a script, one after the other.
#[derive(Drop)]
pub enum Event {
    /// Performs the action.
    Action(Action),
    /// The clock goes on by so many ticks, at most 10^15 (Twisted: `Clock.advance`).
    Advance(u64),
    /// Performs so many posts at most, and no more than 2,048.
    Drain(u32),
    /// The Deferred of this name is as it is expected to be, or the run ends.
    Expect(Text, Expected),
}
