ghost use Rattle.std.specs.Prelude.{◌≡◌, IfOk};
ghost use Rattle.dv_objects.specs.Cooperator.{ticks_overlap, is_called, is_empty, tick_of};

use dv_clock::call_id::CallId;
use dv_clock::cooperator_id::CooperatorId;
use dv_clock::due::Due;
use dv_clock::interval::Interval;
use dv_clock::turns::Turns;
use dv_script::lent::TextRef;
use dv_script::script::Cooperator as Settings;
use dv_script::turn_rule::TurnRule;
use dv_value::text::Text;
use std::alloc::{AllocError, Global};
use std::marker::Model;

/// A Cooperator: whose turn it is in it, and its ticks, in each of which so many steps are taken
/// (Twisted: `Cooperator`).
#[derive(Drop)]
pub struct Cooperator<'s> {
    /// Its name, where the script names it.
    pub name: Option<TextRef<'s>>,
    pub turns: Turns,
    /// How many steps a tick has.
    pub units: u32,
    /// How many ticks of the clock it is from one of its ticks to the next.
    pub delay: Interval,
    /// The tick that is scheduled.
    pub tick: Option<CallId>,
    /// Whether a tick is under way.
    pub ticking: bool,
    /// Whether it was stopped.
    pub stopped: bool,
}

impl<'s> Model for Cooperator<'s> {
    ghost use Rattle.dv_objects.specs.Cooperator.{Cooperator as Seen};
    ghost use Rattle.std.specs.Coded.{codes};

    ghost Value = { Seen };

    ghost coded = { Prim.hlevel codes };

    ghost view = { λ c. record {
      name = c.name;
      turns = c.turns;
      units = c.units;
      delay = c.delay;
      tick = c.tick;
      ticking = c.ticking;
      stopped = c.stopped;
    } };
}

impl<'s> Cooperator<'s> {
    ghost use Rattle.dv_objects.specs.Cooperator.{new_cooperator, wants_tick, idle_tick};
    ghost use Rattle.dv_objects.specs.Cooperator.{wants_tick_at_once};

    /// A Cooperator in which nobody takes turns, which takes so many steps in a tick, and from tick
    /// to tick of which it is so many ticks of the clock, or the nearest number that an interval
    /// may have; its turns go by this rule.
    pub fn new(alloc: Global, name: Option<TextRef<'s>>, settings: Settings) -> Cooperator<'s>
        ensures { result ≡ new_cooperator name.entry settings }
    {
        let Settings {
            units,
            delay,
            turns,
        } = settings;
        Cooperator {
            name,
            turns: Turns::new(alloc, turns),
            units,
            delay: Interval::new(delay),
            tick: None,
            ticking: false,
            stopped: false,
        }
    }

    /// Whether the script names it so.
    pub fn is_called(&self, name: &str) -> bool
        ensures { result ≡ is_called name.now self.now.name }
    {
        match &self.name {
            None => false,
            Some(own) => own.as_str() == name,
        }
    }

    /// Whether a tick is to be scheduled: somebody takes turns, and no tick is scheduled or under
    /// way.
    pub fn wants_tick(&self) -> bool
        ensures { result ≡ wants_tick self.now }
    {
        !self.ticking && self.tick.is_none() && self.turns.len() != 0
    }

    /// The same as a task joins: by Twisted's rule a tick may be under way.
    pub fn wants_tick_at_once(&self) -> bool
        ensures { result ≡ wants_tick_at_once self.now }
    {
        (!self.ticking || ticks_overlap(self.turns.rule()))
            && self.tick.is_none()
            && self.turns.len() != 0
    }

    /// The tick that is scheduled, where it is to be dropped, since nobody takes turns any more.
    pub fn idle_tick(&self) -> Option<CallId>
        ensures { result ≡ idle_tick self.now }
    {
        if self.turns.len() == 0 {
            self.tick
        } else {
            None
        }
    }

    /// Its next tick, where this is its number.
    pub fn next_tick(&self, alloc: Global, id: CooperatorId) -> Result<Due, AllocError>
        ensures { IfOk result (λ what. what ≡ tick_of self.now.name id) }
    {
        match &self.name {
            None => Ok(Due::Tick),
            Some(name) => Ok(Due::TickIn(Text::of(alloc, name.as_str())?, id.number())),
        }
    }
}

/// Whether a task that joins in a tick has the next one scheduled at once.
fn ticks_overlap(rule: TurnRule) -> bool
    ensures { result ≡ ticks_overlap rule }
{
    match rule {
        TurnRule::Earlier | TurnRule::Fair => false,
        TurnRule::Twisted => true,
    }
}
