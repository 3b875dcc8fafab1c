use crate::body::Body;
use crate::event::Event;
use crate::turn_rule::TurnRule;
use dv_value::classes::Classes;
use dv_value::items::Items;
use dv_value::text::Text;

/// How the tasks of a script are stepped (Twisted: `Cooperator`).
#[derive(Clone, Copy, Debug, Drop)]
pub struct Cooperator {
    /// The most steps of a tick, from 1 to 1,000.
    pub units: u32,
    /// How many ticks of the clock lie between two ticks of the cooperator, from 1 to 10^12.
    pub delay: u64,
    /// Whose turn it is once a task has left.
    pub turns: TurnRule,
}

/// A Cooperator that a script declares by its name, beside the one that each script has.
#[derive(Drop)]
pub struct NamedCooperator {
    pub name: Text,
    pub settings: Cooperator,
}

/// A pool beside the default one (Twisted: a `ThreadPool`).
#[derive(Drop)]
pub struct NamedPool {
    pub name: Text,
    /// How many workers it has, up to 16.
    pub workers: u32,
}

/// A body that a script declares by its name.
#[derive(Drop)]
pub struct NamedBody {
    pub name: Text,
    pub body: Body,
}

/// A script.
#[derive(Drop)]
pub struct Script {
    /// The classes of its failures: those that every script has, then those that it declares.
    pub classes: Classes,
    /// Whether an end of an inline body that fails throws its failure there, where a `try` may
    /// catch it. Else it leaves the body with the failure.
    pub ends_throw: bool,
    /// The most that its journal may weigh, up to 200,000.
    pub limit: u64,
    pub cooperator: Cooperator,
    /// The Cooperators that it names, in order.
    pub cooperators: Items<NamedCooperator>,
    /// The pools that it names, in order.
    pub pools: Items<NamedPool>,
    /// The bodies that it names, in order.
    pub bodies: Items<NamedBody>,
    /// The posts of each caller, in order.
    pub callers: Items<Items<Body>>,
    /// Its events, in order.
    pub events: Items<Event>,
}

impl Script {
    /// Drops a script. A caller of it needs no proof of its own of what a script holds.
    pub fn discard(self) {
        drop(self);
    }
}
