//! Actions on a Deferred by its name (Twisted: `twisted.internet.defer`): it is made, fired, gets a
//! pair, is paused, unpaused and cancelled; and what a cancel reaches.
#![tactic(auto)]

pub mod cancelling;
pub mod firing;
