//! Scripts: what is performed, and in which order.
#![tactic(auto)]

pub mod action;
pub mod body;
pub mod event;
pub mod lent;
pub mod limits;
pub mod same;
pub mod script;
pub mod turn_rule;
pub mod work;
