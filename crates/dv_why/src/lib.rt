//! Why a script is refused: the place in it that is wrong, what is expected there, and what stands
//! there.
#![tactic(auto)]

mod bodies;
mod classes;
mod cooperators;
mod counts;
mod document;
pub mod expected;
pub mod explaining;
mod find;
mod fits;
mod leaf;
mod line;
mod misfit;
mod names;
mod place;
mod pools;
mod question;
mod tree;
pub mod why;
