//! Tests of what no row of `test_rows` reaches: readers and writers that fail, the calls of an
//! engine, and real threads. With threads they show what no contract says: workers answer side by
//! side, and each job once at the gate; posts are taken while events run; threads leave no trace in
//! what a run prints. Each test ends by a bound of its own, and none sleeps. They are a crate of
//! their own, which sees the others as their users do, so that no proof is done a second time for
//! them.
#![tactic(auto)]

#[cfg(test)]
mod tests;
