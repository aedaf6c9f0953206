//! Tests of the programs of tasks as bits, over graphs of gates.
#![tactic(auto)]

#[cfg(test)]
mod circuits;
#[cfg(test)]
mod rows;
#[cfg(test)]
mod runs;
