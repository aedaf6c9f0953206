//! Tests of inputs, picks, costs and an expression over variables of graphs of gates.
#![tactic(auto)]

#[cfg(test)]
mod costs;
#[cfg(test)]
mod expressions;
#[cfg(test)]
mod inputs;
#[cfg(test)]
mod picks;
