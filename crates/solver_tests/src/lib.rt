//! Tests of the solver's crates over one another: words and graphs of bits, clauses, formulas,
//! steps and logs.
#![tactic(auto)]

#[cfg(test)]
mod all_signs;
#[cfg(test)]
mod certificates;
#[cfg(test)]
mod checking;
#[cfg(test)]
mod clauses;
#[cfg(test)]
mod folding;
#[cfg(test)]
mod formulas;
#[cfg(test)]
mod graph;
#[cfg(test)]
mod lanes;
#[cfg(test)]
mod numbers;
#[cfg(test)]
mod operations;
#[cfg(test)]
mod plain;
#[cfg(test)]
mod solving;
#[cfg(test)]
mod values;
