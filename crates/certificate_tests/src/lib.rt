//! Tests of certificates over devices in memory: what is stored, and how it is judged.
#![tactic(auto)]

#[cfg(test)]
mod budgets;
#[cfg(test)]
mod certificates;
#[cfg(test)]
mod failures;
#[cfg(test)]
mod spoiled;
#[cfg(test)]
mod verdicts;
