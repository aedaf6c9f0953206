//! Tests of formulas and proofs as texts.
#![tactic(auto)]

#[cfg(test)]
mod commands;
#[cfg(test)]
mod texts;
