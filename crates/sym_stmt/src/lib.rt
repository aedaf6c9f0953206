//! Weighted programs as bits, over any logic.
#![tactic(auto)]

mod constant_end;
mod depths;
mod entering;
mod known_picks;
mod known_run;
mod laws;
mod levels;
mod program;
mod run;
mod slots;

pub use laws::rewritten_programs_are_typed;
pub use run::sym_run;
