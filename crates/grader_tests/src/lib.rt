//! Tests of the grader's commands: requests over devices in memory, and over the real files and
//! output.
#![tactic(auto)]

#[cfg(test)]
mod comparing;
#[cfg(test)]
mod forms;
#[cfg(test)]
mod formulas;
#[cfg(test)]
mod host;
#[cfg(test)]
mod layout;
#[cfg(test)]
mod printed;
#[cfg(test)]
mod prints;
#[cfg(test)]
mod refusals;
#[cfg(test)]
mod requests;
#[cfg(test)]
mod runs;
#[cfg(test)]
mod samples;
#[cfg(test)]
mod sizes;
#[cfg(test)]
mod words;
