//! The words of the commands.

/// The names of a formula and of the place for a proof, and how many clauses may be derived.
#[derive(Clone, Copy)]
pub struct SatWords<'a> {
    pub cnf: &'a str,
    pub log: &'a str,
    pub budget: u32,
}

/// The names of a formula and of a proof.
#[derive(Clone, Copy)]
pub struct UnsatWords<'a> {
    pub cnf: &'a str,
    pub log: &'a str,
}
