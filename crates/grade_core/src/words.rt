//! The words of the command `grade`.

/// The names of the four sources and of the certificate, and the budget.
#[derive(Clone, Copy)]
pub struct GradeWords<'a> {
    pub bounds: &'a str,
    pub reference: &'a str,
    pub submission: &'a str,
    pub rules: &'a str,
    pub cert: &'a str,
    pub budget: u32,
}
