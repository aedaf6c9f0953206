//! The words of the command `check`.

/// The names of the four sources and of the certificate.
#[derive(Clone, Copy)]
pub struct CheckWords<'a> {
    pub bounds: &'a str,
    pub reference: &'a str,
    pub submission: &'a str,
    pub rules: &'a str,
    pub cert: &'a str,
}
