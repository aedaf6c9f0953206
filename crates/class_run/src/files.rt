//! The files of a class.

/// The names of the four files of a class.
#[derive(Clone, Copy)]
pub struct ClassFiles<'a> {
    pub bounds: &'a str,
    pub reference: &'a str,
    pub rules: &'a str,
    pub list: &'a str,
}

/// The texts that all submissions of a class share.
#[derive(Clone, Copy)]
pub struct SharedTexts<'a> {
    pub bounds: &'a [u8],
    pub reference: &'a [u8],
    pub rules: &'a [u8],
}
