//! A text of a sample.
ghost use Rattle.std.specs.Prelude.{◌≡◌, ℕ, List};

use std::marker::Model;

/// The bytes of a text.
#[derive(Drop)]
pub struct SampleText {
    bytes: Vec<u8>,
}

impl Model for SampleText {
    ghost Value = { List ℕ };

    ghost view = { λ t. t.bytes.items };
}

impl SampleText {
    /// The text that has these bytes.
    pub fn from_vec(bytes: Vec<u8>) -> SampleText
        ensures { result ≡ bytes.items }
    {
        SampleText { bytes }
    }

    /// The bytes.
    pub fn bytes(&self) -> &[u8]
        ensures { result.now ≡ self.now }
    {
        self.bytes.as_slice()
    }

    /// The bytes, given back.
    pub fn into_vec(self) -> Vec<u8>
        ensures { result.items ≡ self }
    {
        self.bytes
    }
}
