ghost use Rattle.std.specs.Prelude.{◌≡◌};

use std::marker::Model;

/// A text as a list of bytes.
#[derive(Debug, Drop)]
pub struct TagText {
    bytes: Vec<u8>,
}

impl Model for TagText {
    ghost use Rattle.std.specs.Prelude.{ℕ, List};

    ghost Value = { List ℕ };

    ghost view = { λ text. text.bytes.items };
}

impl TagText {
    /// Makes a text of bytes. Takes no memory.
    pub fn of(bytes: Vec<u8>) -> TagText
        ensures { result ≡ bytes.items }
    {
        TagText { bytes }
    }

    /// Lends the bytes.
    pub fn bytes(&self) -> &[u8]
        ensures { result.now ≡ self.now }
    {
        self.bytes.as_slice()
    }

    /// Gives the bytes back. Takes no memory.
    pub fn into_vec(self) -> Vec<u8>
        ensures { result.items ≡ self }
    {
        self.bytes
    }
}
