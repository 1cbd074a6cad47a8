//! Sinks, to which texts are written.
ghost use Rattle.std.specs.Prelude.{string_bytes};

use std::alloc::AllocError;

/// A sink takes a text piece by piece. A string keeps it; a comparison looks whether it is the
/// wanted text.
pub(crate) trait Sink {
    ghost use Rattle.std.specs.Prelude.{◌≡◌, ◌<◌, ◌++◌, ◌∷◌, [], ℕ, List, OnOk};

    /// Why the sink refuses a piece.
    type Error: From<AllocError> + Drop;

    /// The text so far.
    ghost text: { Self → List ℕ };

    /// Takes an ASCII character.
    fn push(&mut self, byte: u8) -> Result<(), Self::Error>
        requires { byte < 128 }
        ensures { OnOk result (text self.new ≡ text self.old ++ byte ∷ []) };

    fn push_str(&mut self, piece: &str) -> Result<(), Self::Error>
        ensures { OnOk result (text self.new ≡ text self.old ++ piece.now) };
}

impl Sink for String {
    type Error = AllocError;

    ghost text = { λ s. string_bytes s };

    fn push(&mut self, byte: u8) -> Result<(), AllocError> {
        String::push(self, byte as char)
    }

    fn push_str(&mut self, piece: &str) -> Result<(), AllocError> {
        String::push_str(self, piece)
    }
}
