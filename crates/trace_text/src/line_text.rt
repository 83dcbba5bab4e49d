//! Where the bytes of a line go.

ghost use Rattle.std.specs.Prelude.{◌≡◌, ◌++◌, ℕ, List, OnOk};
ghost use Rattle.std.proofs.lemmas.List.{append_assoc};

use faults::NoMemory;

/// Where the bytes of a line go: a text that grows, or a buffer that keeps as many as it has room for.
pub(crate) trait LineText {
    /// Why bytes may not be put.
    type Error;

    /// The bytes that it keeps.
    ghost kept: { Self → List ℕ };

    /// What is kept once some bytes are put behind others.
    ghost more: { List ℕ → List ℕ → List ℕ };

    /// Puts bytes behind those that it keeps.
    fn put(&mut self, bytes: &[u8]) -> Result<(), Self::Error>
        ensures { OnOk result (kept self.new ≡ more (kept self.old) bytes.now) };

    /// Bytes that are put in turn are kept as if they were put at once.
    ghost in_turn: { (old first then : List ℕ) → more (more old first) then ≡ more old (first ++ then) };
}

impl LineText for Vec<u8> {
    type Error = NoMemory;

    ghost kept = { λ text. text.items };

    ghost more = { ◌++◌ };

    ghost in_turn = { append_assoc };

    fn put(&mut self, bytes: &[u8]) -> Result<(), NoMemory> {
        self.extend_from_slice(bytes)?;
        Ok(())
    }
}
