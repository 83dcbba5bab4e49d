//! Text that is held back.

ghost use Rattle.std.specs.Prelude.{◌≡◌, ◌+◌, ◌≤◌, ◌++◌, [], true, length, IfOk};
ghost use Rattle.live_run.specs.HeldAndWritten.{most_held};

use crm_lex::NoMemory;
use std::alloc::Global;
use std::marker::Model;

/// How many bytes are held back at most.
const ROOM: usize = 65_536;

/// Text that is held back until it leaves by one write: at most 65,536 bytes. Its memory is taken at once. Contracts see it as
/// its bytes.
#[derive(Drop)]
pub struct HeldText {
    bytes: Vec<u8>,
    len: usize,
}

impl Model for HeldText {
    ghost use Rattle.std.specs.Prelude.{◌≡◌, ◌≤◌, List, ℕ, take, vec_len};

    ghost Value = { List ℕ };

    ghost view = { λ text. take text.len text.bytes.items };

    ghost invariant = { λ text. (text.len ≤ 65536) × (vec_len text.bytes ≡ 65536) };
}

impl HeldText {
    /// Nothing is held back.
    pub fn new(alloc: Global) -> Result<HeldText, NoMemory>
        ensures { IfOk result (λ text. text ≡ []) }
    {
        Ok(HeldText {
            bytes: vec![in alloc; 0; ROOM]?,
            len: 0,
        })
    }

    /// Whether so many bytes more can be held back.
    pub(crate) fn has_room(&self, more: usize) -> bool
        ensures { result ≡ true → length self.now + more ≤ most_held }
    {
        more <= ROOM - self.len
    }

    /// Holds some bytes back behind the others.
    pub(crate) fn add(&mut self, bytes: &[u8])
        requires { length self.old + length bytes.now ≤ most_held }
        ensures { self.new ≡ self.old ++ bytes.now }
    {
        let start = self.len;
        let end = start + bytes.len();
        self.bytes[start..end].copy_from_slice(bytes);
        self.len = end;
    }

    /// The bytes that are held back.
    pub(crate) fn as_slice(&self) -> &[u8]
        ensures bytes { result.now ≡ self.now }
        ensures few { length self.now ≤ most_held }
    {
        &self.bytes[..self.len]
    }

    /// Nothing is held back any more.
    pub(crate) fn clear(&mut self)
        ensures { self.new ≡ [] }
    {
        self.len = 0;
    }
}
