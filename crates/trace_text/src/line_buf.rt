//! A line as it grows.

ghost use Rattle.std.specs.Prelude.{◌≡◌, ◌≤◌, ◌+◌, ◌++◌, [], length, take};
ghost use Rattle.trace_text.specs.Inner.Room.{taken_in_turn};

use crate::line_text::LineText;
use std::convert::Infallible;
use std::marker::Model;

/// How many bytes a line may have.
const ROOM: usize = 1024;

/// A line as it grows, without memory. It has room for 1,024 bytes, is lent to whoever writes a line, and serves again for
/// the next. Contracts see it as its bytes.
#[derive(Drop)]
pub struct LineBuf {
    bytes: [u8; ROOM],
    len: usize,
}

impl Model for LineBuf {
    ghost use Rattle.std.specs.Prelude.{List, ℕ, ◌≤◌, take};

    ghost Value = { List ℕ };

    ghost view = { λ line. take line.len line.bytes };

    ghost invariant = { λ line. line.len ≤ 1024 };
}

impl LineBuf {
    /// Nothing is written yet.
    pub fn new() -> LineBuf
        ensures text { result ≡ [] }
        ensures size { length result ≡ 0 }
    {
        LineBuf {
            bytes: [0; ROOM],
            len: 0,
        }
    }

    /// Begins a new line.
    pub fn clear(&mut self)
        ensures text { self.new ≡ [] }
        ensures size { length self.new ≡ 0 }
    {
        self.len = 0;
    }

    /// How many more bytes it has room for, of 1,024.
    fn room(&self) -> usize
        ensures { result + length self.now ≡ 1024 }
    {
        ROOM - self.len
    }

    /// Adds bytes. It asks for room: all together are at most 1,024.
    fn add(&mut self, bytes: &[u8])
        requires { length self.old + length bytes.now ≤ 1024 }
        ensures { self.new ≡ self.old ++ bytes.now }
    {
        let end = self.len + bytes.len();
        self.bytes[self.len..end].copy_from_slice(bytes);
        self.len = end;
    }

    /// Its bytes, at most 1,024.
    pub fn as_slice(&self) -> &[u8]
        ensures text { result.now ≡ self.now }
        ensures size { length result.now ≤ 1024 }
    {
        &self.bytes[..self.len]
    }
}

/// It keeps the first 1,024 bytes.
impl LineText for LineBuf {
    type Error = Infallible;

    ghost kept = { λ line. line };

    ghost more = { λ old bytes. take 1024 (old ++ bytes) };

    ghost in_turn = { taken_in_turn 1024 };

    fn put(&mut self, bytes: &[u8]) -> Result<(), Infallible> {
        let count = self.room().min(bytes.len());
        self.add(&bytes[..count]);
        Ok(())
    }
}
