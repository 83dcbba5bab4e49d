ghost use Rattle.std.specs.Prelude.{◌≡◌, ℕ, ◌+◌, ◌≤◌, ◌<◌, Bool, true, false, Option, [], List, length, OnErr, IfOk, IfSome, IsErrOf};
ghost use Rattle.cluster_io.specs.Streams.{Bears, ReadsBytes, is_end, TakesBytes, TakesAtMost, TakesCount};

use std::alloc::{AllocError, Global};

/// What one call of `Source::read` gave.
#[derive(Clone, Copy, Debug, PartialEq, Eq)]
pub enum ReadStep {
    /// So many bytes, at least one, at the front of the buffer.
    Got(usize),

    /// The end of input.
    End,

    /// A fault, which the source has counted. A later call may give more.
    Failed,
}

/// Where bytes come from.
pub trait Source {
    /// The bytes still to come, where the source tells them.
    ghost left: { Self → Option (List ℕ) };

    /// How often the source has failed.
    ghost faults: { Self → ℕ };

    /// Whether the count rises only with `Failed`, and then by one.
    ghost counts_only_failures: { Bool };

    /// Whether it has said that its bytes end.
    ghost ended: { Self → Bool };

    /// Gives the next bytes, as many as it likes up to the buffer's length. Those of the buffer
    /// past them may change too. It asks for a source that hasn't ended.
    fn read(&mut self, buf: &mut [u8]) -> ReadStep
        requires room { 0 < length buf.old }
        requires going { ended self.old ≡ false }
        ensures bytes { ReadsBytes (left self.old) (left self.new) result buf.new }
        ensures bears { Bears counts_only_failures (result ≡ ReadStep.Failed)
            (faults self.old) (faults self.new) }
        ensures end { ended self.new ≡ is_end result };
}

/// Why `read_all` gave no bytes.
#[derive(Clone, Copy, Debug, PartialEq, Eq)]
pub enum ReadEnd {
    /// The source failed.
    Fault,

    /// More bytes came than the limit.
    TooLarge,

    /// Memory was refused.
    NoMemory,
}

impl From<AllocError> for ReadEnd {
    ghost use Rattle.std.specs.Prelude.{◌≡◌};
    ghost use Rattle.cluster_io.specs.declared.source.ReadEnd.TheVariants.{NoMemory};

    ghost from_gives = { λ _ e. e ≡ NoMemory };

    fn from(_: AllocError) -> Self {
        ReadEnd::NoMemory
    }
}

/// The most bytes that one call of `read_all` asks its source for.
const PIECE: usize = 4096;

/// Reads all bytes to the end, at most `limit` of them. What it took before an error is lost. It asks
/// for a source that hasn't ended.
pub fn read_all<S: Source>(alloc: Global, src: &mut S, limit: usize) -> Result<Vec<u8>, ReadEnd>
    requires { S.ended src.old ≡ false }
    ensures all { IfOk result (λ bytes. TakesBytes (S.left src.old) bytes.items (S.left src.new)) }
    ensures end { IfOk result (λ _. IfSome (S.left src.new) (λ left. left ≡ [])) }
    ensures ended { IfOk result (λ _. S.ended src.new ≡ true) }
    ensures going { OnErr result (S.ended src.new ≡ false) }
    ensures within { IfOk result (λ bytes. length bytes.items ≤ limit) }

    // On an error the bytes taken are lost. One more than the limit shows that there are too many.
    ensures taken { OnErr result (TakesAtMost (limit + 1) (S.left src.old) (S.left src.new)) }
    ensures too_large { IsErrOf result ReadEnd.TooLarge →
        TakesCount (limit + 1) (S.left src.old) (S.left src.new) }

    // The first failed read ends the call.
    ensures bears { Bears S.counts_only_failures (IsErrOf result ReadEnd.Fault)
        (S.faults src.old) (S.faults src.new) }
{
    let mut bytes = Vec::new(alloc);
    let mut piece = [0u8; PIECE];
    loop {
        let room = limit - bytes.len();
        let want = room.saturating_add(1).min(PIECE);
        match src.read(&mut piece[..want]) {
            ReadStep::Got(count) if count > room => return Err(ReadEnd::TooLarge),
            ReadStep::Got(count) => bytes.extend_from_slice(&piece[..count])?,
            ReadStep::End => return Ok(bytes),
            ReadStep::Failed => return Err(ReadEnd::Fault),
        }
    }
}
