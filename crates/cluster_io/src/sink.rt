ghost use Rattle.std.specs.Prelude.{◌≡◌, ℕ, ◌<◌, Bool, Option, List, [], length, IsErr, OnOk, OnErr};
ghost use Rattle.cluster_io.specs.Streams.{Bears, Writes, Adds, AddsPrefix, Offers, OffersWhole};

/// What one call of `Sink::write` took.
#[derive(Clone, Copy, Debug, PartialEq, Eq)]
pub enum WriteStep {
    /// So many bytes, at least one, from the front of the piece.
    Took(usize),

    /// Nothing: a fault, which the sink has counted. A later call may take more.
    Failed,
}

/// Where bytes go.
pub trait Sink {
    /// The bytes written so far, where the sink tells them.
    ghost written: { Self → Option (List ℕ) };

    /// The pieces that it was offered, one for each call, where the sink tells them.
    ghost offered: { Self → Option (List (List ℕ)) };

    /// How often the sink has failed.
    ghost faults: { Self → ℕ };

    /// Whether the count rises only with `Failed`, and then by one.
    ghost counts_only_failures: { Bool };

    /// Takes the first bytes of the piece, as many as it likes.
    fn write(&mut self, bytes: &[u8]) -> WriteStep
        requires { 0 < length bytes.now }
        ensures bytes { Writes (written self.old) (written self.new) result bytes.now }
        ensures offered { Offers (offered self.old) bytes.now (offered self.new) }
        ensures bears { Bears counts_only_failures (result ≡ WriteStep.Failed)
            (faults self.old) (faults self.new) };
}

/// The sink failed before it had taken all of a text.
#[derive(Clone, Copy, Debug, PartialEq, Eq)]
pub struct WriteFault;

/// Writes all of the text: offers the whole of it first, and then only what is left. An empty text makes no call.
pub fn write_text<W: Sink>(out: &mut W, text: &[u8]) -> Result<(), WriteFault>
    ensures all { OnOk result (Adds (W.written out.old) text.now (W.written out.new)) }
    ensures prefix { OnErr result (AddsPrefix text.now (W.written out.old) (W.written out.new)) }
    ensures whole { OffersWhole text.now (W.offered out.old) (W.offered out.new) }

    // The first failed write ends the call.
    ensures bears { Bears W.counts_only_failures (IsErr result)
        (W.faults out.old) (W.faults out.new) }
    ensures no_call { text.now ≡ [] → out.new ≡ out.old }
{
    let mut done = 0;
    while done < text.len() {
        match out.write(&text[done..]) {
            WriteStep::Took(count) => done += count,
            WriteStep::Failed => return Err(WriteFault),
        }
    }
    Ok(())
}
