//! Sinks of bytes.

ghost use Rattle.std.specs.Prelude.{◌≤◌, ◌<◌, ℕ, List, Option, length, IfOk, OnOk, OnErr};
ghost use Rattle.std.specs.Io.KnownBytes.{Appends, WriteAppends};
ghost use Rattle.act_io.specs.Bytes.{AppendsFront};
ghost use Rattle.act_io.specs.Causes.{HasCause};

use crate::Failed;

/// What takes bytes.
pub trait Sink {
    /// The bytes that were written to it, where it tells them.
    ghost written: { Self → Option (List ℕ) };

    /// How often it has failed. The count stands at 2^64-1 once it is there.
    ghost faults: { Self → ℕ };

    /// Takes bytes from the front of the piece, and says how many. After `Failed` none was taken.
    fn write(&mut self, piece: &[u8]) -> Result<usize, Failed>
        requires { 0 < length piece.now }
        ensures taken { IfOk result (λ n. (1 ≤ n) × (n ≤ length piece.now)) }
        ensures bytes { WriteAppends (written self.old) (written self.new) result piece.now }
        ensures cause { HasCause (faults self.old) (faults self.new) result };
}

/// Writes the whole text, by as many writes as the sink needs. After `Failed` a front of the text was
/// written, and the sink's faults rose.
#[tactic(auto, using(crate::proofs::ByteFacts::byte_facts))]
pub fn put_all<K: Sink>(out: &mut K, text: &[u8]) -> Result<(), Failed>
    ensures whole { OnOk result (Appends (K.written out.old) (K.written out.new) text.now) }
    ensures front { OnErr result (AppendsFront (K.written out.old) (K.written out.new) text.now) }
    ensures cause { HasCause (K.faults out.old) (K.faults out.new) result }
{
    let mut at = 0;
    while at < text.len() {
        at += out.write(&text[at..])?;
    }
    Ok(())
}
