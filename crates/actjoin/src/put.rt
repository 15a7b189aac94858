//! Texts that are put whole.

ghost use Rattle.std.specs.Prelude.{◌++◌, decimal};
ghost use Rattle.act_io.specs.Streams.{stream};
ghost use Rattle.actjoin.specs.Ends.{PutsOrFails};

use act_io::{Failed, Sink, put_all};
use itoa::Buffer;

/// Writes a text.
#[tactic(auto, using(crate::proofs::PutFacts::puts))]
pub fn put<K: Sink>(out: &mut K, text: &[u8]) -> Result<(), Failed>
    ensures { PutsOrFails (stream K.written K.faults out.old out.new) text.now result }
{
    put_all(out, text)
}

/// Writes one text after another.
pub fn put_both<K: Sink>(out: &mut K, first: &[u8], second: &[u8]) -> Result<(), Failed>
    ensures { PutsOrFails (stream K.written K.faults out.old out.new) (first.now ++ second.now) result }
{
    put(out, first)?;
    put(out, second)
}

/// Writes a text and then a number.
pub fn put_numbered<K: Sink>(out: &mut K, text: &[u8], number: u64) -> Result<(), Failed>
    ensures { PutsOrFails (stream K.written K.faults out.old out.new) (text.now ++ decimal number) result }
{
    let mut buffer = Buffer::new();
    put_both(out, text, buffer.format(number).as_bytes())
}
