//! The text of the demo.

ghost use Rattle.act_io.specs.Streams.{stream};
ghost use Rattle.actjoin.specs.Demo.{line_of, sums_text};
ghost use Rattle.actjoin.specs.Ends.{PutsOrFails};

use crate::put::{put, put_numbered};
use crate::sums::Sums;
use act_io::{Failed, Sink};

/// Writes a name and a number, and ends the line.
fn put_line<K: Sink>(out: &mut K, name: &[u8], number: u64) -> Result<(), Failed>
    ensures { PutsOrFails (stream K.written K.faults out.old out.new) (line_of name.now number) result }
{
    put_numbered(out, name, number)?;
    put(out, b"\n")
}

/// Writes the lines of the sums.
pub fn put_sums<K: Sink>(out: &mut K, sums: Sums) -> Result<(), Failed>
    ensures { PutsOrFails (stream K.written K.faults out.old out.new) (sums_text sums) result }
{
    put_line(out, b"zones ", sums.zones)?;
    put_line(out, b"batches ", sums.batches)?;
    put_line(out, b"points ", sums.points)?;
    put_line(out, b"pairs ", sums.pairs)?;
    put_line(out, b"keys ", sums.keys)
}
