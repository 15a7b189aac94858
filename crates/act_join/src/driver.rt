//! The run of a whole script.

ghost use Rattle.std.specs.Prelude.{◌≡◌};
ghost use Rattle.act_io.specs.Streams.{stream};
ghost use Rattle.act_join.specs.Ends.{Ends};
ghost use Rattle.act_join.specs.Feeds.{IsStart, ended_of};

use crate::ended::Ended;
use crate::progress::Progress;
use act_grid::{NoMemory, Settings};
use act_io::{Failed, Gate, Sink, Source};
use std::alloc::Global;
use std::thread::Threads;

/// The bytes that a read asks for.
const PIECE_BYTES: usize = 65_536;

/// The end of a run whose last part was taken so.
fn end_by(last: Result<(), Ended>) -> Ended
    ensures { result ≡ ended_of last }
{
    match last {
        Ok(()) => Ended::Done,
        Err(end) => end,
    }
}

/// Reads the input piece by piece up to its end, and takes each piece before the next is read.
fn read_pieces<T: Threads + Sync, S: Source, K: Sink, G: Gate>(
    progress: &mut Progress,
    rt: &T,
    alloc: Global,
    settings: Settings,
    input: &mut S,
    out: &mut K,
    gate: &G,
) -> Ended
    requires { IsStart settings progress.old }
    ensures { Ends settings (stream S.left S.faults input.old input.new) (stream K.written K.faults out.old out.new) result }
{
    let mut buf = [0; PIECE_BYTES];
    'pieces: loop {
        match input.read(&mut buf) {
            Err(Failed) => return Ended::ReadFault,
            Ok(0) => return end_by(progress.finish(rt, alloc, settings.digits, out, gate)),
            Ok(n) => match progress.feed(rt, alloc, settings.digits, &buf[..n], out, gate) {
                Ok(()) => {}
                Err(end) => return end,
            },
        }
    }
}

/// Runs the script that an input has, and writes its text.
///
/// The input is read in pieces of at most 64 KiB, and each segment is run before the next piece is
/// read. It returns for every input, an endless one too: each read takes a byte or is the end, and
/// lines and their bytes have limits.
pub fn engine<T: Threads + Sync, S: Source, K: Sink, G: Gate>(
    rt: &T,
    alloc: Global,
    settings: Settings,
    input: &mut S,
    out: &mut K,
    gate: &G,
) -> Ended
    ensures { Ends settings (stream S.left S.faults input.old input.new) (stream K.written K.faults out.old out.new) result }
{
    match Progress::new(alloc, settings) {
        Ok(mut progress) => read_pieces(&mut progress, rt, alloc, settings, input, out, gate),
        Err(NoMemory) => Ended::NoMemory,
    }
}
