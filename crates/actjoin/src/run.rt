//! The whole run of the program.

ghost use Rattle.std.specs.Prelude.{◌≡◌, ◌⊎◌, ℕ, List, [], Some, None, map, string_bytes};
ghost use Rattle.std.specs.Io.KnownBytes.{Keeps};
ghost use Rattle.act_grid.specs.declared.Settings.{Settings};
ghost use Rattle.act_io.specs.Streams.{Gets, GetsFront, GetsOrFails, stream};
ghost use Rattle.act_io.specs.Causes.{Rose};
ghost use Rattle.act_script.specs.Script.{bad_line};
ghost use Rattle.act_words.specs.Words.{fits};
ghost use Rattle.act_join.specs.Ends.{AnswersRead, GetsText, GetsTextFront};
ghost use Rattle.actjoin.specs.Ends.{AreUntouched, AskFor, AskForDemo, HasBadLine, RunEnds, first_bad_text, message_of, status_of, status_text};
ghost use Rattle.actjoin.specs.Demo.{summary};
ghost use Rattle.actjoin.specs.declared.ending.Ending.{Ending};

use crate::demo::demo;
use crate::ending::Ending;
use crate::message::tell;
use act_grid::NoMemory;
use act_io::{Gate, Sink, Source};
use act_join::engine;
use act_words::{Asked, parse_words};
use std::alloc::Global;
use std::thread::Threads;

/// Runs the program on the words of its command line.
fn run<T: Threads + Sync, S: Source, K: Sink, G: Gate>(
    rt: &T,
    alloc: Global,
    words: &[String],
    input: &mut S,
    out: &mut K,
    gate: &G,
) -> Ending
    ensures { RunEnds (map string_bytes words.now) (stream S.left S.faults input.old input.new) (stream K.written K.faults out.old out.new) result }
{
    match parse_words(alloc, words) {
        Ok(Some(Asked::Join(settings))) => {
            Ending::Run(engine(rt, alloc, settings, input, out, gate))
        }
        Ok(Some(Asked::Demo(side, settings))) => {
            Ending::of_demo(demo(rt, alloc, side, settings, out, gate))
        }
        Ok(None) => Ending::Usage,
        Err(NoMemory) => Ending::Unread,
    }
}

/// The whole program: runs `words`, those after the program's name, with the script from `input`,
/// writes its text to `out` and how it ended to `err`, and answers the exit status.
///
/// It returns for every input, an endless one too: each read takes a byte or is the end, and lines
/// and their bytes have limits. A demo makes its script itself and reads nothing. A failure of `err`
/// changes no status.
pub fn act_main<T: Threads + Sync, S: Source, K: Sink, E: Sink, G: Gate>(
    rt: &T,
    alloc: Global,
    words: &[String],
    input: &mut S,
    out: &mut K,
    err: &mut E,
    gate: &G,
) -> u8
    // The status is that of an end of the run, for which `RunEnds` says what holds, and the error
    // output gets its message, or a front of it where the error output failed.
    ensures ran { (ending : Ending) × (result ≡ status_of ending)
        × RunEnds (map string_bytes words.now) (stream S.left S.faults input.old input.new) (stream K.written K.faults out.old out.new) ending
        × GetsOrFails (stream E.written E.faults err.old err.new) (message_of ending) }

    // 1 comes only where the words don't fit. Then it is the answer, or there was no memory to
    // read them, and nothing is read or written.
    ensures unfit { (result ≡ 1 → fits (map string_bytes words.now) ≡ None)
        × (fits (map string_bytes words.now) ≡ None → (result ≡ 1) ⊎ (result ≡ 5)) }
    ensures untouched { fits (map string_bytes words.now) ≡ None
        → AreUntouched (stream S.left S.faults input.old input.new) (stream K.written K.faults out.old out.new) }

    // At 0 the input is read to its end, the script has no bad line, and its whole text was written.
    ensures done { (settings : Settings) (script : List ℕ) → AskFor (map string_bytes words.now) settings → S.left input.old ≡ Some script → result ≡ 0
        → (S.left input.new ≡ Some []) × (bad_line settings.digits script ≡ None) × GetsText settings script (stream K.written K.faults out.old out.new) }

    // At 2 the script has a bad line, and the text of the segments before that of its first was
    // written.
    ensures bad { (settings : Settings) (script : List ℕ) → AskFor (map string_bytes words.now) settings → S.left input.old ≡ Some script → result ≡ 2
        → HasBadLine settings script × GetsText settings script (stream K.written K.faults out.old out.new) }

    // 3 comes only where the input failed in this call. The text of the segments that are closed
    // by the whole lines of what was read was written.
    ensures read { result ≡ 3 → Rose (S.faults input.old) (S.faults input.new) }
    ensures read_text { (settings : Settings) (script : List ℕ) → AskFor (map string_bytes words.now) settings → S.left input.old ≡ Some script → result ≡ 3
        → AnswersRead settings script (S.left input.new) (stream K.written K.faults out.old out.new) }

    // 4 comes only where the output failed in this call.
    ensures write { result ≡ 4 → Rose (K.faults out.old) (K.faults out.new) }

    // Whatever comes, a front of the text was written.
    ensures front { (settings : Settings) (script : List ℕ) → AskFor (map string_bytes words.now) settings → S.left input.old ≡ Some script
        → GetsTextFront settings script (stream K.written K.faults out.old out.new) }

    // Without a fault of input and output the answer is 0 for a script without a bad line and 2
    // for one with, or there was no memory.
    ensures complete { (settings : Settings) (script : List ℕ) → AskFor (map string_bytes words.now) settings → S.left input.old ≡ Some script
        → (Rose (S.faults input.old) (S.faults input.new) → ⊥) → (Rose (K.faults out.old) (K.faults out.new) → ⊥)
        → (bad_line settings.digits script ≡ None → (result ≡ 0) ⊎ (result ≡ 5)) × (HasBadLine settings script → (result ≡ 2) ⊎ (result ≡ 5)) }

    // Words that ask for the demo: the input is left alone, and the answer is 0, 4 or 5.
    ensures demo_unread { (side : ℕ) (settings : Settings) → AskForDemo (map string_bytes words.now) side settings
        → Keeps (S.left input.old) (S.left input.new) × ((result ≡ 0) ⊎ (result ≡ 4) ⊎ (result ≡ 5)) }

    // At 0 the summary was written, and whatever comes, a front of it.
    ensures demo_done { (side : ℕ) (settings : Settings) → AskForDemo (map string_bytes words.now) side settings → result ≡ 0
        → Gets (stream K.written K.faults out.old out.new) (summary side settings) }
    ensures demo_front { (side : ℕ) (settings : Settings) → AskForDemo (map string_bytes words.now) side settings
        → GetsFront (stream K.written K.faults out.old out.new) (summary side settings) }

    // Without a fault of the output the answer is 0, or there was no memory.
    ensures demo_complete { (side : ℕ) (settings : Settings) → AskForDemo (map string_bytes words.now) side settings
        → (Rose (K.faults out.old) (K.faults out.new) → ⊥) → (result ≡ 0) ⊎ (result ≡ 5) }

    // The error output gets the text of the status, which at 2 is that on the first bad line, or a
    // front of it where it failed.
    ensures told { (result ≡ 2 → ⊥) → GetsOrFails (stream E.written E.faults err.old err.new) (status_text result) }
    ensures told_bad { (settings : Settings) (script : List ℕ) → AskFor (map string_bytes words.now) settings → S.left input.old ≡ Some script → result ≡ 2
        → GetsOrFails (stream E.written E.faults err.old err.new) (first_bad_text settings script) }
{
    let ending = run(rt, alloc, words, input, out, gate);
    tell(ending, err);
    ending.status()
}
