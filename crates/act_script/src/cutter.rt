//! Cutting a script into lines.

ghost use Rattle.std.specs.Prelude.{◌≡◌, ◌≤◌, [], Some, length, drop, slice_range};
ghost use Rattle.act_script.specs.Lines.{without_return};
ghost use Rattle.act_script.specs.Cutting.{IsLineLen, unmarked};

use memchr::memchr;
use std::alloc::Global;
use std::marker::Model;
use std::mem;

/// The bytes that a line may have before its line feed, a carriage return with them. A byte order
/// mark at the start of the script doesn't count.
pub const MOST_BYTES: usize = 16_777_216;

/// The lines that a script may have.
pub const MOST_LINES: u32 = 4_294_967_295;

/// Why no line was cut.
#[derive(Clone, Copy, Debug, PartialEq, Eq)]
pub enum CutFault {
    /// The line has more than `MOST_BYTES` bytes.
    LineLong,
    /// It is a line past the last that a script may have.
    Lines,
    /// There was not memory enough.
    NoMemory,
}

/// How much of a piece was taken.
#[derive(Clone, Copy, Debug, PartialEq, Eq)]
pub struct Taken {
    /// The bytes that were taken, from the start of the piece.
    pub used: usize,
    /// Whether they end a line.
    pub line: bool,
}

/// Cuts a script into lines while its bytes come.
#[derive(Drop)]
pub struct Cutter {
    // The bytes of the line at hand, a byte order mark with them.
    held: Vec<u8>,
    // The bytes of the line that ended last, and where in them it stands.
    ended: Vec<u8>,
    start: usize,
    end: usize,
    number: u32,
    fault: Option<CutFault>,
}

// Clauses see where it stands.
impl Model for Cutter {
    ghost use Rattle.act_script.specs.Cutting.{Cutting};

    ghost Value = { Cutting };

    ghost use Rattle.act_script.specs.Cutter.{cutting_of, IsCutter};

    ghost view = { cutting_of };

    ghost invariant = { IsCutter };
}

impl Cutter {
    ghost use Rattle.std.specs.Prelude.{◌≡◌, ◌≤◌, ◌+◌, ℕ, List, [], None, Some, IfOk, IfErr, IfSome, OnOk, Err, length};
    ghost use Rattle.act_script.specs.Cutting.{IsCause, IsInLimits, IsOpen, TakesEnd, TakesPart, to_come, turns};
    ghost use Rattle.act_script.specs.Lines.{script_lines};

    /// A cutter before the first byte of a script.
    pub fn new(alloc: Global) -> Cutter
        ensures start { result ≡ record { number = 0; held = []; line = []; fault = None } }
        ensures all { (script : List ℕ) → to_come result script ≡ script_lines script }
    {
        Cutter {
            held: Vec::new(alloc),
            ended: Vec::new(alloc),
            start: 0,
            end: 0,
            number: 0,
            fault: None,
        }
    }

    /// Takes bytes of a piece up to the end of the next line or of the piece. It copies them, so a
    /// byte costs the same however the script is cut.
    pub fn take(&mut self, piece: &[u8]) -> Result<Taken, CutFault>
        ensures takes { IfOk result (λ taken. TakesPart self.old piece.now taken self.new) }
        ensures limits { OnOk result (IsInLimits self.new) }
        ensures turns { IfOk result (λ taken. turns self.new + taken.used ≤ turns self.old) }
        ensures cause { IfErr result (λ why. IsCause self.old piece.now why) }
        // The same fault is answered from then on.
        ensures fault { IfErr result (λ why. (self.new.fault ≡ Some why) × (self.new.number ≡ self.old.number)) }
        ensures same { IfSome self.old.fault (λ why. (result ≡ Err why) × (self.new ≡ self.old)) }
    {
        if let Some(fault) = self.fault {
            return Err(fault);
        }
        if piece.is_empty() {
            return Ok(Taken {
                used: 0,
                line: false,
            });
        }
        if self.number == MOST_LINES {
            return Err(stop(&mut self.held, &mut self.fault, CutFault::Lines));
        }
        let size = line_len(piece);
        if self.held.extend_from_slice(&piece[..size]).is_err() {
            return Err(stop(&mut self.held, &mut self.fault, CutFault::NoMemory));
        }
        let start = mark_len(self.number, &self.held);
        if self.held.len() - start > MOST_BYTES {
            return Err(stop(&mut self.held, &mut self.fault, CutFault::LineLong));
        }
        if size == piece.len() {
            return Ok(Taken {
                used: size,
                line: false,
            });
        }
        self.start = start;
        self.end = line_end(&self.held, start);
        mem::swap(&mut self.held, &mut self.ended);
        self.held.clear();
        self.number += 1; // A blank line counts.
        Ok(Taken {
            used: size + 1,
            line: true,
        })
    }

    /// Takes the end of the script. True comes exactly where bytes are left, which are then the last
    /// line.
    pub fn finish(&mut self) -> Result<bool, CutFault>
        ensures takes { IfOk result (λ left. TakesEnd self.old left self.new) }
        ensures fault { IfErr result (λ why. (self.old.fault ≡ Some why) × (self.new ≡ self.old)) }
        ensures same { IfSome self.old.fault (λ why. result ≡ Err why) }
    {
        if let Some(fault) = self.fault {
            return Err(fault);
        }
        let start = mark_len(self.number, &self.held);
        if self.held.len() == start {
            return Ok(false);
        }
        self.start = start;
        self.end = line_end(&self.held, start);
        mem::swap(&mut self.held, &mut self.ended);
        self.held.clear();
        self.number += 1;
        Ok(true)
    }

    /// The line that ended last, without its ending.
    pub fn line(&self) -> &[u8]
        ensures line { result.now ≡ self.now.line }
        ensures short { length result.now ≤ MOST_BYTES }
        ensures one { IsOpen result.now }
    {
        part(&self.ended, self.start, self.end)
    }

    /// The number of the line that ended last, counted from 1.
    pub fn number(&self) -> u32
        ensures { result ≡ self.now.number }
    {
        self.number
    }
}

/// The bytes from one place up to another.
fn part(bytes: &[u8], start: usize, end: usize) -> &[u8]
    requires order { start ≤ end }
    requires within { end ≤ length bytes.now }
    ensures { result.now ≡ slice_range bytes.now start end }
{
    &bytes[start..end]
}

/// Keeps why no more lines are cut, and lets go of the line at hand.
fn stop(held: &mut Vec<u8>, fault: &mut Option<CutFault>, why: CutFault) -> CutFault
    ensures held { held.new.items ≡ [] }
    ensures fault { fault.new ≡ Some why }
    ensures same { result ≡ why }
{
    held.clear();
    *fault = Some(why);
    why
}

/// How many bytes stand before the first line feed, or in all where there is none.
fn line_len(piece: &[u8]) -> usize
    ensures { IsLineLen piece.now result }
{
    match memchr(b'\n', piece) {
        Some(at) => at,
        None => piece.len(),
    }
}

/// How many bytes of a line with this many lines before it are a byte order mark.
fn mark_len(number: u32, bytes: &[u8]) -> usize
    ensures rest { unmarked number bytes.now ≡ drop result bytes.now }
    ensures few { result ≤ 3 }
    ensures within { result ≤ length bytes.now }
{
    if number == 0 && bytes.len() >= 3 && bytes[0] == 0xEF && bytes[1] == 0xBB && bytes[2] == 0xBF {
        3
    } else {
        0
    }
}

/// Where a line ends that begins at a place, without its carriage return.
fn line_end(bytes: &[u8], start: usize) -> usize
    requires { start ≤ length bytes.now }
    ensures line { slice_range bytes.now start result ≡ without_return (drop start bytes.now) }
    ensures order { start ≤ result }
    ensures within { result ≤ length bytes.now }
{
    let end = bytes.len();
    if end > start && bytes[end - 1] == b'\r' {
        end - 1
    } else {
        end
    }
}
