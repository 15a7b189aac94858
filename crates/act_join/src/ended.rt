//! How a run of a whole script ends.

use act_script::{CutFault, LineFault};

/// Why a line of a script is bad.
#[derive(Clone, Copy, Debug, PartialEq, Eq)]
pub enum ScriptFault {
    /// The line says no item.
    Line(LineFault),
    /// The line was not cut.
    Cut(CutFault),
}

/// Every end of a run of a script.
#[derive(Clone, Copy, Debug, PartialEq, Eq)]
pub enum Ended {
    /// The script was read to its end, and all of its text was written.
    Done,
    /// The first bad line has this number, from 1, and this fault, which is not want of memory.
    BadLine { line: u32, fault: ScriptFault },
    /// The input has failed.
    ReadFault,
    /// The output has failed.
    WriteFault,
    /// There was not memory enough.
    NoMemory,
}
