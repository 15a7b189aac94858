//! How a run of the program ends.

ghost use Rattle.std.specs.Prelude.{◌≡◌};

use act_join::{Ended, SegmentFault};

/// Every end of a run of the program.
#[derive(Clone, Copy, Debug, PartialEq, Eq)]
pub enum Ending {
    /// The words don't fit.
    Usage,
    /// There was no memory to read the words.
    Unread,
    /// The words fit, and the run of the script ended so.
    Run(Ended),
    /// The words fit, and the summary of the demo was written.
    Shown,
    /// The words fit, and the demo stopped so before its summary was written whole.
    Unshown(SegmentFault),
}

impl Ending {
    ghost use Rattle.actjoin.specs.Ends.{end_of_demo, status_of};

    /// The exit status.
    pub fn status(self) -> u8
        ensures { result ≡ status_of self }
    {
        match self {
            Ending::Run(Ended::Done) | Ending::Shown => 0,
            Ending::Usage => 1,
            Ending::Run(Ended::BadLine { .. }) => 2,
            Ending::Run(Ended::ReadFault) => 3,
            Ending::Run(Ended::WriteFault) | Ending::Unshown(SegmentFault::WriteFault) => 4,
            Ending::Run(Ended::NoMemory) | Ending::Unshown(SegmentFault::NoMemory) => 5,
            Ending::Unread => 5,
        }
    }

    /// The end of a run of the demo.
    pub fn of_demo(shown: Result<(), SegmentFault>) -> Ending
        ensures { result ≡ end_of_demo shown }
    {
        match shown {
            Ok(()) => Ending::Shown,
            Err(fault) => Ending::Unshown(fault),
        }
    }
}
