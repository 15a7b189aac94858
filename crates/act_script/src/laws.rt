//! What the definitions of lines and texts come to.

ghost use Rattle.act_script.specs.Records.{LinesAreRecords, MarksAreGone, PlainLinesAreSplit};

/// The fields that are read are those of the whole line: `csv` stops nowhere in it, and drops nothing
/// of what is left of it without its marks. It does nothing when it runs.
pub fn lines_are_records()
    ensures records { LinesAreRecords }
    ensures marks { MarksAreGone }
    ensures plain { PlainLinesAreSplit }
{}

ghost use Rattle.act_script.specs.Text.{LeastCountsAreFair};

/// Each script has fair counts for its batches: the least ones. It does nothing when it runs.
pub fn counts_exist()
    ensures { LeastCountsAreFair }
{}

ghost use Rattle.act_script.specs.Turns.{SamplesAreFirstPoints};

/// A training has the first points of all batches of earlier segments, from that of the training before it on.
/// It does nothing when it runs.
pub fn samples_are_first_points()
    ensures { SamplesAreFirstPoints }
{}
