//! Laws of leaves and histories, each the contract of a function that does nothing.

ghost use Rattle.act_super.specs.Histories.{StateHasZones, TrainingChangesNoZone};
ghost use Rattle.act_super.specs.Stands.{BlankStands};
ghost use Rattle.act_super.specs.Laws.{LeafHoldsPoint, OneLeafHoldsPoint, ReferencesAnswer, TrainingIsBounded};

/// For each grid point of a cell, whichever cells are split, the cell's true hits and those of its candidates that hold
/// the point are exactly the zones that hold it.
pub fn references_answer()
    ensures { ReferencesAnswer }
{}

/// The leaf of a point is a leaf that holds the point, and no other leaf holds it.
pub fn leaf_holds_point()
    ensures holds { LeafHoldsPoint }
    ensures one { OneLeafHoldsPoint }
{}

/// The zones after a history are those after its updates alone: training changes no zone.
pub fn training_changes_no_zone()
    ensures state { StateHasZones }
    ensures updates { TrainingChangesNoZone }
{}

/// One row of zeros is an image of no zones.
pub fn blank_image_stands()
    ensures { BlankStands }
{}

/// Under any trained cells between some and more, the rows exceed those under the first by at most five for each cell
/// that is split under the last and not under the first.
pub fn training_is_bounded()
    ensures { TrainingIsBounded }
{}
