//! Laws of touching and of classes, each the contract of a function that does nothing.

ghost use Rattle.act_geom.specs.Laws.{PureCellHasOneAnswer, InsideAnswers, OutsideAnswers};
ghost use Rattle.act_geom.specs.Laws.{TouchingGoesUp, ClassGoesDown};

/// Where no edge of a shape touches a cell, all its grid points are inside or none is.
pub fn pure_cell_has_one_answer()
    ensures { PureCellHasOneAnswer }
{}

/// The class of a box answers for its grid points, unless it is Mixed.
pub fn class_answers_for_points()
    ensures inside { InsideAnswers }
    ensures outside { OutsideAnswers }
{}

/// An edge that touches a box touches each box in which that one lies.
pub fn touching_goes_up()
    ensures { TouchingGoesUp }
{}

/// What is Inside or Outside on a box is so on each box in it.
pub fn class_goes_down()
    ensures { ClassGoesDown }
{}
