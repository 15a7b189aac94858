//! Prepared changes.

use crate::marks::Marks;
use crate::standing::Standing;
use act_geom::{Class, Shape};
use act_grid::Cell;
use std::marker::Model;

#[derive(Drop)]
pub(crate) enum Change {
    Add(u32, Standing),
    DropZone(u32),
    Replace(u32, Standing),
    // The trained cells from this place on are new.
    Train(usize),
}

/// A change that was prepared on a state, and is made by its `commit`. Contracts see its entry, and the trained cells and
/// the Size after it.
#[derive(Drop)]
pub struct Next {
    pub(crate) change: Change,
    // The trained cells of the state after it.
    pub(crate) marks: Marks,
    // The Size of the state after it, and what that is with no trained cell.
    pub(crate) size: u64,
    pub(crate) plain: u64,
    // For how many cells the Level was taken.
    pub(crate) cells: u32,
}

impl Model for Next {
    ghost use Rattle.act_super.specs.States.{Prepared};
    ghost use Rattle.act_super.specs.Changes.{entry_of};
    ghost use Rattle.std.specs.Prelude.{◌≤◌, length};
    ghost use Rattle.act_super.specs.Sound.{IsLevelled};
    ghost use Rattle.act_super.specs.Training.{most_trained};

    ghost Value = { Prepared };

    ghost view = { λ n. record { entry = entry_of n.change n.marks; trained = n.marks; size = n.size; plain = n.plain; cells = n.cells } };

    ghost invariant = { λ n. IsLevelled n.cells n.marks n.change × (length n.marks ≤ most_trained) };
}

impl Next {
    ghost use Rattle.std.specs.Prelude.{◌≡◌, Option, Some, None};
    ghost use Rattle.std.specs.Option.{option_copied};
    ghost use Rattle.act_super.specs.Changes.{class_given};
    ghost use Rattle.act_super.specs.States.{key_of, shape_of, split_of};

    /// The Size of the state after the change.
    pub fn size(&self) -> u64
        ensures { result ≡ self.now.size }
    {
        self.size
    }

    /// The key of the zone that is added, dropped or replaced. None comes exactly for a training.
    pub fn key(&self) -> Option<u32>
        ensures { result ≡ key_of self.now.entry }
    {
        match &self.change {
            Change::Add(key, _) => Some(*key),
            Change::DropZone(key) => Some(*key),
            Change::Replace(key, _) => Some(*key),
            Change::Train(_) => None,
        }
    }

    /// How many cells a training adds, and 0 for any other change.
    pub fn split(&self) -> u32
        ensures { result ≡ split_of self.now.entry }
    {
        match &self.change {
            Change::Train(from) => (self.marks.as_slice().len() - *from) as u32,
            _ => 0,
        }
    }

    /// The trained cells of the state after the change, in the order of their training.
    pub fn trained(&self) -> &[Cell]
        ensures { result.now ≡ self.now.trained }
    {
        self.marks.as_slice()
    }

    /// How the shape that is added, or that replaces another, lies on the cell. None comes exactly where there is none. A
    /// cell apart from the box of the shape or around it takes constant time.
    pub fn class_on(&self, cell: Cell) -> Option<Class>
        ensures { result ≡ class_given (shape_of self.now.entry) cell }
    {
        match &self.change {
            Change::Add(_, zone) => Some(zone.class_on(cell, cell.hull())),
            Change::DropZone(_) => None,
            Change::Replace(_, zone) => Some(zone.class_on(cell, cell.hull())),
            Change::Train(_) => None,
        }
    }

    /// The shape that is added or that replaces another. None comes exactly where there is none.
    pub fn shape(&self) -> Option<&Shape>
        ensures { option_copied result ≡ shape_of self.now.entry }
    {
        match &self.change {
            Change::Add(_, zone) => Some(&zone.shape),
            Change::DropZone(_) => None,
            Change::Replace(_, zone) => Some(&zone.shape),
            Change::Train(_) => None,
        }
    }

    /// Gives the shape back, where there is one.
    pub fn into_shape(self) -> Option<Shape>
        ensures { result ≡ shape_of self.entry }
    {
        let Next {
            change,
            marks: _marks,
            ..
        } = self;
        match change {
            Change::Add(_, zone) => Some(zone.shape),
            Change::DropZone(_) => None,
            Change::Replace(_, zone) => Some(zone.shape),
            Change::Train(_) => None,
        }
    }
}
