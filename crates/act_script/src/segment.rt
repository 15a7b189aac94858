//! Segments of a script: updates and batches of points.

use crate::lists::{Ids, Points};
use act_geom::Shape;
use act_grid::Layers;
use std::marker::Model;

/// A change of the zones, or a training.
#[derive(Debug, Drop)]
pub enum Update {
    /// A zone comes to stand.
    Add { key: u32, shape: Shape },
    /// A zone stands no more.
    DropZone { key: u32 },
    /// A zone that stands gets another shape.
    Replace { key: u32, shape: Shape },
    /// Cells whose cost for the sample is the threshold or more are trained. The threshold is above 0.
    Train { threshold: u32 },
}

/// Points that are joined with the zones together.
#[derive(Debug, Drop)]
pub struct Batch {
    /// Counted from 1 over the whole script.
    pub number: u64,
    /// The ids of the points, one for each.
    pub ids: Ids,
    pub points: Points,
    /// The layers whose zones are looked at.
    pub layers: Layers,
}

/// What is done in a segment.
#[derive(Debug, Drop)]
pub enum Step {
    Update(Update),
    Batch(Batch),
}

/// The steps that are run together, in the order of the script.
#[derive(Debug, Drop)]
pub struct Segment {
    steps: Vec<Step>,
}

impl Model for Segment {
    ghost use Rattle.std.specs.Prelude.{List};
    ghost use Rattle.act_script.specs.declared.segment.Step.{Step};

    ghost Value = { List Step };

    ghost view = { λ segment. segment.steps.items };
}

impl Segment {
    ghost use Rattle.std.specs.Prelude.{◌≡◌};
    ghost use Rattle.std.specs.Borrow.{Lends, sem};
    ghost use Rattle.std.specs.contracts.alloc.Global as global;
    ghost use Rattle.std.specs.contracts.vec.Vec as vec;
    ghost use Rattle.std.specs.contracts.impls.GlobalAllocator.TheImpl.{ghosts};
    ghost use Rattle.act_script.specs.contracts.segment.Step as step;
    ghost use Rattle.act_script.specs.contracts.segment.Segment.{the_row};

    /// The segment of these steps. It takes constant time.
    pub fn from_vec(steps: Vec<Step>) -> Segment
        ensures { result ≡ steps.items }
    {
        Segment { steps }
    }

    /// The steps.
    pub fn into_vec(self) -> Vec<Step>
        ensures { result.items ≡ self }
    {
        self.steps
    }

    pub fn as_slice(&self) -> &[Step]
        ensures { result.now ≡ self.now }
    {
        &self.steps
    }

    /// The steps, to be changed in place.
    pub fn vec_mut(&mut self) -> &mut Vec<Step>
        ensures* writes_back { sem 𝓛 (Lends the_row (vec.the_row step.the_row global.the_row ghosts) self.entry result (λ v. v.items)) }
        ensures shows { result.now.items ≡ self.old }
    {
        &mut self.steps
    }
}
