//! The items of a script.

use act_geom::Shape;
use act_grid::{Layers, Point};

/// What a line says.
#[derive(Debug, Drop)]
pub enum Item {
    /// A zone comes to stand.
    Zone { key: u32, shape: Shape },
    /// A zone stands no more.
    DropZone { key: u32 },
    /// A zone that stands gets another shape.
    Replace { key: u32, shape: Shape },
    /// Cells that are costly for the sample, with a cost of the threshold or more, are trained. The threshold is above 0.
    Train { threshold: u32 },
    /// A point with its id.
    At { id: u64, point: Point },
    /// The points so far are a batch.
    Batch,
    /// The updates so far come before the batches that follow.
    Sync,
    /// The batches that follow look at the zones of these layers.
    Layers { set: Layers },
}
