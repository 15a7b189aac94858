//! What is pending: the items that are in no closed segment.

use crate::item::Item;
use crate::lists::{Ids, Points};
use crate::segment::{Batch, Segment, Step, Update};
use act_grid::{Layers, NoMemory, Point};
use std::alloc::Global;
use std::marker::Model;
use std::mem;

/// The points that a batch may have.
pub const MOST_POINTS: usize = 8192;

/// The batches that a segment may have.
pub const MOST_BATCHES: u64 = 64;

/// The updates that a segment may have.
pub const MOST_UPDATES: u64 = 4096;

/// The vertices of shapes with which a segment is full.
pub const FULL_VERTICES: u64 = 1_048_576;

/// The steps of the segment at hand, and the points since the last batch.
#[derive(Drop)]
pub struct Pending {
    alloc: Global,
    steps: Vec<Step>,
    ids: Vec<u64>,
    points: Vec<Point>,
    layers: Layers,
    number: u64,
    // Counts over the steps.
    batches: u64,
    updates: u64,
    vertices: u64,
}

impl Model for Pending {
    ghost use Rattle.act_script.specs.Segments as segments;

    ghost Value = { segments.Pending };

    ghost use Rattle.act_script.specs.Pending.{pending_of, IsPending};

    ghost view = { pending_of };

    ghost invariant = { IsPending };
}

impl Pending {
    ghost use Rattle.std.specs.Prelude.{◌≡◌, ◌<◌, ◌≤◌, ◌^◌, ◌-◌, false, IfOk, IfErr, IfSome, OnOk, OnErr};
    ghost use Rattle.act_script.specs.Segments.{HasThreshold, HaveThresholds, HoldsNothing, ItemHasThreshold, after_segment, closed_segment, cut_batch, is_full, nothing_pending, update_vertices, with_batch, with_item, with_point, with_update};

    pub fn new(alloc: Global) -> Pending
        ensures { result ≡ nothing_pending }
    {
        Pending {
            alloc,
            steps: Vec::new(alloc),
            ids: Vec::new(alloc),
            points: Vec::new(alloc),
            layers: Layers::all(),
            number: 0,
            batches: 0,
            updates: 0,
            vertices: 0,
        }
    }

    /// Lets go of all items.
    fn clear(&mut self)
        ensures nothing { HoldsNothing self.new }
        ensures number { self.new.number ≡ self.old.number }
    {
        self.steps.clear();
        self.ids.clear();
        self.points.clear();
        self.batches = 0;
        self.updates = 0;
        self.vertices = 0;
    }

    /// Whether the segment at hand is to be closed.
    pub fn is_full(&self) -> bool
        ensures { result ≡ is_full self.now }
    {
        self.batches >= MOST_BATCHES
            || self.updates >= MOST_UPDATES
            || self.vertices >= FULL_VERTICES
    }

    /// Makes a batch of the points since the last one, where there are any.
    fn end_batch(&mut self) -> Result<(), NoMemory>
        ensures ok { OnOk result (self.new ≡ with_batch self.old) }
        ensures err { OnErr result (HoldsNothing self.new) }
    {
        if self.points.is_empty() {
            return Ok(());
        }
        let batch = Batch {
            number: self.number + 1,
            ids: Ids::from_vec(mem::replace(&mut self.ids, Vec::new(self.alloc))),
            points: Points::from_vec(mem::replace(&mut self.points, Vec::new(self.alloc))),
            layers: self.layers,
        };
        if self.steps.push(Step::Batch(batch)).is_err() {
            self.clear();
            return Err(NoMemory);
        }
        self.number += 1;
        self.batches += 1;
        Ok(())
    }

    fn add_point(&mut self, id: u64, point: Point) -> Result<(), NoMemory>
        requires { self.old.number < 2 ^ 32 }
        ensures ok { OnOk result (self.new ≡ with_point self.old id point) }
        ensures err { OnErr result (HoldsNothing self.new) }
    {
        if self.ids.push(id).is_err() {
            self.clear();
            return Err(NoMemory);
        }
        if self.points.push(point).is_err() {
            self.ids.clear();
            self.points.clear();
            self.clear();
            return Err(NoMemory);
        }
        Ok(())
    }

    /// Makes a batch of the points since the last one, where they are as many as a batch may have.
    fn cut_batch(&mut self) -> Result<(), NoMemory>
        ensures ok { OnOk result (self.new ≡ cut_batch self.old) }
        ensures err { OnErr result (HoldsNothing self.new) }
    {
        if self.points.len() >= MOST_POINTS {
            return self.end_batch();
        }
        Ok(())
    }

    fn add_update(&mut self, update: Update, vertices: u32) -> Result<(), NoMemory>
        requires few { is_full self.old ≡ false }
        requires vertices { vertices ≡ update_vertices update }
        requires threshold { HasThreshold update }
        ensures ok { OnOk result (self.new ≡ with_update self.old update) }
        ensures err { OnErr result (HoldsNothing self.new) }
    {
        if self.steps.push(Step::Update(update)).is_err() {
            self.clear();
            return Err(NoMemory);
        }
        self.updates += 1;
        self.vertices += u64::from(vertices);
        Ok(())
    }

    fn set_layers(&mut self, set: Layers)
        ensures { self.new ≡ record self.old { layers = set } }
    {
        self.layers = set;
    }

    /// Takes one more item.
    pub fn take(&mut self, item: Item) -> Result<(), NoMemory>
        requires few { is_full self.old ≡ false }
        requires number { self.old.number < 2 ^ 32 }
        requires threshold { ItemHasThreshold item }
        ensures ok { OnOk result (self.new ≡ with_item self.old item) }
        ensures err { OnErr result (HoldsNothing self.new) }
    {
        match item {
            Item::At { id, point } => {
                self.add_point(id, point)?;
                self.cut_batch()
            }
            Item::Zone { key, shape } => {
                let vertices = shape.vertices();
                self.add_update(Update::Add { key, shape }, vertices)
            }
            Item::DropZone { key } => self.add_update(Update::DropZone { key }, 0),
            Item::Replace { key, shape } => {
                let vertices = shape.vertices();
                self.add_update(Update::Replace { key, shape }, vertices)
            }
            Item::Train { threshold } => self.add_update(Update::Train { threshold }, 0),
            Item::Batch => self.end_batch(),
            Item::Layers { set } => {
                self.end_batch()?;
                self.set_layers(set);
                Ok(())
            }
            Item::Sync => Ok(()),
        }
    }

    /// Closes the segment at hand. Nothing is given where it has no step.
    pub fn close(&mut self) -> Result<Option<Segment>, NoMemory>
        ensures given { IfOk result (λ segment. segment ≡ closed_segment self.old) }
        ensures thresholds { IfOk result (λ segment. IfSome segment HaveThresholds) }
        ensures ok { OnOk result (self.new ≡ after_segment self.old) }
        ensures err { OnErr result (HoldsNothing self.new) }
    {
        self.end_batch()?;
        if self.steps.is_empty() {
            return Ok(None);
        }
        let steps = mem::replace(&mut self.steps, Vec::new(self.alloc));
        self.batches = 0;
        self.updates = 0;
        self.vertices = 0;
        Ok(Some(Segment::from_vec(steps)))
    }
}
