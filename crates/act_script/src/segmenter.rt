//! Items as segments.

use crate::item::Item;
use crate::pending::Pending;
use crate::segment::Segment;
use act_grid::NoMemory;
use std::alloc::Global;
use std::marker::Model;

/// Groups the items of a script into batches and segments.
#[derive(Drop)]
pub struct Segmenter {
    pending: Pending,
}

// Clauses see what is pending.
impl Model for Segmenter {
    ghost use Rattle.std.specs.Prelude.{◌≡◌, false};
    ghost use Rattle.act_script.specs.Segments as segments;

    ghost Value = { segments.Pending };

    ghost view = { λ s. s.pending };

    ghost invariant = { λ s. segments.is_full s.pending ≡ false };
}

impl Segmenter {
    ghost use Rattle.std.specs.Prelude.{◌≡◌, ◌<◌, ◌≤◌, ◌+◌, ◌^◌, IfOk, IfSome, OnOk, OnErr};
    ghost use Rattle.act_script.specs.Segments.{HaveThresholds, HoldsNothing, ItemHasThreshold, after_segment, closed_segment, given_by, nothing_pending, pending_by};

    /// A segmenter before the first item.
    pub fn new(alloc: Global) -> Segmenter
        ensures { result ≡ nothing_pending }
    {
        Segmenter {
            pending: Pending::new(alloc),
        }
    }

    /// Takes one more item, and gives the segment that it closes, where that has a step. Points go into
    /// buffers that grow; a batch takes them whole.
    pub fn push(&mut self, item: Item) -> Result<Option<Segment>, NoMemory>
        requires number { self.old.number < 2 ^ 32 }
        requires threshold { ItemHasThreshold item }
        ensures given { IfOk result (λ segment. segment ≡ given_by self.old item) }
        ensures thresholds { IfOk result (λ segment. IfSome segment HaveThresholds) }
        ensures ok { OnOk result (self.new ≡ pending_by self.old item) }
        ensures number { OnOk result (self.new.number ≤ self.old.number + 1) }
        ensures err { OnErr result (HoldsNothing self.new) }
    {
        let sync = is_sync(&item);
        self.pending.take(item)?;
        if sync || self.pending.is_full() {
            self.pending.close()
        } else {
            Ok(None)
        }
    }

    /// Takes the end of the script, and gives the last segment, where it has a step.
    pub fn finish(&mut self) -> Result<Option<Segment>, NoMemory>
        ensures given { IfOk result (λ segment. segment ≡ closed_segment self.old) }
        ensures thresholds { IfOk result (λ segment. IfSome segment HaveThresholds) }
        ensures ok { OnOk result (self.new ≡ after_segment self.old) }
        ensures err { OnErr result (HoldsNothing self.new) }
    {
        self.pending.close()
    }
}

ghost use Rattle.std.specs.Prelude.{◌≡◌};
ghost use Rattle.act_script.specs.Segments.{is_sync};

fn is_sync(item: &Item) -> bool
    ensures { result ≡ is_sync item.now }
{
    match item {
        Item::Sync => true,
        _ => false,
    }
}
