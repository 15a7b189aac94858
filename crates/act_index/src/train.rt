//! Training.

ghost use Rattle.std.specs.Prelude.{◌≡◌, ◌+◌, ◌*◌, ◌≤◌, IfOk, IfErr, length};
ghost use Rattle.act_image.specs.Fresh.{fresh_rows};
ghost use Rattle.act_super.specs.declared.entry.Entry.TheVariants.{Train};
ghost use Rattle.act_super.specs.Training.{trained_more};
ghost use Rattle.act_index.specs.Calls.{IsLeft, IsTrained, IsUntrained};

use crate::carry::carry;
use crate::done::{Done, Refused};
use crate::writer::Writer;
use act_base::Steps;
use act_grid::Point;
use std::sync::ledger::Ledger;

impl Writer {
    /// Trains with a sample of at most 65,536 points: the leaves whose cost is at least the threshold become smaller,
    /// the costliest first and as many as fit, by one entry. Where none does, there is no entry and no version, and the
    /// answer has split 0. The zones stay. It is refused for `Versions`, `NoMemory` and `Held` alone; no word was stored
    /// then, and the history, the state and the image are as before.
    pub fn train<L: Ledger>(
        &mut self,
        sample: &[Point],
        threshold: u32,
        steps: &mut Steps<L>,
    ) -> Result<Done, Refused>
        requires threshold { 1 ≤ threshold }
        requires few { length sample.now ≤ 65536 }
        ensures ok { IfOk result (λ done. IsTrained self.old self.new (trained_more self.old.settings self.old.state sample.now threshold) done) }
        ensures ticks { IfOk result (λ _. steps.new ≤ steps.old + 256 * fresh_rows self.old.settings self.old.state (Train (trained_more self.old.settings self.old.state sample.now threshold))) }
        ensures err { IfErr result (λ why. IsUntrained self.old self.new (trained_more self.old.settings self.old.state sample.now threshold) why) }
        ensures left { IfErr result (λ _. IsLeft self.old self.new × (steps.new ≡ steps.old)) }
        ensures table { self.new.table ≡ self.old.table }
    {
        let Ok(next) = self.plain.prepare_train(self.alloc, sample, threshold) else {
            return Err(Refused::NoMemory);
        };
        let split = next.split();
        if split == 0 {
            return Ok(Done {
                version: self.master.version(),
                updates: self.updates,
                split: 0,
            });
        }
        let carried = carry(
            self.alloc,
            &mut self.master,
            &mut self.plain,
            &mut self.image,
            &mut self.pool,
            next,
            steps,
        );
        let version = match carried {
            Ok(version) => version,
            Err(stopped) => return Err(stopped.why),
        };
        Ok(Done {
            version,
            updates: self.updates,
            split,
        })
    }
}
