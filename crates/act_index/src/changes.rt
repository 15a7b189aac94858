//! A list of changes, applied in order up to the first refusal.

ghost use Rattle.std.specs.Prelude.{◌≡◌};

use crate::done::Refused;
use crate::writer::Writer;
use act_base::Steps;
use act_geom::Shape;
use std::collections::VecDeque;
use std::marker::Model;
use std::sync::ledger::Ledger;

/// A change of the zones.
#[derive(Drop)]
pub enum Change {
    /// A zone is added.
    Add { key: u32, shape: Shape },
    /// A zone is dropped.
    DropZone { key: u32 },
    /// A standing zone gets another shape.
    Replace { key: u32, shape: Shape },
}

/// A list of changes. Contracts see it as the list.
#[derive(Drop)]
pub struct Changes {
    changes: Vec<Change>,
}

impl Model for Changes {
    ghost use Rattle.std.specs.Prelude.{List};
    ghost use Rattle.act_index.specs.declared.changes.Change.{Change};

    ghost Value = { List Change };

    ghost view = { λ c. c.changes.items };
}

impl Changes {
    ghost use Rattle.std.specs.Borrow.{sem};
    ghost use Rattle.act_index.specs.Lending.{LendsChanges};

    /// The changes of the vector.
    pub fn from_vec(items: Vec<Change>) -> Changes
        ensures { result ≡ items.items }
    {
        Changes { changes: items }
    }

    /// The vector of the changes.
    pub fn into_vec(self) -> Vec<Change>
        ensures { result.items ≡ self }
    {
        self.changes
    }

    /// The changes, for reading.
    pub fn as_slice(&self) -> &[Change]
        ensures { result.now ≡ self.now }
    {
        &self.changes
    }

    /// The vector, for changes. The list is what is left in it.
    pub fn vec_mut(&mut self) -> &mut Vec<Change>
        ensures* writes_back { sem 𝓛 (LendsChanges self.entry result) }
        ensures value { result.now.items ≡ self.old }
    {
        &mut self.changes
    }
}

/// What became of a list of changes.
#[derive(Drop)]
pub struct Applied {
    /// How many of the changes were made, the first ones.
    pub done: u32,
    /// Why the next one was refused. None comes exactly where all were made.
    pub stopped: Option<Refused>,
    /// The changes from the refused one on.
    pub rest: Changes,
}

// A change that was refused.
#[derive(Drop)]
struct Back {
    why: Refused,
    change: Change,
}

impl Writer {
    ghost use Rattle.std.specs.Prelude.{◌<◌, ◌^◌, length, OnOk, IfErr};
    ghost use Rattle.act_index.specs.Calls.{IsGrown, IsLeft, IsRefused};
    ghost use Rattle.act_index.specs.Runs.{IsApplied, entry_of};

    // Makes one change, or gives it back.
    fn change<L: Ledger>(&mut self, change: Change, steps: &mut Steps<L>) -> Result<(), Back>
        ensures ok { OnOk result (IsGrown self.old self.new (entry_of change)) }
        ensures err { IfErr result (λ back. (back.change ≡ change) × IsLeft self.old self.new × IsRefused self.old self.new (entry_of change) back.why) }
    {
        match change {
            Change::Add { key, shape } => {
                if let Err(turned) = self.add(key, shape, steps) {
                    return Err(Back {
                        why: turned.why,
                        change: Change::Add {
                            key,
                            shape: turned.shape,
                        },
                    });
                }
            }
            Change::DropZone { key } => {
                if let Err(why) = self.drop_zone(key, steps) {
                    return Err(Back {
                        why,
                        change: Change::DropZone { key },
                    });
                }
            }
            Change::Replace { key, shape } => {
                if let Err(turned) = self.replace(key, shape, steps) {
                    return Err(Back {
                        why: turned.why,
                        change: Change::Replace {
                            key,
                            shape: turned.shape,
                        },
                    });
                }
            }
        }
        Ok(())
    }

    /// Applies changes in order, as `add`, `drop_zone` and `replace` do, up to the first refusal. It takes no memory
    /// of its own.
    pub fn apply<L: Ledger>(&mut self, changes: Changes, steps: &mut Steps<L>) -> Applied
        requires { length changes < 2 ^ 32 }
        ensures { IsApplied self.old self.new changes result.done result.stopped result.rest }
    {
        let mut waiting = VecDeque::from_vec(changes.into_vec());
        let count = waiting.len();
        for at in 0..count {
            let Some(change) = waiting.pop_front() else {
                unreachable!()
            };
            if let Err(back) = self.change(change, steps) {
                let Ok(()) = waiting.push_front(back.change) else {
                    unreachable!()
                };
                return Applied {
                    done: at as u32,
                    stopped: Some(back.why),
                    rest: Changes::from_vec(Vec::from(waiting)),
                };
            }
        }
        Applied {
            done: count as u32,
            stopped: None,
            rest: Changes::from_vec(Vec::from(waiting)),
        }
    }
}
