//! The writer of the zones.

ghost use Rattle.std.specs.Prelude.{◌≡◌, IsSome, Some};
ghost use Rattle.act_rows.specs.History.{Begins};
ghost use Rattle.act_rows.specs.Updates.{returned};
ghost use Rattle.act_super.specs.States.{shape_of};

use crate::carry::carry;
use crate::done::{Done, Refused, Turned, refused_by};
use crate::put::Zones;
use crate::reader::Reader;
use act_base::Steps;
use act_geom::Shape;
use act_grid::{NoMemory, Settings};
use act_image::Image;
use act_pool::Pool;
use act_probe::Buffers;
use act_rows::{Master, NoPin, new};
use act_super::{Next, Super};
use std::alloc::Global;
use std::marker::Model;
use std::sync::ledger::Ledger;

/// A token of the history so far, by which a reader learns of it.
pub type Note = act_rows::Note<Zones>;

/// The writer of an index. There is one for each.
#[derive(Drop)]
pub struct Writer {
    pub(crate) alloc: Global,
    pub(crate) master: Master<Zones>,
    pub(crate) plain: Super,
    pub(crate) image: Image,
    pub(crate) pool: Pool,
    // How many adds, drops and replaces the history has.
    pub(crate) updates: u64,
    // The buffers of readers that came back. The next ones to be lent answer in them.
    spare: Vec<Buffers>,
}

impl Model for Writer {
    ghost use Rattle.std.specs.Prelude.{◌≡◌, ◌≤◌};
    ghost use Rattle.act_index.specs.Codes.{updates_in};
    ghost use Rattle.act_index.specs.Whole.{Writing, IsWhole, parts};

    ghost Value = { Writing };

    ghost view = { λ w. parts w.master w.plain w.image w.pool };

    ghost invariant = { λ w. record {
      whole : IsWhole (parts w.master w.plain w.image w.pool);
      updates : w.updates ≡ updates_in w.master.desk.history;
      pins : w.master.desk.pins ≤ 64;
    } };
}

// The shape of an add or a replace that wasn't made.
fn shape_again(next: Next) -> Shape
    requires { IsSome (shape_of next.entry) }
    ensures { shape_of next.entry ≡ Some result }
{
    let Some(shape) = next.into_shape() else {
        unreachable!()
    };
    shape
}

// Takes a reader back, and gives its buffers.
fn take_back(master: &mut Master<Zones>, reader: Reader) -> Buffers
    requires { reader.table ≡ master.old.table }
    ensures same { (master.new.table ≡ master.old.table) × (master.new.desk ≡ returned master.old.desk reader.ticket) }
    ensures begins { Begins reader.ticket.seen master.old.desk.history }
{
    let Reader { guest, buffers } = reader;
    let Some(guest) = guest else { unreachable!() };
    master.give_back(guest);
    buffers
}

impl Writer {
    ghost use Rattle.std.specs.Prelude.{◌≡◌, ◌+◌, ◌*◌, ◌<◌, ◌≤◌, IfOk, IfErr};
    ghost use Rattle.act_rows.specs.Bounds.{lowest};
    ghost use Rattle.act_rows.specs.First.{first_desk};
    ghost use Rattle.act_rows.specs.History.{Begins};
    ghost use Rattle.act_rows.specs.Updates.{lent, newcomer, returned};
    ghost use Rattle.act_rows.specs.Versions.{newest};
    ghost use Rattle.act_image.specs.Fresh.{fresh_rows};
    ghost use Rattle.act_super.specs.States.{nothing};
    ghost use Rattle.act_super.specs.declared.entry.Entry.TheVariants.{Add, DropZone, Replace};
    ghost use Rattle.act_index.specs.Calls.{IsDone, IsGrown, IsLeft, IsRefused};
    ghost use Rattle.act_index.specs.Codes.{updates_in};
    ghost use Rattle.act_index.specs.Whole.{IsWhole};

    /// A writer at version 0, which has no zones, for so many readers at once. It takes the memory of all rows.
    pub fn new(alloc: Global, settings: Settings, pins: u32) -> Result<Writer, NoMemory>
        requires { (0 < pins) × (pins ≤ 64) }
        ensures desk { IfOk result (λ w. w.desk ≡ first_desk (record { rows = settings.rows; pins = pins })) }
        ensures state { IfOk result (λ w. (w.settings ≡ settings) × (w.state ≡ nothing)) }
    {
        let image = Image::new(alloc)?;
        let plain = Super::new(alloc, settings);
        let pool = Pool::new(alloc, 2 * settings.rows)?;
        let spare = Vec::with_capacity(alloc, pins as usize)?;
        let master = new(alloc, settings.rows, pins)?;
        Ok(Writer {
            alloc,
            master,
            plain,
            image,
            pool,
            updates: 0,
            spare,
        })
    }

    /// The current version: how many entries the history has.
    pub fn version(&self) -> u64
        ensures version { result ≡ newest self.now.desk }
        ensures whole { IsWhole self.now }
    {
        self.master.version()
    }

    /// How many adds, drops and replaces the history has.
    pub fn updates(&self) -> u64
        ensures { result ≡ updates_in self.now.desk.history }
    {
        self.updates
    }

    /// Adds a zone. After an `Err` no word was stored, and the history, the state and the image are as before.
    pub fn add<L: Ledger>(
        &mut self,
        key: u32,
        shape: Shape,
        steps: &mut Steps<L>,
    ) -> Result<Done, Turned>
        ensures ok { IfOk result (λ done. IsGrown self.old self.new (Add key shape) × IsDone self.new 0 done) }
        ensures ticks { IfOk result (λ _. steps.new ≤ steps.old + 256 * fresh_rows self.old.settings self.old.state (Add key shape)) }
        ensures err { IfErr result (λ turned. (turned.shape ≡ shape) × IsRefused self.old self.new (Add key shape) turned.why) }
        ensures left { IfErr result (λ _. IsLeft self.old self.new × (steps.new ≡ steps.old)) }
        ensures table { self.new.table ≡ self.old.table }
    {
        let next = match self.plain.prepare_add(self.alloc, key, shape) {
            Ok(next) => next,
            Err(turned) => {
                return Err(Turned {
                    why: refused_by(turned.why),
                    shape: turned.shape,
                });
            }
        };
        let carried = carry(
            self.alloc,
            &mut self.master,
            &mut self.plain,
            &mut self.image,
            &mut self.pool,
            next,
            steps,
        );
        let version = match carried {
            Ok(version) => version,
            Err(stopped) => {
                return Err(Turned {
                    why: stopped.why,
                    shape: shape_again(stopped.next),
                });
            }
        };
        self.updates += 1;
        Ok(Done {
            version,
            updates: self.updates,
            split: 0,
        })
    }

    /// Drops a zone. After an `Err` no word was stored, and the history, the state and the image are as before.
    pub fn drop_zone<L: Ledger>(&mut self, key: u32, steps: &mut Steps<L>) -> Result<Done, Refused>
        ensures ok { IfOk result (λ done. IsGrown self.old self.new (DropZone key) × IsDone self.new 0 done) }
        ensures ticks { IfOk result (λ _. steps.new ≤ steps.old + 256 * fresh_rows self.old.settings self.old.state (DropZone key)) }
        ensures err { IfErr result (λ why. IsRefused self.old self.new (DropZone key) why) }
        ensures left { IfErr result (λ _. IsLeft self.old self.new × (steps.new ≡ steps.old)) }
        ensures table { self.new.table ≡ self.old.table }
    {
        let next = match self.plain.prepare_drop(self.alloc, key) {
            Ok(next) => next,
            Err(why) => return Err(refused_by(why)),
        };
        let carried = carry(
            self.alloc,
            &mut self.master,
            &mut self.plain,
            &mut self.image,
            &mut self.pool,
            next,
            steps,
        );
        let version = match carried {
            Ok(version) => version,
            Err(stopped) => return Err(stopped.why),
        };
        self.updates += 1;
        Ok(Done {
            version,
            updates: self.updates,
            split: 0,
        })
    }

    /// Gives a standing zone another shape. No version lacks the zone. After an `Err` no word was stored, and the
    /// history, the state and the image are as before.
    pub fn replace<L: Ledger>(
        &mut self,
        key: u32,
        shape: Shape,
        steps: &mut Steps<L>,
    ) -> Result<Done, Turned>
        ensures ok { IfOk result (λ done. IsGrown self.old self.new (Replace key shape) × IsDone self.new 0 done) }
        ensures ticks { IfOk result (λ _. steps.new ≤ steps.old + 256 * fresh_rows self.old.settings self.old.state (Replace key shape)) }
        ensures err { IfErr result (λ turned. (turned.shape ≡ shape) × IsRefused self.old self.new (Replace key shape) turned.why) }
        ensures left { IfErr result (λ _. IsLeft self.old self.new × (steps.new ≡ steps.old)) }
        ensures table { self.new.table ≡ self.old.table }
    {
        let next = match self.plain.prepare_replace(self.alloc, key, shape) {
            Ok(next) => next,
            Err(turned) => {
                return Err(Turned {
                    why: refused_by(turned.why),
                    shape: turned.shape,
                });
            }
        };
        let carried = carry(
            self.alloc,
            &mut self.master,
            &mut self.plain,
            &mut self.image,
            &mut self.pool,
            next,
            steps,
        );
        let version = match carried {
            Ok(version) => version,
            Err(stopped) => {
                return Err(Turned {
                    why: stopped.why,
                    shape: shape_again(stopped.next),
                });
            }
        };
        self.updates += 1;
        Ok(Done {
            version,
            updates: self.updates,
            split: 0,
        })
    }

    /// Lends the lowest reader that is not lent. It has seen the whole history, and answers in the buffers of one that came
    /// back, where there is one. It takes no memory.
    pub fn lend(&mut self) -> Result<Reader, NoPin>
        ensures ok { IfOk result (λ r. (lowest self.old.desk.bounds < self.old.desk.pins) × (self.new ≡ record self.old { desk = lent self.old.desk }) × (r.ticket ≡ newcomer self.old.desk) × (r.table ≡ self.old.table)) }
        ensures err { IfErr result (λ _. (lowest self.old.desk.bounds ≡ self.old.desk.pins) × (self.new ≡ self.old)) }
    {
        let guest = self.master.lend()?;
        let buffers = match self.spare.pop() {
            Some(buffers) => buffers,
            None => Buffers::new(self.alloc),
        };
        Ok(Reader {
            guest: Some(guest),
            buffers,
        })
    }

    /// Takes a reader back, which was lent by this writer: its number may be lent again, and its buffers are kept.
    pub fn give_back(&mut self, reader: Reader)
        requires { reader.table ≡ self.old.table }
        ensures same { self.new ≡ record self.old { desk = returned self.old.desk reader.ticket } }
        ensures begins { Begins reader.ticket.seen self.old.desk.history }
    {
        let buffers = take_back(&mut self.master, reader);
        // There is room for those of all readers that may be lent.
        let _ = self.spare.push(buffers);
    }

    /// A token of the history so far.
    pub fn note(&mut self) -> Note
        ensures { (self.new ≡ self.old) × (result.table ≡ self.old.table) × (result.history ≡ self.old.desk.history) }
    {
        self.master.note()
    }
}
