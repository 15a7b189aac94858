//! The claims of a number of pieces.
ghost use Rattle.std.specs.Prelude.{◌≡◌, ◌≢◌, ℕ, ◌+◌, ◌-◌, ◌<◌, ◌≤◌, [], ◌++◌, replicate, IfOk, IfSome, IfNone};
ghost use Rattle.act_base.specs.Counting.{times};
ghost use Rattle.act_tally.specs.Fair.{first_keeper};
ghost use Rattle.act_tally.specs.Steps.{handed_out, taken_back, newcomer, IsWhole};
ghost use Rattle.act_tally.specs.Tokens.{Claimed, keeper_of};
ghost use Rattle.act_tally.specs.declared.rule.Sizes.{Sizes};
ghost use Rattle.act_tally.specs.declared.views.View.TheVariants.{Keeps};

use crate::claimer::Claimer;
use crate::link::Link;
use crate::plays::{Check, Hand, TakeBack};
use crate::rule::{Board, Place, Sizes};
use act_grid::NoMemory;
use atomic_table::Table;
use std::alloc::Global;
use std::marker::Model;

/// The greatest number of claimers.
pub const MOST_CLAIMERS: u32 = 64;

/// Pieces that are numbered from 0, and the claimers that draw them.
#[derive(Drop)]
pub struct Claims {
    link: Link,
    seat: Place,
    pieces: u32,
    // A share of the table for each claimer that is not handed out yet.
    spares: Vec<Link>,
}

impl Model for Claims {
    ghost Value = { Claimed };

    ghost view = { λ c. record { table = c.seat.table_id; keeper = keeper_of c.seat.me.0 } };

    ghost invariant = { λ c. record {
      link : c.link ≡ c.seat.table_id;
      seated : c.seat.me ≡ (Keeps (keeper_of c.seat.me.0), []);
      wide : c.seat.table_id.words ≡ 1;
      pieces : c.pieces ≡ (keeper_of c.seat.me.0).pieces;
      few : (keeper_of c.seat.me.0).handed ≤ (keeper_of c.seat.me.0).claimers;
      spares : c.spares.items ≡ replicate ((keeper_of c.seat.me.0).claimers - (keeper_of c.seat.me.0).handed) c.seat.table_id;
    } };
}

// As many shares of the table.
fn share(alloc: Global, link: &Link, count: u32) -> Result<Vec<Link>, NoMemory>
    ensures { IfOk result (λ v. v.items ≡ replicate count link.now) }
{
    let mut spares = Vec::with_capacity(alloc, count as usize)?;
    for _ in 0..count {
        spares.push(link.another()?)?;
    }
    Ok(spares)
}

impl Claims {
    /// Claims of the pieces from 0 to `pieces - 1`, for so many claimers. It takes all memory that
    /// they will ever take.
    pub fn new(alloc: Global, pieces: u32, claimers: u32) -> Result<Claims, NoMemory>
        requires { (0 < claimers) × (claimers ≤ 64) }
        ensures { IfOk result (λ c. c.keeper ≡ first_keeper (record { pieces = pieces; claimers = claimers })) }
    {
        let sizes = Sizes { pieces, claimers };
        let (table, seat): (Board<Global>, Place) = Table::of_words(
            alloc,
            [0u64].as_slice(),
            &sizes,
        )?;
        let link = Link::new(alloc, table)?;
        let spares = share(alloc, &link, claimers)?;
        Ok(Claims {
            link,
            seat,
            pieces,
            spares,
        })
    }

    /// A claimer, of those that are not handed out yet. It takes no memory.
    pub fn hand(&mut self) -> Option<Claimer>
        ensures some { IfSome result (λ c. (self.old.keeper.handed < self.old.keeper.claimers) × (self.new.keeper ≡ handed_out self.old.keeper) × (c.drawer ≡ newcomer self.old.keeper) × (c.table ≡ self.old.table)) }
        ensures none { IfNone result ((self.old.keeper.handed ≡ self.old.keeper.claimers) × (self.new ≡ self.old)) }
        ensures table { self.new.table ≡ self.old.table }
    {
        let link = self.spares.pop()?;
        let seat = self.link.shared().split_seat::<Hand>(&mut self.seat);
        Some(Claimer {
            link,
            seat,
            pieces: self.pieces,
        })
    }

    /// Takes a claimer back that these claims handed out. It isn't handed out again.
    pub fn take(&mut self, claimer: Claimer)
        requires { claimer.table ≡ self.old.table }
        ensures same { (self.new.table ≡ self.old.table) × (self.new.keeper ≡ taken_back self.old.keeper claimer.drawer) }
        // The numbers of all claimers taken so far differ. Those below `pieces` are the pieces drawn.
        ensures apart { (number : ℕ) → times self.new.keeper.fetched number ≤ 1 }
        // Once all are back, they are those below some number, all pieces if one has met the end.
        ensures whole { self.new.keeper.taken ≡ self.new.keeper.handed → IsWhole self.new.keeper }
    {
        let Claimer {
            link: _link,
            seat,
            pieces: _,
        } = claimer;
        self.link
            .shared()
            .join_seat::<TakeBack>(&mut self.seat, seat);
        self.link.shared().load::<Check>(&mut self.seat, 0);
    }
}
