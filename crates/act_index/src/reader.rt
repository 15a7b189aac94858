//! A reader of the zones.

ghost use Rattle.std.specs.Prelude.{◌≡◌, ◌+◌, ◌*◌, ◌<◌, ◌≤◌, [], IfOk, OnOk, length, map, sum_by};
ghost use Rattle.act_grid.specs.declared.Settings.{Settings};
ghost use Rattle.act_super.specs.declared.entry.State.{State};
ghost use Rattle.act_super.specs.Joins.{join};
ghost use Rattle.act_super.specs.Stands.{Stands};
ghost use Rattle.act_rows.specs.Images.{sight_of};
ghost use Rattle.act_probe.specs.Reads.{reads_of};
ghost use Rattle.act_index.specs.Answers.{IsAnswer, IsJoin, IsSeen, own_pair, pair_of};

use crate::pairs::{Pair, Pairs};
use crate::put::Zones;
use crate::writer::Note;
use act_base::Steps;
use act_grid::{Layers, NoMemory, Point};
use act_io::{Gate, Place};
use act_probe::{Buffers, Hit, Keys, Words, probe, probe_batch};
use act_rows::{Guest, Pin};
use std::alloc::Global;
use std::marker::Model;
use std::sync::ledger::Ledger;

/// A reader that is lent. One that is dropped stays lent.
#[derive(Drop)]
pub struct Reader {
    // None only inside of a call.
    pub(crate) guest: Option<Guest<Zones>>,
    // What batches are answered in. They are kept, so that they grow once.
    pub(crate) buffers: Buffers,
}

impl Model for Reader {
    ghost use Rattle.std.specs.Prelude.{◌<◌, IsSome};
    ghost use Rattle.act_rows.specs.Tokens.{Guested};
    ghost use Rattle.act_index.specs.Answers.{guest_of};

    ghost Value = { Guested };

    ghost view = { λ r. guest_of r.guest };

    ghost invariant = { λ r. IsSome r.guest × ((guest_of r.guest).ticket.number < 64) };
}

/// What was found at a point.
#[derive(Clone, Copy, Debug, PartialEq, Eq)]
pub struct At {
    /// The version that the answer is of.
    pub version: u64,
    /// How many zones were found.
    pub count: u32,
    /// How many words of rows were read.
    pub reads: u64,
}

/// What a join answered. Only `Reader::join` makes one.
#[derive(Drop)]
pub struct Answer {
    version: u64,
    reads: u64,
    pairs: Pairs,
}

impl Model for Answer {
    ghost use Rattle.act_index.specs.Answers.{Answered};

    ghost Value = { Answered };

    ghost view = { λ a. record { version = a.version; reads = a.reads; pairs = a.pairs } };
}

impl Answer {
    /// The version that the answer is of.
    pub fn version(&self) -> u64
        ensures { result ≡ self.now.version }
    {
        self.version
    }

    /// How many words of rows were read.
    pub fn reads(&self) -> u64
        ensures { result ≡ self.now.reads }
    {
        self.reads
    }

    /// The pairs, by place of the point and then by key.
    pub fn pairs(&self) -> &Pairs
        ensures { result.now ≡ self.now.pairs }
    {
        &self.pairs
    }
}

/// The words of the version that a pin holds.
struct Pinned {
    pin: Pin<Zones>,
}

impl Words for Pinned {
    ghost image = { λ p. sight_of p.pin.version.image };

    fn word<L: Ledger>(&mut self, row: u32, place: u8, steps: &mut Steps<L>) -> u64 {
        self.pin.word(row, place, steps)
    }
}

// The guest asks about one point.
fn ask<L: Ledger>(
    guest: Guest<Zones>,
    p: Point,
    layers: Layers,
    out: &mut Keys,
    steps: &mut Steps<L>,
) -> (Guest<Zones>, At)
    ensures seen { IsSeen guest result.0 }
    ensures answer { IsAnswer result.0.ticket.seen layers p out.new result.1.reads }
    ensures version { result.1.version ≡ length result.0.ticket.seen }
    ensures count { result.1.count ≡ length out.new }
    ensures ticks { steps.new ≡ steps.old + result.1.reads }
{
    let pin = guest.pin();
    let version = pin.version();
    let root = pin.root();
    let mut words = Pinned { pin };
    let reads = probe(&mut words, root, p, layers, out, steps);
    let Pinned { pin } = words;
    let found = At {
        version,
        count: out.len(),
        reads,
    };
    (pin.leave(), found)
}

// The hits of a batch as pairs.
fn pairs_of(alloc: Global, hits: &[Hit]) -> Result<Pairs, NoMemory>
    ensures { IfOk result (λ pairs. pairs ≡ map own_pair hits.now) }
{
    let mut pairs = Vec::with_capacity(alloc, hits.len())?;
    for hit in hits {
        pairs.push_reserved(Pair {
            point: hit.point,
            key: hit.key,
        });
    }
    Ok(Pairs::from_vec(pairs))
}

// All points in order, by the words of one version, and how many words were read.
fn join_all<L: Ledger>(
    alloc: Global,
    words: &mut Pinned,
    root: u32,
    points: &[Point],
    layers: Layers,
    buffers: &mut Buffers,
    steps: &mut Steps<L>,
) -> Result<(Pairs, u64), NoMemory>
    requires stands { (settings : Settings) × (state : State) × Stands settings (sight_of words.old.pin.version.image) root state }
    requires few { length points.now ≤ 8192 }
    ensures same { words.new ≡ words.old }
    ensures ticks { IfOk result (λ r. steps.new ≡ steps.old + r.1) }
    ensures pairs { IfOk result (λ r. (settings : Settings) (state : State) → Stands settings (sight_of words.old.pin.version.image) root state → r.0 ≡ map pair_of (join layers state.zones points.now)) }
    ensures reads { IfOk result (λ r. (settings : Settings) (state : State) → Stands settings (sight_of words.old.pin.version.image) root state → r.1 ≤ sum_by (λ p. reads_of settings state p layers) points.now) }
    ensures most { IfOk result (λ r. length r.0 ≤ 510 * length points.now) }
{
    let reads = probe_batch(words, root, points, layers, buffers, steps)?;
    let pairs = pairs_of(alloc, buffers.hits())?;
    Ok((pairs, reads))
}

// The batch in the version that the words are of, and the calls of the gate.
fn join_held<G: Gate, L: Ledger>(
    alloc: Global,
    words: &mut Pinned,
    who: u32,
    points: &[Point],
    layers: Layers,
    gate: &G,
    buffers: &mut Buffers,
    steps: &mut Steps<L>,
) -> Result<Answer, NoMemory>
    requires stands { (settings : Settings) × (state : State) × Stands settings (sight_of words.old.pin.version.image) words.old.pin.version.root state }
    requires few { length points.now ≤ 8192 }
    ensures same { words.new ≡ words.old }
    ensures version { IfOk result (λ answer. answer.version ≡ length words.old.pin.history) }
    ensures ticks { IfOk result (λ answer. steps.new ≡ steps.old + answer.reads) }
    ensures pairs { IfOk result (λ answer. (settings : Settings) (state : State) → Stands settings (sight_of words.old.pin.version.image) words.old.pin.version.root state → answer.pairs ≡ map pair_of (join layers state.zones points.now)) }
    ensures reads { IfOk result (λ answer. (settings : Settings) (state : State) → Stands settings (sight_of words.old.pin.version.image) words.old.pin.version.root state → answer.reads ≤ sum_by (λ p. reads_of settings state p layers) points.now) }
    ensures most { IfOk result (λ answer. length answer.pairs ≤ 510 * length points.now) }
{
    let version = words.pin.version();
    let root = words.pin.root();
    gate.at(who, Place::Bound, version);
    let (pairs, reads) = join_all(alloc, words, root, points, layers, buffers, steps)?;
    gate.at(who, Place::Probed, reads);
    Ok(Answer {
        version,
        reads,
        pairs,
    })
}

// The guest asks about a batch.
fn ask_all<G: Gate, L: Ledger>(
    alloc: Global,
    guest: Guest<Zones>,
    points: &[Point],
    layers: Layers,
    gate: &G,
    buffers: &mut Buffers,
    steps: &mut Steps<L>,
) -> (Guest<Zones>, Result<Answer, NoMemory>)
    requires few { length points.now ≤ 8192 }
    requires number { guest.ticket.number < 64 }
    ensures seen { IsSeen guest result.0 }
    ensures version { IfOk result.1 (λ answer. answer.version ≡ length result.0.ticket.seen) }
    ensures ok { IfOk result.1 (λ answer. IsJoin result.0.ticket.seen layers points.now answer.pairs answer.reads) }
    ensures most { IfOk result.1 (λ answer. length answer.pairs ≤ 510 * length points.now) }
    ensures ticks { IfOk result.1 (λ answer. steps.new ≡ steps.old + answer.reads) }
{
    let who = 1 + guest.reader();
    let pin = guest.pin();
    let mut words = Pinned { pin };
    let found = join_held(alloc, &mut words, who, points, layers, gate, buffers, steps);
    let Pinned { pin } = words;
    (pin.leave(), found)
}

impl Reader {
    ghost use Rattle.act_rows.specs.History.{Begins, longer};

    /// The reader's number, from 0.
    pub fn number(&self) -> u32
        ensures { result ≡ self.now.ticket.number }
    {
        let Some(guest) = &self.guest else {
            unreachable!()
        };
        guest.reader()
    }

    /// How many entries of the history the reader has seen: the version of its last answer, or more where it was
    /// told of more.
    pub fn seen(&self) -> u64
        ensures { result ≡ length self.now.ticket.seen }
    {
        let Some(guest) = &self.guest else {
            unreachable!()
        };
        guest.seen()
    }

    /// Takes in a note of this index: what was seen becomes the longer of the two histories, of which one begins
    /// the other.
    pub fn learn(&mut self, note: Note)
        requires { note.table ≡ self.old.table }
        ensures same { self.new ≡ record self.old { ticket = record self.old.ticket { seen = longer self.old.ticket.seen note.history; told = [] } } }
        ensures one { Begins self.old.ticket.seen self.new.ticket.seen × Begins note.history self.new.ticket.seen }
    {
        let Some(mut guest) = self.guest.take() else {
            unreachable!()
        };
        guest.learn(note);
        self.guest = Some(guest);
    }

    /// The keys of the zones of the layers that hold the point, in the current version. It always answers: it takes
    /// no memory and waits for nobody.
    pub fn at<L: Ledger>(
        &mut self,
        p: Point,
        layers: Layers,
        out: &mut Keys,
        steps: &mut Steps<L>,
    ) -> At
        ensures seen { IsSeen self.old self.new }
        ensures answer { IsAnswer self.new.ticket.seen layers p out.new result.reads }
        ensures version { result.version ≡ length self.new.ticket.seen }
        ensures count { result.count ≡ length out.new }
        ensures ticks { steps.new ≡ steps.old + result.reads }
    {
        let Some(guest) = self.guest.take() else {
            unreachable!()
        };
        let (guest, found) = ask(guest, p, layers, out, steps);
        self.guest = Some(guest);
        found
    }

    /// For each point in order the zones of the layers that hold it, by ascending key, all in one version, which is
    /// current during the call and no older than what the reader has seen. After want of memory the reader has seen
    /// that version, too. The gate is called at `Bound` with the version, and at `Probed` with the reads, while the
    /// version is held.
    ///
    /// The points go down in groups, and the candidates of each zone are tested together, the polygon of a zone with more
    /// than a few being read once.
    /// The reader keeps what that takes for its next batch. Beside it memory is taken once, for the pairs of the answer.
    pub fn join<G: Gate, L: Ledger>(
        &mut self,
        alloc: Global,
        points: &[Point],
        layers: Layers,
        gate: &G,
        steps: &mut Steps<L>,
    ) -> Result<Answer, NoMemory>
        requires { length points.now ≤ 8192 }
        ensures seen { IsSeen self.old self.new }
        ensures version { IfOk result (λ answer. answer.version ≡ length self.new.ticket.seen) }
        ensures ok { IfOk result (λ answer. IsJoin self.new.ticket.seen layers points.now answer.pairs answer.reads) }
        ensures most { IfOk result (λ answer. length answer.pairs ≤ 510 * length points.now) }
        ensures ticks { IfOk result (λ answer. steps.new ≡ steps.old + answer.reads) }
    {
        let Some(guest) = self.guest.take() else {
            unreachable!()
        };
        let (guest, found) = ask_all(alloc, guest, points, layers, gate, &mut self.buffers, steps);
        self.guest = Some(guest);
        found
    }
}
