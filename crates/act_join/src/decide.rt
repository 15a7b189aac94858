//! One update by the writer.

ghost use Rattle.std.specs.Prelude.{◌≡◌, ◌≤◌, ◌++◌, [], IfOk, if◌then◌else◌, length};
ghost use Rattle.act_script.specs.Segments.{HasThreshold};
ghost use Rattle.act_join.specs.Working.{Steps as StepsOf, Tries, TurnedBy, key_added, key_where, takes_points};
ghost use Rattle.act_join.specs.Replies.{end_text};

use crate::reply::Line;
use crate::told::{Told, Tried};
use crate::words::{push_asked, push_told};
use act_base::Steps;
use act_grid::{NoMemory, Point};
use act_index::{Refused, Writer};
use act_io::{Gate, Place};
use act_script::Update;
use act_super::Verdict;
use std::alloc::Global;
use std::sync::ledger::Ledger;

/// An update that was decided.
#[derive(Drop)]
pub(crate) struct Decided {
    pub(crate) added: Option<u32>,
    pub(crate) line: Line,
}

/// An update that was decided, or one that comes back, since a version that a reader may hold keeps it from being made.
#[derive(Drop)]
pub(crate) enum Stepped {
    Done(Decided),
    Held(Update),
}

/// What is told of an update that was refused, which is given back. Want of memory is no verdict on it. A version past
/// the last one is answered as want of memory, too: no script has as many lines.
fn turned(why: Refused, back: Update) -> Result<Tried, NoMemory>
    ensures { IfOk result (λ says. TurnedBy why back says) }
{
    match why {
        Refused::Duplicate => Ok(Tried::Told(Told::Verdict(Some(Verdict::Duplicate)))),
        Refused::Unknown => Ok(Tried::Told(Told::Verdict(Some(Verdict::Unknown)))),
        Refused::Same => Ok(Tried::Told(Told::Verdict(Some(Verdict::Same)))),
        Refused::Refs { need } => Ok(Tried::Told(Told::Verdict(Some(Verdict::Refs { need })))),
        Refused::Rows { need, limit } => {
            Ok(Tried::Told(Told::Verdict(Some(Verdict::Rows { need, limit }))))
        }
        Refused::Held { .. } => Ok(Tried::Held(back)),
        Refused::Versions => Err(NoMemory),
        Refused::NoMemory => Err(NoMemory),
    }
}

/// Tries an update, a training with these points.
#[tactic(auto, using(crate::proofs::DecideFacts::grown_told, crate::proofs::DecideFacts::turned_back, crate::proofs::DecideFacts::trained_told, crate::proofs::DecideFacts::untrained_back))]
pub(crate) fn try_update<L: Ledger>(
    writer: &mut Writer,
    sample: &[Point],
    update: Update,
    steps: &mut Steps<L>,
) -> Result<Tried, NoMemory>
    requires threshold { HasThreshold update }
    requires few { length sample.now ≤ 65536 }
    ensures tries { IfOk result (λ says. Tries writer.old writer.new sample.now update says) }
    ensures table { writer.new.table ≡ writer.old.table }
{
    match update {
        Update::Add { key, shape } => match writer.add(key, shape, steps) {
            Ok(_) => Ok(Tried::Told(Told::Verdict(None))),
            Err(back) => turned(
                back.why,
                Update::Add {
                    key,
                    shape: back.shape,
                },
            ),
        },
        Update::DropZone { key } => match writer.drop_zone(key, steps) {
            Ok(_) => Ok(Tried::Told(Told::Verdict(None))),
            Err(why) => turned(why, Update::DropZone { key }),
        },
        Update::Replace { key, shape } => match writer.replace(key, shape, steps) {
            Ok(_) => Ok(Tried::Told(Told::Verdict(None))),
            Err(back) => turned(
                back.why,
                Update::Replace {
                    key,
                    shape: back.shape,
                },
            ),
        },
        Update::Train { threshold } => match writer.train(sample, threshold, steps) {
            Ok(done) => Ok(Tried::Told(Told::Split(done.split))),
            Err(why) => turned(why, Update::Train { threshold }),
        },
    }
}

/// The key of the zone that an update would add.
fn key_to_add(update: &Update) -> Option<u32>
    ensures { result ≡ key_added update.now }
{
    match update {
        Update::Add { key, .. } => Some(*key),
        _ => None,
    }
}

/// That key where the zone was added.
fn key_if_added(told: Told, key: Option<u32>) -> Option<u32>
    ensures { result ≡ key_where told key }
{
    match told {
        Told::Verdict(None) => key,
        _ => None,
    }
}

/// Whether an update takes the points that are there for a sample.
fn takes(update: &Update) -> bool
    ensures { result ≡ takes_points update.now }
{
    matches!(update, Update::Train { .. })
}

/// Lets the points go where they are taken.
fn leave(points: &mut Vec<Point>, taken: bool)
    ensures { points.new.items ≡ (if taken then [] else points.old.items) }
{
    if taken {
        points.clear();
    }
}

/// The answer to an update that was decided.
fn with_line(mut text: Vec<u8>, told: Told, key: Option<u32>) -> Result<Decided, NoMemory>
    ensures { IfOk result (λ says. (says.line ≡ text.items ++ end_text told) × (says.added ≡ key_where told key)) }
{
    push_told(&mut text, told)?;
    Ok(Decided {
        added: key_if_added(told, key),
        line: Line::from_vec(text),
    })
}

/// Decides an update, a training with these points, which it takes. The gate is told of it before and after.
pub(crate) fn decide<G: Gate, L: Ledger>(
    alloc: Global,
    writer: &mut Writer,
    points: &mut Vec<Point>,
    update: Update,
    gate: &G,
    steps: &mut Steps<L>,
) -> Result<Stepped, NoMemory>
    requires threshold { HasThreshold update }
    requires few { length points.old.items ≤ 65536 }
    ensures steps { IfOk result (λ says. StepsOf writer.old writer.new points.old.items points.new.items update says) }
    ensures few { length points.new.items ≤ 65536 }
    ensures table { writer.new.table ≡ writer.old.table }
{
    let mut text = Vec::new(alloc);
    push_asked(&mut text, &update)?;
    let key = key_to_add(&update);
    let taken = takes(&update);
    gate.at(0, Place::Ready, writer.version());
    let tried = try_update(writer, points, update, steps);
    gate.at(0, Place::Published, writer.version());
    match tried {
        Ok(Tried::Told(told)) => {
            leave(points, taken);
            match with_line(text, told, key) {
                Ok(says) => Ok(Stepped::Done(says)),
                Err(NoMemory) => Err(NoMemory),
            }
        }
        Ok(Tried::Held(back)) => Ok(Stepped::Held(back)),
        Err(NoMemory) => Err(NoMemory),
    }
}
