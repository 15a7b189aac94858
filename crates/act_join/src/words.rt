//! The words of replies, in the buffer.

ghost use Rattle.std.specs.Prelude.{◌≡◌, ◌++◌, OnOk, codes, decimal};
ghost use Rattle.act_join.specs.Replies.{end_text, head_text, key_text};
ghost use Rattle.act_script.specs.Text.{asked_text, verdict_text};

use crate::told::Told;
use act_script::{Batch, Update};
use act_super::Verdict;
use itoa::Buffer;
use std::alloc::AllocError;

/// How many references a leaf may have.
const MOST_REFERENCES: u64 = 510;

fn push_number(text: &mut Vec<u8>, number: u64) -> Result<(), AllocError>
    ensures { OnOk result (text.new.items ≡ text.old.items ++ decimal number) }
{
    let mut buffer = Buffer::new();
    text.extend_from_slice(buffer.format(number).as_bytes())
}

/// The start of the reply to an update.
pub(crate) fn push_asked(text: &mut Vec<u8>, update: &Update) -> Result<(), AllocError>
    ensures { OnOk result (text.new.items ≡ text.old.items ++ asked_text update.now) }
{
    match update {
        Update::Add { key, .. } => {
            text.extend_from_slice(b"zone ")?;
            push_number(text, u64::from(*key))
        }
        Update::DropZone { key } => {
            text.extend_from_slice(b"drop ")?;
            push_number(text, u64::from(*key))
        }
        Update::Replace { key, .. } => {
            text.extend_from_slice(b"replace ")?;
            push_number(text, u64::from(*key))
        }
        Update::Train { .. } => text.extend_from_slice(b"train"),
    }
}

/// The end of the reply to an update.
pub(crate) fn push_told(text: &mut Vec<u8>, told: Told) -> Result<(), AllocError>
    ensures { OnOk result (text.new.items ≡ text.old.items ++ end_text told) }
{
    match told {
        Told::Verdict(why) => push_verdict(text, why),
        Told::Split(cells) => {
            text.extend_from_slice(b" split ")?;
            push_number(text, u64::from(cells))?;
            text.extend_from_slice(b"\n")
        }
    }
}

/// The end of the reply to a change of the zones: accepted, or why not.
fn push_verdict(text: &mut Vec<u8>, why: Option<Verdict>) -> Result<(), AllocError>
    ensures { OnOk result (text.new.items ≡ text.old.items ++ verdict_text why) }
{
    match why {
        None => text.extend_from_slice(b" ok\n"),
        Some(Verdict::Duplicate) => text.extend_from_slice(b" refused duplicate\n"),
        Some(Verdict::Unknown) => text.extend_from_slice(b" refused unknown\n"),
        Some(Verdict::Same) => text.extend_from_slice(b" refused same\n"),
        Some(Verdict::Refs { need }) => {
            push_need(text, b" refused refs ", u64::from(need), MOST_REFERENCES)
        }
        Some(Verdict::Rows { need, limit }) => {
            push_need(text, b" refused rows ", need, u64::from(limit))
        }
        Some(Verdict::NoMemory) => text.extend_from_slice(b""),
    }
}

// What is needed of something, and how much of it there may be.
fn push_need(text: &mut Vec<u8>, cause: &[u8], need: u64, limit: u64) -> Result<(), AllocError>
    ensures { OnOk result (text.new.items ≡ text.old.items ++ (cause.now ++ decimal need ++ codes " of " ++ decimal limit ++ codes "\n")) }
{
    text.extend_from_slice(cause)?;
    push_number(text, need)?;
    text.extend_from_slice(b" of ")?;
    push_number(text, limit)?;
    text.extend_from_slice(b"\n")
}

/// The first line of the reply to a batch.
pub(crate) fn push_head(text: &mut Vec<u8>, batch: &Batch, count: u64) -> Result<(), AllocError>
    ensures { OnOk result (text.new.items ≡ text.old.items ++ head_text count batch.now) }
{
    text.extend_from_slice(b"batch ")?;
    push_number(text, batch.number)?;
    text.extend_from_slice(b" after ")?;
    push_number(text, count)?;
    text.extend_from_slice(b" points ")?;
    push_number(text, batch.points.as_slice().len() as u64)?;
    text.extend_from_slice(b"\n")
}

/// The line of a pair.
pub(crate) fn push_pair(text: &mut Vec<u8>, id: u64, key: u32) -> Result<(), AllocError>
    ensures { OnOk result (text.new.items ≡ text.old.items ++ key_text id key) }
{
    push_number(text, id)?;
    text.extend_from_slice(b",")?;
    push_number(text, u64::from(key))?;
    text.extend_from_slice(b"\n")
}
