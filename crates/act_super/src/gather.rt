//! Lists of standings that are read in place.

ghost use Rattle.std.specs.Prelude.{◌≡◌, ◌++◌, ◌≤◌, IfOk, OnOk, length};
ghost use Rattle.act_super.specs.Sound.{spliced};
ghost use Rattle.act_super.specs.Standings.{values};

use crate::standing::Standing;
use std::alloc::{AllocError, Global};

/// The standings before a place, perhaps one more, and those from a place on.
pub(crate) fn gathered<'a>(
    alloc: Global,
    standings: &'a [Standing],
    from: usize,
    new: Option<&'a Standing>,
    to: usize,
) -> Result<Vec<&'a Standing>, AllocError>
    requires from { from ≤ length standings.now }
    requires to { to ≤ length standings.now }
    ensures { IfOk result (λ refs. values refs.items ≡ spliced standings.now from new.entry to) }
{
    let mut refs = Vec::with_capacity(alloc, standings.len() + 1)?;
    push_all(&mut refs, &standings[..from])?;
    if let Some(one) = new {
        refs.push(one)?;
    }
    push_all(&mut refs, &standings[to..])?;
    Ok(refs)
}

fn push_all<'a>(refs: &mut Vec<&'a Standing>, more: &'a [Standing]) -> Result<(), AllocError>
    ensures { OnOk result (values refs.new.items ≡ values refs.old.items ++ more.now) }
{
    for one in more {
        refs.push(one)?;
    }
    Ok(())
}
