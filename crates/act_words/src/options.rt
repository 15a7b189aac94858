//! The options of `join`, as `clap` reads them.

ghost use Rattle.std.specs.Prelude.{◌≡◌, [], codes, map, string_bytes, IfOk, IfSome, IsSome, IsNone, option_map};
ghost use Rattle.clap.specs.Words.{app_of};
ghost use Rattle.act_words.specs.Clap.{clap_faults, clap_value, join_app, small_app};

use act_grid::NoMemory;
use clap::error::ErrorKind;
use clap::{Arg, ArgAction, Command};
use std::alloc::{AllocError, Global};

/// A command with the first two of the options.
fn small_command<'a>(alloc: Global) -> Result<Command<'a>, AllocError>
    ensures { IfOk result (λ command. app_of command ≡ small_app) }
{
    let digits = Arg::new(alloc, "digits")
        .long("digits")
        .action(ArgAction::Set);
    let rows = Arg::new(alloc, "rows").long("rows").action(ArgAction::Set);
    Command::new(alloc, "join")
        .no_binary_name(true)
        .disable_help_flag(true)
        .arg(digits)?
        .arg(rows)
}

/// The command for the words after `join`.
fn join_command<'a>(alloc: Global) -> Result<Command<'a>, AllocError>
    ensures { IfOk result (λ command. app_of command ≡ join_app) }
{
    let cells = Arg::new(alloc, "cells")
        .long("cells")
        .action(ArgAction::Set);
    let workers = Arg::new(alloc, "workers")
        .long("workers")
        .action(ArgAction::Set);
    small_command(alloc)?.arg(cells)?.arg(workers)
}

/// The values of the options, as `clap` takes them.
#[derive(Drop)]
pub struct Values<'a> {
    pub digits: Option<&'a str>,
    pub rows: Option<&'a str>,
    pub cells: Option<&'a str>,
    pub workers: Option<&'a str>,
}

/// What `clap` makes of the words after `join`, where it takes them.
pub fn parse_options<'a>(alloc: Global, words: &'a [String]) -> Result<Option<Values<'a>>, NoMemory>
    ensures none { IfOk result (λ found. IsNone found → clap_faults (map string_bytes words.entry.now) ≡ [] → ⊥) }
    ensures free { IfOk result (λ found. IsSome found → clap_faults (map string_bytes words.entry.now) ≡ []) }
    ensures digits { IfOk result (λ found. IfSome found (λ v.
        option_map (λ s. s.now) v.digits ≡ clap_value (codes "digits") (map string_bytes words.entry.now))) }
    ensures rows { IfOk result (λ found. IfSome found (λ v.
        option_map (λ s. s.now) v.rows ≡ clap_value (codes "rows") (map string_bytes words.entry.now))) }
    ensures cells { IfOk result (λ found. IfSome found (λ v.
        option_map (λ s. s.now) v.cells ≡ clap_value (codes "cells") (map string_bytes words.entry.now))) }
    ensures workers { IfOk result (λ found. IfSome found (λ v.
        option_map (λ s. s.now) v.workers ≡ clap_value (codes "workers") (map string_bytes words.entry.now))) }
{
    let Ok(command) = join_command(alloc) else {
        return Err(NoMemory);
    };
    match command.try_get_matches_from(words) {
        Ok(matches) => Ok(Some(Values {
            digits: matches.get_str("digits"),
            rows: matches.get_str("rows"),
            cells: matches.get_str("cells"),
            workers: matches.get_str("workers"),
        })),
        Err(error) => match error.kind() {
            ErrorKind::OutOfMemory => Err(NoMemory),
            _ => Ok(None),
        },
    }
}
