//! Joins the points of a script with its zones.
//!
//! The script comes from standard input: zones with polygons in WKT that come, go and are replaced,
//! and batches of points. The text goes to standard output: one reply for each update of the zones,
//! and for each batch a line for each pair of a point and a zone that it is inside. A demo makes its
//! script itself, and writes five sums over the replies.
//!
//! [`act_main`] is the whole run from bytes to bytes: its contract says what is written at each
//! exit status. `main` hands it the standard streams.
#![tactic(auto)]

mod demo;
mod ending;
mod items;
mod message;
mod put;
mod run;
mod summary;
mod sums;
#[cfg(test)]
mod tests;

use act_io::{NoGate, StdSink, StdSource};
use run::act_main;
use std::process::ExitCode;
use std::{env, io};

fn main(rt: HostRuntime) -> io::Result<ExitCode> {
    let mut words = Vec::new(rt.alloc());
    if let Ok(args) = env::args(&rt) {
        for word in args.skip(1) {
            words.push(word)?;
        }
    }
    let mut input = StdSource::new(rt.stdin());
    let mut out = StdSink::new(rt.stdout());
    let mut err = StdSink::new(rt.stderr());
    let status = act_main(
        &rt,
        rt.alloc(),
        &words,
        &mut input,
        &mut out,
        &mut err,
        &NoGate,
    );
    Ok(ExitCode::from(status))
}
