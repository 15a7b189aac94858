//! Says what coverings shapes have, which a separate model has said too.
//!
//! A line of standard input is a budget of cells, a blank and the well-known text of a shape, with whole
//! coordinates. For each the program prints the level, the ids of the covering's cells, and those of the
//! interior covering's. The lines and the answers that are wanted were made by a model that was written
//! from the definitions alone.
#![tactic(auto)]

use act_cover::{Cells, cover_level, covering, interior};
use act_geom::Shape;
use act_wkt::read;
use anyhow::{Context, Result, bail};
use std::alloc::{AllocError, Global};
use std::io::{BufRead, BufReader};

/// The ids of cells, each with a blank before it.
fn spelled(alloc: Global, cells: &Cells) -> Result<String, AllocError> {
    let mut text = String::new(alloc);
    for cell in cells.as_slice() {
        text.push_str(format!(in alloc; " {}", cell.id())?.as_str())?;
    }
    Ok(text)
}

/// Prints what coverings a shape has.
fn print_coverings(rt: &impl Print, alloc: Global, shape: &Shape, budget: u32) -> Result<()> {
    if budget < 1 || budget > 1024 {
        bail!("no budget");
    }
    let all = covering(alloc, shape, budget).ok().context("no memory")?;
    let inside = interior(alloc, shape, budget).ok().context("no memory")?;
    let level = cover_level(shape, budget);
    let all = spelled(alloc, &all)?;
    let inside = spelled(alloc, &inside)?;
    println!(rt;
        "level {level} covering{} interior{}",
        all.as_str(),
        inside.as_str()
    )?;
    Ok(())
}

/// Prints what coverings the shape of a line has.
fn print_line(rt: &impl Print, alloc: Global, line: &str) -> Result<()> {
    let (budget, text) = line.split_once(' ').context("no shape")?;
    let text = text.as_bytes();
    if text.len() > 1_000_000 {
        bail!("the text is too long");
    }
    let shape = read(alloc, text, 0).ok().context("no well-known text")?;
    print_coverings(rt, alloc, &shape, budget.parse::<u32>()?)
}

fn main(rt: HostRuntime) -> Result<()> {
    for line in BufReader::new(rt.alloc(), rt.reader())?.lines(rt.alloc()) {
        let line = line?;
        print_line(&rt, rt.alloc(), line.as_str())?;
    }
    Ok(())
}
