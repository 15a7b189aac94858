//! Compares the geometry with a table of cases from standard input.
//!
//! The table was printed by a separate model, written from the definitions alone. A line is one of
//!
//! ```text
//! cell X Y LEVEL ID LOX LOY HIX HIY    the cell of that level that holds the point
//! id ID 0|1                            whether a cell has the id
//! touch ID AX AY BX BY 0|1             whether the edge touches the cell
//! class ID CLASS X Y .. ; X Y ..       the class of a shape on the cell
//! point X Y 0|1 X Y .. ; X Y ..        whether the point is inside the shape
//! ```
//!
//! The program prints how many cases of each kind there are, and how many agree.
#![tactic(auto)]

mod cases;

use anyhow::Result;
use cases::{Tally, tried};
use std::io::{BufRead, BufReader};

fn main(rt: HostRuntime) -> Result<()> {
    let mut tally = Tally::new();
    for line in BufReader::new(rt.alloc(), rt.reader())?.lines(rt.alloc()) {
        let line = line?;
        tried(rt.alloc(), line.as_str(), &mut tally)?;
    }
    println!(rt; "cells {} agree {}", tally.cells.all, tally.cells.agree)?;
    println!(rt; "ids {} agree {}", tally.ids.all, tally.ids.agree)?;
    println!(rt;
        "touches {} agree {}",
        tally.touches.all, tally.touches.agree
    )?;
    println!(rt;
        "classes {} agree {}",
        tally.classes.all, tally.classes.agree
    )?;
    println!(rt; "points {} agree {}", tally.points.all, tally.points.agree)?;
    Ok(())
}
