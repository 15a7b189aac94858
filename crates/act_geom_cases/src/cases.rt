//! One case, and the counts of cases.

use act_geom::{Class, Shape, Walk, body_len, body_word, class_of, inside, inside_body, touches};
use act_grid::{Cell, Hull, Point};
use anyhow::{Context, Result, bail};
use std::alloc::Global;
use std::str::SplitWhitespace;

/// How many cases there were, and how many of them agreed.
#[derive(Clone, Copy, Debug, PartialEq, Eq)]
pub struct Count {
    pub all: u32,
    pub agree: u32,
}

/// The counts by kind.
#[derive(Clone, Copy, Debug, PartialEq, Eq)]
pub struct Tally {
    pub cells: Count,
    pub ids: Count,
    pub touches: Count,
    pub classes: Count,
    pub points: Count,
}

impl Count {
    fn add(&mut self, agrees: bool) {
        self.all = self.all.saturating_add(1);
        if agrees {
            self.agree = self.agree.saturating_add(1);
        }
    }
}

impl Tally {
    pub fn new() -> Tally {
        let none = Count { all: 0, agree: 0 };
        Tally {
            cells: none,
            ids: none,
            touches: none,
            classes: none,
            points: none,
        }
    }
}

/// Tries the case of one line.
pub fn tried(alloc: Global, line: &str, tally: &mut Tally) -> Result<()> {
    let mut words = line.split_whitespace();
    match words.next() {
        Some("cell") => tally.cells.add(cell_agrees(&mut words)?),
        Some("id") => tally.ids.add(id_agrees(&mut words)?),
        Some("touch") => tally.touches.add(touch_agrees(&mut words)?),
        Some("class") => tally.classes.add(class_agrees(alloc, &mut words)?),
        Some("point") => tally.points.add(point_agrees(alloc, &mut words)?),
        _ => bail!("no kind of case"),
    }
    Ok(())
}

fn word<'a>(words: &mut SplitWhitespace<'a>) -> Result<&'a str> {
    words.next().context("a word is wanting")
}

fn coordinate(words: &mut SplitWhitespace<'_>) -> Result<i32> {
    let n = word(words)?.parse::<i32>()?;
    Ok(n)
}

fn number(words: &mut SplitWhitespace<'_>) -> Result<u64> {
    let n = word(words)?.parse::<u64>()?;
    Ok(n)
}

fn point(words: &mut SplitWhitespace<'_>) -> Result<Point> {
    let x = coordinate(words)?;
    let y = coordinate(words)?;
    Ok(Point { x, y })
}

fn cell_agrees(words: &mut SplitWhitespace<'_>) -> Result<bool> {
    let p = point(words)?;
    let level = number(words)?;
    let id = number(words)?;
    let lo = point(words)?;
    let hi = point(words)?;
    let mut cell = Cell::leaf(p);
    for _ in 0..30 {
        if u64::from(cell.level()) > level && cell.level() > 0 {
            cell = cell.parent();
        }
    }
    let found = Cell::from_id(id) == Some(cell);
    Ok(found && cell.id() == id && cell.hull() == Hull { lo, hi } && cell.contains(p))
}

fn id_agrees(words: &mut SplitWhitespace<'_>) -> Result<bool> {
    let id = number(words)?;
    let stands = number(words)? == 1;
    Ok(Cell::from_id(id).is_some() == stands)
}

fn touch_agrees(words: &mut SplitWhitespace<'_>) -> Result<bool> {
    let cell = Cell::from_id(number(words)?).context("no cell")?;
    let a = point(words)?;
    let b = point(words)?;
    let wanted = number(words)? == 1;
    Ok(touches(cell, a, b) == wanted && touches(cell, b, a) == wanted)
}

fn class_agrees(alloc: Global, words: &mut SplitWhitespace<'_>) -> Result<bool> {
    let cell = Cell::from_id(number(words)?).context("no cell")?;
    let class = match word(words)? {
        "Inside" => Class::Inside,
        "Outside" => Class::Outside,
        _ => Class::Mixed,
    };
    let shape = shape(alloc, words)?;
    Ok(class_of(&shape, cell) == class)
}

// The point is tried by the shape, and by the words of its body.
fn point_agrees(alloc: Global, words: &mut SplitWhitespace<'_>) -> Result<bool> {
    let p = point(words)?;
    let wanted = number(words)? == 1;
    let shape = shape(alloc, words)?;
    let mut body = Vec::new(alloc);
    let mut walk = Walk::start(p);
    let mut answers = 0u32;
    for k in 0..body_len(&shape) {
        let word = body_word(&shape, k);
        body.push(word)?;
        if walk.feed(word).is_some() {
            answers = answers.saturating_add(1);
        }
    }
    Ok(answers == 1 && inside(&shape, p) == wanted && inside_body(&body, p) == Some(wanted))
}

// The rings, a `;` between two of them.
fn shape(alloc: Global, words: &mut SplitWhitespace<'_>) -> Result<Shape> {
    let mut shape = Shape::new(alloc);
    let mut ring = Vec::new(alloc);
    for _ in 0..u32::MAX {
        match words.next() {
            None => break,
            Some(";") => {
                if shape.push_ring(&ring).is_err() {
                    bail!("no ring");
                }
                ring.clear();
            }
            Some(text) => {
                let x = text.parse::<i32>()?;
                let y = coordinate(words)?;
                ring.push(Point { x, y })?;
            }
        }
    }
    if shape.push_ring(&ring).is_err() {
        bail!("no ring");
    }
    Ok(shape)
}
