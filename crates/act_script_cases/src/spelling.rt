//! Answers about lines as texts.

use act_geom::Shape;
use act_grid::Layers;
use act_script::{Item, LineFault};
use std::alloc::{AllocError, Global};

/// The points of a shape, ring after ring.
fn spelled_shape(alloc: Global, shape: &Shape) -> Result<String, AllocError> {
    let mut text = String::new(alloc);
    for k in 0..shape.rings() {
        let mut between = " (";
        for point in shape.ring(k) {
            text.push_str(between)?;
            text.push_str(format!(in alloc; "{} {}", point.x, point.y)?.as_str())?;
            between = ",";
        }
        text.push(')')?;
    }
    Ok(text)
}

/// A set as a text.
fn spelled_set(alloc: Global, set: &Layers) -> Result<String, AllocError> {
    let mut text = String::from_str(alloc, "layers")?;
    let mut count: u32 = 0;
    for layer in 0..256u32 {
        if set.has(layer << 24) {
            text.push_str(format!(in alloc; " {layer}")?.as_str())?;
            count = count.saturating_add(1);
        }
    }
    if count == 256 {
        return String::from_str(alloc, "layers all");
    }
    Ok(text)
}

/// An item as a text.
fn spelled_item(alloc: Global, item: &Item) -> Result<String, AllocError> {
    match item {
        Item::Zone { key, shape } => {
            let rings = spelled_shape(alloc, shape)?;
            format!(in alloc; "zone {key}{rings}")
        }
        Item::Replace { key, shape } => {
            let rings = spelled_shape(alloc, shape)?;
            format!(in alloc; "replace {key}{rings}")
        }
        Item::DropZone { key } => format!(in alloc; "drop {key}"),
        Item::Train { threshold } => format!(in alloc; "train {threshold}"),
        Item::At { id, point } => format!(in alloc; "point {id} {} {}", point.x, point.y),
        Item::Batch => String::from_str(alloc, "batch"),
        Item::Sync => String::from_str(alloc, "sync"),
        Item::Layers { set } => spelled_set(alloc, set),
    }
}

/// An answer about a line as a text.
pub fn spelled(
    alloc: Global,
    answer: &Result<Option<Item>, LineFault>,
) -> Result<String, AllocError> {
    match answer {
        Ok(Some(item)) => spelled_item(alloc, item),
        Ok(None) => String::from_str(alloc, "blank"),
        Err(LineFault::Wkt { kind, place }) => format!(in alloc; "fault Wkt {kind:?} {place}"),
        Err(fault) => format!(in alloc; "fault {fault:?}"),
    }
}
