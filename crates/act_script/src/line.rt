//! Lines as items.

ghost use Rattle.std.specs.Prelude.{◌≡◌, ◌≤◌, ◌<◌, ◌^◌, ◌∷◌, Err, IfOk, IfSome, length, codes};
ghost use Rattle.std.specs.Str.{bytes_eq};
ghost use Rattle.csv.specs.Records.{fields_of};
ghost use Rattle.act_grid.specs.Number.{value_of};
ghost use Rattle.act_wkt.specs.Wkt.{wkt_of};
ghost use Rattle.act_script.specs.Cutting.{IsOpen};
ghost use Rattle.act_script.specs.Fields.{field_text};
ghost use Rattle.act_script.specs.Records.{AreShort, split_at_commas};
ghost use Rattle.act_script.specs.Answers.{IsAnswer};
ghost use Rattle.act_script.specs.Items.{brief_item, coordinate, drop_item, id_of, item_of, key_of, kind_item, layers_item, point_item, record_item, replace_item, shaped, threshold_of, told_item, train_item, with_fields, zone_item};
ghost use Rattle.act_script.specs.Segments.{ItemHasThreshold};

use crate::fault::LineFault;
use crate::fields::{
    cut, has_break, has_nothing, is_plain, plain_point, quoted_last, read_fields, strip_marks,
    whole,
};
use crate::item::Item;
use crate::row::{Plain, Row};
use crate::set::read_set;
use act_geom::Shape;
use act_grid::{NoMemory, NumFault, Point, coord};
use act_wkt::{WktFault, read};
use std::alloc::Global;

/// What a line says: nothing where it is blank, its item, or its first fault.
///
/// It takes time in proportion to the length of the line. A line without quotes, and one whose last
/// field alone stands in quotes, with none within it, is read where it lies, and takes memory for a shape
/// alone. Any other line makes a reader of `csv`, which takes some tens of microseconds.
pub fn read_line(alloc: Global, line: &[u8], digits: u8) -> Result<Option<Item>, LineFault>
    requires digits { digits ≤ 9 }
    requires short { length line.now ≤ 16777216 }
    requires one { IsOpen line.now }
    ensures said { IsAnswer result (item_of digits line.now) }
    ensures threshold { IfOk result (λ item. IfSome item ItemHasThreshold) }
{
    let line = strip_marks(line);
    if has_nothing(line) {
        return Ok(None);
    }
    match read_told(alloc, line, digits) {
        Ok(item) => Ok(Some(item)),
        Err(fault) => Err(fault),
    }
}

/// What a line that isn't blank says.
fn read_told(alloc: Global, line: &[u8], digits: u8) -> Result<Item, LineFault>
    requires digits { digits ≤ 9 }
    requires short { length line.now < 2 ^ 32 }
    requires one { IsOpen line.now }
    ensures { IsAnswer result (told_item digits line.now) }
{
    if let Some(fields) = plain_point(line) {
        return read_point(fields, digits);
    }
    if is_plain(line) {
        return read_record(alloc, &Plain { line }, digits);
    }
    if let Some(row) = quoted_last(line) {
        return read_record(alloc, &row, digits);
    }
    if has_break(line) {
        return Err(LineFault::Fields);
    }
    match read_fields(alloc, line) {
        Ok(Some(row)) => read_record(alloc, &row, digits),
        Ok(None) => Err(LineFault::Kind),
        Err(NoMemory) => Err(LineFault::NoMemory),
    }
}

/// What the fields of a point say that are joined by commas.
fn read_point(fields: &[u8], digits: u8) -> Result<Item, LineFault>
    requires { digits ≤ 9 }
    ensures { result ≡ record_item digits (codes "point" ∷ split_at_commas fields.now) }
{
    let Some((id, rest)) = cut(fields, b',') else {
        return Err(LineFault::Fields);
    };
    let Some((x, y)) = cut(rest, b',') else {
        return Err(LineFault::Fields);
    };
    match cut(y, b',') {
        Some(_) => Err(LineFault::Fields),
        None => make_point(id, x, y, digits),
    }
}

fn make_point(id: &[u8], x: &[u8], y: &[u8], digits: u8) -> Result<Item, LineFault>
    requires { digits ≤ 9 }
    ensures { result ≡ point_item digits id.now x.now y.now }
{
    let Some(id) = whole(id, u64::MAX) else {
        return Err(LineFault::PointId);
    };
    let x = read_coordinate(x, digits)?;
    let y = read_coordinate(y, digits)?;
    Ok(Item::At {
        id,
        point: Point { x, y },
    })
}

fn read_coordinate(text: &[u8], digits: u8) -> Result<i32, LineFault>
    requires { digits ≤ 9 }
    ensures { result ≡ coordinate (value_of digits text.now) }
{
    match coord(text, digits) {
        Ok(units) => Ok(units),
        Err(NumFault::Form) => Err(LineFault::Number),
        Err(NumFault::Range) => Err(LineFault::Range),
    }
}

fn read_key(text: &[u8]) -> Result<u32, LineFault>
    ensures { result ≡ key_of text.now }
{
    match whole(text, u64::from(u32::MAX)) {
        Some(key) => Ok(key as u32),
        None => Err(LineFault::Key),
    }
}

fn read_shape(alloc: Global, text: &[u8], digits: u8) -> Result<Shape, LineFault>
    requires digits { digits ≤ 9 }
    requires short { length text.now < 2 ^ 32 }
    ensures { IsAnswer result (shaped (wkt_of digits text.now)) }
{
    match read(alloc, text, digits) {
        Ok(shape) => Ok(shape),
        Err(WktFault::At { kind, place }) => Err(LineFault::Wkt { kind, place }),
        Err(WktFault::NoMemory) => Err(LineFault::NoMemory),
    }
}

fn read_zone(alloc: Global, key: &[u8], text: &[u8], digits: u8) -> Result<Item, LineFault>
    requires digits { digits ≤ 9 }
    requires short { length text.now < 2 ^ 32 }
    ensures { IsAnswer result (zone_item digits key.now text.now) }
{
    let key = read_key(key)?;
    match read_shape(alloc, text, digits) {
        Ok(shape) => Ok(Item::Zone { key, shape }),
        Err(fault) => Err(fault),
    }
}

fn read_replace(alloc: Global, key: &[u8], text: &[u8], digits: u8) -> Result<Item, LineFault>
    requires digits { digits ≤ 9 }
    requires short { length text.now < 2 ^ 32 }
    ensures { IsAnswer result (replace_item digits key.now text.now) }
{
    let key = read_key(key)?;
    match read_shape(alloc, text, digits) {
        Ok(shape) => Ok(Item::Replace { key, shape }),
        Err(fault) => Err(fault),
    }
}

fn read_drop(key: &[u8]) -> Result<Item, LineFault>
    ensures { result ≡ drop_item key.now }
{
    let key = read_key(key)?;
    Ok(Item::DropZone { key })
}

fn read_threshold(text: &[u8]) -> Result<u32, LineFault>
    ensures { result ≡ threshold_of text.now }
{
    let Some(threshold) = whole(text, u64::from(u32::MAX)) else {
        return Err(LineFault::Threshold);
    };
    if threshold == 0 {
        return Err(LineFault::Threshold);
    }
    Ok(threshold as u32)
}

fn read_train(text: &[u8]) -> Result<Item, LineFault>
    ensures { result ≡ train_item text.now }
{
    let threshold = read_threshold(text)?;
    Ok(Item::Train { threshold })
}

fn read_layers(text: &[u8]) -> Result<Item, LineFault>
    ensures { result ≡ layers_item text.now }
{
    match read_set(text) {
        Some(set) => Ok(Item::Layers { set }),
        None => Err(LineFault::Layers),
    }
}

/// Whether a field is this text.
fn is_text(field: &[u8], text: &[u8]) -> bool
    ensures { result ≡ bytes_eq field.now text.now }
{
    field == text
}

/// What the fields of a line say.
fn read_record<W: Row>(alloc: Global, row: &W, digits: u8) -> Result<Item, LineFault>
    requires digits { digits ≤ 9 }
    requires short { AreShort (W.texts row.now) }
    ensures { IsAnswer result (record_item digits (W.texts row.now)) }
{
    let kind = row.field(0);
    let count = row.count();
    if is_text(kind, b"point") {
        if count != 4 {
            return Err(LineFault::Fields);
        }
        return make_point(row.field(1), row.field(2), row.field(3), digits);
    }
    if is_text(kind, b"zone") {
        if count != 3 {
            return Err(LineFault::Fields);
        }
        return read_zone(alloc, row.field(1), row.field(2), digits);
    }
    if is_text(kind, b"replace") {
        if count != 3 {
            return Err(LineFault::Fields);
        }
        return read_replace(alloc, row.field(1), row.field(2), digits);
    }
    read_brief(row)
}

/// What the fields of a line of the other kinds say.
fn read_brief<W: Row>(row: &W) -> Result<Item, LineFault>
    ensures { result ≡ brief_item (W.texts row.now) (field_text (W.texts row.now) 0) }
{
    let kind = row.field(0);
    let count = row.count();
    if is_text(kind, b"drop") {
        return if count == 2 {
            read_drop(row.field(1))
        } else {
            Err(LineFault::Fields)
        };
    }
    if is_text(kind, b"train") {
        return if count == 2 {
            read_train(row.field(1))
        } else {
            Err(LineFault::Fields)
        };
    }
    if is_text(kind, b"batch") {
        return if count == 1 {
            Ok(Item::Batch)
        } else {
            Err(LineFault::Fields)
        };
    }
    if is_text(kind, b"sync") {
        return if count == 1 {
            Ok(Item::Sync)
        } else {
            Err(LineFault::Fields)
        };
    }
    if is_text(kind, b"layers") {
        return if count == 2 {
            read_layers(row.field(1))
        } else {
            Err(LineFault::Fields)
        };
    }
    Err(LineFault::Kind)
}
