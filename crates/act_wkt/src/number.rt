//! The numbers and points of a text.

ghost use Rattle.std.specs.Prelude.{◌≡◌, ◌≤◌, ◌<◌, [], IfOk, OnOk, length};
ghost use Rattle.act_wkt.specs.declared.fault.Stop.TheVariants as stop;
ghost use Rattle.act_wkt.specs.Reading.{Gives};
ghost use Rattle.act_wkt.specs.Wkt.{after_point, number_at, point_at, points_at};

use crate::fault::{Stop, WktKind};
use crate::token::{Class, is_first, skipped, split_run};
use act_grid::{NumFault, Point, coord};

/// The points that are due up to a `)`, where `room` may come in the text, and the text from the `)` on.
/// They are put at the end of `points`.
pub(crate) fn read_points<'a>(
    text: &'a [u8],
    digits: u8,
    room: u32,
    points: &mut Vec<Point>,
) -> Result<&'a [u8], Stop>
    requires digits { digits ≤ 9 }
    requires empty { points.old.items ≡ [] }
    ensures points { Gives (λ rest. (points.new.items, rest.now)) result (points_at digits room text.now) }
    ensures few { OnOk result (length points.new.items ≤ room) }
    ensures close { IfOk result (λ rest. 0 < length rest.now) }
{
    let mut rest = text;
    let mut left = room;
    while left > 0 {
        left -= 1;
        let (point, behind) = read_point(rest, digits)?;
        points.push(point)?;
        let behind = skipped(behind);
        if is_first(behind, b',') {
            rest = &behind[1..];
        } else if is_first(behind, b')') {
            return Ok(behind);
        } else {
            return Err(no_close(behind));
        }
    }
    Err(Stop::at(WktKind::Vertices, skipped(rest)))
}

/// The fault where neither `,` nor `)` stands behind a point.
fn no_close(text: &[u8]) -> Stop
    ensures { result ≡ Stop.At (after_point text.now) }
{
    let more = !text.is_empty() && text[0].is_ascii_digit();
    if more || is_first(text, b'+') || is_first(text, b'-') || is_first(text, b'.') {
        Stop::at(WktKind::Dimension, text)
    } else {
        Stop::at(WktKind::NoClose, text)
    }
}

/// The point that is due, and the text behind it.
#[tactic(auto, unfolding(crate::specs::Wkt::point_at))]
fn read_point(text: &[u8], digits: u8) -> Result<(Point, &[u8]), Stop>
    requires { digits ≤ 9 }
    ensures { Gives (λ read. (read.0, read.1.now)) result (point_at digits text.now) }
{
    let (x, rest) = read_number(text, digits)?;
    let (y, rest) = read_number(rest, digits)?;
    Ok((Point { x, y }, rest))
}

/// The number that is due, and the text behind it.
#[tactic(auto, unfolding(crate::specs::Wkt::number_at))]
fn read_number(text: &[u8], digits: u8) -> Result<(i32, &[u8]), Stop>
    requires { digits ≤ 9 }
    ensures { Gives (λ read. (read.0, read.1.now)) result (number_at digits text.now) }
{
    let text = skipped(text);
    let (run, rest) = split_run(Class::Number, text);
    match coord(run, digits) {
        Ok(value) => Ok((value, rest)),
        Err(NumFault::Form) => Err(Stop::at(WktKind::Number, text)),
        Err(NumFault::Range) => Err(Stop::at(WktKind::Range, text)),
    }
}
