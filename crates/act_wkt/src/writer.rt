//! The text of a shape.

ghost use Rattle.std.specs.Prelude.{◌≡◌, ◌≤◌, ◌<◌, ◌^◌, ◌++◌, ◌∷◌, [], IfOk, OnOk, length};
ghost use Rattle.act_wkt.specs.Spelling.{decimals_of, last_digits, number_text, point_text, ring_text, spelling};

use crate::text::Text;
use act_geom::Shape;
use act_grid::{NoMemory, Point};
use itoa::Buffer;
use std::alloc::Global;

/// The text of a shape: `POLYGON EMPTY`, or `POLYGON(`, its rings joined by `,`, and `)`.
///
/// Each coordinate has exactly `digits` decimals. `read` reads the text as the same shape where its points, the
/// closing one of each ring counted, are at most 262,144.
#[tactic(auto, unfolding(crate::specs::Spelling::spelling))]
pub fn write(alloc: Global, shape: &Shape, digits: u8) -> Result<Text, NoMemory>
    requires { digits ≤ 9 }
    ensures { IfOk result (λ text. text ≡ spelling digits shape.now) }
{
    let mut bytes = Vec::new(alloc);
    if shape.rings() == 0 {
        bytes.extend_from_slice(b"POLYGON EMPTY")?;
        return Ok(Text::from_bytes(bytes));
    }
    bytes.extend_from_slice(b"POLYGON(")?;
    put_ring(&mut bytes, shape.ring(0), digits)?;
    for k in 1..shape.rings() {
        bytes.push(b',')?;
        put_ring(&mut bytes, shape.ring(k), digits)?;
    }
    bytes.push(b')')?;
    Ok(Text::from_bytes(bytes))
}

/// Puts a ring at the end of the bytes.
#[tactic(auto, unfolding(crate::specs::Spelling::ring_text))]
fn put_ring(bytes: &mut Vec<u8>, ring: &[Point], digits: u8) -> Result<(), NoMemory>
    requires digits { digits ≤ 9 }
    requires some { 0 < length ring.now }
    ensures { OnOk result (bytes.new.items ≡ bytes.old.items ++ ring_text digits ring.now) }
{
    bytes.push(b'(')?;
    for point in ring {
        put_point(bytes, *point, digits)?;
        bytes.push(b',')?;
    }
    put_point(bytes, ring[0], digits)?;
    bytes.push(b')')?;
    Ok(())
}

/// Puts a point at the end of the bytes.
#[tactic(auto, unfolding(crate::specs::Spelling::point_text))]
fn put_point(bytes: &mut Vec<u8>, point: Point, digits: u8) -> Result<(), NoMemory>
    requires { digits ≤ 9 }
    ensures { OnOk result (bytes.new.items ≡ bytes.old.items ++ point_text digits point) }
{
    put_number(bytes, point.x, digits)?;
    bytes.push(b' ')?;
    put_number(bytes, point.y, digits)
}

/// Puts a number of units at the end of the bytes.
#[tactic(auto, unfolding(crate::specs::Spelling::number_text))]
fn put_number(bytes: &mut Vec<u8>, units: i32, digits: u8) -> Result<(), NoMemory>
    requires { digits ≤ 9 }
    ensures { OnOk result (bytes.new.items ≡ bytes.old.items ++ number_text digits units) }
{
    if units < 0 {
        bytes.push(b'-')?;
    }
    let magnitude = units.unsigned_abs();
    let mut buffer = Buffer::new();
    let whole = buffer.format(magnitude / power_of_ten(digits));
    bytes.extend_from_slice(whole.as_bytes())?;
    put_decimals(bytes, magnitude, digits)
}

/// Puts a point and this many decimals at the end of the bytes.
fn put_decimals(bytes: &mut Vec<u8>, magnitude: u32, digits: u8) -> Result<(), NoMemory>
    requires { digits ≤ 9 }
    ensures { OnOk result (bytes.new.items ≡ bytes.old.items ++ decimals_of digits magnitude) }
{
    if digits == 0 {
        return Ok(());
    }
    bytes.push(b'.')?;
    let mut left = digits;
    while left > 0 {
        left -= 1;
        let digit = magnitude / power_of_ten(left) % 10;
        bytes.push(b'0' + digit as u8)?;
    }
    Ok(())
}

/// 10^`digits`.
fn power_of_ten(digits: u8) -> u32
    requires { digits ≤ 9 }
    ensures value { result ≡ 10 ^ digits }
    ensures some { 0 < result }
{
    10u32.pow(u32::from(digits))
}
