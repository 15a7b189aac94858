//! Sets of layers as text.

ghost use Rattle.std.specs.Prelude.{◌≡◌, ◌==◌, count_by, length};
ghost use Rattle.std.specs.List.{slice_split};
ghost use Rattle.act_script.specs.Fields.{whole_of};
ghost use Rattle.act_script.specs.Items.{set_of};

use crate::fields::{cut, whole};
use act_grid::Layers;

/// How many numbers a set may have.
const MOST_NUMBERS: usize = 256;

/// The set that a text names: `*` for all layers, or numbers from 0 to 255, joined by `;`.
pub fn read_set(text: &[u8]) -> Option<Layers>
    ensures { result ≡ set_of text.now }
{
    if text == b"*".as_slice() {
        return Some(Layers::all());
    }
    if numbers_in(text) > MOST_NUMBERS {
        return None;
    }
    let mut set = Layers::none();
    let mut rest = text;
    'numbers: while let Some((number, more)) = cut(rest, b';') {
        set = set.with(read_number(number)?);
        rest = more;
    }
    Some(set.with(read_number(rest)?))
}

/// How many numbers are joined in a text.
fn numbers_in(text: &[u8]) -> usize
    ensures { result ≡ length (slice_split (λ b. b == 59) text.now) }
{
    separators_in(text) + 1
}

fn separators_in(text: &[u8]) -> usize
    ensures { result ≡ count_by (λ b. b == 59) text.now }
{
    text.iter().filter(|b| **b == b';').count()
}

fn read_number(text: &[u8]) -> Option<u8>
    ensures { result ≡ whole_of 255 text.now }
{
    match whole(text, 255) {
        Some(number) => Some(number as u8),
        None => None,
    }
}
