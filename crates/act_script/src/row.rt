//! The fields of a line, wherever they lie: in a record of `csv`, or in the line itself.

ghost use Rattle.std.specs.Prelude.{◌≡◌, ◌==◌, ◌∷◌, [], ◌++◌, List, length, count_by, ◌<◌, ◌^◌, ◌-◌};
ghost use Rattle.csv.specs.Records.{fields_of};
ghost use Rattle.act_script.specs.Fields.{Field, field_text};
ghost use Rattle.act_script.specs.Records.{split_at_commas};

use crate::fields::cut;
use csv::ByteRecord;

/// The fields of a line.
pub trait Row {
    ghost texts: { Self → List Field };

    /// How many there are.
    fn count(&self) -> usize
        ensures { result ≡ length (texts self.now) };

    /// The field at a place, and nothing where there is none.
    fn field(&self, place: usize) -> &[u8]
        ensures { result.now ≡ field_text (texts self.now) place };
}

impl Row for ByteRecord {
    ghost texts = { fields_of };

    fn count(&self) -> usize {
        self.len()
    }

    fn field(&self, place: usize) -> &[u8] {
        self.get(place).unwrap_or(&[])
    }
}

/// The fields between the commas of a line.
#[derive(Clone, Copy)]
pub struct Plain<'a> {
    pub line: &'a [u8],
}

impl Row for Plain<'_> {
    ghost texts = { λ row. split_at_commas row.line.now };

    fn count(&self) -> usize {
        count_split(self.line)
    }

    fn field(&self, place: usize) -> &[u8] {
        split_field(self.line, place)
    }
}

/// The fields between the commas of the front of a line, and one that stood in quotes behind it.
#[derive(Clone, Copy)]
pub struct Quoted<'a> {
    pub front: &'a [u8],
    pub last: &'a [u8],
}

impl Row for Quoted<'_> {
    ghost texts = { λ row. split_at_commas row.front.now ++ row.last.now ∷ [] };

    fn count(&self) -> usize {
        count_split(self.front) + 1
    }

    fn field(&self, place: usize) -> &[u8] {
        let before = count_split(self.front);
        if place < before {
            return split_field(self.front, place);
        }
        if place == before { self.last } else { &[] }
    }
}

/// How many texts stand between the commas of a text.
fn count_split(text: &[u8]) -> usize
    ensures value { result ≡ length (split_at_commas text.now) }
    ensures few { result < 2 ^ 64 - 1 }
{
    commas_in(text) + 1
}

fn commas_in(text: &[u8]) -> usize
    ensures { result ≡ count_by (λ b. b == 44) text.now }
{
    text.iter().filter(|b| **b == b',').count()
}

/// The text at a place among those between the commas of a text.
fn split_field(text: &[u8], place: usize) -> &[u8]
    ensures { result.now ≡ field_text (split_at_commas text.now) place }
{
    let mut rest = text;
    for _ in 0..place {
        let Some((_, more)) = cut(rest, b',') else {
            return &[];
        };
        rest = more;
    }
    match cut(rest, b',') {
        Some((first, _)) => first,
        None => rest,
    }
}
