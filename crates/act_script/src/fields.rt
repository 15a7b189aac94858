//! The fields of a line.

ghost use Rattle.std.specs.Prelude.{IsTrue, ◌≡◌, ◌==◌, ◌<◌, [], ◌∷◌, ◌++◌, Some, MatchOption, IfOk, IfSome, length, option_map, count_by, codes, false};
ghost use Rattle.std.specs.List.{list_any, slice_split};
ghost use Rattle.csv.specs.Records.{fields_of};
ghost use Rattle.act_script.specs.Cutting.{IsOpen};
ghost use Rattle.act_script.specs.Records.{split_at_commas};
ghost use Rattle.act_script.specs.Fields.{is_blank, is_broken, line_fields, whole_of, without_marks};

use crate::row::Quoted;
use act_grid::NoMemory;
use csv::{ByteRecord, ReaderBuilder};
use memchr::{memchr, memchr2};
use std::alloc::Global;

/// A line without the byte order marks at its start.
pub fn strip_marks(line: &[u8]) -> &[u8]
    ensures { result.now ≡ without_marks line.now }
{
    let mut rest = line;
    while rest.len() >= 3 && rest[0] == 0xEF && rest[1] == 0xBB && rest[2] == 0xBF {
        rest = &rest[3..];
    }
    rest
}

/// Whether a line has nothing but spaces and tabs.
pub fn has_nothing(line: &[u8]) -> bool
    ensures { result ≡ is_blank line.now }
{
    line.iter().all(|b| *b == b' ' || *b == b'\t')
}

/// Whether an odd number of quotes or a carriage return stands in a line.
pub fn has_break(line: &[u8]) -> bool
    ensures { result ≡ is_broken line.now }
{
    quotes_in(line) % 2 == 1 || has_return(line)
}

fn quotes_in(line: &[u8]) -> usize
    ensures { result ≡ count_by (λ b. b == 34) line.now }
{
    line.iter().filter(|b| **b == b'"').count()
}

fn has_return(line: &[u8]) -> bool
    ensures { result ≡ list_any (λ b. b == 13) line.now }
{
    line.iter().any(|b| *b == b'\r')
}

/// The fields of the record that `csv` reads from a line, where it has one. A reader is made for
/// each line, which takes some tens of microseconds. Each error of `csv` is answered as want of memory.
pub fn read_fields(alloc: Global, line: &[u8]) -> Result<Option<ByteRecord>, NoMemory>
    ensures { IfOk result (λ row. option_map fields_of row ≡ line_fields line.now) }
{
    let mut reader = ReaderBuilder::new()
        .has_headers(false)
        .from_reader(alloc, line);
    let mut row = ByteRecord::new(alloc);
    match reader.read_byte_record(&mut row) {
        Ok(true) => Ok(Some(row)),
        Ok(false) => Ok(None),
        Err(_) => Err(NoMemory),
    }
}

/// The number that decimal digits write, where it is no greater than `most`. Any count of leading
/// zeros is read.
pub fn whole(text: &[u8], most: u64) -> Option<u64>
    ensures { result ≡ whole_of most text.now }
{
    if text.is_empty() {
        return None;
    }
    let tenth = most / 10;
    let mut value: u64 = 0;
    for b in text {
        if !b.is_ascii_digit() {
            return None;
        }
        let digit = u64::from(*b - b'0');
        if value > tenth || digit > most - value * 10 {
            return None;
        }
        value = value * 10 + digit;
    }
    Some(value)
}

/// What stands before the first such byte, and what after it.
pub fn cut(text: &[u8], byte: u8) -> Option<(&[u8], &[u8])>
    ensures { MatchOption result (slice_split (λ b. b == byte) text.now ≡ text.now ∷ [])
        (λ parts. (slice_split (λ b. b == byte) text.now ≡ parts.0.now ∷ slice_split (λ b. b == byte) parts.1.now) × (length parts.1.now < length text.now)) }
{
    match memchr(byte, text) {
        Some(at) => Some((&text[..at], &text[at + 1..])),
        None => None,
    }
}

/// What follows `point,` on a line without quotes, where its fields need no reader of `csv`.
pub fn plain_point(line: &[u8]) -> Option<&[u8]>
    requires { IsOpen line.now }
    ensures { IfSome result (λ fields. (is_broken line.now ≡ false) × (line_fields line.now ≡ Some (codes "point" ∷ split_at_commas fields.now))) }
{
    let fields = strip_word(line, b"point,")?;
    match memchr2(b'"', b'\r', fields) {
        Some(_) => None,
        None => Some(fields),
    }
}

/// What follows the word with which the text begins.
fn strip_word<'a>(text: &'a [u8], word: &[u8]) -> Option<&'a [u8]>
    ensures { IfSome result (λ rest. text.now ≡ word.now ++ rest.now) }
{
    text.strip_prefix(word)
}

/// Whether the fields of a line are the texts between its commas.
pub fn is_plain(line: &[u8]) -> bool
    requires { IsOpen line.now }
    ensures { IsTrue result → (is_broken line.now ≡ false) × (line_fields line.now ≡ Some (split_at_commas line.now)) }
{
    if line.is_empty() || line[0] == 0xEF {
        return false;
    }
    match memchr2(b'"', b'\r', line) {
        Some(_) => false,
        None => true,
    }
}

/// The fields of a line whose last one alone stands in quotes, with no quote within, where they need no
/// reader of `csv`.
pub fn quoted_last(line: &[u8]) -> Option<Quoted<'_>>
    requires { IsOpen line.now }
    ensures { IfSome result (λ row. (is_broken line.now ≡ false) × (line_fields line.now ≡ Some (split_at_commas row.front.now ++ row.last.now ∷ []))) }
{
    let at = memchr(b'"', line)?;
    if at == 0 || line[at - 1] != b',' || line[0] == 0xEF {
        return None;
    }
    let front = &line[..at - 1];
    let rest = &line[at + 1..];
    let end = memchr2(b'"', b'\r', rest)?;
    if rest[end] != b'"' || end + 1 != rest.len() {
        return None;
    }
    match memchr(b'\r', front) {
        Some(_) => None,
        None => Some(Quoted {
            front,
            last: &rest[..end],
        }),
    }
}
