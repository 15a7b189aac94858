//! The words of lists: two references each, the last of an odd list with one.

ghost use Rattle.std.specs.Prelude.{◌≡◌, ◌<◌, ◌^◌};
ghost use Rattle.act_entry.specs.Lists.{IsPair, both_of, pair_of, pair_word, second_of};

use crate::reference::{Ref, number_of, reference};

/// The numbers of references are below this.
const NUMBERS: u64 = 1 << 31;

/// The word of one or two references of a list. Their rows are from 1 to 2^30-1.
#[inline]
pub fn pack(a: Ref, b: Option<Ref>) -> u64
    requires { IsPair a b }
    ensures { result ≡ pair_word a b }
{
    match b {
        None => number_of(a),
        Some(b) => number_of(a) + number_of(b) * NUMBERS,
    }
}

/// The references of a word of a list. None comes exactly where no references have the word.
#[inline]
#[tactic(auto, unfolding(crate::specs::Lists::pair_of))]
pub fn unpack(word: u64) -> Option<(Ref, Option<Ref>)>
    ensures { result ≡ pair_of word }
{
    if word >= NUMBERS * NUMBERS {
        return None;
    }
    both(word % NUMBERS, word / NUMBERS)
}

#[inline]
fn both(first: u64, second: u64) -> Option<(Ref, Option<Ref>)>
    requires first { first < 2 ^ 31 }
    requires second { second < 2 ^ 31 }
    ensures { result ≡ both_of first second }
{
    let first = reference(first)?;
    let second = maybe(second)?;
    Some((first, second))
}

// The second reference, which a word may lack.
#[inline]
fn maybe(number: u64) -> Option<Option<Ref>>
    requires { number < 2 ^ 31 }
    ensures { result ≡ second_of number }
{
    if number == 0 {
        return Some(None);
    }
    let second = reference(number)?;
    Some(Some(second))
}
