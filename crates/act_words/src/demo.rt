//! The words of the demo.

ghost use Rattle.std.specs.Prelude.{◌≡◌, ◌≤◌, ◌++◌, [], ◌∷◌, ℕ, false, IfOk, IfSome, OnOk, List, map, string_bytes};
ghost use Rattle.act_words.specs.Words.{only_number, option_words, plain_words};

use crate::kind::{WordKind, kind_of};
use crate::number::number;
use act_grid::NoMemory;
use std::alloc::{AllocError, Global};

/// The words of options, and the others.
#[derive(Drop)]
pub struct Parted {
    pub options: Vec<String>,
    pub plain: Vec<String>,
}

/// Parts the words. It takes memory for all of them.
pub fn part(alloc: Global, words: &[String]) -> Result<Parted, NoMemory>
    ensures options { IfOk result (λ parted. map string_bytes parted.options.items ≡ option_words false (map string_bytes words.now)) }
    ensures plain { IfOk result (λ parted. map string_bytes parted.plain.items ≡ plain_words false (map string_bytes words.now)) }
{
    let mut parted = Parted {
        options: Vec::new(alloc),
        plain: Vec::new(alloc),
    };
    let mut waits = false;
    for word in words {
        waits = parted.put(word, waits)?;
    }
    Ok(parted)
}

impl Parted {
    // Puts a word, and says whether an option waits for its value then.
    fn put(&mut self, word: &String, waits: bool) -> Result<bool, AllocError>
        ensures options { IfOk result (λ waiting. (more : List (List ℕ)) → map string_bytes self.new.options.items ++ option_words waiting more ≡ map string_bytes self.old.options.items ++ option_words waits (string_bytes word.now ∷ more)) }
        ensures plain { IfOk result (λ waiting. (more : List (List ℕ)) → map string_bytes self.new.plain.items ++ plain_words waiting more ≡ map string_bytes self.old.plain.items ++ plain_words waits (string_bytes word.now ∷ more)) }
    {
        if waits {
            push(&mut self.options, word)?;
            return Ok(false);
        }
        match kind_of(word.as_bytes()) {
            WordKind::Plain => {
                push(&mut self.plain, word)?;
                Ok(false)
            }
            WordKind::Name => {
                push(&mut self.options, word)?;
                Ok(true)
            }
            WordKind::Whole => {
                push(&mut self.options, word)?;
                Ok(false)
            }
        }
    }
}

fn push(words: &mut Vec<String>, word: &String) -> Result<(), AllocError>
    ensures { OnOk result (map string_bytes words.new.items ≡ map string_bytes words.old.items ++ string_bytes word.now ∷ []) }
{
    let copy = word.clone()?;
    words.push(copy)?;
    Ok(())
}

/// The number that the only word says, where there is one.
pub fn only_number(words: &[String]) -> Option<u64>
    ensures value { result ≡ only_number (map string_bytes words.now) }
    ensures limits { IfSome result (λ n. (1 ≤ n) × (n ≤ 16)) }
{
    match words {
        [word] => number(word.as_str(), 1, 16),
        _ => None,
    }
}
