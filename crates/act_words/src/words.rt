//! What words ask for.

ghost use Rattle.std.specs.Prelude.{◌≡◌, ◌≤◌, IfSome, None, map, string_bytes, codes, IfOk, option_map};
ghost use Rattle.std.specs.Option.{option_map_or};
ghost use Rattle.std.specs.List.{list_any};
ghost use Rattle.std.specs.Str.{bytes_eq};
ghost use Rattle.act_words.specs.Words.{HasSides, asks_of, fits, fits_demo, fits_demo_options, fits_options, set_to, wanted_by, wanted_of};
ghost use Rattle.act_words.specs.Words.Asks.{Joins};

use crate::demo::{only_number, part};
use crate::number::number;
use crate::options::{Values, parse_options};
use act_grid::{NoMemory, Settings};
use std::alloc::Global;

/// Whether some word is `--`.
fn is_dashed(words: &[String]) -> bool
    ensures { result ≡ list_any (λ word. bytes_eq (string_bytes word) (codes "--")) words.now }
{
    words.iter().any(|word| word.as_str() == "--")
}

/// The number that an option is set to.
fn setting(value: Option<&str>, otherwise: u64, least: u64, most: u64) -> Option<u64>
    requires { (least ≤ otherwise) × (otherwise ≤ most) }
    ensures value { result ≡ set_to otherwise least most (option_map (λ s. s.now) value.entry) }
    ensures limits { IfSome result (λ n. (least ≤ n) × (n ≤ most)) }
{
    match value {
        Some(value) => number(value, least, most),
        None => Some(otherwise),
    }
}

/// The settings by the values of the options.
#[tactic(auto, using(crate::proofs::NumberFacts::wanted_made))]
fn settings(values: &Values<'_>) -> Option<Settings>
    ensures { option_map wanted_of result ≡ wanted_by (option_map (λ s. s.now) values.now.digits) (option_map (λ s. s.now) values.now.rows)
        (option_map (λ s. s.now) values.now.cells) (option_map (λ s. s.now) values.now.workers) }
{
    let digits = setting(values.digits, 7, 0, 9)?;
    let rows = setting(values.rows, 16_384, 1, 262_144)?;
    let cells = setting(values.cells, 64, 1, 1024)?;
    let workers = setting(values.workers, 4, 1, 64)?;
    Settings::new(digits as u8, rows as u32, cells as u32, workers as u32)
}

/// The settings that the words after the command say, where they fit.
#[tactic(auto, using(crate::proofs::FitsFacts::fit_or_not))]
fn parse_settings(alloc: Global, options: &[String]) -> Result<Option<Settings>, NoMemory>
    ensures { IfOk result (λ found. option_map wanted_of found ≡ fits_options (map string_bytes options.now)) }
{
    if is_dashed(options) {
        return Ok(None);
    }
    match parse_options(alloc, options)? {
        Some(values) => Ok(settings(&values)),
        None => Ok(None),
    }
}

/// What the words of a command line ask for.
#[derive(Clone, Copy, Debug, PartialEq, Eq)]
pub enum Asked {
    /// To join the script of the input.
    Join(Settings),
    /// To show the demo of so many zones a side, from 1 to 16.
    Demo(u8, Settings),
}

/// The settings of a demo by the values of the options, of which none may be for the digits.
fn demo_settings(values: &Values<'_>) -> Option<Settings>
    ensures { option_map wanted_of result ≡ option_map_or (λ digits. None) (option_map (λ s. s.now) values.now.digits)
        (wanted_by (option_map (λ s. s.now) values.now.digits) (option_map (λ s. s.now) values.now.rows) (option_map (λ s. s.now) values.now.cells) (option_map (λ s. s.now) values.now.workers)) }
{
    if values.digits.is_some() {
        return None;
    }
    settings(values)
}

/// The settings that the options of a demo say, where they fit.
#[tactic(auto, using(crate::proofs::FitsFacts::demo_fit_or_not))]
fn parse_demo_settings(alloc: Global, options: &[String]) -> Result<Option<Settings>, NoMemory>
    ensures { IfOk result (λ found. option_map wanted_of found ≡ fits_demo_options (map string_bytes options.now)) }
{
    if is_dashed(options) {
        return Ok(None);
    }
    match parse_options(alloc, options)? {
        Some(values) => Ok(demo_settings(&values)),
        None => Ok(None),
    }
}

/// What the words after `demo` ask for, where they fit.
fn parse_demo(alloc: Global, words: &[String]) -> Result<Option<Asked>, NoMemory>
    ensures asks { IfOk result (λ found. option_map asks_of found ≡ fits_demo (map string_bytes words.now)) }
    ensures sides { IfOk result (λ found. IfSome found HasSides) }
{
    let parted = part(alloc, words)?;
    let Some(count) = only_number(&parted.plain) else {
        return Ok(None);
    };
    match parse_demo_settings(alloc, &parted.options)? {
        Some(settings) => Ok(Some(Asked::Demo(count as u8, settings))),
        None => Ok(None),
    }
}

/// What the words after `join` ask for, where they fit.
fn parse_join(alloc: Global, words: &[String]) -> Result<Option<Asked>, NoMemory>
    ensures asks { IfOk result (λ found. option_map asks_of found ≡ option_map Joins (fits_options (map string_bytes words.now))) }
    ensures sides { IfOk result (λ found. IfSome found HasSides) }
{
    match parse_settings(alloc, words)? {
        Some(settings) => Ok(Some(Asked::Join(settings))),
        None => Ok(None),
    }
}

/// What the words of a command line ask for, those after the program's name: the word `join`, and then each of
/// `--digits` (0 to 9, else 7), `--rows` (1 to 262,144, else 16,384), `--cells` (1 to 1,024, else 64) and `--workers`
/// (1 to 64, else 4) at most once, in any order, as two words or as one with `=`; or the word `demo`, and then the
/// same options but `--digits`, and one number from 1 to 16 among them. None comes exactly where the words don't fit.
///
/// It takes time in proportion to the words, and memory for what `clap` keeps of them, and for a copy of those of a demo.
pub fn parse_words(alloc: Global, words: &[String]) -> Result<Option<Asked>, NoMemory>
    ensures asks { IfOk result (λ found. option_map asks_of found ≡ fits (map string_bytes words.now)) }
    ensures sides { IfOk result (λ found. IfSome found HasSides) }
{
    match words {
        [command, rest @ ..] => {
            if command.as_str() == "join" {
                parse_join(alloc, rest)
            } else if command.as_str() == "demo" {
                parse_demo(alloc, rest)
            } else {
                Ok(None)
            }
        }
        [] => Ok(None),
    }
}
