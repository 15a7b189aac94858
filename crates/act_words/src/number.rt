//! Numbers as values of options.

ghost use Rattle.std.specs.Prelude.{◌≡◌, ◌≤◌, IfSome};
ghost use Rattle.std.specs.List.{list_all};
ghost use Rattle.std.specs.Char.{is_ascii_digit};
ghost use Rattle.act_words.specs.Words.{is_number, number_in};

/// The digits that a value may have.
const MOST_DIGITS: usize = 10;

/// Whether each byte is a decimal digit.
fn all_digits(bytes: &[u8]) -> bool
    ensures { result ≡ list_all is_ascii_digit bytes.now }
{
    bytes.iter().all(|b| b.is_ascii_digit())
}

/// Whether a value is one to ten decimal digits.
fn is_number(value: &str) -> bool
    ensures { result ≡ is_number value.now }
{
    let digits = value.as_bytes();
    if digits.len() < 1 {
        return false;
    }
    if digits.len() > MOST_DIGITS {
        return false;
    }
    all_digits(digits)
}

/// The number that a value says, from `least` to `most`.
#[tactic(auto, using(crate::proofs::NumberFacts::value_parses))]
pub fn number(value: &str, least: u64, most: u64) -> Option<u64>
    ensures value { result ≡ number_in least most value.now }
    ensures limits { IfSome result (λ n. (least ≤ n) × (n ≤ most)) }
{
    if !is_number(value) {
        return None;
    }
    match value.parse::<u64>() {
        Ok(n) if least <= n && n <= most => Some(n),
        _ => None,
    }
}
