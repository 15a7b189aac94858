//! The coordinate of a decimal.
//!
//! Only the digits up to the last one that counts, and the one behind it, decide, so no big numbers are needed:
//! a magnitude grows to a cap just past the range and stays there. Most numbers have no exponent: these are checked
//! and read in the same pass. With an exponent, the digits are read once more when it is known.

ghost use Rattle.std.specs.Prelude.{◌≡◌, ◌≤◌, ◌<◌, ◌+◌, ◌-◌, ◌*◌, ◌/◌, ◌^◌, ◌≤ℤ◌, ◌-ℤ◌, ◌++◌, ℕ, List, [], IfSome, OnSome, drop, length, min, neg_ℤ, negsuc, pos, take, true};
ghost use Rattle.std.specs.Char.{is_ascii_digit};
ghost use Rattle.std.specs.Str.{all_ascii_digits};
ghost use Rattle.std.specs.Str.Parse.{digits_value, digits_value_after, starts_with_minus};
ghost use Rattle.act_grid.specs.Number.{value_of, in_range, signed_by, without_sign, digits_first, decimal_of, exponent_of, size_of, rounded};

/// Why a text gives no coordinate.
#[derive(Clone, Copy, Debug, PartialEq, Eq)]
pub enum NumFault {
    /// It is no number.
    Form,
    /// It is a number whose coordinate is outside -2^31 to 2^31-1.
    Range,
}

/// Past every coordinate: the greatest that a magnitude grows to while it is read.
const CAP: u64 = 1 << 32;

/// The coordinate of a decimal: its value times 10^`digits`, rounded to the nearest whole number, a tie away
/// from zero. Any count of digits is read; it takes time in proportion to the length, and no memory.
#[tactic(auto, using(crate::proofs::Range::capped_range), unfolding(crate::specs::Number::value_of))]
pub fn coord(text: &[u8], digits: u8) -> Result<i32, NumFault>
    requires { digits ≤ 9 }
    ensures { result ≡ value_of digits text.now }
{
    let body = behind_sign(text);
    if let Some(magnitude) = plain(body, usize::from(digits)) {
        return signed(has_minus(text), magnitude);
    }
    let decimal = split_decimal(body);
    let Some(exponent) = exponent(decimal.rest) else {
        return Err(NumFault::Form);
    };
    if decimal.whole.is_empty() && decimal.fraction.is_empty() {
        return Err(NumFault::Form);
    }
    let power = exponent + i32::from(digits);
    let magnitude = units(decimal.whole, decimal.fraction, power);
    signed(has_minus(text), magnitude)
}

/// The units of a decimal without an exponent, in one pass, or the cap where they are more.
fn plain(body: &[u8], digits: usize) -> Option<u64>
    ensures rest { OnSome result ((decimal_of body.now).rest ≡ []) }
    ensures some { OnSome result (0 < length ((decimal_of body.now).whole ++ (decimal_of body.now).fraction)) }
    ensures value { IfSome result (λ magnitude. magnitude ≡ min (rounded (digits_value 10 ((decimal_of body.now).whole ++ (decimal_of body.now).fraction)) (pos digits -ℤ pos (length (decimal_of body.now).fraction))) CAP) }
{
    let (value, end) = leading(0, body);
    let (whole, rest) = body.split_at(end);
    if rest.is_empty() && !whole.is_empty() {
        return Some(multiplied(value, digits));
    }
    if rest.is_empty() || rest[0] != b'.' || whole.len() + rest.len() == 1 {
        return None;
    }
    with_fraction(value, &rest[1..], digits)
}

/// The units of a decimal with these digits behind its point, `value` being that of the digits before it.
fn with_fraction(value: u64, fraction: &[u8], digits: usize) -> Option<u64>
    requires { value ≤ CAP }
    ensures digits { OnSome result (all_ascii_digits fraction.now ≡ true) }
    ensures value { IfSome result (λ magnitude. (whole : List ℕ) → all_ascii_digits whole ≡ true → value ≡ min (digits_value 10 whole) CAP →
        magnitude ≡ min (rounded (digits_value 10 (whole ++ fraction.now)) (pos digits -ℤ pos (length fraction.now))) CAP) }
{
    if fraction.len() <= digits {
        let (value, count) = leading(value, fraction);
        if count < fraction.len() {
            return None;
        }
        return Some(multiplied(value, digits - fraction.len()));
    }
    let (kept, dropped) = fraction.split_at(digits);
    let (value, count) = leading(value, kept);
    if count < kept.len() || digits_len(dropped) < dropped.len() {
        return None;
    }
    Some(with_next(value, dropped[0]))
}

/// The value of the digits that stand first, behind those of `value`, or the cap where it is more; and their number.
#[tactic(auto, using(crate::proofs::Accumulator::value_first, crate::proofs::Digits::first_more, crate::proofs::Digits::first_none))]
fn leading(mut value: u64, text: &[u8]) -> (u64, usize)
    requires { value ≤ CAP }
    ensures count { result.1 ≡ digits_first text.now }
    ensures within { result.1 ≤ length text.now }
    ensures value { result.0 ≡ min (digits_value_after 10 value (take (digits_first text.now) text.now)) CAP }
{
    for (i, byte) in text.iter().enumerate() {
        if !byte.is_ascii_digit() {
            return (value, i);
        }
        value = (value * 10 + u64::from(*byte - b'0')).min(CAP);
    }
    (value, text.len())
}

/// Whether a minus stands first.
fn has_minus(text: &[u8]) -> bool
    ensures { result ≡ starts_with_minus text.now }
{
    !text.is_empty() && text[0] == b'-'
}

/// The text behind its sign, if it has one.
fn behind_sign(text: &[u8]) -> &[u8]
    ensures { result.now ≡ without_sign text.now }
{
    if !text.is_empty() && (text[0] == b'-' || text[0] == b'+') {
        &text[1..]
    } else {
        text
    }
}

/// The digits before the point, those behind it, and the text that follows.
#[derive(Clone, Copy)]
struct Decimal<'a> {
    whole: &'a [u8],
    fraction: &'a [u8],
    rest: &'a [u8],
}

/// The decimal that stands first.
fn split_decimal(text: &[u8]) -> Decimal<'_>
    ensures whole { result.whole.now ≡ (decimal_of text.now).whole }
    ensures fraction { result.fraction.now ≡ (decimal_of text.now).fraction }
    ensures rest { result.rest.now ≡ (decimal_of text.now).rest }
    ensures whole_digits { all_ascii_digits result.whole.now ≡ true }
    ensures fraction_digits { all_ascii_digits result.fraction.now ≡ true }
{
    let (whole, rest) = digits(text);
    if !rest.is_empty() && rest[0] == b'.' {
        let (fraction, rest) = digits(&rest[1..]);
        Decimal {
            whole,
            fraction,
            rest,
        }
    } else {
        Decimal {
            whole,
            fraction: &[],
            rest,
        }
    }
}

/// The digits that stand first, and the text behind them.
#[tactic(auto, using(crate::proofs::Digits::first_are_digits))]
fn digits(text: &[u8]) -> (&[u8], &[u8])
    ensures front { result.0.now ≡ take (digits_first text.now) text.now }
    ensures rest { result.1.now ≡ drop (digits_first text.now) text.now }
    ensures digits { all_ascii_digits result.0.now ≡ true }
{
    let end = digits_len(text);
    text.split_at(end)
}

/// How many digits stand first.
#[tactic(auto, using(crate::proofs::Digits::first_more, crate::proofs::Digits::first_none))]
fn digits_len(text: &[u8]) -> usize
    ensures value { result ≡ digits_first text.now }
    ensures within { result ≤ length text.now }
{
    for (i, byte) in text.iter().enumerate() {
        if !byte.is_ascii_digit() {
            return i;
        }
    }
    text.len()
}

/// The exponent that follows a decimal.
fn exponent(text: &[u8]) -> Option<i32>
    ensures value { result ≡ exponent_of text.now }
    ensures small { IfSome result (λ exponent. (negsuc 998 ≤ℤ exponent) × (exponent ≤ℤ pos 999)) }
{
    if text.is_empty() {
        return Some(0);
    }
    if text[0] != b'e' && text[0] != b'E' {
        return None;
    }
    let size = exponent_size(behind_sign(&text[1..]))? as i32;
    Some(if has_minus(&text[1..]) { -size } else { size })
}

/// The value of one to three digits.
#[tactic(auto, using(crate::proofs::Digits::all_first, crate::proofs::Digits::not_all_first, crate::proofs::Cut::value_small))]
fn exponent_size(numeral: &[u8]) -> Option<u64>
    ensures value { result ≡ size_of numeral.now }
    ensures small { IfSome result (λ size. size < 1000) }
{
    if numeral.is_empty() || numeral.len() > 3 || digits_len(numeral) < numeral.len() {
        return None;
    }
    Some(accumulated(0, numeral))
}

/// The units of a decimal times 10^`power`, which may be below 0, or the cap where they are more.
fn units(whole: &[u8], fraction: &[u8], power: i32) -> u64
    requires whole { all_ascii_digits whole.now ≡ true }
    requires fraction { all_ascii_digits fraction.now ≡ true }
    requires low { negsuc 998 ≤ℤ power }
    ensures { result ≡ min (rounded (digits_value 10 (whole.now ++ fraction.now)) (power -ℤ pos (length fraction.now))) CAP }
{
    if power < 0 {
        raised_down(whole, fraction, (-power) as usize)
    } else {
        raised(whole, fraction, power as usize)
    }
}

/// The units of a decimal times 10^`power`, or the cap where they are more.
fn raised(whole: &[u8], fraction: &[u8], power: usize) -> u64
    requires whole { all_ascii_digits whole.now ≡ true }
    requires fraction { all_ascii_digits fraction.now ≡ true }
    ensures { result ≡ min (rounded (digits_value 10 (whole.now ++ fraction.now)) (pos power -ℤ pos (length fraction.now))) CAP }
{
    let value = accumulated(0, whole);
    if fraction.len() <= power {
        multiplied(accumulated(value, fraction), power - fraction.len())
    } else {
        with_next(accumulated(value, &fraction[..power]), fraction[power])
    }
}

/// The units of a decimal times 10^-`power`, or the cap where they are more.
fn raised_down(whole: &[u8], fraction: &[u8], power: usize) -> u64
    requires whole { all_ascii_digits whole.now ≡ true }
    requires fraction { all_ascii_digits fraction.now ≡ true }
    requires power { 0 < power }
    ensures { result ≡ min (rounded (digits_value 10 (whole.now ++ fraction.now)) (neg_ℤ (pos power) -ℤ pos (length fraction.now))) CAP }
{
    if whole.len() < power {
        return 0;
    }
    let end = whole.len() - power;
    with_next(accumulated(0, &whole[..end]), whole[end])
}

/// The value with the first digit that is dropped: one more from five on.
fn with_next(value: u64, digit: u8) -> u64
    requires value { value ≤ CAP }
    requires digit { is_ascii_digit digit ≡ true }
    ensures { result ≡ min (value + (digit - 48 + 5) / 10) CAP }
{
    (value + (u64::from(digit - b'0') + 5) / 10).min(CAP)
}

/// The value of the digits behind those of `value`, or the cap where it is more.
#[tactic(auto, using(crate::proofs::Accumulator::value_step, crate::proofs::Digits::digit_at_front, crate::proofs::Digits::digits_behind))]
fn accumulated(mut value: u64, digits: &[u8]) -> u64
    requires value { value ≤ CAP }
    requires digits { all_ascii_digits digits.now ≡ true }
    ensures { result ≡ min (digits_value_after 10 value digits.now) CAP }
{
    for byte in digits {
        value = (value * 10 + u64::from(*byte - b'0')).min(CAP);
    }
    value
}

/// The value times 10^`power`, or the cap where it is more.
fn multiplied(mut value: u64, mut power: usize) -> u64
    requires { value ≤ CAP }
    ensures { result ≡ min (value * 10 ^ power) CAP }
{
    while power > 0 {
        value = (value * 10).min(CAP);
        power -= 1;
    }
    value
}

/// The coordinate of a magnitude under a sign.
fn signed(negative: bool, magnitude: u64) -> Result<i32, NumFault>
    ensures { result ≡ in_range (signed_by negative magnitude) }
{
    let greatest = if negative {
        2_147_483_648
    } else {
        2_147_483_647
    };
    if magnitude > greatest {
        return Err(NumFault::Range);
    }
    let units = magnitude as i64;
    Ok(if negative { -units } else { units } as i32)
}

#[cfg(test)]
mod tests {
    use super::*;
    use std::test::Fail;

    #[test]
    fn numbers(rt: HostRuntime) {
        let cases: [(&[u8], u8, Result<i32, NumFault>); 44] = [
            (b"-73.97177410965318", 7, Ok(-739_717_741)),
            (b"0.00000005", 7, Ok(1)),
            (b"-0.00000005", 7, Ok(-1)),
            (b"0.00000004999", 7, Ok(0)),
            (b"1e-3", 7, Ok(10_000)),
            (b"214.7483647", 7, Ok(2_147_483_647)),
            (b"214.7483648", 7, Err(NumFault::Range)),
            (b"-214.7483648", 7, Ok(-2_147_483_648)),
            (b"1e", 7, Err(NumFault::Form)),
            (b"1e999", 0, Err(NumFault::Range)),
            (b"0e999", 0, Ok(0)),
            (b"1e-999", 0, Ok(0)),
            (b"1e1000", 0, Err(NumFault::Form)),
            (b"0", 0, Ok(0)),
            (b"-0", 7, Ok(0)),
            (b"-0.4", 0, Ok(0)),
            (b"+12", 0, Ok(12)),
            (b"-12", 1, Ok(-120)),
            (b"12.", 0, Ok(12)),
            (b".5", 0, Ok(1)),
            (b"-.5", 0, Ok(-1)),
            (b"2.5", 0, Ok(3)),
            (b"2.4999999999999999999999999", 0, Ok(2)),
            (b"0000000000000000000000000000002", 9, Ok(2_000_000_000)),
            (b"2147483647.4", 0, Ok(2_147_483_647)),
            (b"2147483647.5", 0, Err(NumFault::Range)),
            (b"-2147483648.4", 0, Ok(-2_147_483_648)),
            (b"-2147483648.5", 0, Err(NumFault::Range)),
            (b"+1.5E+1", 0, Ok(15)),
            (b"155e-1", 0, Ok(16)),
            (b"155e-2", 0, Ok(2)),
            (b"55e-2", 0, Ok(1)),
            (b"49e-2", 0, Ok(0)),
            (b"5e-2", 0, Ok(0)),
            (b"", 0, Err(NumFault::Form)),
            (b"+", 0, Err(NumFault::Form)),
            (b".", 0, Err(NumFault::Form)),
            (b".e1", 0, Err(NumFault::Form)),
            (b"--1", 0, Err(NumFault::Form)),
            (b"1 ", 0, Err(NumFault::Form)),
            (b"1.2.3", 0, Err(NumFault::Form)),
            (b"1e+", 0, Err(NumFault::Form)),
            (b"1e5.", 0, Err(NumFault::Form)),
            (b"1x", 0, Err(NumFault::Form)),
        ];
        for (text, digits, answer) in &cases {
            assert!(rt; *digits <= 9);
            assert_eq!(rt; coord(text, *digits), *answer);
        }
    }

    #[test]
    fn long_numbers(rt: HostRuntime) -> Result<(), Fail> {
        let cases: [(&[u8], u8, usize, &[u8], i32); 4] = [
            (b"0.4", b'9', 1_000_000, b"", 0),
            (b"0.5", b'0', 1_000_000, b"", 1),
            (b"-0.5", b'0', 1_000_000, b"", -1),
            (b"1", b'0', 1_000, b"e-999", 10),
        ];
        for (front, digit, count, back, answer) in &cases {
            let mut text = Vec::from_slice(rt.alloc(), front)?;
            for _ in 0..*count {
                text.push(*digit)?;
            }
            text.extend_from_slice(back)?;
            assert_eq!(rt; coord(&text, 0), Ok(*answer));
        }
        Ok(())
    }
}
