//! Texts and numbers at the end of a text, which costs less than the formatter. On allocation
//! failure, it is left open what `out` holds.

ghost use Rattle.std.specs.Prelude.{◌≡◌, ◌+◌, ◌/◌, ◌%◌, ◌++◌, [], ◌∷◌, OnOk, codes};
ghost use Rattle.std.specs.Prelude.{IsUtf8, string_bytes};
ghost use Rattle.std.specs.Fmt.{decimal, signed_decimal};

use std::alloc::AllocError;
use std::str;

/// Adds a text.
#[inline(always)]
pub fn write_text(out: &mut String, text: &str) -> Result<(), AllocError>
    ensures { OnOk result (string_bytes out.new ≡ string_bytes out.old ++ text.now) }
{
    out.push_str(text)
}

/// Adds a space.
#[inline(always)]
pub fn write_space(out: &mut String) -> Result<(), AllocError>
    ensures { OnOk result (string_bytes out.new ≡ string_bytes out.old ++ codes " ") }
{
    out.push(' ')
}

/// The sign of the last digit of a number.
#[inline(always)]
fn last_digit(number: u64) -> u8
    ensures { result ≡ 48 + number % 10 }
{
    b'0' + (number % 10) as u8
}

/// Adds digits at once.
#[inline(always)]
fn push_digits(out: &mut String, digits: &[u8]) -> Result<(), AllocError>
    requires { IsUtf8 digits.now }
    ensures { OnOk result (string_bytes out.new ≡ string_bytes out.old ++ digits.now) }
{
    out.push_str(unsafe { str::from_utf8_unchecked(digits) })
}

/// Adds the last two digits of a number.
#[inline(always)]
#[tactic(auto, using(crate::proofs::DigitLemmas::two_are_text))]
fn push_two_digits(out: &mut String, number: u64) -> Result<(), AllocError>
    ensures { OnOk result (string_bytes out.new
        ≡ string_bytes out.old ++ (48 + number / 10 % 10) ∷ (48 + number % 10) ∷ []) }
{
    push_digits(out, &[last_digit(number / 10), last_digit(number)])
}

/// Adds the last three digits of a number.
#[inline(always)]
#[tactic(auto, using(crate::proofs::DigitLemmas::three_are_text))]
fn push_three_digits(out: &mut String, number: u64) -> Result<(), AllocError>
    ensures { OnOk result (string_bytes out.new
        ≡ string_bytes out.old
        ++ (48 + number / 100 % 10) ∷ (48 + number / 10 % 10) ∷ (48 + number % 10) ∷ []) }
{
    let tens = number / 10;
    push_digits(
        out,
        &[last_digit(tens / 10), last_digit(tens), last_digit(number)],
    )
}

/// Adds the last four digits of a number.
#[inline(always)]
#[tactic(auto, using(crate::proofs::DigitLemmas::four_are_text))]
fn push_four_digits(out: &mut String, number: u64) -> Result<(), AllocError>
    ensures { OnOk result (string_bytes out.new
        ≡ string_bytes out.old ++ (48 + number / 1000 % 10) ∷ (48 + number / 100 % 10)
        ∷ (48 + number / 10 % 10) ∷ (48 + number % 10) ∷ []) }
{
    let tens = number / 10;
    let hundreds = tens / 10;
    let digits = [
        last_digit(hundreds / 10),
        last_digit(hundreds),
        last_digit(tens),
        last_digit(number),
    ];
    push_digits(out, &digits)
}

/// Adds a number in decimal, four digits at a time.
#[tactic(auto, using(crate::proofs::DigitLemmas::last_four, crate::proofs::DigitLemmas::only_four, crate::proofs::DigitLemmas::only_three, crate::proofs::DigitLemmas::only_two, crate::proofs::DigitLemmas::only_one))]
pub fn write_u64(out: &mut String, number: u64) -> Result<(), AllocError>
    ensures { OnOk result (string_bytes out.new ≡ string_bytes out.old ++ decimal number) }
{
    if number < 10 {
        return out.push(last_digit(number) as char);
    }
    if number < 100 {
        return push_two_digits(out, number);
    }
    if number < 1000 {
        return push_three_digits(out, number);
    }
    if number >= 10_000 {
        write_u64(out, number / 10_000)?;
    }
    push_four_digits(out, number)
}

/// Adds a number in decimal.
#[inline(always)]
pub fn write_u32(out: &mut String, number: u32) -> Result<(), AllocError>
    ensures { OnOk result (string_bytes out.new ≡ string_bytes out.old ++ decimal number) }
{
    write_u64(out, u64::from(number))
}

/// Adds a number in decimal, after a minus where it is negative.
pub fn write_i64(out: &mut String, number: i64) -> Result<(), AllocError>
    ensures { OnOk result (string_bytes out.new ≡ string_bytes out.old ++ signed_decimal number) }
{
    if number < 0 {
        out.push('-')?;
    }
    write_u64(out, number.unsigned_abs())
}
