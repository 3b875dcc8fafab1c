//! The numbers that texts write.

ghost use Rattle.std.specs.Prelude.{◌≡◌, ◌<◌, ◌==◌, length, slice_index, is_some, IsTrue, true, false};
ghost use Rattle.std.specs.Float.{float_zero};
ghost use Rattle.serde_json.specs.Data.{float};
ghost use Rattle.serde_json.specs.Find.{as_i64, as_u64};
ghost use Rattle.serde_json.specs.Read.{number_of, number_from};
ghost use Rattle.dv_document.specs.Tokens.{number_at, or_this};

use fast_float::Numeral;

fn has_minus(bytes: &[u8]) -> bool
    ensures value { result ≡ (slice_index bytes.now 0 == 45) }
    ensures len { IsTrue result → 0 < length bytes.now }
{
    !bytes.is_empty() && bytes[0] == b'-'
}

/// The number as an integer of 64 bits, if it is one. One with a point or an exponent is none, and
/// neither is -0.
pub(crate) fn as_i64(text: &str) -> Option<i64>
    ensures { result ≡ as_i64 (number_at text.now) }
{
    let bytes = text.as_bytes();
    if has_minus(bytes) {
        below_zero(&Numeral::scan(&bytes[1..]))
    } else {
        not_below_zero(&Numeral::scan(bytes))
    }
}

/// The number behind a minus.
fn below_zero(numeral: &Numeral<'_>) -> Option<i64>
    ensures { result ≡ as_i64 (or_this (float float_zero) (number_from true numeral.now)) }
{
    let n = numeral.to_i64(true)?;
    if n < 0 { Some(n) } else { None }
}

/// The number with no minus before it.
fn not_below_zero(numeral: &Numeral<'_>) -> Option<i64>
    ensures { result ≡ as_i64 (or_this (float float_zero) (number_from false numeral.now)) }
{
    numeral.to_i64(false)
}

/// The number as an integer of 64 bits without a sign, if it is one.
pub(crate) fn as_u64(text: &str) -> Option<u64>
    ensures { result ≡ as_u64 (number_at text.now) }
{
    let bytes = text.as_bytes();
    if has_minus(bytes) {
        None
    } else {
        unsigned(&Numeral::scan(bytes))
    }
}

fn unsigned(numeral: &Numeral<'_>) -> Option<u64>
    ensures { result ≡ as_u64 (or_this (float float_zero) (number_from false numeral.now)) }
{
    numeral.to_u64()
}

/// Whether an integer of 64 bits or a finite float is the number that the text writes.
pub(crate) fn is_in_range(text: &str) -> bool
    ensures { result ≡ is_some (number_of text.now) }
{
    let bytes = text.as_bytes();
    if has_minus(bytes) {
        is_negative_in_range(&Numeral::scan(&bytes[1..]))
    } else {
        is_positive_in_range(&Numeral::scan(bytes))
    }
}

fn is_negative_in_range(numeral: &Numeral<'_>) -> bool
    ensures { result ≡ is_some (number_from true numeral.now) }
{
    match numeral.to_i64(true) {
        Some(n) if n < 0 => true,
        _ => numeral.to_float::<f64>(true).is_finite(),
    }
}

fn is_positive_in_range(numeral: &Numeral<'_>) -> bool
    ensures { result ≡ is_some (number_from false numeral.now) }
{
    match numeral.to_u64() {
        Some(_) => true,
        None => numeral.to_float::<f64>(false).is_finite(),
    }
}
