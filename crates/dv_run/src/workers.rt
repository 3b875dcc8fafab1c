ghost use Rattle.std.specs.Prelude.{◌≡◌, ◌≤◌, map, string_bytes, IfSome};
ghost use Rattle.dv_run.specs.Workers.{few_workers, is_digit, number_in, workers_in};
ghost use Rattle.dv_script.specs.declared.limits.TheConstants.{MOST_WORKERS};

use dv_script::limits::MOST_WORKERS;

/// How many workers the words after the program's name ask for: none without a word, and otherwise
/// the number that one word of one or two decimal digits is, from 0 to `MOST_WORKERS`. None for any
/// other words.
pub fn workers_of(words: &[String]) -> Option<u32>
    ensures workers { result ≡ workers_in (map string_bytes words.now) }
    ensures few { IfSome result (λ workers. workers ≤ MOST_WORKERS) }
{
    match words {
        [] => Some(0),
        [word] => few_workers(number_in(word.as_bytes())),
        [_, _, ..] => None,
    }
}

/// As many workers, where there may be so many.
pub(crate) fn few_workers(workers: Option<u32>) -> Option<u32>
    ensures workers { result ≡ few_workers workers }
    ensures few { IfSome result (λ workers. workers ≤ MOST_WORKERS) }
{
    match workers {
        Some(workers) if workers <= MOST_WORKERS => Some(workers),
        Some(_) | None => None,
    }
}

/// A number of one decimal digit or two.
pub(crate) fn number_in(bytes: &[u8]) -> Option<u32>
    ensures { result ≡ number_in bytes.now }
{
    match bytes {
        [byte] if is_digit(*byte) => Some(u32::from(byte - b'0')),
        [tens, byte] if is_digit(*tens) && is_digit(*byte) => {
            Some(u32::from(tens - b'0') * 10 + u32::from(byte - b'0'))
        }
        _ => None,
    }
}

/// Whether a byte is a decimal digit.
fn is_digit(byte: u8) -> bool
    ensures { result ≡ is_digit byte }
{
    byte.is_ascii_digit()
}
