ghost use Rattle.std.specs.Prelude.{◌≡◌, ◌≤◌, IfSome};
ghost use Rattle.dv_run.specs.Orders.{every_in, number_up_to, sample_in, sample_of, with_digit};

/// The most orders of posts that may be asked for.
pub const MOST_ORDERS: u32 = 1_000_000;

/// How many orders of posts run at most, where no number is given.
pub const ORDERS: u32 = 20_000;

/// The greatest seed of a sample.
pub const MOST_SEED: u32 = u32::MAX;

/// Which orders of a script run.
#[derive(Clone, Copy)]
pub enum Chosen {
    /// Every one, where there are no more than so many.
    Every(u32),
    /// A sample of so many, which this seed draws.
    Sample(u32, u32),
}

/// Returns every order, up to the number that these bytes are. None for any others.
pub(crate) fn every_in(bytes: &[u8]) -> Option<Chosen>
    ensures { result ≡ every_in bytes.now }
{
    match number_up_to(MOST_ORDERS, bytes) {
        Some(most) => Some(Chosen::Every(most)),
        None => None,
    }
}

/// Returns a sample, by the numbers that these bytes are. None for any others, and where it is of
/// none.
pub(crate) fn sample_in(size: &[u8], seed: &[u8]) -> Option<Chosen>
    ensures { result ≡ sample_in size.now seed.now }
{
    sample_of(
        number_up_to(MOST_ORDERS, size),
        number_up_to(MOST_SEED, seed),
    )
}

fn sample_of(size: Option<u32>, seed: Option<u32>) -> Option<Chosen>
    ensures { result ≡ sample_of size seed }
{
    match (size, seed) {
        (Some(size), Some(seed)) => if size == 0 {
            None
        } else {
            Some(Chosen::Sample(size, seed))
        },
        (Some(_), None) | (None, _) => None,
    }
}

/// Returns the decimal number that these bytes are, up to `most`. None for any others.
fn number_up_to(most: u32, bytes: &[u8]) -> Option<u32>
    ensures { result ≡ number_up_to most bytes.now }
{
    if bytes.is_empty() {
        return None;
    }
    let mut number = 0;
    for byte in bytes {
        number = with_digit(most, number, *byte)?;
    }
    Some(number)
}

/// A number with one more digit, where it is no more than `most`.
fn with_digit(most: u32, number: u32, byte: u8) -> Option<u32>
    ensures { result ≡ with_digit most number byte }
{
    if !byte.is_ascii_digit() {
        return None;
    }
    let longer = u64::from(number) * 10 + u64::from(byte - b'0');
    if longer <= u64::from(most) {
        Some(longer as u32)
    } else {
        None
    }
}
