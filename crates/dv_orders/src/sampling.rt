//! Draws numbers for a sample of the orders, the same ones for the same seed.

ghost use Rattle.std.specs.Prelude.{◌≡◌, ◌+◌, ◌%◌, ◌<◌, ℕ};
ghost use Rattle.dv_orders.specs.Sampling.{next_state, number_of, number_used, state_used};

use std::marker::Model;

/// A generator of numbers, SplitMix64. Its numbers follow from its seed alone.
#[derive(Debug, Drop)]
pub struct Generator {
    state: u64,
}

impl Model for Generator {
    ghost Value = { ℕ };

    ghost view = { λ g. g.state };

    ghost inverse = { λ state. record { state = state } };
}

impl Generator {
    /// Begins with this seed.
    pub fn new(seed: u64) -> Generator
        ensures { result ≡ seed }
    {
        Generator { state: seed }
    }

    /// Draws a number of 64 bits.
    pub fn draw(&mut self) -> u64
        ensures state { self.new ≡ next_state self.old }
        ensures number { result ≡ number_of self.new }
    {
        self.state = self.state.wrapping_add(0x9e37_79b9_7f4a_7c15);
        let once = (self.state ^ (self.state >> 30)).wrapping_mul(0xbf58_476d_1ce4_e5b9);
        let twice = (once ^ (once >> 27)).wrapping_mul(0x94d0_49bb_1331_11eb);
        twice ^ (twice >> 31)
    }

    /// Draws a number below n, the remainder of one of 64 bits. Numbers past the last multiple of n
    /// are drawn again, so that no remainder is favoured. After 63 more the last one is used in any
    /// case: that a draw favours no number is not proved.
    pub fn below(&mut self, n: u64) -> u64
        requires { 0 < n }
        ensures below { result < n }
        ensures state { self.new ≡ state_used n 63 (next_state self.old) }
        ensures number { result ≡ number_of self.new % n }
    {
        let last = last_used(n);
        let mut number = self.draw();
        let mut others = 63_u32;
        while others > 0 && number > last {
            others -= 1;
            number = self.draw();
        }
        number % n
    }
}

/// The last number of 64 bits that is used to draw one below n.
fn last_used(n: u64) -> u64
    requires { 0 < n }
    ensures { result + 1 ≡ number_used n }
{
    u64::MAX - (u64::MAX % n + 1) % n
}
