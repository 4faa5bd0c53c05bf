//! Numbers that follow one from another.
ghost use Rattle.std.specs.Prelude.{◌≡◌, ◌<◌};
ghost use Rattle.made_load.specs.Draws.{after, after_digits, drawn, digit, pair};

use std::marker::Model;

/// A linear congruential generator, which contracts see as the number that it has reached.
#[derive(Drop)]
pub(crate) struct Draws {
    at: u32,
}

impl Model for Draws {
    ghost use Rattle.std.specs.Prelude.{ℕ};

    ghost Value = { ℕ };

    ghost view = { λ d. d.at };
}

impl Draws {
    /// A generator that begins at the number.
    pub(crate) fn new(number: u32) -> Draws
        ensures { result ≡ number }
    {
        Draws { at: number }
    }

    /// The next drawn value: the upper sixteen bits of the number that the generator reaches.
    pub(crate) fn draw(&mut self) -> u16
        ensures value { result ≡ drawn self.old }
        ensures next { self.new ≡ after self.old }
    {
        let next = (1_664_525 * u64::from(self.at) + 1_013_904_223) % 4_294_967_296;
        self.at = next as u32;
        (next / 65_536) as u16
    }

    /// A drawn digit.
    fn digit(&mut self) -> u8
        ensures value { result ≡ digit self.old }
        ensures decimal { result < 10 }
        ensures next { self.new ≡ after self.old }
    {
        (self.draw() % 10) as u8
    }

    /// Two drawn digits in an octet, the first in its low half (Q.713 section 3.4.2.3).
    pub(crate) fn pair(&mut self) -> u8
        ensures value { result ≡ pair self.old }
        ensures next { self.new ≡ after (after self.old) }
    {
        let low = self.digit();
        let high = self.digit();
        low + 16 * high
    }

    /// Draws ten digits without looking at them.
    pub(crate) fn pass(&mut self)
        ensures { self.new ≡ after_digits 10 self.old }
    {
        for _turn in 0..10_u32 {
            self.draw();
        }
    }
}
