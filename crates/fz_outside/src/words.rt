//! Draws of random numbers, one stream for each number of each owner.
#![tactic(auto)]

ghost use Rattle.std.specs.Prelude.{◌≡◌, ℕ, ◌+◌};
ghost use Rattle.fz_outside.specs.Draws.{HasDrawn, padded};

/// A stream of draws. It never ends and never fails.
pub trait Words {
    // The draws to come: the next one at 0, and so on.
    ghost draws: { Self → ℕ → ℕ };

    // How many draws were taken. It stands still at 2^64 - 1.
    ghost place: { Self → ℕ };

    /// Takes the next draw.
    fn draw(&mut self) -> u64
        ensures value { result ≡ draws self.old 0 }
        ensures drawn { HasDrawn draws place 1 self.old self.new };
}

/// The draws of each number of each owner.
pub trait Streams {
    type W: Words + Drop;

    // The draws that are given for an owner and a number.
    ghost given: { Self → ℕ → ℕ → ℕ → ℕ };

    /// The stream of a number, at its start.
    fn stream(&self, owner: u32, n: u32) -> Self::W
        ensures draws { Self.W.draws result ≡ given self.now owner n }
        ensures place { Self.W.place result ≡ 0 };
}

/// The draws of a list, and then 0 for ever.
#[derive(Drop)]
pub struct ListWords<'a> {
    rest: &'a [u64],
    place: u64,
}

impl<'a> ListWords<'a> {
    /// The stream of these draws, at its start.
    pub fn new(list: &'a [u64]) -> Self
        ensures draws { ⟦<ListWords<'a> as Words>⟧.draws result ≡ padded list.now }
        ensures place { ⟦<ListWords<'a> as Words>⟧.place result ≡ 0 }
    {
        ListWords {
            rest: list,
            place: 0,
        }
    }
}

impl Words for ListWords<'_> {
    ghost draws = { λ words. padded words.rest.now };

    ghost place = { λ words. words.place };

    fn draw(&mut self) -> u64 {
        self.place = self.place.saturating_add(1);
        match self.rest.split_first() {
            Some((next, rest)) => {
                self.rest = rest;
                *next
            }
            None => 0,
        }
    }
}

/// The same draws for every number: those of a list, and then 0 for ever.
#[derive(Drop)]
pub struct ListStreams<'a> {
    list: &'a [u64],
}

impl<'a> ListStreams<'a> {
    /// Streams that each give the draws of this list.
    pub fn new(list: &'a [u64]) -> Self
        ensures { (owner n : ℕ) → ⟦<ListStreams<'a> as Streams>⟧.given result owner n ≡ padded list.now }
    {
        ListStreams { list }
    }
}

impl<'a> Streams for ListStreams<'a> {
    type W = ListWords<'a>;

    ghost given = { λ streams owner n. padded streams.list.now };

    fn stream(&self, owner: u32, n: u32) -> ListWords<'a> {
        ListWords::new(self.list)
    }
}
