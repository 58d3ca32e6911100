//! Streams of random draws under a key, one for each number of each owner, by ChaCha20.
//!
//! Source: Y. Nir and A. Langley, "ChaCha20 and Poly1305 for IETF Protocols", RFC 8439, with
//! D. J. Bernstein's 64-bit counter and 64-bit nonce.
#![tactic(auto)]

ghost use Rattle.std.specs.Prelude.{◌≡◌};
ghost use Rattle.word_streams.specs.Draws.{draw_at, draws_of};

use fz_outside::words::{Streams, Words};
use rand_chacha::ChaCha20Rng;
use rand_core::SeedableRng;
use rand_core::utils::next_u64_via_u32;
use std::marker::Model;

/// The draws of each number of each owner, under a key.
#[derive(Drop)]
pub struct KeyStreams {
    key: [u8; 32],
}

impl Model for KeyStreams {
    ghost use Rattle.std.specs.Prelude.{List, ℕ};

    ghost Value = { List ℕ };

    ghost view = { λ streams. streams.key };
}

impl KeyStreams {
    /// The streams of this key.
    pub fn new(key: [u8; 32]) -> KeyStreams
        ensures key { result ≡ key }
        ensures given { ⟦<KeyStreams as Streams>⟧.given result ≡ draws_of key }
    {
        KeyStreams { key }
    }
}

impl Streams for KeyStreams {
    type W = ChaChaWords;

    ghost given = { draws_of };

    fn stream(&self, owner: u32, n: u32) -> ChaChaWords {
        let mut rng = ChaCha20Rng::from_seed(self.key);
        rng.set_stream((u64::from(owner) << 32) + u64::from(n));
        ChaChaWords { rng, place: 0 }
    }
}

/// The draws of one number.
#[derive(Drop)]
pub struct ChaChaWords {
    rng: ChaCha20Rng,
    place: u64,
}

impl Model for ChaChaWords {
    ghost use Rattle.std.specs.Prelude.{◌^◌, ◌<◌};
    ghost use Rattle.word_streams.specs.Draws.{Placed};

    ghost Value = { Placed };

    ghost view = { λ words. record { rng = words.rng; taken = words.place } };

    ghost invariant = { λ words. words.rng.word_pos < 2 ^ 68 };
}

impl Words for ChaChaWords {
    ghost draws = { λ words. draw_at words.rng };

    ghost place = { λ words. words.taken };

    fn draw(&mut self) -> u64 {
        self.place = self.place.saturating_add(1);
        next_u64_via_u32(&mut self.rng)
    }
}
