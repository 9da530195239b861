//! Chance that can't be guessed: the words of ChaCha20 over a seed that the system gave.
ghost use Rattle.std.specs.Prelude.{◌≡◌, ◌∷◌, [], None, IfOk, length};
ghost use Rattle.site_io.specs.Told.{after};
ghost use Rattle.site_io.specs.Series.{GivesInTurn, last_word};
ghost use Rattle.site_io.specs.Chance.{next_chance, stream_at};

use crate::device::Entropy;
use rand_chacha::ChaCha20Rng;
use rand_core::SeedableRng;
use rand_core::utils::next_u64_via_u32;
use std::marker::Model;
use std::random::RandomSource;

/// The system's chance can't be had.
#[derive(Clone, Copy, Debug, PartialEq, Eq)]
pub struct NoChance;

/// 32 bytes of the system's chance, which all words of chance are made from.
#[derive(Drop)]
pub struct Seed {
    bytes: [u8; 32],
}

impl Model for Seed {
    ghost use Rattle.std.specs.Prelude.{ℕ, List};

    ghost Value = { List ℕ };

    ghost view = { λ s. s.bytes };
}

impl Seed {
    /// Draws a seed from this source, as the runtime that `main` is given. `NoChance` comes where that fails.
    pub fn draw<R: RandomSource>(random: &R) -> Result<Seed, NoChance>
        ensures { IfOk result (λ seed. length seed ≡ 32) }
    {
        let mut bytes = [0; 32];
        match random.fill_bytes(&mut bytes) {
            Ok(()) => Ok(Seed { bytes }),
            Err(_) => Err(NoChance),
        }
    }
}

/// Entropy over a seed of the system's chance: one stream of ChaCha20 with the seed as its key. It needs no memory, and
/// can't fail.
///
/// The streams of a seed are told apart by their numbers, and each gives 2^67 words before it begins anew. It doesn't
/// tell what it gives.
#[derive(Drop)]
pub struct SystemEntropy {
    stream: ChaCha20Rng,
}

impl Model for SystemEntropy {
    ghost use Rattle.rand_chacha.specs.ChaCha.{ChaCha};

    ghost Value = { ChaCha };

    ghost view = { λ e. e.stream };
}

impl SystemEntropy {
    /// The stream of that number, any u64, from its first word on.
    pub fn new(seed: &Seed, number: u64) -> SystemEntropy
        ensures { result ≡ stream_at seed.now number }
    {
        let mut stream = ChaCha20Rng::from_seed(seed.bytes);
        stream.set_stream(number);
        SystemEntropy { stream }
    }
}

impl Entropy for SystemEntropy {
    ghost words = { λ _. None };

    ghost given = { λ _. None };

    fn word(&mut self) -> u64
        ensures told { None ≡ after None (result ∷ []) }
        ensures in_turn { GivesInTurn last_word None None None None }
        ensures exact { (result, self.new) ≡ next_chance self.old }
    {
        next_u64_via_u32(&mut self.stream)
    }
}
