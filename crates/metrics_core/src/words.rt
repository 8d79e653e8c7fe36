//! Words that are drawn, as a sample of values wants them.

ghost use Rattle.std.specs.Prelude.{◌≡◌, ℕ, Option};
ghost use Rattle.metrics_core.specs.Words.{DrawsOne, lcg_step};

/// Words of 64 bits, drawn one after another.
pub trait Words {
    /// The words to come, the k-th for each k from 0, where the source tells them.
    ghost to_come: { Self → Option (ℕ → ℕ) };

    /// Draws the next word. A source that tells what is to come goes on telling.
    fn next_word(&mut self) -> u64
        ensures { DrawsOne (to_come self.old) result (to_come self.new) };
}

/// A linear congruential generator: each word is the last one times 6364136223846793005, plus 1442695040888963407, modulo
/// 2^64. Its words tell what the next ones are: they keep no secrets.
#[derive(Clone, Copy, Debug, PartialEq, Eq)]
pub struct Lcg {
    word: u64,
}

impl Lcg {
    /// A generator whose first word is the one behind `start`.
    pub fn new(start: u64) -> Lcg
        ensures { result.word ≡ start }
    {
        Lcg { word: start }
    }

    /// The word behind the last one.
    fn following(self) -> u64
        ensures { result ≡ lcg_step self.word }
    {
        self.word
            .wrapping_mul(6_364_136_223_846_793_005)
            .wrapping_add(1_442_695_040_888_963_407)
    }
}

impl Words for Lcg {
    ghost use Rattle.std.specs.Prelude.{Some};
    ghost use Rattle.metrics_core.specs.Words.{lcg_words};

    ghost to_come = { λ lcg. Some (lcg_words lcg.word) };

    fn next_word(&mut self) -> u64 {
        self.word = self.following();
        self.word
    }
}
