//! The hash of texts: FNV-1a of 64 bits (Fowler, Noll and Vo).

ghost use Rattle.std.specs.Prelude.{◌≡◌, fold};
ghost use Rattle.metrics_core.specs.Hashes.{hash_bytes, hash_step};

const OFFSET: u64 = 0xcbf29ce484222325;

const PRIME: u64 = 0x100000001b3;

/// A hash after further bytes.
pub(crate) fn continue_hash(hash: u64, bytes: &[u8]) -> u64
    ensures { result ≡ fold hash_step hash bytes.now }
{
    bytes.iter().fold(hash, |hash, byte| {
        (hash ^ u64::from(*byte)).wrapping_mul(PRIME)
    })
}

/// The hash of bytes, begun with a seed.
#[tactic(auto, unfolding(crate::specs::Hashes::hash_bytes))]
pub(crate) fn hash_with_seed(seed: u64, bytes: &[u8]) -> u64
    ensures { result ≡ hash_bytes seed bytes.now }
{
    continue_hash(OFFSET ^ seed, bytes)
}
