//! Where hashes begin: a drawn start is another one each time, and not the one that everybody knows.

use hash_starts::HashStart;
use std::hash::{BuildHasher, Hasher};

/// The hash of one text from a start.
fn hash_from(start: HashStart) -> u64 {
    let mut hasher = start.build_hasher();
    hasher.write(b"requests_total");
    hasher.finish()
}

#[test]
fn drawn_starts_differ(rt: HostRuntime) {
    let fixed = hash_from(HashStart::fixed());
    let first = hash_from(HashStart::drawn(&rt));
    let second = hash_from(HashStart::drawn(&rt));
    assert!(rt; first != fixed && second != fixed && first != second);
}
