use std::hash::{BuildHasher, FoldHasher, Hasher};

/// Makes hashers that begin behind a secret seed. Names come from anyone, who under a known seed could
/// send names that all have one hash.
#[derive(Clone, Copy)]
pub(crate) struct Seeded {
    hasher: FoldHasher,
}

impl Seeded {
    /// The hashers behind this seed.
    pub(crate) fn new(seed: &[u8]) -> Seeded {
        let mut hasher = FoldHasher::default();
        hasher.write(seed);
        Seeded { hasher }
    }
}

impl BuildHasher for Seeded {
    type Hasher = FoldHasher;

    ghost build_hasher = { λ seeded. seeded.hasher };

    fn build_hasher(&self) -> FoldHasher {
        self.hasher
    }
}
