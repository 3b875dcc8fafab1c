ghost use Rattle.std.specs.Prelude.{◌≡◌};

use std::hash::{BuildHasher, FoldHasher, Hasher, RandomState};

/// Makes the hashers of names: the library's fast one, whose first state is secret, since the author
/// of a script chooses the names. The state comes from random keys by the library's keyed hasher.
#[derive(Clone, Copy)]
pub struct NameHashers {
    first: FoldHasher,
}

impl NameHashers {
    /// Hashers whose first state depends on these keys.
    pub fn new(keys: RandomState) -> NameHashers {
        let mut first = FoldHasher::default();
        first.write(&keys.build_hasher().finish().to_le_bytes());
        NameHashers { first }
    }
}

impl BuildHasher for NameHashers {
    type Hasher = FoldHasher;

    ghost build_hasher = { λ h. h.first };

    fn build_hasher(&self) -> FoldHasher {
        self.first
    }
}
