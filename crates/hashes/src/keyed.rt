// The trait of keyed hashes.
ghost use Rattle.std.specs.Prelude.{◌≡◌, ℕ, List, ◌++◌, length};
ghost use Rattle.octets.specs.Strings.{Bytes};

// A keyed hash: under its key, one function from byte strings to 16 bytes.
pub trait KeyedHash {
    ghost value: { Self → List ℕ → List ℕ };

    // The value at `first` followed by `second`.
    fn hash(&self, first: &[u8], second: &[u8]) -> [u8; 16]
        ensures { result ≡ value self.now (first.now ++ second.now) };

    ghost size: { (h : Self) (s : List ℕ) → Bytes s → length (value h s) ≡ 16 };

    ghost bytes: { (h : Self) (s : List ℕ) → Bytes s → Bytes (value h s) };
}

// A hash that is lent is the hash itself.
impl<H: KeyedHash> KeyedHash for &H {
    ghost value = { λ h s. H.KeyedHash.value h.now s };

    ghost size = { λ h s b. H.KeyedHash.size h.now s b };

    ghost bytes = { λ h s b. H.KeyedHash.bytes h.now s b };

    fn hash(&self, first: &[u8], second: &[u8]) -> [u8; 16] {
        (**self).hash(first, second)
    }
}
