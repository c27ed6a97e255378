// Parts that are made from a key.
#![tactic(auto)]

ghost use Rattle.std.specs.Prelude.{◌≡◌, ℕ, ◌≤◌, Bool, true, List, ◌==◌};
ghost use Rattle.from_key.specs.Taken.{held, taken};

use refusals::KeyLength;

// A part under a key, which has one of the lengths that the part takes.
pub trait FromKey {
    // Whether a key of this length is taken.
    ghost takes: { ℕ → Bool };

    // The key that a part holds.
    ghost key: { Self → List ℕ };

    // The part under a key. A key of another length is refused.
    fn new(bytes: &[u8]) -> Result<Self, KeyLength>
        ensures { held key result ≡ taken takes bytes.now };

    // No part takes more than 32 bytes.
    ghost most: { (n : ℕ) → takes n ≡ true → n ≤ 32 };
}

// A key of N bytes. Any other length is refused.
pub fn exactly<const N: usize>(bytes: &[u8]) -> Result<[u8; N], KeyLength>
    ensures { held (λ key. key) result ≡ taken (λ n. (n == N)) bytes.now }
{
    <[u8; N]>::try_from(bytes).map_err(|_| KeyLength(bytes.len()))
}
