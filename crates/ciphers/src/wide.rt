// What a wide cipher is.
ghost use Rattle.std.specs.Prelude.{◌≡◌, ℕ, ◌≤◌, List, length, Option};
ghost use Rattle.octets.specs.Strings.{Bytes};
ghost use Rattle.expanders.specs.declared.fault.PastReach.{PastReach as Reach};
ghost use Rattle.ciphers.specs.Admitted.{Admitted};
ghost use Rattle.ciphers.specs.Refusals.{verdict, kept};

use crate::fault::CipherFault;

// For each tweak (8 bytes) and each length from the lowest to the highest, a map of byte strings to byte strings of that length, and a
// second map, each undoing the other. What its refusal of a long string carries, if anything, is fixed with its lengths.
pub trait WideCipher {
    ghost lowest: { Self → ℕ };

    ghost highest: { Self → ℕ };

    ghost carried: { Self → Option Reach };

    ghost enc: { Self → List ℕ → List ℕ → List ℕ };

    ghost dec: { Self → List ℕ → List ℕ → List ℕ };

    // Whether a string of this length is taken.
    fn admits(&self, len: usize) -> Result<(), CipherFault>
        ensures { result ≡ verdict (lowest self.now) (highest self.now) (carried self.now) len };

    fn encipher(&self, tweak: &[u8; 8], s: &mut [u8]) -> Result<(), CipherFault>
        ensures answer { result ≡ verdict (lowest self.now) (highest self.now) (carried self.now) (length s.old) }
        ensures after { s.new ≡ kept result s.old (enc self.now tweak.now s.old) };

    fn decipher(&self, tweak: &[u8; 8], s: &mut [u8]) -> Result<(), CipherFault>
        ensures answer { result ≡ verdict (lowest self.now) (highest self.now) (carried self.now) (length s.old) }
        ensures after { s.new ≡ kept result s.old (dec self.now tweak.now s.old) };

    ghost least: { (c : Self) → 16 ≤ lowest c };

    ghost ordered: { (c : Self) → lowest c ≤ highest c };

    ghost most: { (c : Self) → highest c ≤ 4112 };

    ghost encsize: { (c : Self) (w s : List ℕ) → Admitted (lowest c) (highest c) w s → length (enc c w s) ≡ length s };

    ghost decsize: { (c : Self) (w s : List ℕ) → Admitted (lowest c) (highest c) w s → length (dec c w s) ≡ length s };

    ghost encbytes: { (c : Self) (w s : List ℕ) → Admitted (lowest c) (highest c) w s → Bytes (enc c w s) };

    ghost decbytes: { (c : Self) (w s : List ℕ) → Admitted (lowest c) (highest c) w s → Bytes (dec c w s) };

    ghost undone: { (c : Self) (w s : List ℕ) → Admitted (lowest c) (highest c) w s → dec c w (enc c w s) ≡ s };

    ghost redone: { (c : Self) (w s : List ℕ) → Admitted (lowest c) (highest c) w s → enc c w (dec c w s) ≡ s };
}

// A cipher that is lent is the cipher itself.
impl<C: WideCipher> WideCipher for &C {
    ghost lowest = { λ c. C.WideCipher.lowest c.now };

    ghost highest = { λ c. C.WideCipher.highest c.now };

    ghost carried = { λ c. C.WideCipher.carried c.now };

    ghost enc = { λ c w s. C.WideCipher.enc c.now w s };

    ghost dec = { λ c w s. C.WideCipher.dec c.now w s };

    ghost least = { λ c. C.WideCipher.least c.now };

    ghost ordered = { λ c. C.WideCipher.ordered c.now };

    ghost most = { λ c. C.WideCipher.most c.now };

    ghost encsize = { λ c w s a. C.WideCipher.encsize c.now w s a };

    ghost decsize = { λ c w s a. C.WideCipher.decsize c.now w s a };

    ghost encbytes = { λ c w s a. C.WideCipher.encbytes c.now w s a };

    ghost decbytes = { λ c w s a. C.WideCipher.decbytes c.now w s a };

    ghost undone = { λ c w s a. C.WideCipher.undone c.now w s a };

    ghost redone = { λ c w s a. C.WideCipher.redone c.now w s a };

    fn admits(&self, len: usize) -> Result<(), CipherFault> {
        (**self).admits(len)
    }

    fn encipher(&self, tweak: &[u8; 8], s: &mut [u8]) -> Result<(), CipherFault> {
        (**self).encipher(tweak, s)
    }

    fn decipher(&self, tweak: &[u8; 8], s: &mut [u8]) -> Result<(), CipherFault> {
        (**self).decipher(tweak, s)
    }
}
