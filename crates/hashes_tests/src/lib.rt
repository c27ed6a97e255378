// Worked values of the keyed hashes: those of RFC 4493 as theorems, and both hashes run.
#![tactic(auto)]

ghost use Rattle.hashes_tests.specs.Examples.{Examples};

#[cfg(test)]
mod tests {
    use hashes::{Cmac, FromKey, KeyedHash, Polyval};
    use refusals::KeyLength;
    use std::array;
    use std::test::Fail;

    // The message of RFC 4493's examples.
    const MESSAGE: [u128; 4] = [
        0x6bc1bee22e409f96e93d7e117393172a,
        0xae2d8a571e03ac9c9eb76fac45af8e51,
        0x30c81c46a35ce411e5fbc1191a0a52ef,
        0xf69f2445df4f9b17ad2b417be66c3710,
    ];

    fn message() -> [u8; 64] {
        array::from_fn(|i| MESSAGE[i / 16].to_be_bytes()[i % 16])
    }

    // The bytes 0 to 31.
    fn ascending() -> [u8; 32] {
        array::from_fn(|i| i as u8)
    }

    // The value at s, cut in two at `cut`, as a number with the first byte the highest.
    fn value<H: KeyedHash>(h: &H, s: &[u8], cut: usize) -> u128 {
        let (first, second) = s.split_at(cut.min(s.len()));
        u128::from_be_bytes(h.hash(first, second))
    }

    #[test]
    fn cmac_has_the_values_of_the_rfc(rt: HostRuntime) -> Result<(), Fail> {
        let h = Cmac::new(&0x2b7e151628aed2a6abf7158809cf4f3cu128.to_be_bytes())?;
        let m = message();
        assert_eq!(rt; value(&h, &[], 0), 0xbb1d6929e95937287fa37d129b756746);
        assert_eq!(rt; value(&h, &m[0..16], 0), 0x070a16b46b4d4144f79bdd9dd04a287c);
        assert_eq!(rt; value(&h, &m[0..40], 7), 0xdfa66747de9ae63030ca32611497c827);
        assert_eq!(rt; value(&h, &m, 33), 0x51f0bebf7e3b9d92fc49741779363cfe);
        Ok(())
    }

    #[test]
    fn polyval_is_the_same_wherever_the_string_is_cut(rt: HostRuntime) -> Result<(), Fail> {
        let h = Polyval::new(&0x000102030405060708090a0b0c0d0e0fu128.to_be_bytes())?;
        let s = ascending();
        for cut in 0..33 {
            assert_eq!(rt; value(&h, &s, cut), 0xd6d859e4a0580a7349406d6e0cf69e0d);
        }
        Ok(())
    }

    #[test]
    fn a_key_has_16_bytes(rt: HostRuntime) {
        assert_eq!(rt; Polyval::new(&[0; 15]).err(), Some(KeyLength(15)));
        assert_eq!(rt; Cmac::new(&[0; 32]).err(), Some(KeyLength(32)));
    }
}

// Does nothing: its contract is the worked values of RFC 4493.
pub fn examples()
    ensures { Examples }
{}
