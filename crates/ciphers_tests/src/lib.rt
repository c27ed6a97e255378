// Tests of the two piles: values, there and back, and refusals at the edges of their lengths.
#![tactic(auto)]

#[cfg(test)]
mod tests {
    use ciphers::{CipherFault, PileA, PileB, WideCipher};
    use octets::equal;
    use refusals::{KeyLength, Place, Reason, Refusal};
    use std::array;
    use std::process::Abort;
    use std::test::Fail;

    const TWEAK: [u8; 8] = [0x01, 0x23, 0x45, 0x67, 0x89, 0xab, 0xcd, 0xef];

    // Bytes that count up.
    // Kept: here and in the tests of the expanders, since a crate for one line is no plainer.
    fn counted<const N: usize>(first: u8) -> [u8; N] {
        array::from_fn(|i| first.wrapping_add((i % 256) as u8))
    }

    fn aes128() -> Result<PileA, KeyLength> {
        PileA::from_keys(&counted::<16>(0), &counted::<16>(0x10))
    }

    fn aes256() -> Result<PileA, KeyLength> {
        PileA::from_keys(&counted::<16>(0), &counted::<32>(0x40))
    }

    fn chacha() -> Result<PileB, KeyLength> {
        PileB::from_keys(&counted::<16>(0), &counted::<32>(0x80))
    }

    // Asserts that the bytes that count up from 7 are changed to each of the strings, and back.
    fn changes<F, G>(
        rt: &impl Abort,
        there: F,
        back: G,
        strings: &[&[u8]],
    ) -> Result<(), CipherFault>
    where
        F: Fn(&mut [u8]) -> Result<(), CipherFault>,
        G: Fn(&mut [u8]) -> Result<(), CipherFault>,
        requires there { F.IsAlwaysCallable there }
        requires back { G.IsAlwaysCallable back }
    {
        for expected in strings {
            let n = expected.len();
            assert!(rt; n <= 48);
            let mut s = counted::<48>(7);
            there(&mut s[..n])?;
            assert!(rt; equal(&s[..n], expected));
            back(&mut s[..n])?;
            assert!(rt; equal(&s, &counted::<48>(7)));
        }
        Ok(())
    }

    #[test]
    fn pile_a_with_aes_128_gives_the_house_values(rt: HostRuntime) -> Result<(), Fail> {
        let cipher = aes128()?;
        changes(
            &rt,
            |s| cipher.encipher(&TWEAK, s),
            |s| cipher.decipher(&TWEAK, s),
            &[
                b"\x2b\x20\x4e\xf0\xaf\x04\x2a\x35\x1e\xc4\x39\xed\x42\x44\xec\x81\x2f\x6a\xd5\x66\x1c\x54\xb6\x90\x9b\xe6\x56\x72\x4e\x73\x56\x11",
                b"\xc3\xb9\x55\xae\xdd\x66\xbc\xb5\x67\xd6\x76\xce\x8c\x1e\x7f\x93\xf8\xc2\xed\x48\x5d\x0f\x0c\x30\xdb\x91\x10\xf7\x7d\xb0\xc2\x1a\x87",
                b"\x80\xcb\xc2\x91\xa4\x70\x31\xa2\x49\x45\xa0\x02\xca\x8c\x29\x64\x02\xcb\xea\xbf\x24\xaf\x4c\x6f\xbe\xb1\xb3\x4d\x84\x3c\x84\x8c\xdf\xc8\x9e\x3e\xd5\x04\x6f\xaa\x8a\x93\xe8\x04\xb8\x17\x5e",
                b"\x73\xe9\x60\xe2\xfe\x66\x8f\x45\xbb\x22\x3a\xd0\xaf\xb6\x1e\xb1\xa6\x04\xbf\x8d\xcc\x92\xa4\xaf\xfa\x23\x44\x77\xea\x16\x8c\x25\x09\xd4\xb5\xc2\x6a\x02\x09\x9d\xb0\x04\x02\xf6\x7a\x7a\x60\x0a",
            ],
        )?;
        Ok(())
    }

    #[test]
    fn pile_a_with_aes_256_gives_the_house_values(rt: HostRuntime) -> Result<(), Fail> {
        let cipher = aes256()?;
        changes(
            &rt,
            |s| cipher.decipher(&TWEAK, s),
            |s| cipher.encipher(&TWEAK, s),
            &[
                b"\x95\x5d\xc7\xf2\x15\x26\x52\xf8\xe0\xdb\x51\x48\x46\xf0\x47\xbd\x95\x9d\xe1\x09\x1e\xd2\x4e\xab\xf6\xd1\x0d\xbd\xca\x06\x4c\xdb",
                b"\x9c\x66\xc9\xf3\x67\xa6\xf2\x7c\xac\x03\x2e\x98\x6e\x1f\x4a\x25\x3f\x74\x1d\x4b\x53\x62\xd3\x03\xb5\x50\xf9\x82\xe5\x97\x25\xc5\x17",
                b"\xe5\x4b\xe6\x95\x16\x63\xcc\x2b\x42\xc5\xb5\xe8\xc4\x8d\x01\xbf\xa8\x75\x30\x10\xeb\x2f\xdb\x44\x36\xf2\x09\xc0\x45\x1c\xd8\x90\xe0\x61\x42\x18\x0b\x7b\xb7\xec\x14\xcb\xe5\x1a\xeb\xd9\x20",
                b"\x0f\xad\x97\x7e\x57\x3a\x23\x05\x80\xb3\x8e\xa1\x25\x67\x45\x4e\xed\x59\xb8\x03\x33\x34\x3d\x45\x5b\xe6\xf8\xe2\x66\xbc\x23\x76\x07\xe1\x98\x74\x2f\x54\xd5\x0d\x5a\xba\x93\x7e\xc6\xce\x45\x56",
            ],
        )?;
        Ok(())
    }

    #[test]
    fn pile_b_gives_the_house_values(rt: HostRuntime) -> Result<(), Fail> {
        let cipher = chacha()?;
        changes(
            &rt,
            |s| cipher.encipher(&TWEAK, s),
            |s| cipher.decipher(&TWEAK, s),
            &[
                b"\x84\xec\x88\x4d\x81\xed\x26\x01\x10\xb7\x5e\xd0\xc1\x46\x06\x21\x4a\xaa\x3b\xf8\xdf\xf6\xeb\x30\x20\xd7\x80\x80\xe5\x73\x81\x02",
                b"\xbb\x00\x65\x3f\x01\xe0\xd1\xe1\x1f\x90\x25\x49\x5c\xef\x39\x3e\xbc\xe1\x71\x22\x54\x41\xfd\xba\xcf\x35\x1e\x06\xdc\x6c\xf3\xc9\x1d",
                b"\xf1\x28\x08\xbf\x53\xc8\xfc\x8c\x1c\x5b\xf6\xff\xff\xcb\xfb\xe5\x58\x22\x14\x36\x90\xb6\xc9\x59\x3d\x2b\xd8\x13\x15\xfd\x87\x42\xc2\x27\xc6\x99\x55\xbf\x51\x26\x60\x01\x4d\x83\xe3\x11\x62",
                b"\x3f\xec\x2c\xea\x62\xdc\x55\x3a\x25\xd8\x97\x0e\xc3\xdf\xb0\x06\xcd\x27\xf5\xdc\x51\x6a\xc0\xc4\xc5\x56\x90\x77\xd2\x24\xa5\x05\x2d\xa3\x32\x74\x1e\xfa\xbd\x3b\xb7\xab\xeb\x20\x0a\x0f\x8a\x5b",
            ],
        )?;
        Ok(())
    }

    // What is told of a string of this length both ways, which must leave it as it was.
    fn refusal<C: WideCipher>(cipher: &C, length: usize) -> Option<Refusal> {
        let mut s = counted::<4113>(7);
        let length = length.min(4113);
        let part = &mut s[0..length];
        let there = cipher.encipher(&TWEAK, part).err()?;
        let back = cipher.decipher(&TWEAK, part).err()?;
        let as_it_was = equal(part, &counted::<4113>(7)[0..length]);
        (there == back && as_it_was).then_some(there.into())
    }

    // Written out, and not made by `Refusal::alone`, which the code under test goes through.
    fn reason(number: u8, place: Place, detail: u64) -> Reason {
        Reason {
            number,
            place,
            detail,
        }
    }

    fn refuses<C: WideCipher>(rt: &impl Abort, cipher: &C) {
        let short = Refusal {
            reason: reason(5, Place::Cipher, 32),
            carried: None,
        };
        let long = Refusal {
            reason: reason(6, Place::Cipher, 4112),
            carried: Some(reason(4, Place::Expander, 4096)),
        };
        assert_eq!(rt; refusal(cipher, 0), Some(short));
        assert_eq!(rt; refusal(cipher, 31), Some(short));
        assert_eq!(rt; cipher.admits(32), Ok(()));
        assert_eq!(rt; cipher.admits(4112), Ok(()));
        assert_eq!(rt; refusal(cipher, 4113), Some(long));
    }

    #[test]
    fn pile_a_refuses_at_the_edges(rt: HostRuntime) -> Result<(), Fail> {
        refuses(&rt, &aes128()?);
        Ok(())
    }

    #[test]
    fn pile_b_refuses_at_the_edges(rt: HostRuntime) -> Result<(), Fail> {
        refuses(&rt, &chacha()?);
        Ok(())
    }
}
