// Tests of the expanders: values, stretches against the whole sequence, and refusals at the edges; and of ChaCha20 as a stream cipher.
#![tactic(auto)]

ghost use Rattle.std.specs.Prelude.{◌≤◌};

#[cfg(test)]
mod tests {
    use chacha::block;
    use expanders::{AesExpander, ChaChaExpander, Expander, ExpanderFault, FromKey, PastReach};
    use octets::{add_at, equal};
    use refusals::KeyLength;
    use std::array;
    use std::process::Abort;
    use std::test::Fail;

    const TWEAK: [u8; 8] = [0x01, 0x23, 0x45, 0x67, 0x89, 0xab, 0xcd, 0xef];

    const LENGTHS: [usize; 11] = [0, 1, 2, 15, 16, 17, 63, 64, 65, 200, 4096];

    // Bytes that count up.
    // Kept: here and in the tests of the ciphers, since a crate for one line is no plainer.
    fn counted<const N: usize>(first: u8) -> [u8; N]
        requires { N ≤ 32 }
    {
        array::from_fn(|i| first.wrapping_add(i as u8))
    }

    fn aes128() -> Result<AesExpander, KeyLength> {
        AesExpander::new(&counted::<16>(0x10))
    }

    fn aes256() -> Result<AesExpander, KeyLength> {
        AesExpander::new(&counted::<32>(0x40))
    }

    fn chacha() -> Result<ChaChaExpander, KeyLength> {
        ChaChaExpander::new(&counted::<32>(0x80))
    }

    // Adds the sequence of the house's tweak and input.
    fn add<E: Expander>(
        e: &E,
        domain: u8,
        from: usize,
        stretch: &mut [u8],
    ) -> Result<(), ExpanderFault> {
        e.add(domain, &TWEAK, &counted::<16>(0xc8), from, stretch)
    }

    fn gives<E: Expander>(
        e: &E,
        domain: u8,
        from: usize,
        expected: &[u8],
    ) -> Result<bool, ExpanderFault> {
        let mut stretch = [0; 80];
        if expected.len() > 80 {
            return Ok(false);
        }
        let part = &mut stretch[0..expected.len()];
        add(e, domain, from, part)?;
        Ok(equal(part, expected))
    }

    #[test]
    fn aes_128_gives_the_house_values(rt: HostRuntime) -> Result<(), Fail> {
        let e = aes128()?;
        assert!(rt;
            gives(
                &e,
                1,
                0,
                b"\x4f\xd3\x1a\xe4\x2b\xaa\xf6\xcd\x42\xcc\xeb\xc6\xae\x58\xb2\x90",
            )?
        );
        assert!(rt; gives(&e, 1, 15, b"\x90\xe4")?);
        assert!(rt;
            gives(
                &e,
                1,
                1000,
                b"\xfa\x8e\x55\xe4\x8c\x00\x10\xbb\xfb\x22\x0c\x17\x0f\x13\xec\xb6\x12\xac\x9a\x94\xf1\x50\x85\x4f\x74\xb1\x6e\x2a\xcb\x93\x24\x6d\x14\xaf\x32\x32\x56\x2d\x98\x64",
            )?
        );
        assert!(rt;
            gives(
                &e,
                1,
                4080,
                b"\x26\x73\x2a\xf5\x9d\xe0\xf8\x5f\x36\x29\x25\x4e\xae\x3d\xac\x09",
            )?
        );
        assert!(rt;
            gives(
                &e,
                2,
                0,
                b"\x0c\x91\x1b\x4d\xa5\xaa\xe2\xfa\xf3\x0f\x9b\xf7\xe6\x51\xa5\xba\x70\xe9\x18\x4b\x56\xe0\x1a\x68\x33\xdf\xad\xaa\x10\x5c\xbd\x8d\x3d\x39\x61\x2c\x7d\xab\x76\x9a\x3d\x86\xd6\x32\xdf\x0a\xfe\xb6\x6d\xbc\xdb\x67\xab\x23\x93\xb8\x29\xc8\x4d\x78\x62\xbc\xf0\x56\x50\x48\xf7\x23\x75\x42\x80\xae\x71\xd5\xf5\x7f\x64\x4f\x5c\x22",
            )?
        );
        assert!(rt; gives(&e, 2, 63, b"\x56\x50")?);
        assert!(rt; gives(&e, 2, 4095, b"\x03")?);
        Ok(())
    }

    #[test]
    fn aes_256_gives_the_house_values(rt: HostRuntime) -> Result<(), Fail> {
        let e = aes256()?;
        assert!(rt;
            gives(
                &e,
                1,
                0,
                b"\xa5\x3a\xee\x0a\xf1\x8b\x55\xd6\xf5\x42\x38\x11\x54\x15\x92\x61\xf9\x8d\x3a\x8d\x6d\x57\xc2\x0e\xd5\x75\xdd\xc5\x91\x1c\x84\x9e\x2a\xb9\x13\xc9\x90\x25\x36\x05\xf5\xad\xc0\xd5\x43\x51\x68\xef\xbb\x6c\xbe\x7a\x73\x42\x72\x4e\x30\xf2\x33\xbc\xc9\x3a\x5a\x97\xb3\xfb\x96\x77\xd2\x0b\x20\x6e\x49\xca\xfc\x04\x5c\x37\x65\x0b",
            )?
        );
        assert!(rt; gives(&e, 1, 63, b"\x97\xb3")?);
        assert!(rt; gives(&e, 1, 4095, b"\xfa")?);
        assert!(rt;
            gives(
                &e,
                2,
                0,
                b"\xda\x2f\x21\x7b\xa9\xf5\x03\x02\x4c\x4a\xea\x37\x89\x23\xef\xe2",
            )?
        );
        assert!(rt; gives(&e, 2, 15, b"\xe2\x56")?);
        assert!(rt;
            gives(
                &e,
                2,
                1000,
                b"\x83\xd0\x91\xce\x53\xeb\x29\xb4\x33\x27\xca\x95\xae\x57\x55\x47\xa6\x56\x21\xb0\x9f\xc8\x90\x20\x06\x1f\x34\x14\xa9\xaf\xb9\x2f\x6d\x88\x5e\xe1\x2a\x0c\x6c\xd5",
            )?
        );
        assert!(rt;
            gives(
                &e,
                2,
                4080,
                b"\x64\xc0\xe5\x2c\x07\x81\xf1\xd1\xc1\x04\xb1\x49\x49\x24\x2d\xf6",
            )?
        );
        Ok(())
    }

    #[test]
    fn chacha_gives_the_house_values(rt: HostRuntime) -> Result<(), Fail> {
        let e = chacha()?;
        assert!(rt;
            gives(
                &e,
                1,
                0,
                b"\xd4\x1e\x16\x03\x69\x61\x88\x4b\x23\x28\x04\x75\x8d\x72\x39\x3b",
            )?
        );
        assert!(rt; gives(&e, 1, 15, b"\x3b\xed")?);
        assert!(rt;
            gives(
                &e,
                1,
                1000,
                b"\x91\x72\x7d\x80\x52\xd1\x73\x32\x11\xcf\x44\x7a\x7e\x5d\xda\x18\xec\xfd\x31\xf7\x2a\xce\x80\xfb\x5e\x1a\xa3\x95\xce\xef\xdd\x41\x23\xcb\xcc\xfe\x74\xc9\xa0\x07",
            )?
        );
        assert!(rt;
            gives(
                &e,
                1,
                4080,
                b"\x8e\xf4\x28\x15\x00\xa0\xe5\x0a\xc6\x72\x13\x82\x41\x66\xf3\x3d",
            )?
        );
        assert!(rt;
            gives(
                &e,
                2,
                0,
                b"\xb3\xad\x91\xd8\x1d\xe3\x0a\x92\x9b\xf5\x94\x08\x9d\x21\xf7\xef\xc9\x6d\x85\x1e\x71\xd7\xdb\x2e\xcf\xbc\x06\xcb\xc1\xd4\x23\xd0\xcb\xc2\x3b\x8a\x63\xf7\x43\xba\x54\x57\x33\x16\x00\xfb\x02\xb2\xe6\x85\x58\x87\xcd\x45\x31\x4f\x55\x89\xa5\xaf\xfa\x2c\x02\x64\x29\x55\x05\xe1\xba\xb0\xa4\xe1\xb4\xc5\x85\x00\x56\x6c\x79\xee",
            )?
        );
        assert!(rt; gives(&e, 2, 63, b"\x64\x29")?);
        assert!(rt; gives(&e, 2, 4095, b"\xb5")?);
        Ok(())
    }

    // RFC 8439, section 2.4.2.
    #[test]
    fn chacha_encrypts_the_example_of_the_rfc(rt: HostRuntime) {
        let key = counted::<32>(0);
        let nonce = [0, 0, 0, 0, 0, 0, 0, 0x4a, 0, 0, 0, 0];
        let mut text =
            *b"Ladies and Gentlemen of the class of '99: If I could offer you only one tip for the future, sunscreen would be it.";
        add_at(&mut text, 0, &block(&key, 1, &nonce));
        add_at(&mut text, 64, &block(&key, 2, &nonce));
        assert!(rt;
            equal(
                &text,
                b"\x6e\x2e\x35\x9a\x25\x68\xf9\x80\x41\xba\x07\x28\xdd\x0d\x69\x81\xe9\x7e\x7a\xec\x1d\x43\x60\xc2\x0a\x27\xaf\xcc\xfd\x9f\xae\x0b\xf9\x1b\x65\xc5\x52\x47\x33\xab\x8f\x59\x3d\xab\xcd\x62\xb3\x57\x16\x39\xd6\x24\xe6\x51\x52\xab\x8f\x53\x0c\x35\x9f\x08\x61\xd8\x07\xca\x0d\xbf\x50\x0d\x6a\x61\x56\xa3\x8e\x08\x8a\x22\xb6\x5e\x52\xbc\x51\x4d\x16\xcc\xf8\x06\x81\x8c\xe9\x1a\xb7\x79\x37\x36\x5a\xf9\x0b\xbf\x74\xa3\x5b\xe6\xb4\x0b\x8e\xed\xf2\x78\x5e\x42\x87\x4d",
            )
        );
    }

    // Whether a stretch is that part of the whole sequence.
    fn part_agrees<E: Expander>(
        e: &E,
        whole: &[u8],
        from: usize,
        length: usize,
    ) -> Result<bool, ExpanderFault> {
        if length > 4096 || from > whole.len() || length > whole.len() - from {
            return Ok(false);
        }
        let mut part = [0; 4096];
        let stretch = &mut part[0..length];
        add(e, 2, from, stretch)?;
        Ok(equal(stretch, &whole[from..from + length]))
    }

    // The same of every position, with each of the lengths or what is left.
    fn parts_agree<E: Expander>(e: &E) -> Result<bool, ExpanderFault> {
        let mut whole = [0; 4096];
        add(e, 2, 0, &mut whole)?;
        let mut agree = true;
        for from in 0..4097 {
            for length in LENGTHS {
                agree &= part_agrees(e, &whole, from, length.min(4096 - from))?;
            }
        }
        Ok(agree)
    }

    #[test]
    fn aes_parts_agree_with_the_whole(rt: HostRuntime) -> Result<(), Fail> {
        assert!(rt; parts_agree(&aes128()?)?);
        Ok(())
    }

    #[test]
    fn chacha_parts_agree_with_the_whole(rt: HostRuntime) -> Result<(), Fail> {
        assert!(rt; parts_agree(&chacha()?)?);
        Ok(())
    }

    // What a stretch of two bytes meets, and whether it is left as it was.
    fn meets<E: Expander>(e: &E, domain: u8, from: usize, fault: ExpanderFault) -> bool {
        let mut stretch = [7, 9];
        add(e, domain, from, &mut stretch) == Err(fault) && equal(&stretch, &[7, 9])
    }

    fn refuses<E: Expander>(rt: &impl Abort, e: &E) {
        let past = ExpanderFault::PastReach(PastReach(4096));
        assert!(rt; meets(e, 0, 0, ExpanderFault::Domain(0)));
        assert!(rt; meets(e, 3, 4095, ExpanderFault::Domain(3)));
        assert!(rt; meets(e, 1, 4095, past));
        assert!(rt; meets(e, 2, usize::MAX, past));
        assert_eq!(rt; add(e, 1, 4094, &mut [0; 2]), Ok(()));
        assert_eq!(rt; add(e, 1, 4096, &mut []), Ok(()));
        assert_eq!(rt; add(e, 1, 4097, &mut []), Err(past));
    }

    #[test]
    fn aes_refuses_at_the_edges(rt: HostRuntime) -> Result<(), Fail> {
        refuses(&rt, &aes256()?);
        Ok(())
    }

    #[test]
    fn chacha_refuses_at_the_edges(rt: HostRuntime) -> Result<(), Fail> {
        refuses(&rt, &chacha()?);
        Ok(())
    }

    #[test]
    fn keys_of_other_lengths_are_refused(rt: HostRuntime) {
        assert_eq!(rt; AesExpander::new(&[0; 24]).err(), Some(KeyLength(24)));
        assert_eq!(rt; ChaChaExpander::new(&[0; 16]).err(), Some(KeyLength(16)));
    }
}
