// A line: its cipher, its header hash and its name.
ghost use Rattle.std.specs.Prelude.{◌≡◌, length};
ghost use Rattle.octets.specs.Strings.{Bytes};

use octets::known;

// Eight bytes that tell a line, one direction between two ends, from the others.
#[derive(Clone, Copy, Debug)]
pub struct LineName {
    pub(crate) bytes: [u8; 8],
    ghost eight: { length bytes ≡ 8 },
    ghost known: { Bytes bytes },
}

impl LineName {
    pub fn new(bytes: &[u8; 8]) -> LineName
        ensures { result.bytes ≡ bytes.now }
    {
        known(bytes);
        LineName { bytes: *bytes }
    }
}

#[derive(Clone, Copy, Drop)]
pub struct Line<C, J> {
    pub cipher: C,
    // The header hash.
    pub hash: J,
    pub name: LineName,
}
