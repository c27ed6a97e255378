// The areas that are lent to each step of a session.
ghost use Rattle.std.specs.Prelude.{◌≡◌, length};
ghost use Rattle.octets.specs.Strings.{zeros};

// As many bytes as a byte string of a line may have.
const SIZE: usize = 8192;

// For the header, the text or the record, the work of opening, and the record or the text that comes out.
#[derive(Drop)]
pub struct Areas {
    pub header: [u8; SIZE],
    pub body: [u8; SIZE],
    pub work: [u8; SIZE],
    pub out: [u8; SIZE],
    ghost header_long: { length header ≡ 8192 },
    ghost body_long: { length body ≡ 8192 },
    ghost work_long: { length work ≡ 8192 },
    ghost out_long: { length out ≡ 8192 },
}

impl Areas {
    // All zero.
    pub fn new() -> Areas
        ensures header { result.header ≡ zeros 8192 }
        ensures body { result.body ≡ zeros 8192 }
        ensures work { result.work ≡ zeros 8192 }
        ensures out { result.out ≡ zeros 8192 }
    {
        Areas {
            header: [0; SIZE],
            body: [0; SIZE],
            work: [0; SIZE],
            out: [0; SIZE],
        }
    }
}
