// The longest header, and the numbers of a line.
ghost use Rattle.std.specs.Prelude.{◌≡◌, length, Ok, nat_lt};
ghost use Rattle.sealing.specs.Calls.{unless, numbered};
ghost use Rattle.sealing.specs.declared.fault.SealingFault.TheVariants.{HeaderLong as Longer};

use crate::fault::SealingFault;

// The longest header.
const HEADER: usize = 256;

// The last number of a line.
pub const LAST: u64 = 1 << 40;

pub(crate) fn judge_header(header: &[u8]) -> Result<(), SealingFault>
    ensures { result ≡ unless (nat_lt 256 (length header.now)) (Longer (length header.now)) (Ok tt) }
{
    if header.len() > HEADER {
        return Err(SealingFault::HeaderLong(header.len()));
    }
    Ok(())
}

// A number from 1 to the last.
pub(crate) fn judge_number(number: u64) -> Result<u64, SealingFault>
    ensures { result ≡ numbered number (Ok number) }
{
    if !(1..=LAST).contains(&number) {
        return Err(SealingFault::NumberOutside(number));
    }
    Ok(number)
}
