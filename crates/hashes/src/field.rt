// Polynomials modulo P = x^128 + x^127 + x^126 + x^121 + 1, bit by bit.
ghost use Rattle.std.specs.Prelude.{◌≡◌, ◌*◌, ◌%◌};
ghost use Rattle.hashes.specs.Polynomials.{dot as dot_of};
ghost use Rattle.hashes.specs.Halves.{half};

// P / x, without the constant coefficient of P.
const P_OVER_X: u128 = 0xe100_0000_0000_0000_0000_0000_0000_0000;

// v if the lowest bit of w is 1, and else 0.
pub(crate) fn masked(w: u128, v: u128) -> u128
    ensures { result ≡ w % 2 * v }
{
    v & 0u128.wrapping_sub(w & 1)
}

// v / x modulo P.
fn halved(v: u128) -> u128
    ensures { result ≡ half v }
{
    (v >> 1) ^ masked(v, P_OVER_X)
}

// a · b · x^-128 modulo P.
pub(crate) fn dot(a: u128, b: u128) -> u128
    ensures { result ≡ dot_of a b }
{
    let mut rest = a;
    let mut sum = 0;
    for _ in 0..u128::BITS {
        sum = halved(sum ^ masked(rest, b));
        rest >>= 1;
    }
    sum
}
