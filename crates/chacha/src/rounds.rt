// The state, and the rounds on it.
ghost use Rattle.std.specs.Prelude.{◌≡◌, ◌<◌};
ghost use Rattle.chacha.specs.ChaCha20.{quarter_round, quarter_round_at, column_round, diagonal_round, double_rounds};

pub(crate) type State = [u32; 16];

// Of a column round and a diagonal round each: twenty rounds.
const DOUBLE_ROUNDS: usize = 10;

fn quarter_round(words: (u32, u32, u32, u32)) -> (u32, u32, u32, u32)
    ensures { result ≡ quarter_round words }
{
    let (a, b, c, d) = words;
    let a = a.wrapping_add(b);
    let d = (d ^ a).rotate_left(16);
    let c = c.wrapping_add(d);
    let b = (b ^ c).rotate_left(12);
    let a = a.wrapping_add(b);
    let d = (d ^ a).rotate_left(8);
    let c = c.wrapping_add(d);
    let b = (b ^ c).rotate_left(7);
    (a, b, c, d)
}

// The quarter round on the words x, y, z and w of the state.
fn quarter_round_at(s: &mut State, x: usize, y: usize, z: usize, w: usize)
    requires first { x < 16 }
    requires second { y < 16 }
    requires third { z < 16 }
    requires fourth { w < 16 }
    ensures { s.new ≡ quarter_round_at x y z w s.old }
{
    let (a, b, c, d) = quarter_round((s[x], s[y], s[z], s[w]));
    s[x] = a;
    s[y] = b;
    s[z] = c;
    s[w] = d;
}

fn column_round(s: &mut State)
    ensures { s.new ≡ column_round s.old }
{
    quarter_round_at(s, 0, 4, 8, 12);
    quarter_round_at(s, 1, 5, 9, 13);
    quarter_round_at(s, 2, 6, 10, 14);
    quarter_round_at(s, 3, 7, 11, 15);
}

// Kept: beside the column round, line by line as the standard has them; a table of places needs a proof that each is below 16.
fn diagonal_round(s: &mut State)
    ensures { s.new ≡ diagonal_round s.old }
{
    quarter_round_at(s, 0, 5, 10, 15);
    quarter_round_at(s, 1, 6, 11, 12);
    quarter_round_at(s, 2, 7, 8, 13);
    quarter_round_at(s, 3, 4, 9, 14);
}

// The twenty rounds.
pub(crate) fn twenty_rounds(s: &mut State)
    ensures { s.new ≡ double_rounds 10 s.old }
{
    for _ in 0..DOUBLE_ROUNDS {
        column_round(s);
        diagonal_round(s);
    }
}
