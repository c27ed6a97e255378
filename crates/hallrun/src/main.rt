// Reads lines from standard input, and answers each with a line on standard output.
#![tactic(auto)]

use ciphers::WideCipher;
use forms::Answer;
use hall::{Areas, Hall, Opened, open};
use hashes::KeyedHash;
use lines::Lines;
use std::io::{BufWriter, Read, Write};

// A line is kept as far as one byte past the 16,384 that it may have: what comes later cannot change its answer.
const KEPT: usize = 16385;

// Says that the ends are made, and answers the later lines, each before the program waits for the next.
fn answer_lines<C: WideCipher, J: KeyedHash, R: Read, W: Write + Drop>(
    hall: &mut Hall<C, J>,
    lines: &mut Lines<R>,
    out: &mut BufWriter<W>,
) -> anyhow::Result<()> {
    let mut areas = Areas::new();
    writeln!(out, "{}", Answer::<&[u8]>::Ready)?;
    // Kept: a loop that runs until its input ends has no measure, so its proof does not close.
    for _ in 0..u64::MAX {
        if lines.waits() {
            out.flush()?;
        }
        let Some(line) = lines.next_line()? else {
            break;
        };
        let reply = hall.step(line, &mut areas);
        writeln!(out, "{}", reply.within(&areas.out))?;
    }
    Ok(())
}

// A session with the ends that the first line made.
fn session<C: WideCipher + Drop, J: KeyedHash + Drop, R: Read, W: Write + Drop>(
    mut hall: Hall<C, J>,
    lines: &mut Lines<R>,
    out: &mut BufWriter<W>,
) -> anyhow::Result<()> {
    let done = answer_lines(&mut hall, lines, out);
    let last = hall.close();
    done?;
    if let Some(reply) = last {
        writeln!(out, "{}", reply.within(&[]))?;
    }
    Ok(())
}

// The same for ends of either pile.
// Kept: a match of two arms, since the hall of each pile is another type, and a `dyn` for two is no plainer.
fn serve<R: Read, W: Write + Drop>(
    opened: Opened,
    lines: &mut Lines<R>,
    out: &mut BufWriter<W>,
) -> anyhow::Result<()> {
    match opened {
        Opened::A(hall) => session(hall, lines, out),
        Opened::B(hall) => session(hall, lines, out),
    }
}

fn run(rt: &HostRuntime) -> anyhow::Result<()> {
    let mut lines = Lines::new(rt.alloc(), rt.stdin(), KEPT)?;
    let mut out = BufWriter::new(rt.alloc(), rt.stdout())?;
    let Some(first) = lines.next_line()? else {
        return Ok(());
    };
    match open(first) {
        Ok(opened) => serve(opened, &mut lines, &mut out)?,
        Err(reply) => writeln!(out, "{}", reply.within(&[]))?,
    }
    out.flush()?;
    Ok(())
}

fn main(rt: HostRuntime) -> anyhow::Result<()> {
    run(&rt)
}
