// Reads vectors from standard input, one a line, and prints for each whether the library gives what it expects.
#![tactic(auto)]

mod count;

use anyhow::anyhow;
use collating::{Areas, LONGEST, judge, passed_over};
use count::Count;
use lines::Lines;
use std::io::{BufWriter, Read, Write};

// Judges each line, and prints its report before the program waits for the next.
fn judge_lines<R: Read, W: Write + Drop>(
    lines: &mut Lines<R>,
    out: &mut BufWriter<W>,
) -> anyhow::Result<Count> {
    let mut count = Count::default();
    let mut areas = Areas::new();
    let mut answer = [0; LONGEST];
    // Kept: a loop that runs until its input ends has no measure, so its proof does not close.
    for number in 1..u64::MAX {
        if lines.waits() {
            out.flush()?;
        }
        let Some(line) = lines.next_line()? else {
            break;
        };
        if passed_over(line) {
            continue;
        }
        let verdict = judge(line, &mut areas, &mut answer);
        count.add(verdict);
        writeln!(out, "{}", verdict.report(number, &answer))?;
    }
    Ok(count)
}

fn run(rt: &HostRuntime) -> anyhow::Result<Count> {
    let mut lines = Lines::new(rt.alloc(), rt.stdin(), usize::MAX)?;
    let mut out = BufWriter::new(rt.alloc(), rt.stdout())?;
    let count = judge_lines(&mut lines, &mut out)?;
    writeln!(out, "{count}")?;
    out.flush()?;
    Ok(count)
}

// Ends with status 0 where every line is ok, and else with 1.
fn main(rt: HostRuntime) -> anyhow::Result<()> {
    if run(&rt)?.all_same() {
        return Ok(());
    }
    Err(anyhow!("not every line is ok"))
}
