// The lines of an input, of which none is kept past a limit.
#![tactic(auto)]

ghost use Rattle.std.specs.Prelude.{◌≡◌, ◌↔◌, ℕ, ◌<◌, ◌≤◌, ◌==◌, [], length, IfOk, IfErr, IfSome, IsTrue};
ghost use Rattle.std.specs.Borrow.{sem};
ghost use Rattle.std.specs.List.{position};
ghost use Rattle.std.specs.Io.BufRead.{Rests};
ghost use Rattle.std.specs.IoError.{error_kind};
ghost use Rattle.lines.specs.Kept.{line_of, ahead_of, Kept, Gives};
ghost use Rattle.lines.specs.contracts.Lines.{the_row};

use anyhow::anyhow;
use std::alloc::Global;
use std::io;
use std::io::{BufRead, BufReader, ErrorKind, Read};

// How far a line was taken.
#[derive(Drop)]
enum Taken {
    // There may be more of it.
    More,
    // To its end.
    Whole,
    // To the end of the input.
    Last,
}

#[derive(Drop)]
pub struct Lines<R> {
    input: BufReader<R>,
    line: Vec<u8>,
    most: usize,
}

impl<R: Read + Drop> Lines<R> {
    // The lines of `input`, each kept as far as `most` bytes. The buffer for what is read ahead is the one thing that may fail: for want of memory.
    pub fn new(alloc: Global, input: R, most: usize) -> io::Result<Lines<R>>
        ensures line { IfOk result (λ l. line_of l ≡ []) }
        ensures most { IfOk result (λ l. l.most ≡ most) }
        ensures err { IfErr result (λ e. error_kind e ≡ ErrorKind.OutOfMemory) }
    {
        Ok(Lines {
            input: BufReader::new(alloc, input)?,
            line: Vec::new(alloc),
            most,
        })
    }
}

impl<R: Read> Lines<R> {
    // Whether the next line asks the input for more.
    pub fn waits(&self) -> bool
        ensures { IsTrue result ↔ (ahead_of self.now ≡ []) }
    {
        self.input.buffer().is_empty()
    }

    // What is held of the line that was read last.
    pub fn line(&self) -> &[u8]
        ensures { result.now ≡ line_of self.now }
    {
        self.line.as_slice()
    }

    // The next line, if there is one, without its newline. What passes the limit is left out.
    pub fn next_line(&mut self) -> anyhow::Result<Option<&[u8]>>
        ensures kept { IfOk result (λ next. IfSome next (λ line. Kept self.old.most line.now)) }
        ensures* after { sem 𝓛 (Rests (the_row R.row) self.entry (Gives self.old.most result)) }
    {
        if !self.advance()? {
            return Ok(None);
        }
        Ok(Some(self.line()))
    }

    // Goes to the next line, if there is one.
    fn advance(&mut self) -> anyhow::Result<bool>
        ensures line { Kept self.new.most (line_of self.new) }
        ensures most { self.new.most ≡ self.old.most }
    {
        self.line.clear();
        // Kept: a loop that runs until its input ends has no measure, so its proof does not close.
        for _ in 0..u64::MAX {
            match take(&mut self.input, &mut self.line, self.most)? {
                Taken::More => {}
                Taken::Whole => return Ok(true),
                Taken::Last => return Ok(!self.line.is_empty()),
            }
        }
        Err(anyhow!("the line does not end"))
    }
}

// Moves what the input holds of a line to the end of `line`, without the newline. What passes `most` bytes is left out.
// Kept: by fill_buf and consume; tried by read_until over take, of whose limit the proof knows nothing, and through which a line costs more.
fn take<B: BufRead>(input: &mut B, line: &mut Vec<u8>, most: usize) -> io::Result<Taken>
    requires { Kept most line.old.items }
    ensures { Kept most line.new.items }
{
    let held = match input.fill_buf() {
        Ok(held) => held,
        Err(e) => {
            return if e.kind() == ErrorKind::Interrupted {
                Ok(Taken::More)
            } else {
                Err(e)
            };
        }
    };
    if held.is_empty() {
        return Ok(Taken::Last);
    }
    let (end, used, taken) = match find_newline(held) {
        Some(end) => (end, end + 1, Taken::Whole),
        None => (held.len(), held.len(), Taken::More),
    };
    let kept = end.min(most.saturating_sub(line.len()));
    line.extend_from_slice(&held[0..kept])?;
    input.consume(used);
    Ok(taken)
}

// The place of the first newline.
fn find_newline(bytes: &[u8]) -> Option<usize>
    ensures { result ≡ position (λ b. b == 10) bytes.now }
{
    bytes.iter().position(|b| *b == b'\n')
}
