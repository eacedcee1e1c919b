//! Lines that are calls, and their answers.

use crate::arguments::Arguments;
use std::alloc::{AllocError, Global};
use std::io::{self, BufRead, BufWriter, Write};

/// The calls of a program.
pub trait Calls {
    /// Asks what the call of this name says, and appends the answer, with a space before each word. Returns whether
    /// there is such a call. `AllocError` where a growth was refused.
    fn ask(
        &self,
        alloc: Global,
        name: &[u8],
        arguments: &mut Arguments<'_>,
        out: &mut Vec<u8>,
    ) -> Result<bool, AllocError>;
}

/// The answer to a line that is no comment.
fn answered<C: Calls>(alloc: Global, calls: &C, line: &[u8]) -> Result<Vec<u8>, AllocError> {
    let (name, mut arguments) = Arguments::of(line);
    let mut out = Vec::new(alloc);
    if !calls.ask(alloc, name, &mut arguments, &mut out)? {
        return b" no such call".to_vec(alloc);
    }
    if !arguments.are_taken() {
        return b" no such arguments".to_vec(alloc);
    }
    Ok(out)
}

/// Returns what stands in a line's place.
fn written<C: Calls>(alloc: Global, calls: &C, line: &[u8]) -> Result<Vec<u8>, AllocError> {
    match line {
        [] | [b'#', ..] => line.to_vec(alloc),
        _ => {
            let answer = answered(alloc, calls, line)?;
            match answer.as_slice() {
                [_, text @ ..] => text.to_vec(alloc),
                [] => Ok(answer),
            }
        }
    }
}

/// Writes the answer to each line. Fails where reading or writing fails, or a growth is refused.
pub fn answer_lines<C: Calls, R: BufRead + Drop, W: Write + Drop>(
    alloc: Global,
    calls: &C,
    input: R,
    output: W,
) -> io::Result<()> {
    let mut out = BufWriter::new(alloc, output)?;
    for line in input.lines(alloc) {
        let line = line?;
        let text = written(alloc, calls, line.as_bytes())?;
        out.write_all(&text)?;
        out.write_all(b"\n")?;
    }
    out.flush()
}
