// The program `hits`: it reads a needle, a line feed and a text from standard input, and prints
// where the needle stands in the text (document 01, "The program `hits`").
//
// The bytes that are printed are defined in the crate `report` and proved there. This program
// reads, calls it, and hands the bytes to the system.
#![tactic(auto)]

ghost use Rattle.std.specs.Prelude.{IfOk, ◌≤◌, length};

use std::io;
use std::io::{Read, Stdin, Stdout, Write};

// One byte more than the longest input: a longer one is seen to be too long, and need not be read
// to its end.
const ROOM: usize = 65537;

// Reads until the input ends or the buffer is full, and tells how many bytes came. The program has
// fixed memory, so the bytes go to a buffer, and not to a `Vec` by std's `read_to_end`.
fn read_input(input: &mut Stdin, buffer: &mut [u8]) -> io::Result<usize>
    ensures { IfOk result (λ n. n ≤ length buffer.new) }
{
    let mut n = 0;
    while n < buffer.len() {
        let more = input.read(&mut buffer[n..])?;
        if more == 0 {
            break;
        }
        n += more;
    }
    Ok(n)
}

// Writes what the program prints for an input: its lines, or the one line of its refusal.
fn answer(output: &mut Stdout, input: &[u8]) -> io::Result<()> {
    let mut page = [0u8; report::LONGEST_REPORT];
    match report::report(input, &mut page) {
        Ok(written) => output.write_all(&page[..written]),
        Err(refusal) => output.write_all(&report::refusal_line(u32::from(refusal))),
    }
}

// A failed read ends the program with nothing written, and a failed write ends what it writes:
// neither is told.
fn main(rt: HostRuntime) {
    let mut buffer = [0u8; ROOM];
    if let Ok(n) = read_input(&mut rt.stdin(), &mut buffer) {
        let _ = answer(&mut rt.stdout(), &buffer[..n]);
    }
}
