// The program: a text on standard input, the answer on standard output. A read or write that fails is told on standard error.
#![tactic(auto)]

ghost use Rattle.std.specs.Prelude.{◌≤◌, length, IfOk};
ghost use Rattle.programform.specs.Input.{input_room};

use std::io;
use std::io::{Read, Write};

// Reads to the end of the input, or until `text` is full, and gives how many bytes were read.
fn read_input(reader: &mut impl Read, text: &mut [u8]) -> io::Result<usize>
    ensures { IfOk result (λ n. n ≤ length text.new) }
{
    let mut at: usize = 0;
    while at < text.len() {
        match reader.read(&mut text[at..])? {
            0 => return Ok(at),
            n => at += n,
        }
    }
    Ok(at)
}

// The first n bytes of `text` are those of the input: all of them, or as many as `text` holds.
fn print_answer(writer: &mut impl Write, text: &[u8], n: usize) -> io::Result<()>
    requires { (input_room ≤ length text.now) × (n ≤ length text.now) }
{
    let mut out = [0u8; program::ANSWER_ROOM];
    let long = program::answer(text, n, &mut out);
    writer.write_all(&out[..long])
}

fn main(rt: HostRuntime) {
    let mut text = [0u8; program::INPUT_ROOM];
    match read_input(&mut rt.stdin(), &mut text) {
        Ok(n) => {
            if let Err(error) = print_answer(&mut rt.stdout(), &text, n) {
                let _ = eprintln!(rt; "standard output: {error}");
            }
        }
        Err(error) => {
            let _ = eprintln!(rt; "standard input: {error}");
        }
    }
}
