// Solves the system on standard input: prints the answer's text, or `refused` and the number. All that matters is in `text_call::output`: a buffer
// shorter than it asks for, one byte more than a text may have, would print nothing. An error of the input or the output ends the program with that
// error.
#![tactic(auto)]

use std::io;
use std::io::Read;

fn main(rt: HostRuntime) -> io::Result<()> {
    let mut text = [0u8; 26625];
    let mut out = [0u8; 7168];
    let room = text.len() as u64;
    let read = io::copy(&mut rt.stdin().take(room), &mut text.as_mut_slice())?;
    let length = text_call::output(&text, read as usize, &mut out);
    rt.write_all(&out[..length])
}
