// Prints the inverses of 1 to 250 modulo 251: lines of `i`, element, inverse. All that matters is in `inverse_lines::output`: a shorter buffer than
// it asks for would print nothing. An error of the output ends the program with that error.
#![tactic(auto)]

use std::io;

fn main(rt: HostRuntime) -> io::Result<()> {
    let mut out = [0u8; 2500];
    let length = inverse_lines::output(&mut out);
    rt.write_all(&out[..length])
}
