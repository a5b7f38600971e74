// Makes the field's calls that standard input lists, after their number. A call is a list: which one it is and its numbers. A line of the output: the
// refusal's number, or 0, and the value. vectors.py makes calls and output.
#![tactic(auto)]

use field::Field;
use refusal::Refusal;
use std::io;
use test_io::{Cases, MEMORY, at, filled, print, print_refusal};

fn answer(head: &[u32]) -> Result<u32, Refusal> {
    let p = at(head, 1);
    let a = at(head, 2);
    let b = at(head, 3);
    match at(head, 0) {
        0 => Field::new(p).map(|made| made.p),
        1 => Field { p }.sum(a, b),
        2 => Field { p }.difference(a, b),
        3 => Field { p }.product(a, b),
        4 => Field { p }.inverse(a),
        5 => Ok(u32::from(field::is_modulus(p))),
        _ => Ok(field::inverse_modulo(p, a)),
    }
}

fn call(rt: &impl Print, head: &[u32]) -> io::Result<()> {
    match answer(head) {
        Ok(value) => {
            print(rt, 0)?;
            print(rt, value)?;
        }
        Err(refusal) => {
            print_refusal(rt, refusal)?;
            print(rt, 0)?;
        }
    }
    test_io::end_line(rt)
}

fn main(rt: HostRuntime) -> io::Result<()> {
    let mut memory: [u32; MEMORY] = filled(0);
    test_io::read_numbers(&mut rt.stdin(), &mut memory)?;
    for case in Cases::new(&memory, 1) {
        call(&rt, case.head())?;
    }
    Ok(())
}
