// Makes the calls of the shortest recurrence that standard input lists, after their number. A call is two lists: its modulus and the places of its
// polynomial and work slices; and the terms. A line of the output: the refusal's number, or 0 and the degree; the polynomial slice and two places
// behind it; and of the work slice what a call may not change, two places behind it and, where it refuses, all. vectors.py makes calls and output.
#![tactic(auto)]

use refusal::Refusal;
use std::io;
use test_io::{Case, Cases, Lent, MEMORY, at, filled, place, print, print_refusal};

fn print_answer(rt: &impl Print, answer: Result<usize, Refusal>) -> io::Result<()> {
    match answer {
        Ok(degree) => {
            print(rt, 0)?;
            print(rt, degree)
        }
        Err(refusal) => print_refusal(rt, refusal),
    }
}

fn call(rt: &impl Print, case: Case) -> io::Result<()> {
    let head = case.head();
    // All lengths before the first slice: with one between two of them each slice would be cleared before it is filled.
    let places = place(head, 1);
    let room = place(head, 2);
    let mut polynomial = Lent::new(places);
    let mut work = Lent::new(room);
    let answer = recurrence::recurrence(
        field::Field { p: at(head, 0) },
        case.list(1),
        polynomial.lend(),
        work.lend(),
    );
    print_answer(rt, answer)?;
    polynomial.show(rt)?;
    work.show_kept(rt, &answer)?;
    test_io::end_line(rt)
}

fn main(rt: HostRuntime) -> io::Result<()> {
    let mut memory: [u32; MEMORY] = filled(0);
    test_io::read_numbers(&mut rt.stdin(), &mut memory)?;
    for case in Cases::new(&memory, 2) {
        call(&rt, case)?;
    }
    Ok(())
}
