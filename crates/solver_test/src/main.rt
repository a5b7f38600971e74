// Makes the calls of the solver that standard input lists, after their number. A call is seven lists: its modulus, its window and the places of its vector,
// polynomial, bill and work slices; starts, columns, values, scales, b and words. A line of the output: the refusal's number; or 0, 1 where it solved and 0 where it found
// the matrix singular, degree, passes, applications and entries multiplied; then the vector, polynomial and bill slices, each with two places behind
// it; and of the work slice what a call may not change, two places behind it and, where it refuses, all. vectors.py makes calls and output.
#![tactic(auto)]

use checks::Matrix;
use refusal::Refusal;
use solver::{Counts, Verdict};
use std::io;
use test_io::{Case, Cases, Lent, MEMORY, at, filled, place, print, print_refusal};

fn print_counts(rt: &impl Print, solved: bool, counts: Counts) -> io::Result<()> {
    print(rt, 0)?;
    print(rt, u32::from(solved))?;
    print(rt, counts.degree)?;
    print(rt, counts.passes)?;
    print(rt, counts.applications)?;
    print(rt, counts.multiplied)
}

fn print_verdict(rt: &impl Print, verdict: Result<Verdict, Refusal>) -> io::Result<()> {
    match verdict {
        Ok(Verdict::Solved(counts)) => print_counts(rt, true, counts),
        Ok(Verdict::Singular(counts)) => print_counts(rt, false, counts),
        Err(refusal) => print_refusal(rt, refusal),
    }
}

fn call(rt: &impl Print, case: Case) -> io::Result<()> {
    let head = case.head();
    // All lengths before the first slice: with one between two of them each slice would be cleared before it is filled.
    let places = place(head, 2);
    let coefficients = place(head, 3);
    let billed = place(head, 4);
    let room = place(head, 5);
    let mut vector = Lent::new(places);
    let mut polynomial = Lent::new(coefficients);
    let mut bill = Lent::new(billed);
    let mut work = Lent::new(room);
    let a = Matrix {
        starts: case.list(1),
        columns: case.list(2),
        values: case.list(3),
    };
    let verdict = solver::solve(
        field::Field { p: at(head, 0) },
        &a,
        case.list(4),
        case.list(5),
        case.list(6),
        at(head, 1),
        vector.lend(),
        polynomial.lend(),
        bill.lend(),
        work.lend(),
    );
    print_verdict(rt, verdict)?;
    vector.show(rt)?;
    polynomial.show(rt)?;
    bill.show(rt)?;
    work.show_kept(rt, &verdict)?;
    test_io::end_line(rt)
}

fn main(rt: HostRuntime) -> io::Result<()> {
    let mut memory: [u32; MEMORY] = filled(0);
    test_io::read_numbers(&mut rt.stdin(), &mut memory)?;
    for case in Cases::new(&memory, 7) {
        call(&rt, case)?;
    }
    Ok(())
}
