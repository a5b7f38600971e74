// Makes the five calls on each of the matrices that standard input lists, after their number. A case is seven lists: its modulus and the places of out
// and work; starts, columns, values, g, v and b. A line of the output is what product, transposed and apply answer and leave (the refusal's number,
// or 0, how many products were made and how many entries they multiplied; out and two places behind it; of work, after apply, what it may not
// change: two places behind it and, where it refuses, all) and what the two checks say (the refusal's number, or 0, 1 for yes and 0 for no, and
// how many entries were multiplied): after the product whether A takes v to what it left, at the end whether A takes v to b and whether v is a
// null vector. A large case is its first list alone, with the numbers that make the others. vectors.py makes cases and output.
#![tactic(auto)]

ghost use Rattle.std.specs.Prelude.{◌≤◌};

use checks::{Matrix, Products};
use field::Field;
use refusal::Refusal;
use std::io;
use test_io::{Case, Cases, Lent, MEMORY, at, filled, place, print, print_refusal};
use wiedemann::offered::Offered;

fn print_products(rt: &impl Print, answer: Result<Products, Refusal>) -> io::Result<()> {
    match answer {
        Ok(products) => {
            print(rt, 0)?;
            print(rt, products.made)?;
            print(rt, products.multiplied)
        }
        Err(refusal) => print_refusal(rt, refusal),
    }
}

fn print_verdict(rt: &impl Print, answer: Result<Offered, Refusal>) -> io::Result<()> {
    match answer {
        Ok(found) => {
            print(rt, 0)?;
            print(rt, u32::from(found.holds))?;
            print(rt, found.multiplied)
        }
        Err(refusal) => print_refusal(rt, refusal),
    }
}

// What the calls of a case are given: p and the places of out and work, the matrix, g, v and b.
#[derive(Clone, Copy)]
struct Given<'a> {
    head: &'a [u32],
    a: Matrix<'a>,
    g: &'a [u32],
    v: &'a [u32],
    b: &'a [u32],
}

fn calls(rt: &impl Print, given: &Given) -> io::Result<()> {
    let f = Field {
        p: at(given.head, 0),
    };
    let room = place(given.head, 1);
    let a = &given.a;
    let v = given.v;
    let mut out = Lent::new(room);
    let product = wiedemann::matrix::product(f, a, v, out.lend());
    print_products(rt, product)?;
    out.show(rt)?;
    let left = out.first(room);
    print_verdict(rt, wiedemann::offered::takes(f, a, v, left))?;
    let transposed = transposed::transposed(f, a, v, out.lend());
    print_products(rt, transposed)?;
    out.show(rt)?;
    let mut work = Lent::new(place(given.head, 2));
    let applied = wiedemann::matrix::apply(f, a, given.g, v, out.lend(), work.lend());
    print_products(rt, applied)?;
    out.show(rt)?;
    work.show_kept(rt, &applied)?;
    print_verdict(rt, wiedemann::offered::takes(f, a, v, given.b))?;
    print_verdict(rt, wiedemann::offered::is_null(f, a, v))?;
    test_io::end_line(rt)
}

fn listed_case(rt: &impl Print, case: Case) -> io::Result<()> {
    let given = Given {
        head: case.head(),
        a: Matrix {
            starts: case.list(1),
            columns: case.list(2),
            values: case.list(3),
        },
        g: case.list(4),
        v: case.list(5),
        b: case.list(6),
    };
    calls(rt, &given)
}

// ---- large cases: 4,096 rows, two of them with 32 entries together, the first of the two with `even` of them; of two entries the second is the
// first with the other sign, so that 1, 1, .. is taken to zero where `even` is an even number. The first list goes on after p, out and work
// with `even`, a seed, the number of elements of each of the seven lists, and the numbers at which the elements of g, v and b begin.

// A remainder; 0 where there is nothing to divide by.
fn below(x: u32, m: u32) -> u32
    ensures { result ≤ m }
{
    if m == 0 { 0 } else { x % m }
}

fn word(seed: u32, base: u32, i: u32) -> u32 {
    let x = base
        .wrapping_add(i)
        .wrapping_mul(2_654_435_761)
        .wrapping_add(seed);
    (x / 65_536).wrapping_mul(48_271).wrapping_add(x)
}

fn value(p: u32, seed: u32, j: u32) -> u32 {
    if p == 0 {
        return 0;
    }
    let a = below(word(seed, 0, j / 2), p - 1) + 1;
    if j % 2 == 0 { a } else { p - a }
}

// Element j of a list.
fn made(head: &[u32], list: u32, j: u32) -> u32 {
    let p = at(head, 0);
    let even = at(head, 3) % 64;
    let seed = at(head, 4);
    let row = j / 32 * 2 % 128;
    match list {
        0 => at(head, j as usize),
        1 => {
            if j % 2 == 0 {
                j / 2 % 65536 * 32
            } else {
                j / 2 % 65536 * 32 + even
            }
        }
        2 => {
            if j % 32 < even {
                j % 32 * 128 + row
            } else {
                (j % 32 - even) * 128 + (row + 1)
            }
        }
        3 => value(p, seed, j),
        _ => {
            if seed == 0 {
                1
            } else {
                below(word(seed, at(head, list as usize + 8), j), p)
            }
        }
    }
}

// A place of the lists: a list's number of elements, where `j` is 0, then its elements.
#[derive(Clone, Copy)]
struct Place {
    list: u32,
    j: u32,
}

// The last start is the number of columns.
fn held(head: &[u32], c: Place) -> u32 {
    let count = at(head, c.list as usize + 5);
    if c.j == 0 {
        return count;
    }
    if c.list == 1 && c.j == count {
        return at(head, 7);
    }
    made(head, c.list, c.j - 1)
}

fn next(head: &[u32], c: Place) -> Place {
    if c.j < at(head, c.list as usize + 5) {
        return Place {
            list: c.list,
            j: c.j + 1,
        };
    }
    Place {
        list: c.list % 16 + 1,
        j: 0,
    }
}

fn make(head: &[u32], lists: &mut [u32]) {
    let mut c = Place { list: 0, j: 0 };
    for x in lists.iter_mut() {
        *x = held(head, c);
        c = next(head, c);
    }
}

fn large_case(rt: &impl Print, head: &[u32]) -> io::Result<()> {
    let mut memory: [u32; MEMORY] = filled(0);
    make(head, &mut memory);
    listed_case(
        rt,
        Case {
            memory: &memory,
            from: 0,
        },
    )
}

fn main(rt: HostRuntime) -> io::Result<()> {
    let mut memory: [u32; MEMORY] = filled(0);
    test_io::read_numbers(&mut rt.stdin(), &mut memory)?;
    for case in Cases::new(&memory, 7) {
        let head = case.head();
        if head.len() == 3 {
            listed_case(&rt, case)?;
        } else {
            large_case(&rt, head)?;
        }
    }
    Ok(())
}
