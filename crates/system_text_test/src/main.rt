// Makes the calls that standard input lists, after their number. A call is seven lists. The first says what it is:
//     0, where a text begins and ends in the input, and the places of starts, columns, values, scales and b: the text is read
//     1, p: the system of the next five lists is written
//     2, as 0, then `first`, `unit`, `end` and `skip`: a long text is read. Up to `end` the `unit` bytes from `first` on are repeated
// The next five are a system, and the last the places of the text slices into which it, or what was read, is written. The texts stand behind the lists.
// A line of the output: the refusal's number, or 0 and p, n and the number of entries; for each text slice the refusal's number, or 0 and
// the text's length, and the hash of the slice; and the five slices that the reader filled. Each slice is shown with two places behind it.
// vectors.py makes calls and output.
#![tactic(auto)]

ghost use Rattle.std.specs.Prelude.{◌≤◌};

use checks::Matrix;
use std::io;
use system_reader::Header;
use test_io::{
    Case, Cases, Lent, LentText, MEMORY, TEXT, at, filled, part, place, print, print_refusal,
};

#[derive(Clone, Copy)]
struct System<'a> {
    p: u32,
    a: Matrix<'a>,
    scales: &'a [u32],
    b: &'a [u32],
}

// ---- the writer

// Into a text slice of so many places.
fn write(rt: &impl Print, system: &System, size: usize) -> io::Result<()> {
    let mut out = LentText::new(size);
    match system_writer::write(system.p, &system.a, system.scales, system.b, out.lend()) {
        Ok(length) => {
            print(rt, 0)?;
            print(rt, length)?;
        }
        Err(refusal) => print_refusal(rt, refusal)?,
    }
    out.show_from(rt, 0)
}

fn write_all(rt: &impl Print, system: &System, sizes: &[u32]) -> io::Result<()> {
    for &size in sizes {
        write(rt, system, size as usize)?;
    }
    Ok(())
}

// ---- the reader

fn print_header(rt: &impl Print, header: Header) -> io::Result<()> {
    print(rt, 0)?;
    print(rt, header.modulus)?;
    print(rt, header.size)?;
    print(rt, header.entries)
}

// What is read into slices of so many places, and what is written of it.
fn read_into(rt: &impl Print, text: &[u8], rooms: [usize; 5], sizes: &[u32]) -> io::Result<()> {
    let mut starts = Lent::new(rooms[0]);
    let mut columns = Lent::new(rooms[1]);
    let mut values = Lent::new(rooms[2]);
    let mut scales = Lent::new(rooms[3]);
    let mut b = Lent::new(rooms[4]);
    let reading = system_reader::read(
        text,
        starts.lend(),
        columns.lend(),
        values.lend(),
        scales.lend(),
        b.lend(),
    );
    match reading {
        Ok(header) => {
            print_header(rt, header)?;
            let size = header.size as usize;
            let count = header.entries as usize;
            let system = System {
                p: header.modulus,
                a: Matrix {
                    starts: starts.first(size + 1),
                    columns: columns.first(count),
                    values: values.first(count),
                },
                scales: scales.first(size),
                b: b.first(size),
            };
            write_all(rt, &system, sizes)?;
        }
        Err(refusal) => print_refusal(rt, refusal)?,
    }
    starts.show(rt)?;
    columns.show(rt)?;
    values.show(rt)?;
    scales.show(rt)?;
    b.show(rt)
}

// The same with the head's lengths. (They are read before: with one read between two slices each would be cleared before it is filled.)
fn read(rt: &impl Print, text: &[u8], head: &[u32], sizes: &[u32]) -> io::Result<()> {
    let rooms = [
        place(head, 3),
        place(head, 4),
        place(head, 5),
        place(head, 6),
        place(head, 7),
    ];
    read_into(rt, text, rooms, sizes)
}

// ---- long texts

// A remainder; 0 where there is nothing to divide by.
fn below(x: usize, m: usize) -> usize
    ensures { result ≤ x }
{
    x.checked_rem(m).unwrap_or(0)
}

// A text made longer: up to `end` the `unit` bytes from `first` on are repeated, and what comes then stands `skip` places before in the text.
#[derive(Clone, Copy)]
struct Long<'a> {
    text: &'a [u8],
    first: usize,
    unit: usize,
    end: usize,
    skip: usize,
}

impl<'a> Long<'a> {
    fn byte(&self, i: usize) -> u8 {
        let from = if i < self.first {
            i
        } else if i < self.end {
            self.first + below(i - self.first, self.unit)
        } else {
            i.checked_sub(self.skip).unwrap_or(i)
        };
        self.text.get(from).copied().unwrap_or(0)
    }
}

fn read_long(rt: &impl Print, text: &[u8], head: &[u32], sizes: &[u32]) -> io::Result<()> {
    let end = place(head, 10);
    let source = Long {
        text,
        first: place(head, 8),
        unit: place(head, 9),
        end,
        skip: place(head, 11),
    };
    let mut long: [u8; TEXT] = filled(0);
    for (i, byte) in long.iter_mut().enumerate() {
        *byte = source.byte(i);
    }
    read(rt, part(&long, 0, end + 4), head, sizes)
}

fn call(rt: &impl Print, memory: &[u8], case: Case) -> io::Result<()> {
    let head = case.head();
    let sizes = case.list(6);
    let text = part(memory, place(head, 1), place(head, 2));
    match at(head, 0) {
        0 => read(rt, text, head, sizes)?,
        1 => {
            let system = System {
                p: at(head, 1),
                a: Matrix {
                    starts: case.list(1),
                    columns: case.list(2),
                    values: case.list(3),
                },
                scales: case.list(4),
                b: case.list(5),
            };
            write_all(rt, &system, sizes)?;
        }
        _ => read_long(rt, text, head, sizes)?,
    }
    test_io::end_line(rt)
}

fn main(rt: HostRuntime) -> io::Result<()> {
    let mut text: [u8; TEXT] = filled(0);
    let mut lists: [u32; MEMORY] = filled(0);
    test_io::read_text(&mut rt.stdin(), &mut text)?;
    test_io::numbers_of(&text, &mut lists);
    for case in Cases::new(&lists, 7) {
        call(&rt, &text, case)?;
    }
    Ok(())
}
