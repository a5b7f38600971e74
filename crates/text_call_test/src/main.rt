// Makes the calls that standard input lists, after their number. A call is a list: 0 for the text call or 1 for the program's output, the places of its
// answer slice, where its text begins and ends in the input, and for the output where the buffer ends that begins with the text; the texts stand
// behind the lists. Of a call is printed a line, what it returns and the hash of what stands behind its answer, up to two places behind the slice;
// and the answer. vectors.py makes calls and output.
#![tactic(auto)]

use std::io;
use test_io::{Cases, LentText, MEMORY, TEXT, at, filled, part, place, print};

// ---- the two calls: each prints what it returns; the answer's length

// A number up to 18 is no length.
fn answer_text(rt: &impl Print, text: &[u8], answer: &mut [u8]) -> io::Result<usize> {
    let number = text_call::filzeur_text(text, answer);
    print(rt, number)?;
    Ok(if number > 18 { number as usize } else { 0 })
}

fn answer_output(
    rt: &impl Print,
    buffer: &[u8],
    count: usize,
    answer: &mut [u8],
) -> io::Result<usize> {
    let length = text_call::output(buffer, count, answer);
    print(rt, length)?;
    Ok(length)
}

// With an answer slice of so many places. (Its length is read before: with that read beside it the slice would be cleared before it is filled.)
fn answer(rt: &impl Print, memory: &[u8], head: &[u32], room: usize) -> io::Result<()> {
    let mut answer = LentText::new(room);
    let text = part(memory, place(head, 2), place(head, 3));
    let buffer = part(memory, place(head, 2), place(head, 4));
    let length = match at(head, 0) {
        1 => answer_output(rt, buffer, text.len(), answer.lend())?,
        _ => answer_text(rt, text, answer.lend())?,
    };
    answer.show_from(rt, length)?;
    test_io::end_line(rt)?;
    rt.write_all(answer.first(length))
}

fn call(rt: &impl Print, memory: &[u8], head: &[u32]) -> io::Result<()> {
    answer(rt, memory, head, place(head, 1))
}

fn main(rt: HostRuntime) -> io::Result<()> {
    let mut text: [u8; TEXT] = filled(0);
    let mut lists: [u32; MEMORY] = filled(0);
    test_io::read_text(&mut rt.stdin(), &mut text)?;
    test_io::numbers_of(&text, &mut lists);
    for case in Cases::new(&lists, 1) {
        call(&rt, &text, case.head())?;
    }
    Ok(())
}
