// What the test programs share. A program reads all of its input into one slice, its memory. There a call under test finds its slices, each as a list:
// the number of its elements, then the elements. What it answers is printed as numbers, and so is what it leaves in a slice: the elements of a
// few places, the hash of more. No contract knows what standard input holds, or speaks of what is written to standard output: a program's output is
// held to its file. generator.py says the same to the generators. The contracts cite specs/Lists (what stands in the memory), specs/Cases (its calls) and
// specs/Hash.
//
//     filled, MEMORY, LENT, .. room for the input, and for slices that a call writes
//     Lent, LentText           slices that a call writes: lent, read and shown
//     read_numbers             the numbers of the input
//     Cases, Case              the calls that stand in the memory, and each one's lists
//     at, place                what stands in a list
//     part, front              a part of a slice, to be read or to be lent
//     print, ..                numbers and refusals
#![tactic(auto)]

ghost use Rattle.std.specs.Prelude.{◌≡◌, ℕ, ◌+◌, ◌*◌, ◌-◌, ◌%◌, ◌≤◌, ◌⊎◌, List, IfOk, OnErr, min, length, get_or, take, drop};
ghost use Rattle.std.specs.Io.KnownBytes.{Consumes, IsAtEnd};
ghost use Rattle.std.specs.List.{AllZip};
ghost use Rattle.std.specs.Iterator.{YieldsFirstBy, item_count};
ghost use Rattle.test_io.specs.Lists.{next_place, place_after, list_at};
ghost use Rattle.test_io.specs.Cases.{cases, case_of, cases_left};
ghost use Rattle.test_io.specs.Hash.{hash_from};

use refusal::Refusal;
use std::fmt::Display;
use std::io;
use std::io::Read;

// ---- room; that an array has so many places is a fact of the call, and no list has to be counted for it

pub fn filled<T: Copy, const N: usize>(x: T) -> [T; N]
    ensures { N ≡ length result }
{
    [x; N]
}

// Of the numbers of the input.
pub const MEMORY: usize = 150_000;

// Of its bytes.
pub const TEXT: usize = 2_100_000;

// Of a slice that a call is to write, of numbers and of bytes; its places hold FREE before, where no element of a field is.
pub const LENT: usize = 65_600;

pub const LENT_TEXT: usize = 800_000;

pub const FREE: u32 = u32::MAX;

pub const FREE_BYTE: u8 = u8::MAX;

// ---- the input, and its numbers

// The bytes of the input at the front of the text, as far as there is room; how many were read. On an error what was read before it is there.
pub fn read_text<R: Read>(input: &mut R, text: &mut [u8]) -> io::Result<usize>
    ensures within { IfOk result (λ count. count ≤ length text.new) }
    ensures bytes { IfOk result (λ count. Consumes (R.remaining input.old) (R.remaining input.new) (take count text.new)) }
    ensures all { IfOk result (λ count. (count ≡ length text.new) ⊎ IsAtEnd (R.remaining input.new)) }
    ensures err { OnErr result ((count : ℕ) × (count ≤ length text.new) × Consumes (R.remaining input.old) (R.remaining input.new) (take count text.new)) }
{
    let mut count = 0;
    while count < text.len() {
        let more = input.read(&mut text[count..])?;
        if more == 0 {
            break;
        }
        count += more;
    }
    Ok(count)
}

fn with_digit(value: u32, byte: u8) -> u32
    ensures { result ≡ (value * 10 + byte % 16) % 4294967296 }
{
    value.wrapping_mul(10).wrapping_add(u32::from(byte % 16))
}

// The decimal numbers of a text, each with one byte after it, up to the first letter, into the first places; how many there are. They are taken
// modulo 2^32; what stands behind them is kept, and numbers that find no place are left out.
pub fn numbers_of(text: &[u8], s: &mut [u32]) -> usize
    ensures { (result ≤ length s.old) × (length s.new ≡ length s.old) × (drop result s.new ≡ drop result s.old) }
{
    let mut count = 0;
    let mut value = 0;
    for &byte in text {
        match byte {
            b'0'..=b'9' => value = with_digit(value, byte),
            b':'.. => break,
            _ => {
                if count == s.len() {
                    break;
                }
                s[count] = value;
                count += 1;
                value = 0;
            }
        }
    }
    count
}

// The numbers of the input. Where it can't be read, the slice stays as it is.
pub fn read_numbers(input: &mut impl Read, s: &mut [u32]) -> io::Result<usize>
    ensures ok { IfOk result (λ count. (count ≤ length s.old) × (length s.new ≡ length s.old) × (drop count s.new ≡ drop count s.old)) }
    ensures err { OnErr result (s.new ≡ s.old) }
{
    let mut text: [u8; TEXT] = filled(0);
    let n = read_text(input, &mut text)?;
    Ok(numbers_of(&text[..n], s))
}

// ---- parts of a slice, as far as there are so many places

pub fn part<T>(s: &[T], from: usize, to: usize) -> &[T]
    ensures { result.now ≡ take (to - from) (drop from s.now) }
{
    let end = to.min(s.len());
    &s[from.min(end)..end]
}

// What is done to the part is its holder's matter, so the slice is free, as a work slice is.
pub fn front<T>(work: &mut [T], count: usize) -> &mut [T]
    ensures { result.now ≡ take count work.old }
{
    let end = count.min(work.len());
    &mut work[..end]
}

// ---- what stands in a slice

// An element; 0 past the end.
pub fn at(s: &[u32], i: usize) -> u32
    ensures { result ≡ get_or s.now i 0 }
{
    s.get(i).copied().unwrap_or(0)
}

// The same as a place or a length.
pub fn place(s: &[u32], i: usize) -> usize
    ensures { (result ≡ get_or s.now i 0) × (result ≤ 4294967295) }
{
    at(s, i) as usize
}

// The place after the list at `from`, at most the slice's end.
fn next(s: &[u32], from: usize) -> usize
    ensures { (result ≡ next_place s.now from) × (result ≤ length s.now) }
{
    from.saturating_add(1 + place(s, from)).min(s.len())
}

// The lists of a call: those that stand in the memory from a place on.
#[derive(Clone, Copy)]
pub struct Case<'a> {
    pub memory: &'a [u32],
    pub from: usize,
}

impl<'a> Case<'a> {
    // The place after the first `count` lists, at most the memory's end.
    #[tactic(auto, using(crate::specs::Lists::place_after_none, crate::specs::Lists::place_after_more))]
    pub fn after(&self, count: usize) -> usize
        ensures { (result ≡ place_after self.now.memory.now self.now.from count) × (result ≤ length self.now.memory.now) }
    {
        let mut at = self.from.min(self.memory.len());
        for _k in 0..count {
            at = next(self.memory, at);
        }
        at
    }

    pub fn list(&self, k: usize) -> &'a [u32]
        ensures { (result.now ≡ list_at self.now.memory.now self.now.from k) × (length result.now ≤ length self.now.memory.now) }
    {
        let start = self.after(k);
        let end = next(self.memory, start);
        part(self.memory, start + 1, end)
    }

    // The first list, of the call's own numbers.
    pub fn head(&self) -> &'a [u32]
        ensures { (result.now ≡ list_at self.now.memory.now self.now.from 0) × (length result.now ≤ length self.now.memory.now) }
    {
        self.list(0)
    }
}

// The calls that a memory holds, each of so many lists, after their number.
#[derive(Drop)]
pub struct Cases<'a> {
    memory: &'a [u32],
    lists: usize,
    from: usize,
    left: u32,
}

impl<'a> Cases<'a> {
    pub fn new(memory: &'a [u32], lists: usize) -> Cases<'a>
        ensures { cases_left result ≡ cases memory.now lists 1 (get_or memory.now 0 0) }
    {
        Cases {
            memory,
            lists,
            from: 1,
            left: at(memory, 0),
        }
    }
}

impl<'a> Iterator for Cases<'a> {
    type Item = Case<'a>;

    ghost next_gives = { YieldsFirstBy case_of cases_left };

    ghost remaining = { item_count cases_left };

    #[tactic(auto, using(crate::specs::Cases::cases_none, crate::specs::Cases::cases_next))]
    fn next(&mut self) -> Option<Case<'a>> {
        if self.left == 0 {
            return None;
        }
        self.left -= 1;
        let case = Case {
            memory: self.memory,
            from: self.from,
        };
        self.from = case.after(self.lists);
        Some(case)
    }
}

// ---- output

// A hash of 32 bits, with one element more.
fn hashed(hash: u32, x: u32) -> u32
    ensures { result ≡ (hash * 65599 + x + 1) % 4294967291 }
{
    ((u64::from(hash) * 65_599 + u64::from(x) + 1) % 4_294_967_291) as u32
}

// The hash of what a slice holds, each element as a number.
fn hash<T: Copy + Into<u32>>(s: &[T]) -> u32
    ensures { (numbers : List ℕ) × AllZip T.converts s.now numbers × (result ≡ hash_from 0 numbers) }
{
    let mut h = 0;
    for &x in s {
        h = hashed(h, x.into());
    }
    h
}

pub fn print(rt: &impl Print, x: impl Display + Copy) -> io::Result<()>
    ensures { Unit {0} }
{
    print!(rt; " {x}")
}

pub fn print_refusal(rt: &impl Print, refusal: Refusal) -> io::Result<()>
    ensures { Unit {0} }
{
    print(rt, u32::from(refusal))
}

pub fn end_line(rt: &impl Print) -> io::Result<()>
    ensures { Unit {0} }
{
    println!(rt)
}

fn print_hash<T: Copy + Into<u32>>(rt: &impl Print, s: &[T]) -> io::Result<()> {
    let h = hash(s);
    print!(rt; " #{h}")
}

fn print_all(rt: &impl Print, s: &[u32]) -> io::Result<()> {
    for &x in s {
        print(rt, x)?;
    }
    Ok(())
}

// Two places behind those of a slice that was lent, which has at most 2^32 - 1.
fn behind(size: usize) -> usize
    ensures { result ≡ min size 4294967295 + 2 }
{
    size.min(u32::MAX as usize) + 2
}

// A slice that a call is to write. Its first `size` places are lent; all hold FREE before.
#[derive(Drop)]
pub struct Lent {
    places: [u32; LENT],
    size: usize,
}

impl Lent {
    pub fn new(size: usize) -> Lent
        ensures { result.size ≡ size }
    {
        Lent {
            places: filled(FREE),
            size,
        }
    }

    pub fn lend(&mut self) -> &mut [u32]
        ensures { result.now ≡ take self.old.size self.old.places }
    {
        let size = self.size;
        front(&mut self.places, size)
    }

    // The elements in the first `count` places.
    pub fn first(&self, count: usize) -> &[u32]
        ensures { result.now ≡ take count self.now.places }
    {
        part(&self.places, 0, count)
    }

    // From the place `from` on what was lent, and two places behind it; of more than 12 their hash.
    fn show_from(&self, rt: &impl Print, from: usize) -> io::Result<()> {
        let shown = part(&self.places, from, behind(self.size));
        if shown.len() > 12 {
            print_hash(rt, shown)
        } else {
            print_all(rt, shown)
        }
    }

    pub fn show(&self, rt: &impl Print) -> io::Result<()>
        ensures { Unit {0} }
    {
        self.show_from(rt, 0)
    }

    // What a call with such an answer may not change of its work: the two places behind it and, where it refused, all.
    pub fn show_kept<T>(&self, rt: &impl Print, answer: &Result<T, Refusal>) -> io::Result<()>
        ensures { Unit {0} }
    {
        let free = if answer.is_ok() { self.size } else { 0 };
        self.show_from(rt, free)
    }
}

// The same of bytes, which hold FREE_BYTE before.
#[derive(Drop)]
pub struct LentText {
    bytes: [u8; LENT_TEXT],
    size: usize,
}

impl LentText {
    pub fn new(size: usize) -> LentText
        ensures { result.size ≡ size }
    {
        LentText {
            bytes: filled(FREE_BYTE),
            size,
        }
    }

    pub fn lend(&mut self) -> &mut [u8]
        ensures { result.now ≡ take self.old.size self.old.bytes }
    {
        let size = self.size;
        front(&mut self.bytes, size)
    }

    // The first `count` bytes.
    pub fn first(&self, count: usize) -> &[u8]
        ensures { result.now ≡ take count self.now.bytes }
    {
        part(&self.bytes, 0, count)
    }

    // From the place `from` on what was lent, and two places behind it: their hash.
    pub fn show_from(&self, rt: &impl Print, from: usize) -> io::Result<()>
        ensures { Unit {0} }
    {
        print_hash(rt, part(&self.bytes, from, behind(self.size)))
    }
}
