// The lines of the inverses modulo 251, from `i 1 1` to `i 250 250`: what the program `inverses` prints, and where the numbers of the field's table
// come from. The inverses are found the general way, and not from that table.
//
// The contracts cite the crate meaning (Inverses: inverses_text) and specs/Printed.antt.
#![tactic(auto)]

ghost use Rattle.line_writer.specs.Written.{Wrote};
ghost use Rattle.meaning.specs.Inverses.{inverses_text};
ghost use Rattle.inverse_lines.specs.Printed.{Printed};

use field::inverse_by_euclid;
use line_writer::Lines;

// A line for each element; answers the place after the last.
fn put_lines(out: &mut [u8]) -> usize
    ensures { Wrote out.old 0 inverses_text result out.new }
{
    let mut lines = Lines::new(out);
    for element in 1..=250 {
        let inverse = inverse_by_euclid(251, element);
        lines.put(b"i", &[u64::from(element), u64::from(inverse)]);
    }
    lines.place()
}

// Puts the lines at the front of a slice of at least 2,500 bytes and answers their length; a shorter slice stays as it is, and the answer is 0.
#[tactic(auto, using(crate::specs::Printed::printed_short))]
pub fn output(out: &mut [u8]) -> usize
    ensures { Printed out.old result out.new }
{
    if out.len() < 2500 {
        return 0;
    }
    put_lines(out)
}
