// System texts, and the text call.
ghost use Rattle.std.specs.Prelude.{◌≡◌, ◌≤◌};
ghost use Rattle.meaning.specs.Matrix.{matrix};
ghost use Rattle.meaning.specs.Calls.{reader_refusal, reader_answer, reader_after, writer_refusal, writer_answer, writer_after};
ghost use Rattle.refusal.specs.Number.{refused_by};
ghost use Rattle.system_reader.specs.Answers.{modulus_of_read, size_of_read, count_of_read, starts_of_system, columns_of_system};
ghost use Rattle.system_reader.specs.Answers.{values_of_system, scales_of_system, right_of_system, modulus_of_document, size_of_document, count_of_document};
ghost use Rattle.system_writer.specs.Answers.{length_of_written};
ghost use Rattle.text_call.specs.Checks.{Called};
ghost use Rattle.host.specs.Answers.{system_of, length_of};

use checks::Matrix;
use refusal::Refusal;
use system_reader::{Header, read};
use system_writer::write;

#[repr(C)]
#[derive(Clone, Copy)]
pub struct System {
    pub refusal: u32,
    pub modulus: u32,
    pub size: u32,
    pub entries: u32,
}

#[repr(C)]
#[derive(Clone, Copy)]
pub struct Length {
    pub refusal: u32,
    pub length: u32,
}

impl From<Result<Header, Refusal>> for System {
    ghost from_gives = { λ answer numbers. numbers ≡ system_of (refused_by answer) (modulus_of_read answer) (size_of_read answer) (count_of_read answer) };

    fn from(answer: Result<Header, Refusal>) -> System {
        match answer {
            Ok(header) => System {
                refusal: 0,
                modulus: header.modulus,
                size: header.size,
                entries: header.entries,
            },
            Err(refusal) => System {
                refusal: u32::from(refusal),
                modulus: 0,
                size: 0,
                entries: 0,
            },
        }
    }
}

// No accepted text is longer than the reader takes, so 32 bits are enough. (`From` could not ask for that.)
fn numbers_of(answer: Result<usize, Refusal>) -> Length
    requires { length_of_written answer ≤ 2097152 }
    ensures { result ≡ length_of (refused_by answer) (length_of_written answer) }
{
    match answer {
        Ok(length) => Length {
            refusal: 0,
            length: length as u32,
        },
        Err(refusal) => Length {
            refusal: u32::from(refusal),
            length: 0,
        },
    }
}

#[unsafe(no_mangle)]
pub extern "C" fn filzeur_read(
    text: &[u8],
    starts: &mut [u32],
    columns: &mut [u32],
    values: &mut [u32],
    scales: &mut [u32],
    right: &mut [u32],
) -> System
    ensures value { result ≡ system_of
        (reader_refusal text.now starts.old columns.old values.old scales.old right.old)
        (reader_answer modulus_of_document text.now starts.old columns.old values.old scales.old right.old)
        (reader_answer size_of_document text.now starts.old columns.old values.old scales.old right.old)
        (reader_answer count_of_document text.now starts.old columns.old values.old scales.old right.old) }
    ensures starts_after { starts.new ≡ reader_after starts_of_system starts.old text.now starts.old columns.old
        values.old scales.old right.old }
    ensures columns_after { columns.new ≡ reader_after columns_of_system columns.old text.now starts.old columns.old
        values.old scales.old right.old }
    ensures values_after { values.new ≡ reader_after values_of_system values.old text.now starts.old columns.old
        values.old scales.old right.old }
    ensures scales_after { scales.new ≡ reader_after scales_of_system scales.old text.now starts.old columns.old
        values.old scales.old right.old }
    ensures right_after { right.new ≡ reader_after right_of_system right.old text.now starts.old columns.old
        values.old scales.old right.old }
{
    System::from(read(text, starts, columns, values, scales, right))
}

#[unsafe(no_mangle)]
pub extern "C" fn filzeur_write(
    p: u32,
    starts: &[u32],
    columns: &[u32],
    values: &[u32],
    scales: &[u32],
    b: &[u32],
    text: &mut [u8],
) -> Length
    ensures value { result ≡ length_of
        (writer_refusal p (matrix starts.now columns.now values.now) scales.now b.now text.old)
        (writer_answer p (matrix starts.now columns.now values.now) scales.now b.now text.old) }
    ensures text_after { text.new
        ≡ writer_after p (matrix starts.now columns.now values.now) scales.now b.now text.old }
{
    let a = Matrix {
        starts,
        columns,
        values,
    };
    numbers_of(write(p, &a, scales, b, text))
}

// The call of crate text_call: a static library exports its own functions only, so it is named here again.
#[unsafe(no_mangle)]
pub extern "C" fn filzeur_text(text: &[u8], answer: &mut [u8]) -> u64
    ensures { Called text.now answer.old result answer.new }
{
    text_call::filzeur_text(text, answer)
}
