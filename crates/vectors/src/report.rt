// What the program writes: a line for each file, and above it the file's first difference.
use cases_file::case::HEAD;
use cases_file::input::{byte_at, first, from};
use std::{fmt, io};

// How many cases were replayed and how many of them differ.
#[derive(Clone, Copy, Default)]
pub struct Tally {
    pub cases: u64,
    pub differences: u64,
    // The length of the book that is kept from case to case.
    pub book: usize,
}

impl Tally {
    // After one more case, which leaves a book of this length.
    pub(crate) fn after(self, agrees: bool, book: usize) -> Tally {
        Tally {
            cases: self.cases.saturating_add(1),
            differences: self.differences.saturating_add(!agrees as u64),
            book,
        }
    }
}

// At most the first 64 bytes, as hexadecimal digits.
#[derive(Clone, Copy)]
struct Hex<'a>(&'a [u8]);

impl<'a> fmt::Display for Hex<'a> {
    fn fmt<W: fmt::Write>(&self, f: &mut fmt::Formatter<W>) -> fmt::Result {
        for byte in first(self.0, 64) {
            write!(f, "{byte:02x}")?;
        }
        Ok(())
    }
}

// Writes a file's first difference: the case's number, its operation, its input and what is recorded.
pub(crate) fn difference<R: Print>(
    rt: &R,
    case: &[u8],
    recorded: &[u8],
    tally: Tally,
) -> io::Result<()> {
    let number = tally.cases;
    let operation = byte_at(case, 0);
    let input = Hex(from(case, HEAD));
    let recorded = Hex(recorded);
    println!(rt;
        "first difference: case {number} operation {operation} input {input} recorded {recorded}"
    )
}

// Writes how many cases a file has, and how many differ.
pub(crate) fn total<R: Print>(rt: &R, name: &str, tally: Tally) -> io::Result<()> {
    let cases = tally.cases;
    let differences = tally.differences;
    println!(rt; "{name} cases {cases} differences {differences}")
}
