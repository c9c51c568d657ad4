// Replays recorded answers against the port: for each file of data/ one line with the number of its cases and of those
// that differ. tools/case_file.py has the form of the files, docs/DIFFERENCES.md says how each was made.
#![tactic(auto)]

mod answer;
mod books;
mod encodings;
mod groups;
mod lent;
mod numbers;
mod operation;
mod packing;
mod reads;
mod records;
mod replay;
mod report;
mod resolving;
mod sums;
mod writes;

use std::io;

const FILES: [&str; 11] = [
    "windows-1252",
    "utf-16",
    "utf-8",
    "numbers",
    "checks",
    "categories",
    "walks",
    "reads",
    "limits",
    "writes",
    "marked-strings",
];

// Each file has the buffer for the book that is kept from case to case.
fn main(rt: HostRuntime) -> io::Result<()> {
    let mut book = replay::book_buffer();
    for name in FILES {
        replay::file(&rt, name, &mut book)?;
    }
    Ok(())
}
