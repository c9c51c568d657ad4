// Reads `book.bin` and `mem.bin` of the current folder and prints the values of the memory, or the number of the refusal
// (document 01, "Program `adswalk`"). `printout::print` makes the lines. By its contract the buffer is never too short for them, so the
// early return never runs.
#![tactic(auto)]

mod files;

use std::io;
use std::io::Write;

fn main(rt: HostRuntime) -> io::Result<()> {
    let mut book = files::book_buffer();
    let mut memory = files::memory_buffer();
    let mut out = files::line_buffer();
    let n = files::read(&rt, "book.bin", &mut book);
    let m = files::read(&rt, "mem.bin", &mut memory);
    let put = printout::print(&book[0..n], &memory[0..m], &mut out);
    let Some(k) = put else {
        return Ok(());
    };
    io::writer(&rt).write_all(&out[0..k])
}
