// The program's files and buffers. Each buffer's `ensures` gives its length, which lending it as a slice needs.
ghost use Rattle.std.specs.Prelude.{◌≡◌, ◌≤◌, length, take};

use std::fs;
use std::io::Read;
use std::rt::Files;

// The bytes of a file, from the start of `buffer` on, as far as they go there: their number. A file that is absent or
// can't be opened is empty, and one of which a read fails ends there.
pub(crate) fn read(files: &impl Files, name: &str, buffer: &mut [u8]) -> usize
    ensures { (result ≤ length buffer.new) × (result ≡ length (take result buffer.new)) }
{
    match fs::open(files, name) {
        Ok(mut file) => read_full(&mut file, buffer),
        Err(_) => 0,
    }
}

// Reads until the buffer is full, the file ends or a read fails.
fn read_full<F: Read>(file: &mut F, buffer: &mut [u8]) -> usize
    ensures { result ≤ length buffer.new }
{
    let mut done = 0;
    while done < buffer.len() {
        let n = read_part(file, &mut buffer[done..]);
        if n == 0 {
            break;
        }
        done += n;
    }
    done
}

// One read: how many bytes it gave, 0 where it fails.
fn read_part<F: Read>(file: &mut F, part: &mut [u8]) -> usize
    ensures { result ≤ length part.new }
{
    match file.read(part) {
        Ok(n) => n,
        Err(_) => 0,
    }
}

// One byte more than the longest book, so that a longer one is told.
pub(crate) fn book_buffer() -> [u8; 65537]
    ensures { 65537 ≡ length result }
{
    [0; 65537]
}

// One byte more than the longest memory.
pub(crate) fn memory_buffer() -> [u8; 4097]
    ensures { 4097 ≡ length result }
{
    [0; 4097]
}

// Long enough for the lines of any book and memory.
pub(crate) fn line_buffer() -> [u8; 589824]
    ensures { 589824 ≡ length result }
{
    [0; 589824]
}
