// The lines that a walk prints: a head, a line for each record of the tape, or the number of a refusal.
#![tactic(auto)]

ghost use Rattle.std.specs.Prelude.{Some};
ghost use Rattle.print_figures.specs.Puts.{Puts, Printed};
ghost use Rattle.print_lines.specs.Lines.{records_at, lines_of, head_line, walk_lines, refused_line};

use print_figures::put::{finish, put_bytes};
use print_record_line::{counted, line};
use tape::cursor::Cursor;

// The head: the root's name and the memory's length.
fn head(book: &[u8], root: u32, memory: usize, out: &mut [u8]) -> Option<usize>
    ensures { Puts (head_line book.now root memory) out.old (Some 0) result out.new }
{
    let a = put_bytes(Some(0), b"walk ", out);
    let b = put_bytes(a, type_book::block::name(book, root), out);
    counted(b, b" ", memory as u64, out)
}

// The lines of the first `records` records of the tape, or of as many as it has.
fn record_lines<'a>(
    p: Option<usize>,
    book: &'a [u8],
    tape: &[u8],
    records: usize,
    text: &'a [u8],
    out: &mut [u8],
) -> Option<usize>
    ensures { Puts (lines_of book.now text.now (records_at tape.now records 0)) out.old p result out.new }
{
    let mut next = p;
    let mut cursor = Cursor::new();
    for _ in 0..records {
        let Some((r, after)) = cursor.next(tape) else {
            return next;
        };
        next = line(next, book, text, r, out);
        cursor = after;
    }
    next
}

// The lines of a read: the root's name and the memory's length, then the first `records` records of the tape. They stand
// from the start of `out` on; where they do not fit, `out` is all zeros.
pub fn walk_lines<'a>(
    book: &'a [u8],
    root: u32,
    memory: usize,
    tape: &[u8],
    records: usize,
    text: &'a [u8],
    out: &mut [u8],
) -> Option<usize>
    ensures { Printed (walk_lines book.now root memory tape.now records text.now) out.old result out.new }
{
    let p = head(book, root, memory, out);
    let q = record_lines(p, book, tape, records, text, out);
    finish(q, out)
}

// The line of a refusal, from the start of `out` on; where it does not fit, `out` is all zeros.
pub fn refused_line(number: u8, out: &mut [u8]) -> Option<usize>
    ensures { Printed (refused_line number) out.old result out.new }
{
    let p = counted(Some(0), b"refused ", number as u64, out);
    finish(p, out)
}
