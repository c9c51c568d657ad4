// What an operation answers, as bytes at the start of a buffer. Each `put` function writes at a place and returns the next.
// What does not fit is left out, and the answer then differs from the recorded one.
use cases_file::input::first;

// At most two numbers, each in as many bytes as its length says, low byte first. No bytes where there is nothing to say.
#[derive(Clone, Copy, Default)]
pub struct Answered {
    pub head: u64,
    pub head_len: usize,
    pub value: u64,
    pub value_len: usize,
}

// A number alone.
pub(crate) fn number(value: u64, len: usize) -> Answered {
    Answered {
        value,
        value_len: len,
        ..Answered::default()
    }
}

// A byte alone.
pub(crate) fn byte(head: u8) -> Answered {
    number(head as u64, 1)
}

// A byte, and a number after it.
pub(crate) fn byte_and(head: u8, value: u64, len: usize) -> Answered {
    Answered {
        head: head as u64,
        head_len: 1,
        value,
        value_len: len,
    }
}

// Document 01's 7, with the block whose type name is not in the book.
pub(crate) fn not_found(block: u32) -> Answered {
    byte_and(7, block as u64, 4)
}

// Puts the numbers at the start of the answer.
pub(crate) fn put(answer: &mut [u8], reply: Answered) -> usize {
    let at = put_number(answer, 0, reply.head, reply.head_len);
    put_number(answer, at, reply.value, reply.value_len)
}

pub(crate) fn put_byte(answer: &mut [u8], at: usize, byte: u8) -> usize {
    let Some(place) = answer.get_mut(at) else {
        return at;
    };
    *place = byte;
    at + 1
}

pub(crate) fn put_bytes(answer: &mut [u8], at: usize, bytes: &[u8]) -> usize {
    let Some(room) = answer.get_mut(at..) else {
        return at;
    };
    let n = bytes.len().min(room.len());
    room[..n].copy_from_slice(&bytes[..n]);
    at + n
}

pub(crate) fn put_zeros(answer: &mut [u8], at: usize, n: usize) -> usize {
    let Some(room) = answer.get_mut(at..) else {
        return at;
    };
    let n = n.min(room.len());
    room[..n].fill(0);
    at + n
}

// The low bytes of a number, at most eight of them, low byte first.
pub(crate) fn put_number(answer: &mut [u8], at: usize, value: u64, len: usize) -> usize {
    let mut to = at;
    for byte in first(&value.to_le_bytes(), len) {
        to = put_byte(answer, to, *byte);
    }
    to
}

pub(crate) fn put_u32(answer: &mut [u8], at: usize, value: u32) -> usize {
    put_number(answer, at, value as u64, 4)
}
