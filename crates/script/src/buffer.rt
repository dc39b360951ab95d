// The film file of a script: the first bytes of a buffer that operations write. What an operation would write past the
// buffer's end is left out.
ghost use Rattle.std.specs.Prelude.{◌≡◌, take};

use crate::operands::Operation;

// bytes of the buffer: the largest legal film file and one byte more
pub const BUFFER: usize = 1048839;

// opcodes: numbers, as they stand in a script, and each program adds its own
const LEN: u8 = 1;

const POKE: u8 = 2;

const FILL: u8 = 3;

const PUT: u8 = 4;

const COPY: u8 = 9;

// The first elements of a list: as many as a script asks for, and at most all.
pub fn prefix<T>(list: &[T], length: usize) -> &[T]
    ensures { result.now ≡ take length list.now }
{
    &list[..length.min(list.len())]
}

fn poke(bytes: &mut [u8], position: usize, value: u8) {
    if position < bytes.len() {
        bytes[position] = value;
    }
}

fn fill(bytes: &mut [u8], from: usize, to: usize, value: u8) {
    let end = to.min(bytes.len());
    if from < end {
        bytes[from..end].fill(value);
    }
}

fn put(bytes: &mut [u8], position: usize, operation: Operation<'_>) {
    let count = usize::from(operation.u16(5));
    for (i, byte) in bytes.iter_mut().skip(position).take(count).enumerate() {
        *byte = operation.u8(7 + i);
    }
}

// Byte after byte in rising order, so that an overlapping copy repeats: `copy_within` would not.
fn copy(bytes: &mut [u8], from: usize, to: usize, count: usize) {
    let room = bytes.len().saturating_sub(from.max(to));
    for i in 0..count.min(room) {
        bytes[to + i] = bytes[from + i];
    }
}

// A script's film file: the first `length` bytes of the buffer.
#[derive(Drop)]
pub struct FilmBuffer<'a> {
    pub bytes: &'a mut [u8],
    pub length: usize,
}

impl FilmBuffer<'_> {
    // The film file, which has at most all bytes of the buffer.
    pub fn file(&self) -> &[u8]
        ensures { result.now ≡ take self.now.length self.now.bytes.now }
    {
        prefix(&*self.bytes, self.length)
    }

    // Carries out an operation if it is one of the buffer's.
    pub fn carry_out(&mut self, operation: Operation<'_>) {
        let first = operation.u32(1) as usize;
        let second = operation.u32(5) as usize;
        let bytes = &mut *self.bytes;
        match operation.opcode() {
            LEN => self.length = first,
            POKE => poke(bytes, first, operation.u8(5)),
            FILL => fill(bytes, first, second, operation.u8(9)),
            PUT => put(bytes, first, operation),
            COPY => copy(bytes, first, second, operation.u32(9) as usize),
            _ => {}
        }
    }
}

// Bytes of the operands of an operation, 0 where it is none of the buffer's.
pub fn operands(operation: Operation<'_>) -> usize {
    match operation.opcode() {
        LEN => 4,
        POKE => 5,
        FILL => 9,
        PUT => 6 + usize::from(operation.u16(5)),
        COPY => 12,
        _ => 0,
    }
}
