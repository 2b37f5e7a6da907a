// Numbers from standard input, eight bytes each with the least first. Past the end of the input every number is 0.

ghost use Rattle.std.specs.Prelude.{◌≤◌, length};

use std::io::Read;

// A number that eight bytes stand for.
pub trait FromBytes {
    fn from_bytes(bytes: [u8; 8]) -> Self;
}

impl FromBytes for u64 {
    fn from_bytes(bytes: [u8; 8]) -> u64 {
        u64::from_le_bytes(bytes)
    }
}

impl FromBytes for usize {
    fn from_bytes(bytes: [u8; 8]) -> usize {
        usize::from_le_bytes(bytes)
    }
}

// A number from 2^63 on stands for itself less 2^64.
impl FromBytes for i64 {
    fn from_bytes(bytes: [u8; 8]) -> i64 {
        i64::from_le_bytes(bytes)
    }
}

// Reads until the row is full, the input ends or a read fails: what was read is in the first places, and the others stay as they were.
fn fill<R: Read>(input: &mut R, row: &mut [u8]) {
    let _ = input.read_exact(row);
}

pub fn number<R: Read, N: FromBytes>(input: &mut R) -> N {
    let mut bytes = [0; 8];
    fill(input, &mut bytes);
    N::from_bytes(bytes)
}

// The next number, and `most` for a larger one.
pub fn at_most<R: Read>(input: &mut R, most: usize) -> usize
    ensures { result ≤ most }
{
    number::<R, usize>(input).min(most)
}

// As many first places of `space` as the next number says.
pub fn front<'a, R: Read, N>(input: &mut R, space: &'a mut [N]) -> &'a mut [N]
    ensures { length result.now ≤ length space.old }
{
    let count = at_most(input, space.len());
    &mut space[..count]
}

// A count and as many numbers, which come into the first places of `space`.
pub fn numbers<'a, R: Read, N: Copy + FromBytes>(input: &mut R, space: &'a mut [N]) -> &'a [N]
    ensures { length result.now ≤ length space.old }
{
    let row = front(input, space);
    for place in &mut *row {
        *place = number(input);
    }
    row
}

// A count and as many bytes, likewise.
pub fn bytes<'a, R: Read>(input: &mut R, space: &'a mut [u8]) -> &'a [u8]
    ensures { length result.now ≤ length space.old }
{
    let row = front(input, space);
    fill(input, row);
    row
}
