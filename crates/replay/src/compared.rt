// What a row tells, and whether an answer is that.

// What an output is filled with before the call.
pub const FILL: u8 = 165;

// How many numbers an answer has.
const NUMBERS: usize = 10;

// The ten numbers of an answer are those that stand at the head of `told`; where the answer has fewer, the others are 0.
pub fn same_numbers(answer: &[u64], told: &[u8]) -> bool {
    (0..NUMBERS).all(|i| table::at(answer, i, 0) == bytes_wire::u32_at(told, 4 * i) as u64)
}

// The output has these bytes, and what it was filled with behind them.
pub fn same_bytes(out: &[u8], bytes: &[u8]) -> bool {
    let n = bytes.len().min(out.len());
    let (head, rest) = out.split_at(n);
    head == &bytes[..n] && rest.iter().all(|b| *b == FILL)
}
