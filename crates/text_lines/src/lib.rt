// The lines that the programs print, put together from numbers and bytes. Each stands at the head of the text.
// (Numbers by their places: the ten numbers of an answer are printed as the entry for C gives them.)
#![tactic(auto)]

ghost use Rattle.std.specs.Prelude.{◌≡◌, ◌+◌, ◌*◌, ◌<◌, ◌≤◌, length};
ghost use Rattle.text.specs.Written.{Written};
ghost use Rattle.text_lines.specs.Lines.{refused_line, checked_line, behind, numbers_line, lowered_lines, answer_lines, replayed_line};
ghost use Rattle.bytes_emit.specs.Written.{value_room};
ghost use Rattle.text_lines.specs.Lines.{number_width, lowered_width, checked_width, replayed_width, numbers_room, bytes_room};

// No line of the checker is longer.
pub const LONGEST_CHECKED: usize = 50;

// And none of the replay.
pub const LONGEST_REPLAYED: usize = 69;

// Where the ten numbers of an answer stand.
const NUMBER: usize = 0;

const OFFSET: usize = 1;

const RESULT: usize = 2;

const SIZE: usize = 9;

// `refused`, the number and the offset of a refusal.
fn refused_line(text: &mut [u8], number: u64, offset: u64) -> usize
    ensures written { Written (refused_line number offset) 0 text.old text.new result }
    ensures upper_bound { result ≤ checked_width }
{
    let word = text::put_bytes(text, 0, b"refused ");
    let first = text::put_decimal(text, word, number);
    let blank = text::put_bytes(text, first, b" ");
    let second = text::put_decimal(text, blank, offset);
    text::put_bytes(text, second, b"\n")
}

// `accepted` where a refusal's number is 0, or else the refusal.
pub fn checked_line(text: &mut [u8], number: u64, offset: u64) -> usize
    ensures written { Written (checked_line number offset) 0 text.old text.new result }
    ensures upper_bound { result ≤ checked_width }
{
    if number == 0 {
        return text::put_bytes(text, 0, b"accepted\n");
    }
    refused_line(text, number, offset)
}

// What stands behind a number of a line when so many more follow.
fn put_behind(text: &mut [u8], to: usize, more: usize) -> usize
    requires { to < value_room }
    ensures { Written (behind more) to text.old text.new result }
{
    if more == 0 {
        return text::put_bytes(text, to, b"\n");
    }
    text::put_bytes(text, to, b" ")
}

// Numbers in decimal with single blanks.
pub fn numbers_line(text: &mut [u8], numbers: &[u64]) -> usize
    requires { length numbers.now < numbers_room }
    ensures written { Written (numbers_line numbers.now) 0 text.old text.new result }
    ensures upper_bound { result ≤ number_width * length numbers.now }
{
    let mut at = 0;
    for (i, x) in numbers.iter().enumerate() {
        let end = text::put_decimal(text, at, *x);
        at = put_behind(text, end, numbers.len() - (i + 1));
    }
    at
}

// A line of numbers, and a line of bytes in hexadecimal.
fn lowered_lines(text: &mut [u8], numbers: &[u64], bytes: &[u8]) -> usize
    requires few { length numbers.now < numbers_room }
    requires short { length bytes.now < bytes_room }
    ensures written { Written (lowered_lines numbers.now bytes.now) 0 text.old text.new result }
    ensures upper_bound { result ≤ number_width * length numbers.now + 2 * length bytes.now + 1 }
{
    let line = numbers_line(text, numbers);
    let end = text::put_hexadecimal(text, line, bytes);
    text::put_bytes(text, end, b"\n")
}

// An answer of the pass: the refusal, or the numbers from the result to the shelf reason and the rewritten routine.
pub fn answer_lines(text: &mut [u8], numbers: &[u64], output: &[u8]) -> usize
    requires all { 10 ≤ length numbers.now }
    requires short { length output.now < bytes_room }
    ensures written { Written (answer_lines numbers.now output.now) 0 text.old text.new result }
    ensures upper_bound { result ≤ lowered_width + 2 * length output.now }
{
    if numbers[NUMBER] != 0 {
        return refused_line(text, numbers[NUMBER], numbers[OFFSET]);
    }
    let size = (numbers[SIZE] as usize).min(output.len());
    lowered_lines(text, &numbers[RESULT..SIZE], &output[..size])
}

// How many stored answers were replayed, and how many of them otherwise.
pub fn replayed_line(text: &mut [u8], rows: u64, others: u64) -> usize
    ensures written { Written (replayed_line rows others) 0 text.old text.new result }
    ensures upper_bound { result ≤ replayed_width }
{
    let first = text::put_decimal(text, 0, rows);
    let words = text::put_bytes(text, first, b" stored answers, ");
    let second = text::put_decimal(text, words, others);
    text::put_bytes(text, second, b" otherwise\n")
}
