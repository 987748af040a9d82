// What the program `lower` prints of bytes.
#![tactic(auto)]

ghost use Rattle.std.specs.Prelude.{◌≤◌};
ghost use Rattle.shelf.specs.Answer.{answer};
ghost use Rattle.text.specs.Written.{Written};
ghost use Rattle.fold.specs.Scalarizable.{defaults};
ghost use Rattle.pass_text.specs.Text.{text_of, lent_bytes, longest_text};

// How much is lent for the output, and how long a text can be: two digits for each byte of it, and what stands before them.
const LENT: usize = 65536;

pub const LONGEST: usize = 131328;

// The usual settings: tuples and structs are on. (Numbers, as the entry for C takes them, where a flag is on when it is not 0.)
const ON: u64 = 1;

const MOST: u64 = 8;

// Writes what is to be printed of some bytes, and returns its length. (By the entry for C and its ten numbers: what is printed is what C
// is told.)
pub fn lower_text(s: &[u8], text: &mut [u8]) -> usize
    ensures written { Written (text_of (answer defaults lent_bytes s.now)) 0 text.old text.new result }
    ensures upper_bound { result ≤ longest_text }
{
    let mut output = [0u8; LENT];
    let mut numbers: [u64; 10] = [0; 10];
    pass::lower(s, &mut output, ON, ON, MOST, &mut numbers);
    text_lines::answer_lines(text, &numbers, &output)
}
