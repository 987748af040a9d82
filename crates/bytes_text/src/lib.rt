// What the checker prints of bytes.
#![tactic(auto)]

ghost use Rattle.std.specs.Prelude.{◌≤◌};
ghost use Rattle.bytes_sections.specs.Decode.{mosts, whole_of};
ghost use Rattle.text.specs.Written.{Written};
ghost use Rattle.text_lines.specs.Lines.{checked_width};
ghost use Rattle.bytes_text.specs.Text.{text_of};

// No text is longer.
pub const LONGEST: usize = text_lines::LONGEST_CHECKED;

// Writes what is to be printed of some bytes, and returns its length. (By the entry and its two numbers: what is printed is what C is told.)
pub fn check_text(s: &[u8], text: &mut [u8]) -> usize
    ensures written { Written (text_of (whole_of mosts s.now)) 0 text.old text.new result }
    ensures upper_bound { result ≤ checked_width }
{
    let mut offset: u64 = 0;
    let number = bytes_check::check(s, &mut offset);
    text_lines::checked_line(text, number as u64, offset)
}
