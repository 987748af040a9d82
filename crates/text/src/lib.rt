// Numbers and bytes as text. As the writers of bytes_emit, none asks for room: what is past the end is counted and not stored.
// (No Display: no writer here can fail, as `write!` can, and what is printed is defined in specs/Digits. The bounds of places and lengths
// are those of bytes_emit, and halve likewise.)
#![tactic(auto)]

ghost use Rattle.std.specs.Prelude.{◌≡◌, [], ◌∷◌, ◌+◌, ◌<◌, ◌≤◌, length};
ghost use Rattle.std.proofs.lemmas.List.Edits.{sets};
ghost use Rattle.text.specs.Digits.{digit_of, decimal, hexadecimal};
ghost use Rattle.text.specs.Written.{Written};
ghost use Rattle.bytes_emit.specs.Written.{number_room, value_room};

const DIGITS: [u8; 16] = *b"0123456789abcdef";

// A digit below 16. (`char::from_digit` would be no plainer: it answers an `Option<char>`, of which a byte is still to be made.)
#[tactic(auto, unfolding(crate::specs::Digits::digit_of))]
fn digit(d: u8) -> u8
    requires { d < 16 }
    ensures { result ≡ digit_of d }
{
    DIGITS[d as usize]
}

// Writes bytes as they are, and returns the place behind them. (Beside `copy` of bytes_emit for its promise:
// `Written` is a record, whose laws find their arguments by themselves; those of `Writes`, an abbreviation, would have to be given them.)
pub fn put_bytes(text: &mut [u8], to: usize, bytes: &[u8]) -> usize
    requires room { to < value_room }
    requires short { length bytes.now < value_room }
    ensures { Written bytes.now to text.old text.new result }
{
    bytes_emit::copy(text, to, bytes)
}

// Writes a number in decimal, and returns the place behind it.
pub fn put_decimal(text: &mut [u8], to: usize, x: u64) -> usize
    requires { to < value_room }
    ensures written { Written (decimal x) to text.old text.new result }
    ensures upper_bound { result ≤ to + 20 }
{
    if x < 10 {
        bytes_emit::put_u8(text, to, digit(x as u8));
        return to + 1;
    }
    let at = put_decimal(text, to, x / 10);
    bytes_emit::put_u8(text, at, digit((x % 10) as u8));
    at + 1
}

// Writes a byte in hexadecimal.
fn put_byte(text: &mut [u8], to: usize, x: u8)
    requires { to < number_room }
    ensures { text.new ≡ sets text.old to (hexadecimal (x ∷ [])) }
{
    bytes_emit::put_u8(text, to, digit(x / 16));
    bytes_emit::put_u8(text, to + 1, digit(x % 16));
}

// Writes bytes in hexadecimal, and returns the place behind them.
pub fn put_hexadecimal(text: &mut [u8], to: usize, bytes: &[u8]) -> usize
    requires room { to < value_room }
    requires short { length bytes.now < value_room }
    ensures { Written (hexadecimal bytes.now) to text.old text.new result }
{
    let mut at = to;
    for b in bytes {
        put_byte(text, at, *b);
        at += 2;
    }
    at
}
