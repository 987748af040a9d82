// The input of the programs.
#![tactic(auto)]

ghost use Rattle.std.specs.Prelude.{◌≡◌, ◌≤◌, IfOk, IfSome, length, take};

use std::alloc::Global;
use std::io;
use std::io::Read;

// The first bytes of a reader: `most` of them, or all that it has.
pub fn first_bytes<R: Read + Drop>(reader: R, most: usize, alloc: Global) -> io::Result<Vec<u8>>
    ensures bytes { IfOk result (λ v. IfSome (R.remaining reader) (λ xs. v.items ≡ take most xs)) }
    ensures bound { IfOk result (λ v. length v.items ≤ most) }
{
    let mut bytes = Vec::new(alloc);
    reader.take(most as u64).read_to_end(&mut bytes)?;
    bytes.truncate(most);
    Ok(bytes)
}
