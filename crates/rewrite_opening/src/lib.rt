// The head of the output, where there is room for all of the output.
#![tactic(auto)]

ghost use Rattle.std.specs.Prelude.{◌≡◌};
ghost use Rattle.rewrite_head.specs.Head.{head_bytes, widened};
ghost use Rattle.rewrite_opening.specs.Opens.{Opens, Opening};

use bytes_index::Code;
use rewrite_head::RecordedTypes;

// Writes the head where there is room for it and for `size` bytes behind it; `fresh` begins with the types of the `many` fresh
// numbers. Returns the place behind the head; else nothing is written. What is put where no place is, is measured.
pub fn put_opening(
    code: Code,
    fresh: &[u16],
    many: u32,
    size: usize,
    out: &mut [u8],
) -> Option<usize>
    requires { Opens code fresh.now many size }
    ensures { (h : Opens code.entry fresh.now many size)
        → Opening (head_bytes (widened h.routine h.types)) size out.old out.new result }
{
    let at = table::place(code.facts, code.bounds.types as usize);
    let recorded = RecordedTypes {
        old: bytes_index::recorded(code.facts),
        next: code.bounds.next,
        fresh,
        many,
    };
    let head = rewrite_head::put_head(&mut [], code.bytes, at, recorded);
    if out.len() < head + size {
        return None;
    }
    Some(rewrite_head::put_head(out, code.bytes, at, recorded))
}
