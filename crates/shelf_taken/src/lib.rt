// Which marked values an instruction takes as parts: what shelf reason 3 asks of one instruction.
#![tactic(auto)]

ghost use Rattle.std.specs.Prelude.{◌≡◌};
ghost use Rattle.mir.specs.Option.{as_option};
ghost use Rattle.shelf.specs.Lists.{clear};
ghost use Rattle.shelf_marks.specs.Tests.{OfSlot, found_reads, parts_clear};

use bytes_index::Code;
use mir::Value;
use mir::kind::Kind;

// Which operand of a Store is its value, and of an insert the new one: places among the operands.
const STORED: u8 = 0;

const INSERTED: u8 = 1;

// Whether a value that was found is no marked operand.
fn value_clear(f: Option<Value>, marks: &[bool]) -> bool
    ensures { result ≡ clear marks.now (found_reads (as_option f)) }
{
    f.and_then(|x| x.operand())
        .is_none_or(|v| !table::flag(marks, v.0 as usize))
}

// Whether the instruction in a slot takes no marked value: as a part, an insert's new value, a Store's value.
pub fn parts_clear(code: Code, slot: u16, marks: &[bool]) -> bool
    ensures { OfSlot code.entry slot (λ τ. parts_clear marks.now) result }
{
    let b = code.bounds;
    let t = code.instruction(slot);
    let Some(kind) = bytes_index::instruction_kind(code.facts, slot) else {
        return true;
    };
    match kind {
        Kind::Store => value_clear(bytes_operands::operand(t, b, STORED), marks),
        Kind::InsertField | Kind::InsertTuple => {
            value_clear(bytes_operands::operand(t, b, INSERTED), marks)
        }
        _ => !kind.is_build() || shelf_marks::reads_clear(code.facts, slot, marks),
    }
}
