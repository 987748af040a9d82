// The phis of a block: whether it is skipped because of one, and how many stand in front.
#![tactic(auto)]

ghost use Rattle.std.specs.Prelude.{◌≡◌, ◌≤◌};
ghost use Rattle.fold_phis.specs.Skipped.{phi_in, tells_phi, Skips, PhisIn};

use bytes_index::{Code, Slots};
use mir::kind::Kind;
use mir::shape::Shape;

// Whether the instruction in a slot is a phi.
fn is_phi(facts: &[u16], slot: u16) -> bool
    ensures { result ≡ phi_in facts.now slot }
{
    bytes_index::instruction_kind(facts, slot) == Some(Kind::Phi)
}

// Whether it is a phi of a tuple or struct, by the recorded type of its dest.
fn aggregate_phi(code: Code, slot: u16, shapes: &[u8]) -> bool
    ensures { result ≡ tells_phi code.entry shapes.now slot }
{
    if !is_phi(code.facts, slot) {
        return false;
    }
    let d = fold_scan::dest(code, slot);
    let shape = bytes_wire::byte_at(shapes, d.0 as usize);
    shape == Shape::Tuple as u8 || shape == Shape::Struct as u8
}

// Whether a block is skipped: one of its phis is a tuple or struct.
pub fn is_skipped(code: Code, slots: Slots, shapes: &[u8]) -> bool
    ensures { Skips code.entry slots shapes.now result }
{
    (slots.first..slots.end()).any(|slot| aggregate_phi(code, slot, shapes))
}

// How many phis stand in front of a block's instructions. (The shelf test asks for it; a family is found
// without a number of sweeps.)
pub fn phi_count(facts: &[u16], slots: Slots) -> u16
    ensures few { result ≤ slots.count }
    ensures counted { PhisIn facts.now slots result }
{
    let phis = (slots.first..slots.end()).take_while(|slot| is_phi(facts, *slot));
    phis.count() as u16
}
