// Call, Phi and Debug; `t` are the own fields of an instruction.
#![tactic(auto)]

ghost use Rattle.bytes_field.specs.Decode.{call_of, phi_of, debug_of};
ghost use Rattle.shelf_field.specs.Asked.{Judged};
ghost use Rattle.shelf_call.specs.Shown.{JudgedByAny};

use bytes_field::ID;
use bytes_index::Typing;
use rewrite_parts::Listed;

// Where the count of a Call's dests stands.
const DESTS: usize = 0;

// Where a Phi's dest, its type and the count of its sources stand.
const DEST: usize = 0;

const TYPE: usize = 2;

const SOURCES: usize = 4;

// Where the count of a Debug's values stands, behind its message.
const SHOWN: usize = bytes_field::WORD;

// A Call has as many arguments as parameter types, each of its type, and its dests have the return types. (`rewrite_before::call_list` tells
// where the arguments stand too, as two numbers beside what is asked of them; here they and the dests are lists: one sum is the same.)
pub fn call(typing: Typing, t: &[u8]) -> bool
    ensures { Judged call_of typing.entry t.now result }
{
    let dests = Listed::behind(t, DESTS);
    let callee = dests.at + ID * dests.count as usize;
    let arguments = Listed::behind(t, callee + ID);
    let e = bytes_operands::values_end(t, arguments.at, 0, 0, arguments.count);
    if bytes_wire::byte_at(t, e) != arguments.count {
        return false;
    }
    let given = shelf_list::arguments_fit(typing, arguments, e + 1);
    let back = e + 1 + ID * arguments.count as usize + 1;
    let had = shelf_list::dests_fit(typing, dests, back);
    given & had
}

// A Phi: the dest and each source have the type that is named.
pub fn phi(typing: Typing, t: &[u8]) -> bool
    ensures { Judged phi_of typing.entry t.now result }
{
    let y = shelf_field::type_at(t, typing.code.bounds, TYPE);
    let dest = shelf_field::id_has(typing, t, DEST, y);
    let sources = shelf_list::sources_fit(typing, Listed::behind(t, SOURCES), y);
    dest & sources
}

// Each value of a Debug has a recorded type or is a literal.
pub fn debug(typing: Typing, t: &[u8]) -> bool
    ensures { JudgedByAny debug_of typing.entry t.now result }
{
    let shown = Listed::behind(t, SHOWN);
    shelf_list::all_known(typing, shown)
}
