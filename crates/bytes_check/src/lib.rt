// The entry that tells whether bytes are a routine.
// (A number and a lent offset: poelvigu_check, the entry for C, hands on to it.)
#![tactic(auto)]

ghost use Rattle.std.specs.Prelude.{◌≡◌};
ghost use Rattle.bytes_sections.specs.Decode.{mosts, whole_of};
ghost use Rattle.bytes_sections.specs.Index.{answered, verdict};

// Whether a byte string is a routine: 0 and offset 0, or the one number and offset of its refusal.
pub fn check(input: &[u8], offset: &mut u64) -> u8
    ensures { answered result offset.new ≡ verdict (whole_of mosts input.now) }
{
    let mut facts: [u16; bytes_index::SIZE] = [0; bytes_index::SIZE];
    match bytes_read::read_routine(input, &mut facts) {
        Ok(_) => {
            *offset = 0;
            0
        }
        Err(e) => {
            *offset = e.offset as u64;
            bytes_wire::cause_number(e.cause)
        }
    }
}
