// The entries for a host in C or Rust: the archive that `rt lib` makes here has these and no others. Each hands on to
// the function that keeps its promise.
#![tactic(auto)]

ghost use Rattle.std.specs.Prelude.{◌≡◌};
ghost use Rattle.bytes_sections.specs.Decode.{mosts, whole_of};
ghost use Rattle.bytes_sections.specs.Index.{answered, verdict};
ghost use Rattle.rewrite.specs.Outcome.{settings_of};
ghost use Rattle.pass_numbers.specs.Choices.{settings_by};
ghost use Rattle.pass.specs.Promise.{Lowers, LowersWith};

// Whether a byte string is a routine.
#[unsafe(no_mangle)]
pub extern "C" fn poelvigu_check(input: &[u8], offset: &mut u64) -> u8
    ensures { answered result offset.new ≡ verdict (whole_of mosts input.now) }
{
    bytes_check::check(input, offset)
}

// Rewrites a routine.
#[unsafe(no_mangle)]
pub extern "C" fn poelvigu_lower(
    input: &[u8],
    output: &mut [u8],
    tuples: u64,
    structs: u64,
    most: u64,
    answer: &mut [u64],
)
    ensures { Lowers (settings_of tuples structs most)
        input.now output.old output.new answer.old answer.new }
{
    pass::lower(input, output, tuples, structs, most, answer);
}

// Rewrites a routine under choices by place: tuples, structs, most, edition.
#[unsafe(no_mangle)]
pub extern "C" fn poelvigu_lower_with(
    input: &[u8],
    output: &mut [u8],
    page: &mut [u8],
    choices: &[u64],
    answer: &mut [u64],
)
    ensures { LowersWith (settings_by choices.now)
        input.now output.old output.new page.old page.new answer.old answer.new }
{
    pass::lower_with(input, output, page, choices, answer);
}
