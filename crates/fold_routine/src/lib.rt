// The choice: which builds are folded and which blocks are skipped.
#![tactic(auto)]

ghost use Rattle.std.specs.Prelude.{◌≡◌, false, ◌≤◌, replicate};
ghost use Rattle.mir.specs.Routine.{Routine};
ghost use Rattle.mir.specs.Most.{most_values};
ghost use Rattle.fold.specs.Tables.{ShapesAt};
ghost use Rattle.mir.specs.Lookup.{types_in};
ghost use Rattle.fold_routine.specs.Folds.{Chooses};

use bytes_index::Code;
use fold::Settings;
use fold_scan::ValueFacts;
use mir::most;

// Chooses by the aggregates that are used across blocks; `marks` has a place for each value, and none stands.
fn choose_crossed(
    code: Code,
    settings: Settings,
    shapes: &[u8],
    eligible: &[bool],
    marks: &mut [bool],
    choice: &mut [bool],
)
    ensures { (r : Routine) → ShapesAt settings (types_in r) shapes.now eligible.now
        → marks.old ≡ replicate code.entry.bounds.next false
        → Chooses code.entry settings choice.old choice.new r }
{
    fold_cross::cross_marks(code, shapes, eligible, marks);
    let values = ValueFacts {
        shapes,
        eligible,
        cross: marks,
    };
    fold_choose::choose(code, settings, values, choice);
}

// Which builds are folded and which blocks are skipped.
pub fn choose_folds(code: Code, settings: Settings, choice: &mut [bool])
    requires { code.bounds.next ≤ most_values }
    ensures { (r : Routine) → Chooses code.entry settings choice.old choice.new r }
{
    let mut shapes: [u8; most::VALUES] = [0; most::VALUES];
    let mut eligible: [bool; most::VALUES] = [false; most::VALUES];
    fold_shapes::value_shapes(code.typing(), settings, &mut shapes, &mut eligible);
    let mut marks: [bool; most::VALUES] = [false; most::VALUES];
    let n = code.bounds.next as usize;
    choose_crossed(code, settings, &shapes, &eligible, &mut marks[..n], choice);
}
