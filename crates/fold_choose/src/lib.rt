// Which builds are folded, and which blocks are skipped: flags by slot, and behind them by block.
// (Routine and settings are no struct: of what other crates are asked here `fill_structs` alone takes both, so that each other call would
// take the struct apart; graph and choice are lent to be changed.)
#![tactic(auto)]

ghost use Rattle.std.specs.Prelude.{◌≡◌, false, length};
ghost use Rattle.fold_choose.specs.Chosen.{NoneBuilds, AllBuildless, Answers, Flagged};
ghost use Rattle.fold_choose.specs.Chosen.{DecidesAll, FillsGraph, DecidesBlock, ChoosesBlock, Chooses};

use bytes_index::{Code, Slots};
use fold::Settings;
use fold_climb::View;
use fold_scan::ValueFacts;
use mir::kind::Kind;
use mir::{BlockId, most};
use rewrite_progress::SKIPS;

// Whether a slot of those from one to another holds a build; only the answer that none does says something.
fn any_build(facts: &[u16], from: u16, to: u16) -> bool
    ensures { result ≡ false → NoneBuilds facts.now from to }
{
    fold_looked::any_kind(facts, from, to, Kind::is_build)
}

// Whether an instruction of any block is a build; the answer that one is stays free likewise.
pub fn any_builds(code: Code) -> bool
    ensures { result ≡ false → AllBuildless code.entry.facts.now code.entry.bounds.blocks }
{
    let end = bytes_index::first_slot(code.facts, BlockId(code.bounds.blocks));
    any_build(code.facts, 0, end)
}

// Whether the build in a slot is folded, where `looked` says of an array whether it is looked into by an index that is not known.
fn decide_one(code: Code, settings: Settings, slot: u16, view: View, looked: bool) -> bool
    ensures { Answers settings view.entry.shapes.now view.entry.graph.now looked code.entry slot result }
{
    let Some(kind) = bytes_index::instruction_kind(code.facts, slot) else {
        return false;
    };
    if !kind.is_build() {
        return false;
    }
    let v = fold_scan::dest(code, slot);
    fold_climb::folds(v, kind as u16, looked, settings, view)
}

// Gives each instruction of a block a flag, at its slot: whether it is a build that is folded.
fn decide_all(
    code: Code,
    settings: Settings,
    slots: Slots,
    view: View,
    looked: &[bool],
    choice: &mut [bool],
)
    ensures flagged { Flagged slots.first choice.old choice.new }
    ensures decides_all { DecidesAll settings view.entry.shapes.now view.entry.graph.now looked.now code.entry slots
        choice.old choice.new }
{
    for j in 0..slots.count {
        let slot = slots.first + j;
        let given = table::flag(looked, j as usize);
        let yes = decide_one(code, settings, slot, view, given);
        table::put(choice, slot as usize, yes);
    }
}

// Fills the graph of a block: finds first which of its MakeStructs pass their conditions.
fn fill_graph(code: Code, settings: Settings, slots: Slots, values: ValueFacts, graph: &mut [u16])
    ensures { FillsGraph settings values.entry code.entry slots graph.old graph.new }
{
    let mut marks: [bool; most::INSTRUCTIONS] = [false; most::INSTRUCTIONS];
    fold_structs::fill_structs(code, slots, settings, values.cross, &mut marks);
    fold_scan::scan_block(code, slots, values, &marks, graph);
}

// Decides the builds of a block that is not skipped: fills its graph first.
fn choose_block(
    code: Code,
    settings: Settings,
    slots: Slots,
    values: ValueFacts,
    graph: &mut [u16],
    choice: &mut [bool],
)
    ensures flagged { Flagged slots.first choice.old choice.new }
    ensures decides_block { DecidesBlock settings values.entry (length graph.old) code.entry slots
        choice.old choice.new }
{
    if !any_build(code.facts, slots.first, slots.end()) {
        return;
    }
    fill_graph(code, settings, slots, values, graph);
    let mut looked: [bool; most::INSTRUCTIONS] = [false; most::INSTRUCTIONS];
    fold_looked::fill_looked(code, slots, values.shapes, &mut looked);
    let view = View {
        graph,
        shapes: values.shapes,
    };
    decide_all(code, settings, slots, view, &looked, choice);
}

// Block `k`: whether it is skipped, and where it is not, which of its builds are folded.
fn choose_one(
    code: Code,
    settings: Settings,
    k: BlockId,
    values: ValueFacts,
    graph: &mut [u16],
    choice: &mut [bool],
)
    ensures { ChoosesBlock settings values.entry (length graph.old) code.entry k.0
        choice.old choice.new }
{
    let slots = bytes_index::block_slots(code.facts, k);
    let skip = fold_phis::is_skipped(code, slots, values.shapes);
    table::put(choice, SKIPS + k.0 as usize, skip);
    if skip {
        return;
    }
    choose_block(code, settings, slots, values, graph, choice);
}

// All blocks: each build is given, at its slot, whether it is folded, and each block, from `SKIPS` on, whether it is skipped.
pub fn choose(code: Code, settings: Settings, values: ValueFacts, choice: &mut [bool])
    ensures { Chooses settings values.entry code.entry choice.old choice.new }
{
    let mut graph: [u16; fold_climb::SIZE] = [0; fold_climb::SIZE];
    for k in 0..code.bounds.blocks {
        choose_one(code, settings, BlockId(k), values, &mut graph, choice);
    }
}
