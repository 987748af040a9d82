// The scan of a block, which fills the graph that the climb looks at.
#![tactic(auto)]

ghost use Rattle.std.specs.Prelude.{◌≡◌, ℕ, ◌<◌, get_or};
ghost use Rattle.mir.specs.Option.{as_option};
ghost use Rattle.mir.specs.Kind.{number_of_kind};
ghost use Rattle.mir.specs.Shape.{number_of_shape};
ghost use Rattle.fold_climb.specs.Scanned.{edges_from};
ghost use Rattle.fold_scan.specs.Noted.{dest_in, barring, pushed, noted_read, varies_found, passes_by};
ghost use Rattle.fold_scan.specs.Noted.{ReadsNoted, PlaceNoted, BuildNoted, ShapedNoted, OneScanned, BlockScanned};

use bytes_index::{Code, Slots};
use mir::kind::Kind;
use mir::shape::Shape;
use mir::{Projection, ValueId, most};

// What is known of all values: the shapes of their types, which types are eligible, which values are aggregates that are used
// across blocks. (Three lists by value and no list of structs: climb, phis and looked are lent the shapes alone, fold_structs the marks of
// `cross`; shapes by their numbers, as the laws of fold/specs read them.)
#[derive(Clone, Copy)]
pub struct ValueFacts<'a> {
    pub shapes: &'a [u8],
    pub eligible: &'a [bool],
    pub cross: &'a [bool],
}

// The value that the instruction in a slot defines, where that is its first field.
pub fn dest(code: Code, slot: u16) -> ValueId
    ensures { result.0 ≡ dest_in code.entry.bytes.now code.entry.facts.now slot }
{
    bytes_operands::dest(bytes_operands::own_fields(code.instruction(slot)))
}

// Notes that a value is wanted whole.
fn bar(graph: &mut [u16], v: ValueId)
    ensures { graph.new ≡ barring v.0 graph.old }
{
    let at = v.0 as usize;
    if at < most::VALUES {
        table::put(graph, fold_climb::BARRED + at, 1);
    }
}

// Notes that a value `w` is a part of a build `d` of a kind, while there is room for another edge.
fn push_edge(graph: &mut [u16], kind: Kind, d: ValueId, w: ValueId)
    ensures { graph.new ≡ pushed w.0 d.0 (number_of_kind kind) graph.old }
{
    let many = table::number(graph, 0);
    if many < fold_climb::MOST {
        let at = fold_climb::edge_place(many);
        table::put(graph, at, w.0);
        table::put(graph, at + fold_climb::PARENT, d.0);
        table::put(graph, at + fold_climb::KIND, kind as u16);
        table::put(graph, 0, many + 1);
    }
}

// Notes a value that an instruction reads: a Call wants it whole, to a build `d` of the kind it is a part, if not the build
// itself.
fn note_read(graph: &mut [u16], kind: Kind, d: ValueId, w: ValueId)
    ensures { graph.new ≡ noted_read (number_of_kind kind) d.0 graph.old w.0 }
{
    if kind == Kind::Call {
        bar(graph, w);
    } else if w != d {
        push_edge(graph, kind, d, w);
    }
}

// Notes all that the instruction in a slot reads, the last one first: `kind` and `d` are its kind and its dest.
fn note_reads(graph: &mut [u16], facts: &[u16], slot: u16, kind: Kind, d: ValueId)
    ensures { ReadsNoted facts.now slot (number_of_kind kind) d graph.old graph.new }
{
    for k in (0..bytes_index::read_count(facts, slot)).rev() {
        let w = bytes_index::read(facts, slot, k);
        note_read(graph, kind, d, w);
    }
}

// A first projection that is no Integer literal. (No `is_some_and`: its closure would hold this match but for the last arm.)
#[tactic(auto, unfolding(fold_climb::specs::Edges::varies_first))]
fn varies(p: Option<Projection>) -> bool
    ensures { result ≡ varies_found (as_option p) }
{
    match p {
        Some(Projection::Index(x)) => !x.is_integer(),
        Some(_) => true,
        None => false,
    }
}

// The base of a Load or Store, its first read, is wanted whole where the first projection varies.
fn note_place(code: Code, slot: u16, graph: &mut [u16])
    ensures { PlaceNoted code.entry slot graph.old graph.new }
{
    if varies(bytes_operands::projection(code.instruction(slot), code.bounds, 0)) {
        bar(graph, bytes_index::read(code.facts, slot, 0));
    }
}

// Conditions 1 to 3 of a tuple's or an array's build: the shape, an eligible type, no use in another block.
fn passes(d: ValueId, shape: Shape, values: ValueFacts) -> bool
    ensures { result ≡ passes_by values.entry d.0 (number_of_shape shape) }
{
    let at = d.0 as usize;
    bytes_wire::byte_at(values.shapes, at) == shape as u8
        && table::flag(values.eligible, at)
        && !table::flag(values.cross, at)
}

// Notes a build `d` of a kind, and whether it passes its conditions.
fn note_build(graph: &mut [u16], facts: &[u16], slot: u16, kind: Kind, d: ValueId, good: bool)
    ensures { BuildNoted facts.now slot (number_of_kind kind) d good graph.old graph.new }
{
    table::put(graph, fold_climb::BUILT + d.0 as usize, good as u16);
    note_reads(graph, facts, slot, kind, d);
}

// Notes the build in a slot, a tuple or an array: by its kind and the shape that its type has to have.
fn note_shaped(
    code: Code,
    slot: u16,
    kind: Kind,
    shape: Shape,
    values: ValueFacts,
    graph: &mut [u16],
)
    ensures { ShapedNoted code.entry slot (number_of_kind kind) (number_of_shape shape) values.entry graph.old graph.new }
{
    let d = dest(code, slot);
    note_build(graph, code.facts, slot, kind, d, passes(d, shape, values));
}

// Notes what the instruction in a slot adds to the graph; `pass`: a MakeStruct passes its conditions.
fn scan_one(code: Code, slot: u16, values: ValueFacts, pass: bool, graph: &mut [u16])
    ensures { OneScanned code.entry slot values.entry pass graph.old graph.new }
{
    let Some(kind) = bytes_index::instruction_kind(code.facts, slot) else {
        return;
    };
    match kind {
        Kind::Call => note_reads(graph, code.facts, slot, kind, ValueId(0)),
        Kind::Load | Kind::Store => note_place(code, slot, graph),
        Kind::MakeTuple => note_shaped(code, slot, kind, Shape::Tuple, values, graph),
        Kind::MakeStruct => note_build(graph, code.facts, slot, kind, dest(code, slot), pass),
        Kind::MakeFixedArray => note_shaped(code, slot, kind, Shape::FixedArray, values, graph),
        _ => {}
    }
}

// Clears all of the graph but its edges.
fn clear(graph: &mut [u16])
    ensures { (at : ℕ) → at < edges_from → get_or graph.new at 0 ≡ 0 }
{
    let end = graph.len().min(fold_climb::EDGES);
    graph[..end].fill(0);
}

// Fills the graph for a block, the last instruction first. `structs`: which MakeStructs pass their conditions, by instruction.
pub fn scan_block(code: Code, slots: Slots, values: ValueFacts, structs: &[bool], graph: &mut [u16])
    ensures { BlockScanned code.entry slots values.entry structs.now graph.old graph.new }
{
    clear(graph);
    for k in (0..slots.count).rev() {
        let pass = table::flag(structs, k as usize);
        scan_one(code, slots.first + k, values, pass, graph);
    }
}
