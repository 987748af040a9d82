// Which builds of a block are taken apart: a climb over the builds that take a value as a part.
#![tactic(auto)]

ghost use Rattle.std.specs.Prelude.{◌≡◌, not, ◌&&◌, get_or, eqb};
ghost use Rattle.mir.specs.Option.{as_option};
ghost use Rattle.fold_climb.specs.Edges.{climb_of, array_in};
ghost use Rattle.fold_climb.specs.Scanned.{sight_of, many_in, edge_at, child_in, parent_in, of_tuple, built_in, barred_in};
ghost use Rattle.fold_climb.specs.Decided.{climbs, tuples_pass, FoldsBy};

use fold::Settings;
use mir::kind::Kind;
use mir::shape::Shape;
use mir::{ValueId, most};

// Where the parts of the graph begin, how many numbers an edge takes, and how long the graph is (specs/Scanned.antt). An
// edge is the child, the parent, and the kind of the parent's build; there are at most so many. (Flags are 1 and 0
// there and kinds are their numbers, as specs/Scanned.antt reads one table of numbers: of flags and edges apart each clause would speak of
// three.)
pub const BUILT: usize = 1;

pub const BARRED: usize = BUILT + most::VALUES;

pub const EDGES: usize = BARRED + most::VALUES;

pub const WIDTH: usize = 3;

pub const PARENT: usize = 1;

pub const KIND: usize = 2;

pub const MOST: u16 = 2048;

pub const SIZE: usize = EDGES + WIDTH * MOST as usize;

// Where edge `k` begins.
#[inline]
pub fn edge_place(k: u16) -> usize
    ensures { result ≡ edge_at k }
{
    EDGES + WIDTH * k as usize
}

// A block as the climb looks at it: its graph, and the shapes of the types of all values.
#[derive(Clone, Copy)]
pub struct View<'a> {
    pub graph: &'a [u16],
    pub shapes: &'a [u8],
}

impl<'a> View<'a> {
    // A flag of the graph stands.
    #[inline]
    fn stands(self, at: usize) -> bool
        ensures { result ≡ eqb (get_or self.entry.graph.now at 0) 1 }
    {
        table::number(self.graph, at) == 1
    }

    // The value's build passes its own conditions.
    fn built(self, v: ValueId) -> bool
        ensures { result ≡ built_in self.entry.graph.now v.0 }
    {
        self.stands(BUILT + v.0 as usize)
    }

    // That, and nothing wants the value whole.
    fn allows(self, v: ValueId) -> bool
        ensures { result ≡ built_in self.entry.graph.now v.0 && not (barred_in self.entry.graph.now v.0) }
    {
        self.built(v) && !self.stands(BARRED + v.0 as usize)
    }

    // The value is an array.
    fn is_array(self, v: ValueId) -> bool
        ensures { result ≡ array_in (sight_of self.entry.shapes.now self.entry.graph.now) v.0 }
    {
        bytes_wire::byte_at(self.shapes, v.0 as usize) == Shape::FixedArray as u8
    }

    // How many edges there are.
    #[inline]
    fn edge_count(self) -> u16
        ensures { result ≡ many_in self.entry.graph.now }
    {
        table::number(self.graph, 0)
    }

    // The part of edge `k`.
    #[inline]
    fn child(self, k: u16) -> ValueId
        ensures { result.0 ≡ child_in self.entry.graph.now k }
    {
        ValueId(table::number(self.graph, edge_place(k)))
    }

    // The build that has it as a part.
    #[inline]
    fn parent(self, k: u16) -> ValueId
        ensures { result.0 ≡ parent_in self.entry.graph.now k }
    {
        ValueId(table::number(self.graph, edge_place(k) + PARENT))
    }

    // That is built by a MakeTuple.
    #[inline]
    fn of_tuple(self, k: u16) -> bool
        ensures { result ≡ of_tuple self.entry.graph.now k }
    {
        bytes_index::kind_at(self.graph, edge_place(k) + KIND) == Some(Kind::MakeTuple)
    }
}

// The values visited, as a climb keeps them: a mark for each value.
type Visited = [bool; most::VALUES];

// sroa.rs 195, `can_scalarize_aggregate`, over the block's graph: the values visited, if the value can be taken apart.
fn climb(v: ValueId, view: View, visited: Visited) -> Option<Visited>
    ensures { as_option result ≡ climb_of (sight_of view.entry.shapes.now view.entry.graph.now) v.0 visited }
{
    let at = v.0 as usize;
    if table::at(&visited, at, true) || !view.allows(v) {
        return None;
    }
    let array = view.is_array(v);
    let mut met = visited;
    table::put(&mut met, at, true);
    for k in (0..view.edge_count()).rev() {
        if view.child(k) == v {
            if array {
                return None;
            }
            met = climb(view.parent(k), view, met)?;
        }
    }
    Some(met)
}

// The climb from a value, with nothing visited.
fn can_scalarize(v: ValueId, view: View) -> bool
    ensures { result ≡ climbs (sight_of view.entry.shapes.now view.entry.graph.now) v.0 }
{
    climb(v, view, [false; most::VALUES]).is_some()
}

// Each tuple that takes the value as a part can be taken apart, with a new set of visited values for each. (From the edge that was
// noted last, the block's first, as the climb goes: the first tuple that cannot ends the search.)
fn tuple_parents(v: ValueId, view: View) -> bool
    ensures { result ≡ tuples_pass view.entry.shapes.now view.entry.graph.now v.0 }
{
    (0..view.edge_count()).rev().all(|k| {
        view.child(k) != v || !view.of_tuple(k) || can_scalarize(view.parent(k), view)
    })
}

// Whether the build of a value is taken apart, by the number of the build's kind; `dynamic`: an array with a dynamic index.
pub fn folds(v: ValueId, kind: u16, dynamic: bool, settings: Settings, view: View) -> bool
    ensures { FoldsBy settings view.entry.shapes.now view.entry.graph.now v kind dynamic result }
{
    match Kind::try_from(kind) {
        Ok(Kind::MakeStruct) => settings.structs && can_scalarize(v, view),
        Ok(Kind::MakeFixedArray) => settings.tuples && !dynamic && can_scalarize(v, view),
        _ => settings.tuples && view.built(v) && tuple_parents(v, view),
    }
}
