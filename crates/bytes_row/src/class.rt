// The classes of a row's fields.

// The kinds of lists: values, types, values defined here, names with values, blocks with values, and a place's projections.
#[derive(Clone, Copy, PartialEq, Eq, Debug)]
pub enum ListKind {
    Values,
    Types,
    Dests,
    Named,
    Sources,
    Projections,
}

// A value defined here, a value, a type, a name, a u32, a block, a place, an operation of two values and of one; and lists of values,
// of types, of values defined here, of names with values, of blocks with values, and of a Call's return types (their count is exact).
// (The lists are no `List(ListKind)`: a row reads as one list of names, `number_of_class` would be nested, and a list of projections, which
// no row has, would be a class.)
#[derive(Clone, Copy, PartialEq, Eq, Debug)]
pub enum Class {
    Dest,
    Value,
    Type,
    Name,
    Number,
    Block,
    Place,
    Binary,
    Unary,
    Values,
    Types,
    Dests,
    Named,
    Sources,
    Returns,
}
