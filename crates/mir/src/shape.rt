// The shapes of types: "only Tuple, Struct and FixedArray can be taken apart"; any other type, and none, is Other (`shape` of specs/Lookup).
#[derive(Clone, Copy, PartialEq, Eq, Debug)]
pub enum Shape {
    Other,
    Tuple,
    Struct,
    FixedArray,
}
