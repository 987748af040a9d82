// Where the fields of a type stand in its bytes, the first of which is its kind.

// A Tuple: the number of its parts, their types, and how far these are apart.
pub const TUPLE_COUNT: usize = 1;

pub const TUPLE_PARTS: usize = 2;

pub const TUPLE_APART: usize = 2;

// A Struct, behind its name: the number of its fields, their names, their types, and how far one field is from the next.
pub const STRUCT_COUNT: usize = 3;

pub const STRUCT_NAMES: usize = 4;

pub const STRUCT_TYPES: usize = 6;

pub const STRUCT_APART: usize = bytes_before::FIELD;

// A FixedArray: its element's type, and its size.
pub const ARRAY_ELEMENT: usize = 1;

pub const ARRAY_SIZE: usize = 3;

// A Pointer: the type that it points to.
pub const POINTED: usize = 1;
