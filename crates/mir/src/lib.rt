// The names and values of a routine, as the Rust has them (value.rs, ids of mir), and its kinds and shapes. What routines are made of
// stands in specs/.
#![tactic(auto)]

ghost use Rattle.std.specs.Prelude.{◌≡◌};
ghost use Rattle.mir.specs.Lookup.{is_integer};
ghost use Rattle.mir.specs.Operand.{operand_of};

pub mod kind;
pub mod most;
pub mod shape;
pub mod terminator;
pub mod type_kind;

// A number that stands for none of the things of a kind.
#[derive(Clone, Copy, PartialEq, Eq, Debug)]
pub struct UnknownNumber;

#[derive(Clone, Copy, PartialEq, Eq, Debug)]
pub struct ValueId(pub u16);

#[derive(Clone, Copy, PartialEq, Eq, Debug)]
pub struct BlockId(pub u16);

#[derive(Clone, Copy, PartialEq, Eq, Debug)]
pub struct TypeId(pub u16);

#[derive(Clone, Copy, PartialEq, Eq, Debug)]
pub struct NameId(pub u16);

#[derive(Clone, Copy, PartialEq, Eq, Debug)]
pub enum Literal {
    Integer(u32),
    Boolean(bool),
    Unit,
}

#[derive(Clone, Copy, PartialEq, Eq, Debug)]
pub enum Value {
    Literal(Literal),
    Operand(ValueId),
    Error,
}

impl Value {
    // The value that is read, where this is an operand.
    pub fn operand(self) -> Option<ValueId>
        ensures { result ≡ operand_of self }
    {
        match self {
            Value::Operand(v) => Some(v),
            Value::Literal(_) | Value::Error => None,
        }
    }

    // An Integer literal.
    #[tactic(auto, unfolding(crate::specs::Lookup::is_integer))]
    pub fn is_integer(self) -> bool
        ensures { result ≡ is_integer self }
    {
        matches!(self, Value::Literal(Literal::Integer(_)))
    }
}

// value.rs, `Projection`: a step of a place.
#[derive(Clone, Copy, PartialEq, Eq, Debug)]
pub enum Projection {
    Index(Value),
    Field(NameId),
    Tuple(u32),
}
