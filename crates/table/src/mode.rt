// Where the reading of a message stands, and what a tag does there.
ghost use Rattle.std.specs.Prelude.{◌≡◌};
ghost use Rattle.table.specs.Entries.{element_of};

use parts::name::Name;

// Where the reading stands: what may come next.
#[derive(Clone, Copy, Debug, PartialEq, Eq)]
pub enum Mode {
    Start,
    Call(CallMode),
    Response(ResponseMode),
    Value(ValueMode),
    Struct(StructMode),
    Array(ArrayMode),
    Finished,
}

// In a call: at its beginning, in the method's name, behind it, among the parameters, in one, behind
// its value, behind all of them.
#[derive(Clone, Copy, Debug, PartialEq, Eq)]
pub enum CallMode {
    Begun,
    Name,
    Named,
    Params,
    Param,
    ParamDone,
    Done,
}

#[derive(Clone, Copy, Debug, PartialEq, Eq)]
pub enum ResponseMode {
    Begun,
    Params,
    Param,
    ParamDone,
    ParamsDone,
    Fault,
    FaultDone,
    Done,
}

#[derive(Clone, Copy, Debug, PartialEq, Eq)]
pub enum ValueMode {
    Begun,
    Text(Plain),
    Typed,
}

// The elements that hold a text alone.
#[derive(Clone, Copy, Debug, PartialEq, Eq)]
pub enum Plain {
    Int,
    I4,
    Boolean,
    String,
    Double,
    Date,
    Base64,
}

// Its element.
impl From<Plain> for Name {
    ghost from_gives = { λ plain name. name ≡ element_of plain };

    fn from(plain: Plain) -> Name {
        match plain {
            Plain::Int => Name::Int,
            Plain::I4 => Name::I4,
            Plain::Boolean => Name::Boolean,
            Plain::String => Name::String,
            Plain::Double => Name::Double,
            Plain::Date => Name::DateTime,
            Plain::Base64 => Name::Base64,
        }
    }
}

// In a struct: at its beginning or behind a member, in a member, in its name, behind the name, behind
// its value.
#[derive(Clone, Copy, Debug, PartialEq, Eq)]
pub enum StructMode {
    Members,
    Member,
    Name,
    Named,
    MemberDone,
}

#[derive(Clone, Copy, Debug, PartialEq, Eq)]
pub enum ArrayMode {
    Begun,
    Data,
    DataDone,
}

// What holds values.
#[derive(Clone, Copy, Debug, PartialEq, Eq)]
pub enum Shape {
    Call,
    Response,
    Fault,
    Struct,
    Array,
}

// What a tag does where the grammar has it.
#[derive(Clone, Copy, Debug, PartialEq, Eq)]
pub enum Move {
    // Goes on there.
    Enter(Mode),
    // The run is a row; goes on there.
    Emit(Mode),
    // The run is a value that ends here.
    Word,
    // A value ends.
    Leave,
    // What holds values opens, and closes.
    Nest(Shape),
    Unnest,
    // The run is the method's name.
    Name,
    // The response is a fault.
    Fault,
}
