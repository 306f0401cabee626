// Which tags the grammar has at each point, and what each does.
ghost use Rattle.std.specs.Prelude.{◌≡◌};
ghost use Rattle.table.specs.declared.mode.Mode.TheVariants.{Start};
ghost use Rattle.table.specs.declared.mode.ValueMode.TheVariants.{Begun};
ghost use Rattle.table.specs.Entries.{lookup, entries, call_entries, response_entries, value_entries, struct_entries, array_entries};

use crate::mode::{
    ArrayMode, CallMode, Mode, Move, Plain, ResponseMode, Shape, StructMode, ValueMode,
};
use parts::name::Name;
use parts::tag::Tag;

const VALUE: Move = Move::Enter(Mode::Value(ValueMode::Begun));

fn in_call(mode: CallMode, tag: Tag) -> Option<Move>
    ensures { result ≡ lookup tag (call_entries mode) }
{
    let enter = |mode| Some(Move::Enter(Mode::Call(mode)));
    match (mode, tag) {
        (CallMode::Begun, Tag::Open(Name::MethodName)) => enter(CallMode::Name),
        (CallMode::Name, Tag::Close(Name::MethodName)) => Some(Move::Name),
        (CallMode::Named, Tag::Open(Name::Params)) => enter(CallMode::Params),
        (CallMode::Named, Tag::Close(Name::MethodCall)) => Some(Move::Unnest),
        (CallMode::Params, Tag::Open(Name::Param)) => enter(CallMode::Param),
        (CallMode::Params, Tag::Close(Name::Params)) => enter(CallMode::Done),
        (CallMode::Param, Tag::Open(Name::Value)) => Some(VALUE),
        (CallMode::ParamDone, Tag::Close(Name::Param)) => enter(CallMode::Params),
        (CallMode::Done, Tag::Close(Name::MethodCall)) => Some(Move::Unnest),
        _ => None,
    }
}

fn in_response(mode: ResponseMode, tag: Tag) -> Option<Move>
    ensures { result ≡ lookup tag (response_entries mode) }
{
    let enter = |mode| Some(Move::Enter(Mode::Response(mode)));
    match (mode, tag) {
        (ResponseMode::Begun, Tag::Open(Name::Params)) => enter(ResponseMode::Params),
        (ResponseMode::Begun, Tag::Open(Name::Fault)) => Some(Move::Fault),
        (ResponseMode::Params, Tag::Open(Name::Param)) => enter(ResponseMode::Param),
        (ResponseMode::Param, Tag::Open(Name::Value)) => Some(VALUE),
        (ResponseMode::ParamDone, Tag::Close(Name::Param)) => enter(ResponseMode::ParamsDone),
        (ResponseMode::ParamsDone, Tag::Close(Name::Params)) => enter(ResponseMode::Done),
        (ResponseMode::Fault, Tag::Open(Name::Value)) => Some(VALUE),
        (ResponseMode::FaultDone, Tag::Close(Name::Fault)) => enter(ResponseMode::Done),
        (ResponseMode::Done, Tag::Close(Name::MethodResponse)) => Some(Move::Unnest),
        _ => None,
    }
}

fn at_value(tag: Tag) -> Option<Move>
    ensures { result ≡ lookup tag (value_entries Begun) }
{
    let text = |plain| Some(Move::Enter(Mode::Value(ValueMode::Text(plain))));
    match tag {
        Tag::Open(Name::Int) => text(Plain::Int),
        Tag::Open(Name::I4) => text(Plain::I4),
        Tag::Open(Name::Boolean) => text(Plain::Boolean),
        Tag::Open(Name::String) => text(Plain::String),
        Tag::Open(Name::Double) => text(Plain::Double),
        Tag::Open(Name::DateTime) => text(Plain::Date),
        Tag::Open(Name::Base64) => text(Plain::Base64),
        Tag::Open(Name::Struct) => Some(Move::Nest(Shape::Struct)),
        Tag::Open(Name::Array) => Some(Move::Nest(Shape::Array)),
        Tag::Close(Name::Value) => Some(Move::Word),
        _ => None,
    }
}

fn in_value(mode: ValueMode, tag: Tag) -> Option<Move>
    ensures { result ≡ lookup tag (value_entries mode) }
{
    match (mode, tag) {
        (ValueMode::Begun, _) => at_value(tag),
        (ValueMode::Text(plain), Tag::Close(name)) if name == Name::from(plain) => {
            Some(Move::Emit(Mode::Value(ValueMode::Typed)))
        }
        (ValueMode::Typed, Tag::Close(Name::Value)) => Some(Move::Leave),
        _ => None,
    }
}

fn in_struct(mode: StructMode, tag: Tag) -> Option<Move>
    ensures { result ≡ lookup tag (struct_entries mode) }
{
    let enter = |mode| Some(Move::Enter(Mode::Struct(mode)));
    match (mode, tag) {
        (StructMode::Members, Tag::Open(Name::Member)) => enter(StructMode::Member),
        (StructMode::Members, Tag::Close(Name::Struct)) => Some(Move::Unnest),
        (StructMode::Member, Tag::Open(Name::MemberName)) => enter(StructMode::Name),
        (StructMode::Name, Tag::Close(Name::MemberName)) => {
            Some(Move::Emit(Mode::Struct(StructMode::Named)))
        }
        (StructMode::Named, Tag::Open(Name::Value)) => Some(VALUE),
        (StructMode::MemberDone, Tag::Close(Name::Member)) => enter(StructMode::Members),
        _ => None,
    }
}

fn in_array(mode: ArrayMode, tag: Tag) -> Option<Move>
    ensures { result ≡ lookup tag (array_entries mode) }
{
    let enter = |mode| Some(Move::Enter(Mode::Array(mode)));
    match (mode, tag) {
        (ArrayMode::Begun, Tag::Open(Name::Data)) => enter(ArrayMode::Data),
        (ArrayMode::Data, Tag::Open(Name::Value)) => Some(VALUE),
        (ArrayMode::Data, Tag::Close(Name::Data)) => enter(ArrayMode::DataDone),
        (ArrayMode::DataDone, Tag::Close(Name::Array)) => Some(Move::Unnest),
        _ => None,
    }
}

fn at_start(tag: Tag) -> Option<Move>
    ensures { result ≡ lookup tag (entries Start) }
{
    match tag {
        Tag::Open(Name::MethodCall) => Some(Move::Nest(Shape::Call)),
        Tag::Open(Name::MethodResponse) => Some(Move::Nest(Shape::Response)),
        _ => None,
    }
}

// What a tag does at a point of the reading; nothing where the grammar has no such tag there.
pub fn move_at(mode: Mode, tag: Tag) -> Option<Move>
    ensures { result ≡ lookup tag (entries mode) }
{
    match mode {
        Mode::Start => at_start(tag),
        Mode::Call(mode) => in_call(mode, tag),
        Mode::Response(mode) => in_response(mode, tag),
        Mode::Value(mode) => in_value(mode, tag),
        Mode::Struct(mode) => in_struct(mode, tag),
        Mode::Array(mode) => in_array(mode, tag),
        Mode::Finished => None,
    }
}
