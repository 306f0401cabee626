// Whether the value of a fault is as the format asks.
ghost use Rattle.std.specs.Prelude.{◌≡◌, Decides};
ghost use Rattle.wire.specs.Kinds.{kind_number};
ghost use Rattle.wire.specs.Trees.{Message};
ghost use Rattle.reader.specs.Contents.{content_of};
ghost use Rattle.reader.specs.Derivations.{Say};
ghost use Rattle.reader.specs.Faults.{FaultFits, Pair};

use characters::characters_are;
use wire::kind::Kind;
use wire::row::Row;

fn is_fault(row: Row) -> bool
    ensures { Decides result (kind_number row.kind ≡ 3) }
{
    row.kind == Kind::Fault
}

// Whether two rows are a member of this name and a value of this kind.
fn is_pair(message: &[u8], member: Row, value: Row, name: &[u8], kind: Kind) -> bool
    ensures { Decides result (Pair name.now (kind_number kind) (content_of message.now member) (content_of message.now value)) }
{
    member.kind == Kind::Member
        && value.kind == kind
        && characters_are(member.text.cut(message), name)
}

// For the rows of a message: whether the value of a fault is as asked. Calls and responses have none.
pub fn fault_fits(message: &[u8], rows: &[Row]) -> bool
    ensures { (m : Message) → Say message.now rows.now m → Decides result (FaultFits m) }
{
    let [first, ..] = rows else {
        return true;
    };
    if !is_fault(*first) {
        return true;
    }
    let [_, _, name, value, name2, value2] = rows else {
        return false;
    };
    if is_pair(message, *name, *value, b"faultCode", Kind::Int) {
        return is_pair(message, *name2, *value2, b"faultString", Kind::String);
    }
    is_pair(message, *name, *value, b"faultString", Kind::String)
        && is_pair(message, *name2, *value2, b"faultCode", Kind::Int)
}
