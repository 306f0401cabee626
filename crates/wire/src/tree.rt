// Messages as trees: what their rows are sure to say.
ghost use Rattle.wire.specs.RowLaws.{RowsTellMessages, FirstRowOpens, NoRowIsBlank};

// No two messages have the same rows; the first row, and no other, is that of a call, a response
// or a fault; and no row is blank.
pub fn rows_tell_messages()
    ensures told { RowsTellMessages }
    ensures opened { FirstRowOpens }
    ensures filled { NoRowIsBlank }
{}
