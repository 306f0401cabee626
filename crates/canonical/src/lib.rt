// The canonical form of messages.
#![tactic(auto)]

ghost use Rattle.canonical.specs.KnownForms.{KnownForms};
ghost use Rattle.canonical.specs.Laws.{WrittenReadsBack, CanonicalBytesAreGood, CanonicalTellsMessages};

// The canonical form of every message that can be read, unless it is too long, is read as that message.
// So no two of these are written alike. Bytes of a canonical form, also of a long one, may stand in a message.
// Known messages are written as listed.
pub fn written_reads_back()
    ensures back { WrittenReadsBack }
    ensures bytes { CanonicalBytesAreGood }
    ensures told { CanonicalTellsMessages }
    ensures known { KnownForms }
{}
