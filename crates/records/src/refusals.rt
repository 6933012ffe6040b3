// The refusal table, each by its number, but for the faults in a turn, which have an enum of their own (`answers::Reason`).
ghost use Rattle.std.specs.Prelude.{◌≡◌};
ghost use Rattle.records.specs.Refusal.{refusal_number};
ghost use Rattle.records.specs.RefusalOf.{refusal_of};

#[derive(Clone, Copy, PartialEq, Eq)]
pub enum Refusal {
    OddLength = 1,
    UnorderedKinds = 2,
    WrongAmounts = 3,
    StrayByte = 4,
    BrokenCode = 5,
    DanglingNumber = 6,
    BrokenStructure = 7,
    BrokenNode = 8,
    ZeroTicks = 9,
    ShortBuffer = 10,
    BadTable = 11,
    ImpossibleRun = 12,
    MisplacedEvents = 13,
    CyclesDone = 14,
    BrokenPath = 20,
    ShortRows = 21,
    BrokenLine = 22,
    WrongSort = 23,
    ShortSpace = 24,
    UnlikeWaits = 25,
}

// Its number in the table.
pub fn refusal_number(w: Refusal) -> u8
    ensures { result ≡ refusal_number (refusal_of w) }
{
    w as u8
}
