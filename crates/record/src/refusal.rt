// Why a call was refused: the first rule that was broken. Documents 01 and 02 number the rules, and `u8::from` gives the number.
ghost use Rattle.std.specs.Prelude.{◌≡◌, true, false, IfOk, IfErr};
ghost use Rattle.record.specs.Answers.{number, code_of};

// The number 11 is reserved and unused.
#[derive(Clone, Copy, Debug, PartialEq, Eq)]
pub enum Refusal {
    JobLength = 1,
    JobSize = 2,
    JobHead = 3,
    GateLimit = 4,
    Duration = 5,
    Row = 6,
    CircuitLength = 7,
    CircuitHead = 8,
    Layout = 9,
    GateCount = 10,
    OtherWires = 12,
    AnswerRoom = 13,
    NoCircuit = 14,
    LayoutNotAllowed = 15,
    TableMissed = 16,
    TooManyGates = 17,
    TooDear = 18,
    TooDeep = 19,
    Value = 20,
    UnlawfulGate = 21,
    TextForm = 22,
    TextGates = 23,
    DirtyAncilla = 24,
    SizesLength = 25,
    BatchForm = 26,
    BatchRoom = 27,
    UnfitMark = 28,
    LibraryLength = 29,
    LibraryEntry = 30,
    UnlistedGate = 31,
    Window = 32,
    ListLength = 33,
    ListGate = 34,
    NoSlot = 35,
    SlotTaken = 36,
    SlotUnfinished = 37,
    NotComparable = 38,
}

impl From<Refusal> for u8 {
    ghost from_gives = { λ r n. n ≡ number r };

    fn from(r: Refusal) -> u8 {
        r as u8
    }
}

// Refuses where a rule does not hold: `kept(rule(x), Refusal::R)?` goes on to the next rule where this one is kept.
pub fn kept(holds: bool, otherwise: Refusal) -> Result<(), Refusal>
    ensures ok { IfOk result (λ _. holds ≡ true) }
    ensures err { IfErr result (λ e. (holds ≡ false) × (e ≡ otherwise)) }
{
    if holds { Ok(()) } else { Err(otherwise) }
}

// The number of the first rule broken, or 0 where all were kept.
pub fn code(checked: Result<(), Refusal>) -> u8
    ensures { result ≡ code_of checked }
{
    match checked {
        Ok(()) => 0,
        Err(broken) => u8::from(broken),
    }
}
