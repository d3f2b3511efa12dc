// The refusals of the calls over files, under the names of the C header; those of the code page's calls, 16 and 17, are told by its own answer.
ghost use Rattle.std.specs.Prelude.{◌≡◌};
ghost use Rattle.answers.specs.Refusal.{refusal_number_of};

// Why a call is refused.
#[derive(Clone, Copy, PartialEq, Eq, Debug)]
pub enum Refusal {
    WrongYear,
    WrongLocals,
    WrongMaster,
    UnsoundRow,
    WrongBatch,
    NoCtl,
    WrongCount,
    WrongAmount,
    NoRoom,
    ShortVerdicts,
    ShortOutput,
    WrongState,
    WrongDate,
    UnsoundKey,
    NoSuchRow,
    WrongContacts,
    ShortContacts,
    ControlState,
    ControlForm,
    WrongFile,
    WrongTotal,
    ShortLines,
    ShortJournal,
    WrongJournal,
    WrongKeys,
    ShortPlaces,
    NoRecords,
    ShortRecords,
    ShortPages,
    CannotMerge,
    ShortBatch,
}

impl Refusal {
    // The number of the C functions.
    pub fn number(self) -> u64
        ensures { result ≡ refusal_number_of self }
    {
        match self {
            Refusal::WrongYear => 1,
            Refusal::WrongLocals => 2,
            Refusal::WrongMaster => 3,
            Refusal::UnsoundRow => 4,
            Refusal::WrongBatch => 5,
            Refusal::NoCtl => 6,
            Refusal::WrongCount => 7,
            Refusal::WrongAmount => 8,
            Refusal::NoRoom => 9,
            Refusal::ShortVerdicts => 10,
            Refusal::ShortOutput => 11,
            Refusal::WrongState => 12,
            Refusal::WrongDate => 13,
            Refusal::UnsoundKey => 14,
            Refusal::NoSuchRow => 15,
            Refusal::WrongContacts => 18,
            Refusal::ShortContacts => 19,
            Refusal::ControlState => 20,
            Refusal::ControlForm => 21,
            Refusal::WrongFile => 22,
            Refusal::WrongTotal => 23,
            Refusal::ShortLines => 24,
            Refusal::ShortJournal => 25,
            Refusal::WrongJournal => 26,
            Refusal::WrongKeys => 27,
            Refusal::ShortPlaces => 28,
            Refusal::NoRecords => 29,
            Refusal::ShortRecords => 30,
            Refusal::ShortPages => 31,
            Refusal::CannotMerge => 32,
            Refusal::ShortBatch => 33,
        }
    }
}
