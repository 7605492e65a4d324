// Why a call is refused, and where: the table of refusals, numbered as in the paper. Number 6 is
// withdrawn, and none has it.
#![tactic(auto)]

ghost use Rattle.std.specs.Prelude.{◌≡◌, ◌+◌, ◌*◌, ◌<◌};
ghost use Rattle.refusal.specs.Table.{plain, row_of, number_of, place_of, operation_of, code_of, operation_code_of};

// A refusal. Where it holds a number, that is its place: 1 or 2 in a pair, the record's index in a
// group, 0 for a record given alone. The others name no record. Behind the place an operation's code
// has the index of the operation at fault, from 0.
#[derive(Clone, Copy)]
pub enum Refusal {
    RecordShort(u16),
    RecordLong(u16),
    NameAndOperations(u16),
    BasesAndQualities(u16),
    OperationCode(u16, u16),
    ReadTotal(u16),
    ReferenceEnd(u16),
    Count,
    Strategy,
    Frame(u16),
    TooManyRecords,
    Sum,
    Input,
    CountsSlice,
    OutputShort,
    TrailerMissing,
    TrailerField,
    Cap,
}

// A row of the table: a refusal's number; where it is given: its place, which is the record at fault,
// 256 for bytes after 256 records, or 0; and the index of the operation at fault, or 0.
#[derive(Clone, Copy)]
pub struct Row {
    pub number: u16,
    pub at: u16,
    pub operation: u16,
}

impl Row {
    // The row of a refusal that names no operation.
    fn plain(number: u16, at: u16) -> Row
        ensures { result ≡ plain number at }
    {
        Row {
            number,
            at,
            operation: 0,
        }
    }

    // The one number for its number and its place.
    fn code(self) -> u32
        ensures { (result ≡ 1000 + 100 * self.at + self.number) × (result < 10000000) }
    {
        1000 + 100 * u32::from(self.at) + u32::from(self.number)
    }
}

impl Refusal {
    // Its row of the table.
    pub fn row(self) -> Row
        ensures { result ≡ row_of self }
    {
        match self {
            Refusal::RecordShort(p) => Row::plain(1, p),
            Refusal::RecordLong(p) => Row::plain(2, p),
            Refusal::NameAndOperations(p) => Row::plain(3, p),
            Refusal::BasesAndQualities(p) => Row::plain(4, p),
            Refusal::OperationCode(p, i) => Row {
                number: 5,
                at: p,
                operation: i,
            },
            Refusal::ReadTotal(p) => Row::plain(7, p),
            Refusal::ReferenceEnd(p) => Row::plain(8, p),
            Refusal::Count => Row::plain(9, 0),
            Refusal::Strategy => Row::plain(10, 0),
            Refusal::Frame(p) => Row::plain(11, p),
            Refusal::TooManyRecords => Row::plain(12, 256),
            Refusal::Sum => Row::plain(13, 0),
            Refusal::Input => Row::plain(14, 0),
            Refusal::CountsSlice => Row::plain(15, 0),
            Refusal::OutputShort => Row::plain(19, 0),
            Refusal::TrailerMissing => Row::plain(20, 0),
            Refusal::TrailerField => Row::plain(21, 0),
            Refusal::Cap => Row::plain(22, 0),
        }
    }

    // Its number in the table.
    pub fn number(self) -> u16
        ensures { result ≡ number_of self }
    {
        self.row().number
    }

    // Its place.
    pub fn place(self) -> u16
        ensures { result ≡ place_of self }
    {
        self.row().at
    }

    // The index of the operation at fault, from 0; 0 for a refusal that names none.
    pub fn operation(self) -> u16
        ensures { result ≡ operation_of self }
    {
        self.row().operation
    }

    // The one number that an exported call answers for it.
    pub fn code(self) -> u32
        ensures { result ≡ code_of self }
    {
        self.row().code()
    }

    // The same with 10,000 times the index of the operation at fault: the answer of the call that gives
    // the reason.
    pub fn operation_code(self) -> u32
        ensures { result ≡ operation_code_of self }
    {
        let row = self.row();
        row.code() + 10000 * u32::from(row.operation)
    }
}
