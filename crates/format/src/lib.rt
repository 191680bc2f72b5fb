// The names of document 01 that code and definitions share: the kinds of record, the groups, the transaction types, the
// answers and limits.
#![tactic(auto)]

ghost use Rattle.std.specs.Prelude.{◌≡◌};
ghost use Rattle.format.specs.Answers.{refusal, acceptance, number_of};
ghost use Rattle.format.specs.Cutting.{is_open, broken_cut, cut_of};
ghost use Rattle.format.specs.Rules.{most_descriptions};

pub mod codes;

// A record's code and variant (01, 'Record table').
#[derive(Clone, Copy, PartialEq, Eq)]
pub enum Kind {
    FileHeader,
    BatchHeaderB,
    BatchHeaderC,
    FixedDescription,
    OrderingParty,
    Transaction,
    NamePayer,
    CityPayer,
    PaymentReference,
    Description,
    NameBeneficiary,
    CityBeneficiary,
    BatchTrailer,
    FileTrailer,
}

// Group 00, payments, and group 10, debits.
#[derive(Clone, Copy, PartialEq, Eq)]
pub enum Group {
    Payments,
    Debits,
}

// 0000, 0003, 0005, 0008 of group 00; 1001, 1002 of group 10.
#[derive(Clone, Copy, PartialEq, Eq)]
pub enum TransactionType {
    UncheckedCreditor = 0,
    UncheckedSalary = 3,
    Creditor = 5,
    Salary = 8,
    Debit = 1001,
    UncheckedDebit = 1002,
}

// What is answered: a number of 01's table, the line and the column that it names, each 0 where it names none.
#[derive(Clone, Copy)]
pub struct Answer {
    pub number: u8,
    pub line: u64,
    pub column: u8,
}

impl Answer {
    pub fn refusal(number: u8, line: u64, column: u8) -> Answer
        ensures { result ≡ refusal number line column }
    {
        Answer {
            number,
            line,
            column,
        }
    }

    // After so many lines.
    pub fn accepted(line: u64) -> Answer
        ensures { result ≡ acceptance line }
    {
        Answer {
            number: ACCEPTED,
            line,
            column: 0,
        }
    }
}

// How lines end: with 13 and 10, or with 10 alone. None is known before the first line, which fixes it, and of a line
// that has neither end.
#[derive(Clone, Copy, PartialEq, Eq)]
pub enum LineEnd {
    CrLf,
    Lf,
}

// The first line of some bytes: how many it takes, and how it ends.
#[derive(Clone, Copy)]
pub struct Cut {
    pub bytes: usize,
    pub ending: Option<LineEnd>,
}

// What is refused, by the numbers of 01's table.
#[derive(Clone, Copy, PartialEq, Eq)]
pub enum Refusal {
    BrokenLine = 1,
    UnknownRecord = 2,
    MisplacedRecord = 3,
    WrongForm = 4,
    WrongValue = 5,
    WrongAccount = 6,
    Differs = 7,
    AboveMaximum = 8,
    WrongTrailer = 9,
    EndsEarly = 10,
    AfterTrailer = 11,
    NoRoom = 12,
    NoSuchItem = 13,
    OrdinaryAccount = 14,
    UntimelyDate = 21,
    BeyondLimits = 24,
}

impl Refusal {
    pub fn number(self) -> u8
        ensures { result ≡ number_of self }
    {
        self as u8
    }
}

// The numbers of 01's table.
pub const ACCEPTED: u8 = 0;

pub const BROKEN_LINE: u8 = 1;

pub const UNKNOWN_RECORD: u8 = 2;

pub const MISPLACED_RECORD: u8 = 3;

pub const WRONG_FORM: u8 = 4;

pub const WRONG_VALUE: u8 = 5;

pub const WRONG_ACCOUNT: u8 = 6;

pub const DIFFERS: u8 = 7;

pub const ABOVE_MAXIMUM: u8 = 8;

pub const WRONG_TRAILER: u8 = 9;

pub const ENDS_EARLY: u8 = 10;

pub const AFTER_TRAILER: u8 = 11;

pub const NO_ROOM: u8 = 12;

pub const NO_SUCH_ITEM: u8 = 13;

pub const ORDINARY_ACCOUNT: u8 = 14;

pub const BEYOND_LIMITS: u8 = 24;

// Ten digits.
pub const MAX_ACCOUNT: u64 = 9999999999;

// The descriptions of an item without a reference.
pub const MAX_DESCRIPTIONS: u64 = 4;

// How many descriptions an item may have, by whether it has a reference.
pub fn most_descriptions(reference: bool) -> u64
    ensures { result ≡ most_descriptions reference }
{
    if reference {
        return 3;
    }
    MAX_DESCRIPTIONS
}

// Whether a line that ends so may follow lines that end so far as they do.
pub fn is_open(so_far: Option<LineEnd>, line: Option<LineEnd>) -> bool
    ensures { result ≡ is_open so_far line }
{
    match (so_far, line) {
        (_, None) => false,
        (None, Some(_)) => true,
        (Some(a), Some(b)) => a == b,
    }
}

// A line that neither end fits.
fn broken() -> Cut
    ensures { result ≡ broken_cut }
{
    Cut {
        bytes: 52,
        ending: None,
    }
}

// The cut of the first line: 50 characters, and then 13 and 10, or 10 alone.
pub fn cut_of(rest: &[u8]) -> Cut
    ensures { result ≡ cut_of rest.now }
{
    if rest.len() < 51 {
        return broken();
    }
    if rest[50] == 10 {
        return Cut {
            bytes: 51,
            ending: Some(LineEnd::Lf),
        };
    }
    if rest.len() < 52 {
        return broken();
    }
    if (rest[50] == 13) & (rest[51] == 10) {
        return Cut {
            bytes: 52,
            ending: Some(LineEnd::CrLf),
        };
    }
    broken()
}
