// The names of fields by record and column (01, 'Record table').
ghost use Rattle.std.specs.Prelude.{◌≡◌};
ghost use Rattle.page.specs.Lines.{with_text};
ghost use Rattle.telling.specs.Names.{name_in, name_after, field_name};

use crate::looked_up;
use format::Kind;
use page::put_text;

const FILE_HEADER: [(u8, &str); 6] = [
    (6, "creation date"),
    (12, "file name"),
    (20, "sender"),
    (25, "identification"),
    (29, "duplicate code"),
    (30, "filler"),
];

const BATCH_HEADER: [(u8, &str); 6] = [
    (6, "group"),
    (8, "ordering account"),
    (18, "sequence"),
    (22, "currency"),
    (25, "batch identification"),
    (41, "filler"),
];

const ORDERING_PARTY: [(u8, &str); 5] = [
    (6, "name code"),
    (7, "desired date"),
    (13, "name"),
    (48, "test code"),
    (49, "filler"),
];

const TRANSACTION: [(u8, &str); 5] = [
    (6, "type"),
    (10, "amount"),
    (22, "payer"),
    (32, "beneficiary"),
    (42, "filler"),
];

const DESCRIPTION: [(u8, &str); 2] = [(6, "text"), (38, "filler")];

const REFERENCE: [(u8, &str); 2] = [(6, "text"), (22, "filler")];

const NAME: [(u8, &str); 2] = [(6, "name"), (41, "filler")];

const CITY: [(u8, &str); 1] = [(6, "city")];

const BATCH_TRAILER: [(u8, &str); 4] = [
    (6, "total amount"),
    (24, "total accounts"),
    (34, "items"),
    (41, "filler"),
];

const FILE_TRAILER: [(u8, &str); 1] = [(6, "filler")];

fn name_in(kind: Kind, column: u8) -> &'static str
    ensures { result.now ≡ name_in kind column }
{
    match kind {
        Kind::FileHeader => looked_up(&FILE_HEADER, column),
        Kind::BatchHeaderB | Kind::BatchHeaderC => looked_up(&BATCH_HEADER, column),
        Kind::OrderingParty => looked_up(&ORDERING_PARTY, column),
        Kind::Transaction => looked_up(&TRANSACTION, column),
        Kind::FixedDescription | Kind::Description => looked_up(&DESCRIPTION, column),
        Kind::PaymentReference => looked_up(&REFERENCE, column),
        Kind::NamePayer | Kind::NameBeneficiary => looked_up(&NAME, column),
        Kind::CityPayer | Kind::CityBeneficiary => looked_up(&CITY, column),
        Kind::BatchTrailer => looked_up(&BATCH_TRAILER, column),
        Kind::FileTrailer => looked_up(&FILE_TRAILER, column),
    }
}

fn name_after(code: Option<Kind>, column: u8) -> &'static str
    ensures { result.now ≡ name_after code column }
{
    match code {
        Some(kind) => name_in(kind, column),
        None => "",
    }
}

// The name of the field of that record that begins at a column, and nothing where none begins.
pub fn field_name(code: Option<Kind>, column: u8) -> &'static str
    ensures { result.now ≡ field_name code column }
{
    if column == 1 {
        return "code and variant";
    }
    name_after(code, column)
}

// The same onto a lent page.
pub fn put_field(page: &mut [u8], at: usize, code: Option<Kind>, column: u8) -> usize
    ensures { (page.new, result) ≡ with_text (page.old, at) (field_name code column) }
{
    put_text(page, at, field_name(code, column).as_bytes())
}
