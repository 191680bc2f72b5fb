// The line of a record of each kind.
ghost use Rattle.std.specs.Prelude.{◌≡◌, [], ◌∷◌, ◌-◌};
ghost use Rattle.format.specs.Fields.{filled, filler};
ghost use Rattle.format.specs.Records.{layout, code};
ghost use Rattle.format.specs.Rules.{test_text};
ghost use Rattle.format.specs.declared.Kind.TheVariants.{FileHeader, OrderingParty, BatchTrailer, FileTrailer};
ghost use Rattle.format.specs.declared.Kind.TheVariants as kinds;
ghost use Rattle.record.specs.Read.{text_part};
ghost use Rattle.writer.specs.Encoding.{encoded_line};
ghost use Rattle.writer.specs.Entries.{file_header_given, ordering_party_given, transaction_given, batch_trailer_given};
ghost use Rattle.writer.specs.Entries.{line_for};
ghost use Rattle.writer.specs.Inner.{header_start, batch_header_line};

use crate::Entry;
use crate::fields::Line;
use format::{Group, Kind, codes};
use reading::State;
use record::types::{group_text, type_text};
use record::{Batch, Transaction};

fn file_header(created: u64, identification: u64, duplicate: u64, text: [u8; 35]) -> Line
    ensures { result.bytes ≡ encoded_line (code FileHeader) (layout FileHeader)
        (file_header_given created identification duplicate text) }
{
    Line::coded(Kind::FileHeader)
        .number(5, 6, created)
        .put(11, &codes::FILE_NAME)
        .text(Kind::FileHeader, &text)
        .number(24, 4, identification)
        .number(28, 1, duplicate)
}

impl Line {
    // What both variants of a batch header begin with.
    fn header(self, group: Group, account: u64, sequence: u64) -> Line
        ensures { result.bytes ≡ header_start self.bytes group account sequence }
    {
        self.put(5, &group_text(group))
            .number(7, 10, account)
            .number(17, 4, sequence)
            .put(21, &codes::CURRENCY)
    }
}

fn batch_header(group: Group, account: u64, sequence: u64, identified: bool, text: [u8; 35]) -> Line
    ensures { result.bytes ≡ batch_header_line identified group account sequence text }
{
    if identified {
        Line::coded(Kind::BatchHeaderC)
            .header(group, account, sequence)
            .text(Kind::BatchHeaderC, &text)
    } else {
        Line::coded(Kind::BatchHeaderB)
            .header(group, account, sequence)
            .blank(24, 16, &text)
    }
}

fn test_code(test: bool) -> [u8; 1]
    ensures { result ≡ test_text test }
{
    if test { codes::TEST } else { codes::PRODUCTION }
}

fn ordering_party(name_code: u64, desired: u64, test: bool, text: [u8; 35]) -> Line
    ensures { result.bytes ≡ encoded_line (code OrderingParty) (layout OrderingParty)
        (ordering_party_given name_code desired test text) }
{
    Line::coded(Kind::OrderingParty)
        .number(5, 1, name_code)
        .number(6, 6, desired)
        .text(Kind::OrderingParty, &text)
        .put(47, &test_code(test))
}

fn transaction(t: Transaction, text: [u8; 35]) -> Line
    ensures { result.bytes ≡ encoded_line (code kinds.Transaction) (layout kinds.Transaction)
        (transaction_given t text) }
{
    Line::coded(Kind::Transaction)
        .put(5, &type_text(t.kind))
        .number(9, 12, t.amount)
        .number(21, 10, t.payer)
        .number(31, 10, t.beneficiary)
        .blank(41, 9, &text)
}

// A record that is its text.
fn text_line(kind: Kind, text: [u8; 35]) -> Line
    requires { (text_part kind).at ≡ 5 }
    ensures { result.bytes ≡ encoded_line (code kind)
        (filled (text_part kind).width ∷ filler (45 - (text_part kind).width) ∷ []) (text, ([], tt)) }
{
    Line::coded(kind).text(kind, &text)
}

// A trailer has the numbers of its batch.
fn batch_trailer(batch: Batch, text: [u8; 35]) -> Line
    ensures { result.bytes ≡ encoded_line (code BatchTrailer) (layout BatchTrailer)
        (batch_trailer_given batch.total batch.accounts batch.items text) }
{
    Line::coded(Kind::BatchTrailer)
        .number(5, 18, batch.total)
        .number(23, 10, batch.accounts)
        .number(33, 7, batch.items)
        .blank(40, 10, &text)
}

fn file_trailer(text: [u8; 35]) -> Line
    ensures { result.bytes ≡ encoded_line (code FileTrailer) (layout FileTrailer) (text, tt) }
{
    Line::coded(Kind::FileTrailer).blank(5, 45, &text)
}

impl Entry {
    // The line of a record to write, after those so far.
    pub(crate) fn line(self, state: State, text: [u8; 35]) -> Line
        ensures { result.bytes ≡ line_for state self text }
    {
        match self {
            Entry::FileHeader {
                created,
                identification,
                duplicate,
            } => file_header(created, identification, duplicate, text),
            Entry::BatchHeader {
                group,
                account,
                sequence,
                identified,
            } => batch_header(group, account, sequence, identified, text),
            Entry::FixedDescription => text_line(Kind::FixedDescription, text),
            Entry::OrderingParty {
                code,
                desired,
                test,
            } => ordering_party(code, desired, test, text),
            Entry::Transaction(t) => transaction(t, text),
            Entry::NamePayer => text_line(Kind::NamePayer, text),
            Entry::PaymentReference => text_line(Kind::PaymentReference, text),
            Entry::Description => text_line(Kind::Description, text),
            Entry::NameBeneficiary => text_line(Kind::NameBeneficiary, text),
            Entry::BatchTrailer => batch_trailer(state.batch, text),
            Entry::FileTrailer => file_trailer(text),
        }
    }
}
