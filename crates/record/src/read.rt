// The record of an accepted line, and its text.
ghost use Rattle.std.specs.Prelude.{◌≡◌, take, drop};
ghost use Rattle.format.specs.declared.Kind.TheVariants.{FileHeader, OrderingParty, BatchTrailer};
ghost use Rattle.format.specs.declared.Kind.TheVariants as kinds;
ghost use Rattle.field.specs.Leaf.{digits_of};
ghost use Rattle.record.specs.Read.{transaction_for, transaction_record, record_for, header_for, text_part, text_for};
ghost use Rattle.record.specs.Read.{values_of};

use crate::types::{group_in, type_in};
use crate::{Record, Transaction, TransactionFields};
use field::bytes::{is_same, part};
use field::filled::filled_to;
use field::numbers::digits_at;
use format::{Kind, TransactionType, codes};

pub fn value_at(line: &[u8], at: usize, width: usize) -> u64
    ensures { result ≡ (digits_of (take width (drop at line.now))).value }
{
    digits_at(line, at, width).unwrap_or(0)
}

pub fn transaction_at(line: &[u8]) -> TransactionFields
    ensures { result ≡ transaction_for (values_of kinds.Transaction line.now) }
{
    TransactionFields {
        kind: type_in(line),
        amount: value_at(line, 9, 12),
        payer: value_at(line, 21, 10),
        beneficiary: value_at(line, 31, 10),
    }
}

fn file_header_at(line: &[u8]) -> Record
    ensures { result ≡ record_for FileHeader (values_of FileHeader line.now) }
{
    Record::FileHeader {
        created: value_at(line, 5, 6),
        identification: value_at(line, 24, 4),
        duplicate: value_at(line, 28, 1),
    }
}

fn batch_header_at(line: &[u8], identified: bool) -> Record
    ensures { result ≡ header_for identified line.now }
{
    Record::BatchHeader {
        group: group_in(line),
        account: value_at(line, 7, 10),
        sequence: value_at(line, 17, 4),
        identified,
    }
}

fn ordering_party_at(line: &[u8]) -> Record
    ensures { result ≡ record_for OrderingParty (values_of OrderingParty line.now) }
{
    Record::OrderingParty {
        code: value_at(line, 5, 1),
        desired: value_at(line, 6, 6),
        test: is_same(part(line, 47, 1), &codes::TEST),
    }
}

// A type that is none of the six is in no record.
fn transaction_record(
    t: Option<TransactionType>,
    amount: u64,
    payer: u64,
    beneficiary: u64,
) -> Record
    ensures { result ≡ transaction_record t amount payer beneficiary }
{
    match t {
        Some(kind) => {
            let item = Transaction {
                kind,
                amount,
                payer,
                beneficiary,
            };
            Record::Transaction(item)
        }
        None => Record::Nothing,
    }
}

fn transaction_record_at(line: &[u8]) -> Record
    ensures { result ≡ record_for kinds.Transaction (values_of kinds.Transaction line.now) }
{
    let x = transaction_at(line);
    let t = x.kind;
    transaction_record(t, x.amount, x.payer, x.beneficiary)
}

fn batch_trailer_at(line: &[u8]) -> Record
    ensures { result ≡ record_for BatchTrailer (values_of BatchTrailer line.now) }
{
    Record::BatchTrailer {
        total: value_at(line, 5, 18),
        accounts: value_at(line, 23, 10),
        items: value_at(line, 33, 7),
    }
}

pub fn record_in(kind: Kind, line: &[u8]) -> Record
    ensures { result ≡ record_for kind (values_of kind line.now) }
{
    match kind {
        Kind::FileHeader => file_header_at(line),
        Kind::BatchHeaderB => batch_header_at(line, false),
        Kind::BatchHeaderC => batch_header_at(line, true),
        Kind::FixedDescription => Record::FixedDescription,
        Kind::OrderingParty => ordering_party_at(line),
        Kind::Transaction => transaction_record_at(line),
        Kind::NamePayer => Record::NamePayer,
        Kind::CityPayer => Record::CityPayer,
        Kind::PaymentReference => Record::PaymentReference,
        Kind::Description => Record::Description,
        Kind::NameBeneficiary => Record::NameBeneficiary,
        Kind::CityBeneficiary => Record::CityBeneficiary,
        Kind::BatchTrailer => batch_trailer_at(line),
        Kind::FileTrailer => Record::FileTrailer,
    }
}

// A part of a line: after how many characters, and its width.
#[derive(Clone, Copy)]
pub struct Part {
    pub at: usize,
    pub width: usize,
}

// Where the text of a record stands; nowhere, and of no width, if it has none.
pub fn text_part(kind: Kind) -> Part
    ensures { result ≡ text_part kind }
{
    match kind {
        Kind::FileHeader => Part { at: 19, width: 5 },
        Kind::BatchHeaderB => Part { at: 0, width: 0 },
        Kind::BatchHeaderC => Part { at: 24, width: 16 },
        Kind::FixedDescription => Part { at: 5, width: 32 },
        Kind::OrderingParty => Part { at: 12, width: 35 },
        Kind::Transaction => Part { at: 0, width: 0 },
        Kind::NamePayer => Part { at: 5, width: 35 },
        Kind::CityPayer => Part { at: 0, width: 0 },
        Kind::PaymentReference => Part { at: 5, width: 16 },
        Kind::Description => Part { at: 5, width: 32 },
        Kind::NameBeneficiary => Part { at: 5, width: 35 },
        Kind::CityBeneficiary => Part { at: 0, width: 0 },
        Kind::BatchTrailer => Part { at: 0, width: 0 },
        Kind::FileTrailer => Part { at: 0, width: 0 },
    }
}

// A record's text at the front of 35 characters, the others spaces.
pub fn text_in(kind: Kind, line: &[u8]) -> [u8; 35]
    ensures { result ≡ text_for kind (values_of kind line.now) }
{
    let text = text_part(kind);
    filled_to(part(line, text.at, text.width))
}
