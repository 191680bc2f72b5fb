// Code and variant.
ghost use Rattle.std.specs.Prelude.{◌≡◌, take};
ghost use Rattle.format.specs.Records.{code};
ghost use Rattle.record.specs.Kinds.{begins, is_header, is_name, is_city, file_code, batch_code, debit_code, code_of};

use field::bytes::{is_same, part};
use format::{Kind, codes};

// The characters of a code and variant.
pub fn code_text(kind: Kind) -> [u8; 5]
    ensures { result ≡ code kind }
{
    match kind {
        Kind::FileHeader => codes::FILE_HEADER,
        Kind::BatchHeaderB => codes::BATCH_HEADER_B,
        Kind::BatchHeaderC => codes::BATCH_HEADER_C,
        Kind::FixedDescription => codes::FIXED_DESCRIPTION,
        Kind::OrderingParty => codes::ORDERING_PARTY,
        Kind::Transaction => codes::TRANSACTION,
        Kind::NamePayer => codes::NAME_PAYER,
        Kind::CityPayer => codes::CITY_PAYER,
        Kind::PaymentReference => codes::PAYMENT_REFERENCE,
        Kind::Description => codes::DESCRIPTION,
        Kind::NameBeneficiary => codes::NAME_BENEFICIARY,
        Kind::CityBeneficiary => codes::CITY_BENEFICIARY,
        Kind::BatchTrailer => codes::BATCH_TRAILER,
        Kind::FileTrailer => codes::FILE_TRAILER,
    }
}

// Whether a line begins with a kind's code and variant. (A second caller of the look-up, `code_of`, would slow the
// reading of every line.)
pub fn begins(line: &[u8], kind: Kind) -> bool
    ensures { result ≡ begins kind line.now }
{
    is_same(part(line, 0, 5), &code_text(kind))
}

pub fn is_header(line: &[u8]) -> bool
    ensures { result ≡ is_header line.now }
{
    begins(line, Kind::BatchHeaderB) | begins(line, Kind::BatchHeaderC)
}

pub fn is_name(line: &[u8]) -> bool
    ensures { result ≡ is_name line.now }
{
    begins(line, Kind::NameBeneficiary) | begins(line, Kind::NamePayer)
}

pub fn is_city(line: &[u8]) -> bool
    ensures { result ≡ is_city line.now }
{
    begins(line, Kind::CityPayer) | begins(line, Kind::CityBeneficiary)
}

// The records of a file's frame.
#[tactic(auto, using(field::proofs::Picks::picks), unfolding(crate::specs::Kinds::file_code))]
fn file_kind(s: &[u8]) -> Option<Kind>
    ensures { result ≡ file_code s.now }
{
    if is_same(s, &codes::FILE_HEADER) {
        return Some(Kind::FileHeader);
    }
    if is_same(s, &codes::FILE_TRAILER) {
        return Some(Kind::FileTrailer);
    }
    None
}

// The records of a batch's frame.
#[tactic(auto, using(field::proofs::Picks::picks), unfolding(crate::specs::Kinds::batch_code))]
fn batch_kind(s: &[u8]) -> Option<Kind>
    ensures { result ≡ batch_code s.now }
{
    if is_same(s, &codes::BATCH_HEADER_B) {
        return Some(Kind::BatchHeaderB);
    }
    if is_same(s, &codes::BATCH_HEADER_C) {
        return Some(Kind::BatchHeaderC);
    }
    if is_same(s, &codes::FIXED_DESCRIPTION) {
        return Some(Kind::FixedDescription);
    }
    if is_same(s, &codes::ORDERING_PARTY) {
        return Some(Kind::OrderingParty);
    }
    if is_same(s, &codes::BATCH_TRAILER) {
        return Some(Kind::BatchTrailer);
    }
    file_kind(s)
}

// The records that only debits have.
#[tactic(auto, using(field::proofs::Picks::picks), unfolding(crate::specs::Kinds::debit_code))]
fn debit_kind(s: &[u8]) -> Option<Kind>
    ensures { result ≡ debit_code s.now }
{
    if is_same(s, &codes::NAME_PAYER) {
        return Some(Kind::NamePayer);
    }
    if is_same(s, &codes::CITY_PAYER) {
        return Some(Kind::CityPayer);
    }
    batch_kind(s)
}

// The records of a payment, the most frequent ones.
#[tactic(auto, using(field::proofs::Picks::picks), unfolding(crate::specs::Kinds::code_of))]
fn kind_in(s: &[u8]) -> Option<Kind>
    ensures { result ≡ code_of s.now }
{
    if is_same(s, &codes::TRANSACTION) {
        return Some(Kind::Transaction);
    }
    if is_same(s, &codes::PAYMENT_REFERENCE) {
        return Some(Kind::PaymentReference);
    }
    if is_same(s, &codes::DESCRIPTION) {
        return Some(Kind::Description);
    }
    if is_same(s, &codes::NAME_BENEFICIARY) {
        return Some(Kind::NameBeneficiary);
    }
    if is_same(s, &codes::CITY_BENEFICIARY) {
        return Some(Kind::CityBeneficiary);
    }
    debit_kind(s)
}

pub fn code_of(line: &[u8]) -> Option<Kind>
    ensures { result ≡ code_of (take 5 line.now) }
{
    kind_in(part(line, 0, 5))
}
