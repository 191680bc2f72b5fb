// An item of a file, for other languages.
ghost use Rattle.std.specs.Prelude.{◌≡◌, [], ◌≤◌, length};
ghost use Rattle.items.specs.Answering.{item_of};
ghost use Rattle.items.specs.Promises.{Promised};
ghost use Rattle.clieop_c.specs.Returned.{packed, type_number, item_asked, numbers_with, texts_with};
ghost use Rattle.clieop_c.specs.Returned.{fields_back, item_numbers, item_texts, Held, item_found, ItemPromised};

use crate::pack;
use field::bytes::put;
use format::TransactionType;
use items::{ItemFields, ItemRead};

// A type as a number, 0 where there is none.
#[tactic(auto, unfolding(crate::specs::Returned::number_of, machine::specs::Digits::value_after))]
fn type_number(kind: Option<TransactionType>) -> u64
    ensures { result ≡ type_number kind }
{
    match kind {
        Some(y) => y as u64,
        None => 0,
    }
}

// The numbers of an item.
fn put_numbers(fields: ItemFields, numbers: &mut [u64])
    requires { 4 ≤ length numbers.old }
    ensures { numbers.new ≡ numbers_with fields numbers.old }
{
    numbers[..4].copy_from_slice(&[
        type_number(fields.kind),
        fields.amount,
        fields.payer,
        fields.beneficiary,
    ]);
}

// The reference and the name, behind the descriptions.
fn put_texts(fields: ItemFields, texts: &mut [u8])
    requires { 168 ≤ length texts.old }
    ensures texts { texts.new ≡ texts_with fields texts.old }
    ensures found { fields_back fields texts.new ≡ fields }
{
    put(&fields.reference, 128, texts);
    put(&fields.name, 144, texts);
}

// What is answered without room for the item.
fn without_room(file: &[u8], batch: u64, item: u64) -> ItemRead
    ensures answer { result ≡ item_of file.now batch item 0 }
    ensures meaning { Promised file.now batch item [] result [] }
{
    items::item(file, batch, item, &mut [])
}

// The item, handed out where there is room for all of it; and what `items::item` promises, with the first 128 bytes as
// its room.
fn hand_out(file: &[u8], batch: u64, item: u64, texts: &mut [u8], numbers: &mut [u64]) -> ItemRead
    ensures answer { result
        ≡ item_asked file.now batch item (length texts.old) (length numbers.old) }
    ensures numbers { numbers.new ≡ item_numbers result numbers.old }
    ensures texts { texts.new
        ≡ item_texts file.now batch item texts.old (length numbers.old) }
    ensures held { Held result texts.new }
    ensures meaning { ItemPromised file.now batch item texts.old result texts.new
        (length numbers.old) }
{
    if numbers.len() < 4 || texts.len() < 168 {
        return without_room(file, batch, item);
    }
    let r = items::item(file, batch, item, texts);
    if r.answer.number == 0 {
        put_texts(r.fields, texts);
        put_numbers(r.fields, numbers);
    }
    r
}

// Item `item` of batch `batch`, each from 1: its type, amount, payer and beneficiary to the first four of `numbers`;
// the four descriptions, the reference and the name to the first 168 bytes of `texts`.
#[unsafe(no_mangle)]
pub extern "C" fn clieop_item(
    file: &[u8],
    batch: u64,
    item: u64,
    texts: &mut [u8],
    numbers: &mut [u64],
) -> u64
    ensures number { result ≡ packed
        (item_asked file.now batch item (length texts.old)
        (length numbers.old)).answer }
    ensures numbers { numbers.new ≡ item_numbers
        (item_asked file.now batch item (length texts.old) (length numbers.old))
        numbers.old }
    ensures texts { texts.new
        ≡ item_texts file.now batch item texts.old (length numbers.old) }
    ensures found { item_found result numbers.new texts.new
        ≡ item_asked file.now batch item (length texts.old) (length numbers.old) }
    ensures meaning { ItemPromised file.now batch item texts.old
        (item_found result numbers.new texts.new) texts.new (length numbers.old) }
{
    let r = hand_out(file, batch, item, texts, numbers);
    pack(r.answer)
}
