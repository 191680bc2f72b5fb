// The item reader: item k of batch b of a file, each from 1.
#![tactic(auto)]

ghost use Rattle.std.specs.Prelude.{◌≡◌};
ghost use Rattle.items.specs.Search.{no_fields};

use descriptions::Descriptions;
use format::{Answer, TransactionType};

mod answer;
mod findings;
mod steps;

pub use answer::item;

// An item's own fields, of its name the first 24 characters; no type, zeros and spaces where there is none.
#[derive(Clone, Copy)]
pub struct ItemFields {
    pub kind: Option<TransactionType>,
    pub amount: u64,
    pub payer: u64,
    pub beneficiary: u64,
    pub reference: [u8; 16],
    pub name: [u8; 24],
}

// The fixed descriptions of the wanted batch, and the wanted item's own descriptions and fields.
#[derive(Clone, Copy)]
pub struct Found {
    pub fixed: Descriptions,
    pub own: Descriptions,
    pub referred: bool,
    pub fields: ItemFields,
}

// A search so far: the batch headers and then the transactions still to come, up to the wanted one; whether the wanted
// batch and item are open; and what was found.
#[derive(Clone, Copy)]
pub struct Search {
    pub batches: u64,
    pub items: u64,
    pub inside: bool,
    pub here: bool,
    pub found: Found,
}

// What is answered to one who asks for an item.
#[derive(Clone, Copy)]
pub struct ItemRead {
    pub answer: Answer,
    pub fields: ItemFields,
}

fn no_fields() -> ItemFields
    ensures { result ≡ no_fields }
{
    ItemFields {
        kind: None,
        amount: 0,
        payer: 0,
        beneficiary: 0,
        reference: [b' '; 16],
        name: [b' '; 24],
    }
}
