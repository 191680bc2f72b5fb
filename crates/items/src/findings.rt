// What is found of the wanted item, record by record.
ghost use Rattle.std.specs.Prelude.{◌≡◌};
ghost use Rattle.items.specs.Search.{nothing_found, with_item, with_fixed, with_own, with_reference, with_name};

use crate::{Found, ItemFields, no_fields};
use descriptions::Descriptions;
use field::filled::filled_to;
use record::TransactionFields;

impl Found {
    pub(crate) fn nothing() -> Found
        ensures { result ≡ nothing_found }
    {
        Found {
            fixed: Descriptions::none(),
            own: Descriptions::none(),
            referred: false,
            fields: no_fields(),
        }
    }

    pub(crate) fn with_item(self, t: TransactionFields) -> Found
        ensures { result ≡ with_item self t }
    {
        let fields = ItemFields {
            kind: t.kind,
            amount: t.amount,
            payer: t.payer,
            beneficiary: t.beneficiary,
            ..self.fields
        };
        Found { fields, ..self }
    }

    pub(crate) fn with_fixed(self, text: &[u8]) -> Found
        ensures { result ≡ with_fixed self text.now }
    {
        let fixed = self.fixed.with(text);
        Found { fixed, ..self }
    }

    pub(crate) fn with_own(self, text: &[u8]) -> Found
        ensures { result ≡ with_own self text.now }
    {
        let own = self.own.with(text);
        Found { own, ..self }
    }

    pub(crate) fn with_reference(mut self, text: &[u8]) -> Found
        ensures { result ≡ with_reference self text.now }
    {
        self.fields.reference = filled_to(text);
        self.referred = true;
        self
    }

    pub(crate) fn with_name(mut self, text: &[u8]) -> Found
        ensures { result ≡ with_name self text.now }
    {
        self.fields.name = filled_to(text);
        self
    }
}
