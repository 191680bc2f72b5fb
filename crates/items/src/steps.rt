// The search for an item, line by line.
ghost use Rattle.std.specs.Prelude.{◌≡◌, true, false};
ghost use Rattle.format.specs.Cutting.{lines_in};
ghost use Rattle.format.specs.declared.Kind.TheVariants as kinds;
ghost use Rattle.record.specs.Read.{transaction_for, values_of};
ghost use Rattle.items.specs.Search.{started, headed, opened, finding, text_of, after_line, after_lines};

use crate::{Found, Search};
use field::bytes::part;
use field::lines::lines_in;
use format::Kind;
use record::kinds::{begins, is_header, is_name};
use record::read::{text_part, transaction_at};

// The text of a line of that kind.
fn text_at(line: &[u8], kind: Kind) -> &[u8]
    ensures { result.now ≡ text_of kind line.now }
{
    let p = text_part(kind);
    part(line, p.at, p.width)
}

impl Search {
    // Before the first line.
    pub fn start(batch: u64, item: u64) -> Search
        ensures { result ≡ started batch item }
    {
        Search {
            batches: batch,
            items: item,
            inside: false,
            here: false,
            found: Found::nothing(),
        }
    }

    // At a batch header.
    fn headed(self) -> Search
        ensures { result ≡ headed self }
    {
        Search {
            batches: self.batches.saturating_sub(1),
            inside: self.batches == 1,
            here: false,
            ..self
        }
    }

    // At a transaction, whose fields are read of the wanted item only.
    fn opened(self, line: &[u8]) -> Search
        ensures { result ≡ opened self (transaction_for (values_of kinds.Transaction line.now)) }
    {
        if !self.inside {
            return self;
        }
        let items = self.items.saturating_sub(1);
        if self.items == 1 {
            let found = self.found.with_item(transaction_at(line));
            return Search {
                items,
                here: true,
                found,
                ..self
            };
        }
        Search {
            items,
            here: false,
            ..self
        }
    }

    // With the text of a line, where the batch or the item that it tells of is open.
    fn told<F: FnOnce(Found, &[u8]) -> Found>(self, wanted: bool, text: &[u8], tell: F) -> Search
        requires { F.pre tell self.found text }
        ensures on { wanted ≡ true
            → (found : Found) × F.post tell self.found text.entry found × (result ≡ finding self found) }
        ensures off { wanted ≡ false → result ≡ self }
    {
        if wanted {
            return Search {
                found: tell(self.found, text),
                ..self
            };
        }
        self
    }

    // A line, by the code and variant that it begins with.
    fn line(self, line: &[u8]) -> Search
        ensures { result ≡ after_line self line.now }
    {
        if begins(line, Kind::Transaction) {
            return self.opened(line);
        }
        if begins(line, Kind::PaymentReference) {
            let text = text_at(line, Kind::PaymentReference);
            return self.told(self.here, text, Found::with_reference);
        }
        if begins(line, Kind::Description) {
            let text = text_at(line, Kind::Description);
            return self.told(self.here, text, Found::with_own);
        }
        if is_name(line) {
            let text = text_at(line, Kind::NamePayer);
            return self.told(self.here, text, Found::with_name);
        }
        if begins(line, Kind::FixedDescription) {
            let text = text_at(line, Kind::FixedDescription);
            return self.told(self.inside, text, Found::with_fixed);
        }
        if is_header(line) {
            return self.headed();
        }
        self
    }

    // All lines of some bytes.
    pub fn lines(self, bytes: &[u8]) -> Search
        ensures { result ≡ after_lines self (lines_in bytes.now) }
    {
        lines_in(bytes).fold(self, Search::line)
    }
}
