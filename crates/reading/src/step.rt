// The state after a record.
ghost use Rattle.std.specs.Prelude.{◌≡◌, false, ◌≤◌};
ghost use Rattle.format.specs.Rules.{max_fixed};
ghost use Rattle.record.specs.Kinds.{is_transaction};
ghost use Rattle.record.specs.Read.{values_of};
ghost use Rattle.format.specs.declared.Kind.TheVariants.{BatchHeaderB};
ghost use Rattle.reading.specs.State.{Bounded, Limited, max_line};
ghost use Rattle.reading.specs.Step.{onward, moved, opened_batch, opened, fixed_one, with_fixed, paid_batch, name_if};
ghost use Rattle.reading.specs.Step.{opened_item, paid, named, after_text, texted, with_batch, closed, closing};
ghost use Rattle.reading.specs.Step.{next_for};
ghost use Rattle.reading.specs.Bounds.{Roomy, Small};

use crate::{Name, OpenItem, Stage, State, no_item};
use format::Kind;
use record::read::value_at;
use record::types::{group_in, is_unchecked_type};
use record::{Batch, Before, ClosedBatch, Totals, TransactionFields};

fn opened_batch(line: &[u8]) -> Batch
    ensures { result ≡ opened_batch (values_of BatchHeaderB line.now) }
{
    Batch {
        account: value_at(line, 7, 10),
        items: 0,
        total: 0,
        accounts: 0,
        fixed: 0,
    }
}

fn fixed_one(b: Batch) -> Batch
    requires { b.fixed ≤ max_fixed }
    ensures { result ≡ fixed_one b }
{
    Batch {
        account: b.account,
        items: b.items,
        total: b.total,
        accounts: b.accounts,
        fixed: b.fixed + 1,
    }
}

fn paid_batch(b: Batch, t: TransactionFields) -> Batch
    requires batch { Roomy b }
    requires transaction { Small t }
    ensures { result ≡ paid_batch b t }
{
    Batch {
        account: b.account,
        items: b.items + 1,
        total: b.total + t.amount,
        accounts: (b.accounts + t.payer + t.beneficiary) % 10000000000,
        fixed: b.fixed,
    }
}

fn with_batch(t: Totals, b: Batch) -> Totals
    requires totals { Bounded t }
    requires batch { Roomy b }
    ensures { result ≡ with_batch t b }
{
    Totals {
        items: t.items + b.items,
        amount: t.amount + b.total,
    }
}

fn name_if(due: bool) -> Name
    ensures { result ≡ name_if due }
{
    if due { Name::Due } else { Name::Unwanted }
}

fn opened_item(t: TransactionFields) -> OpenItem
    ensures { result ≡ opened_item t }
{
    let kind = t.kind;
    let name = name_if(is_unchecked_type(kind));
    OpenItem {
        name,
        reference: false,
        descriptions: 0,
    }
}

fn after_text(n: Name) -> Name
    ensures { result ≡ after_text n }
{
    match n {
        Name::Unwanted => Name::Unwanted,
        Name::Due => Name::Due,
        Name::Read => Name::Past,
        Name::Past => Name::Past,
    }
}

impl State {
    // One line more: all that a record can change.
    fn onward(
        self,
        stage: Stage,
        before: Before,
        batch: Batch,
        totals: Totals,
        item: OpenItem,
    ) -> State
        requires { self.line ≤ max_line }
        ensures { result ≡ onward self stage before batch totals item }
    {
        State {
            line: self.line + 1,
            before,
            batch,
            totals,
            stage,
            item,
        }
    }

    fn moved(self, stage: Stage) -> State
        requires { self.line ≤ max_line }
        ensures { result ≡ moved self stage }
    {
        let before = self.before;
        let batch = self.batch;
        let item = self.item;
        let totals = self.totals;
        self.onward(stage, before, batch, totals, item)
    }

    fn opened(self, line: &[u8]) -> State
        requires { self.line ≤ max_line }
        ensures { result ≡ opened self (values_of BatchHeaderB line.now) }
    {
        let last = self.before;
        let group = group_in(line);
        let before = last.after_header(group, value_at(line, 17, 4));
        let batch = opened_batch(line);
        let item = no_item();
        let totals = self.totals;
        self.onward(Stage::Opened, before, batch, totals, item)
    }

    fn with_fixed(self) -> State
        requires line { self.line ≤ max_line }
        requires limited { Limited self }
        ensures { result ≡ with_fixed self }
    {
        let stage = self.stage;
        let before = self.before;
        let b = self.batch;
        let item = self.item;
        let batch = fixed_one(b);
        let totals = self.totals;
        self.onward(stage, before, batch, totals, item)
    }

    pub(crate) fn paid(self, t: TransactionFields) -> State
        requires line { self.line ≤ max_line }
        requires limited { Limited self }
        requires transaction { Small t }
        ensures { result ≡ paid self t }
    {
        let before = self.before;
        let b = self.batch;
        let batch = paid_batch(b, t);
        let item = opened_item(t);
        let totals = self.totals;
        self.onward(Stage::Item, before, batch, totals, item)
    }

    fn with_item(self, item: OpenItem) -> State
        requires { self.line ≤ max_line }
        ensures { result ≡ onward self self.stage self.before self.batch self.totals item }
    {
        let stage = self.stage;
        let before = self.before;
        let batch = self.batch;
        let totals = self.totals;
        self.onward(stage, before, batch, totals, item)
    }

    fn named(self, name: Name) -> State
        requires { self.line ≤ max_line }
        ensures { result ≡ named self name }
    {
        let i = self.item;
        let item = OpenItem {
            name,
            reference: i.reference,
            descriptions: i.descriptions,
        };
        self.with_item(item)
    }

    fn texted(self, reference: bool, descriptions: u8) -> State
        requires { self.line ≤ max_line }
        ensures { result ≡ texted self reference descriptions }
    {
        let i = self.item;
        let n = i.name;
        let name = after_text(n);
        let item = OpenItem {
            name,
            reference,
            descriptions,
        };
        self.with_item(item)
    }

    fn closed(self) -> State
        requires line { self.line ≤ max_line }
        requires limited { Limited self }
        ensures { result ≡ closed self }
    {
        let last = self.before;
        let group = last.group;
        let before = last.after_header(group, last.sequence);
        let b = self.batch;
        let t = self.totals;
        let totals = with_batch(t, b);
        let batch = Batch::empty();
        let item = no_item();
        self.onward(Stage::Closed, before, batch, totals, item)
    }

    // The batch that a trailer closes, as the state before the trailer has it.
    pub fn closing(self) -> ClosedBatch
        ensures { result ≡ closing self }
    {
        let before = self.before;
        let group = before.group;
        let batch = self.batch;
        ClosedBatch {
            group,
            account: batch.account,
            sequence: before.sequence,
            items: batch.items,
            total: batch.total,
            accounts: batch.accounts,
        }
    }

    // The state after a line of that kind, which is no transaction: `paid` has the one after that.
    pub(crate) fn after(self, k: Kind, line: &[u8]) -> State
        requires line { self.line ≤ max_line }
        requires limited { Limited self }
        requires other { is_transaction k ≡ false }
        ensures { result ≡ next_for self k (values_of k line.now) }
    {
        let i = self.item;
        match k {
            Kind::FileHeader => self.moved(Stage::Headed),
            Kind::BatchHeaderB => self.opened(line),
            Kind::BatchHeaderC => self.opened(line),
            Kind::FixedDescription => self.with_fixed(),
            Kind::OrderingParty => self.moved(Stage::Ordered),
            Kind::Transaction => self,
            Kind::NamePayer => self.named(Name::Read),
            Kind::CityPayer => self.named(Name::Past),
            Kind::PaymentReference => self.texted(true, i.descriptions),
            Kind::Description => self.texted(i.reference, i.descriptions + 1),
            Kind::NameBeneficiary => self.named(Name::Read),
            Kind::CityBeneficiary => self.named(Name::Past),
            Kind::BatchTrailer => self.closed(),
            Kind::FileTrailer => self.moved(Stage::Done),
        }
    }
}
