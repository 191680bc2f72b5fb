// The order of records: which kind may stand in a state.
ghost use Rattle.std.specs.Prelude.{◌≡◌};
ghost use Rattle.reading.specs.Step.{is_done};
ghost use Rattle.reading.specs.Order.{may_open, may_fix, may_end, may_pay};
ghost use Rattle.reading.specs.Order.{may_name, texts_by, may_text, may_refer, may_describe, allowed};

use crate::{Name, Stage, State};
use format::{Group, Kind};
use record::Batch;

#[tactic(auto, using(crate::proofs::Orders::orders), unfolding(crate::specs::Order::may_open))]
fn may_open(p: Stage) -> bool
    ensures { result ≡ may_open p }
{
    (p == Stage::Headed) | (p == Stage::Closed)
}

#[tactic(auto, using(crate::proofs::Orders::orders), unfolding(crate::specs::Order::may_fix))]
fn may_fix(p: Stage, fixed: u64) -> bool
    ensures { result ≡ may_fix p fixed }
{
    (p == Stage::Opened) & (fixed < Batch::MAX_FIXED)
}

#[tactic(auto, using(crate::proofs::Orders::orders), unfolding(crate::specs::Order::may_end))]
fn may_end(p: Stage, n: Name) -> bool
    ensures { result ≡ may_end p n }
{
    (p == Stage::Item) & (n != Name::Due)
}

#[tactic(auto, using(crate::proofs::Orders::orders), unfolding(crate::specs::Order::may_pay))]
fn may_pay(p: Stage, n: Name) -> bool
    ensures { result ≡ may_pay p n }
{
    (p == Stage::Ordered) | may_end(p, n)
}

#[tactic(auto, using(crate::proofs::Orders::orders), unfolding(crate::specs::Order::may_name))]
fn may_name(mine: Group, wanted: Name, p: Stage, g: Group, n: Name) -> bool
    ensures { result ≡ may_name mine wanted p g n }
{
    (p == Stage::Item) & ((g == mine) & (n == wanted))
}

#[tactic(auto, using(crate::proofs::Orders::texts))]
fn texts_by(g: Group, n: Name) -> bool
    ensures { result ≡ texts_by g n }
{
    match g {
        Group::Payments => (n == Name::Unwanted) | (n == Name::Due),
        Group::Debits => n != Name::Due,
    }
}

#[tactic(auto, using(crate::proofs::Orders::orders), unfolding(crate::specs::Order::may_text))]
fn may_text(p: Stage, g: Group, n: Name) -> bool
    ensures { result ≡ may_text p g n }
{
    (p == Stage::Item) & texts_by(g, n)
}

#[tactic(auto, using(crate::proofs::Orders::orders), unfolding(crate::specs::Order::may_refer))]
fn may_refer(p: Stage, g: Group, n: Name, reference: bool, descriptions: u8) -> bool
    ensures { result ≡ may_refer p g n reference descriptions }
{
    may_text(p, g, n) & (!reference & (descriptions == 0))
}

#[tactic(auto, using(crate::proofs::Orders::orders), unfolding(crate::specs::Order::may_describe))]
fn may_describe(p: Stage, g: Group, n: Name, reference: bool, descriptions: u8) -> bool
    ensures { result ≡ may_describe p g n reference descriptions }
{
    may_text(p, g, n) & ((descriptions as u64) < format::most_descriptions(reference))
}

impl State {
    // After the file trailer.
    #[tactic(auto, using(crate::proofs::Orders::stages))]
    pub fn is_done(self) -> bool
        ensures { result ≡ is_done self }
    {
        self.stage == Stage::Done
    }

    #[tactic(auto, using(crate::proofs::Orders::allowing))]
    pub(crate) fn allows(self, k: Kind) -> bool
        ensures { result ≡ allowed self k }
    {
        let p = self.stage;
        let g = self.before.group;
        let item = self.item;
        let n = item.name;
        match k {
            Kind::FileHeader => p == Stage::Start,
            Kind::BatchHeaderB => may_open(p),
            Kind::BatchHeaderC => may_open(p),
            Kind::FixedDescription => may_fix(p, self.batch.fixed),
            Kind::OrderingParty => p == Stage::Opened,
            Kind::Transaction => may_pay(p, n),
            Kind::NamePayer => may_name(Group::Debits, Name::Due, p, g, n),
            Kind::CityPayer => may_name(Group::Debits, Name::Read, p, g, n),
            Kind::PaymentReference => may_refer(p, g, n, item.reference, item.descriptions),
            Kind::Description => may_describe(p, g, n, item.reference, item.descriptions),
            Kind::NameBeneficiary => may_name(Group::Payments, Name::Due, p, g, n),
            Kind::CityBeneficiary => may_name(Group::Payments, Name::Read, p, g, n),
            Kind::BatchTrailer => may_end(p, n),
            Kind::FileTrailer => p == Stage::Closed,
        }
    }
}
