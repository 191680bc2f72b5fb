// The answer to one who asks for an item.
ghost use Rattle.std.specs.Prelude.{◌≡◌, length};
ghost use Rattle.items.specs.Search.{no_fields};
ghost use Rattle.items.specs.Answering.{answered, texts_found, answered_by, room_by, is_within, answered_at};
ghost use Rattle.items.specs.Answering.{room_at, item_of, room_after};
ghost use Rattle.items.specs.Promises.{Promised};

use crate::{Found, ItemRead, Search, no_fields};
use descriptions::merge;
use field::bytes::put;
use format::Answer;
use record::Batch;

fn refused(answer: Answer) -> ItemRead
    ensures { result ≡ answered answer no_fields }
{
    ItemRead {
        answer,
        fields: no_fields(),
    }
}

impl Found {
    // At most four descriptions of a kind.
    fn is_within(self) -> bool
        ensures { result ≡ is_within self }
    {
        (self.fixed.count <= Batch::MAX_FIXED) & (self.own.count <= format::MAX_DESCRIPTIONS)
    }

    // The fixed descriptions and then the item's own, in four places of 32 characters.
    fn texts(self) -> [u8; 128]
        ensures { result ≡ texts_found self }
    {
        let most = format::most_descriptions(self.referred);
        merge(self.fixed, self.own, most).text
    }
}

impl Search {
    // By the file's own answer: its refusal; 13; 12; or the item, with its descriptions in the first 128 bytes of the
    // room.
    fn hand_out(self, file: Answer, out: &mut [u8]) -> ItemRead
        ensures answer { result ≡ answered_by self file (length out.old) }
        ensures bytes { out.new ≡ room_by self file out.old }
    {
        if file.number != 0 {
            return refused(file);
        }
        let fields = self.found.fields;
        if fields.kind.is_none() {
            return refused(Answer::refusal(format::NO_SUCH_ITEM, file.line, 0));
        }
        if out.len() < 128 {
            return refused(Answer::refusal(format::NO_ROOM, file.line, 0));
        }
        put(&self.found.texts(), 0, out);
        ItemRead {
            answer: Answer::accepted(file.line),
            fields,
        }
    }

    // After all lines of a file, by the file's own answer; 24 where the search handed in has over four descriptions of
    // a kind.
    pub fn answered(self, file: Answer, out: &mut [u8]) -> ItemRead
        ensures answer { result ≡ answered_at self file (length out.old) }
        ensures bytes { out.new ≡ room_at self file out.old }
    {
        if self.found.is_within() {
            return self.hand_out(file, out);
        }
        refused(Answer::refusal(format::BEYOND_LIMITS, 0, 0))
    }
}

// Item k of batch b of a file, each from 1; and what the answer means: of a file of the language it is that item of
// its reading, or 13 where it has none, and of other bytes the file's own refusal.
pub fn item(file: &[u8], batch: u64, item: u64, out: &mut [u8]) -> ItemRead
    ensures answer { result ≡ item_of file.now batch item (length out.old) }
    ensures bytes { out.new ≡ room_after file.now batch item out.old }
    ensures meaning { Promised file.now batch item out.old result out.new }
{
    let answer = file::check(file).answer;
    Search::start(batch, item).lines(file).hand_out(answer, out)
}
