// Descriptions: up to four texts of 32 characters each; fixed, an item's own, and both merged.
#![tactic(auto)]

ghost use Rattle.std.specs.Prelude.{◌≡◌, ◌++◌, ◌+◌, ◌*◌, ◌≤◌, length, take, drop};
ghost use Rattle.machine.specs.Lists.{spaces};
ghost use Rattle.descriptions.specs.Texts.{places, no_texts, merged, with_text};

use field::bytes::{part, put};
use field::filled::filled_to;

// Four places of 32 characters, of which the first so many are used.
#[derive(Clone, Copy)]
pub struct Descriptions {
    pub text: [u8; 128],
    pub count: u64,
}

// One's texts and then the other's in the places, and spaces.
fn texts_of_both(before: &[u8], after: &[u8]) -> [u8; 128]
    requires { length before.now + length after.now ≤ 128 }
    ensures { result ≡ (before.now ++ after.now) ++ drop (length before.now + length after.now)
        (spaces 128) }
{
    let mut text = [b' '; 128];
    put(before, 0, &mut text);
    put(after, before.len(), &mut text);
    text
}

// The fixed ones and then the item's own, cut to the first so many; unused places are spaces.
pub fn merge(fixed: Descriptions, own: Descriptions, limit: u64) -> Descriptions
    ensures { result ≡ merged fixed own limit }
{
    let most = limit.min(Descriptions::PLACES);
    let first = fixed.count.min(most);
    let rest = own.count.min(most - first);
    Descriptions {
        text: texts_of_both(fixed.first(first), own.first(rest)),
        count: first + rest,
    }
}

impl Descriptions {
    pub const PLACES: u64 = 4;

    pub fn none() -> Descriptions
        ensures { result ≡ no_texts }
    {
        Descriptions {
            text: [b' '; 128],
            count: 0,
        }
    }

    // The first so many texts.
    fn first(&self, count: u64) -> &[u8]
        requires { count ≤ places }
        ensures { result.now ≡ take (32 * count) self.now.text }
    {
        part(&self.text, 0, 32 * count as usize)
    }

    // One more at the next place: its first 32 characters, filled with spaces. Four stay as they are.
    pub fn with(mut self, text: &[u8]) -> Descriptions
        ensures { result ≡ with_text self text.now }
    {
        if self.count < Descriptions::PLACES {
            let filled: [u8; 32] = filled_to(text);
            put(&filled, 32 * self.count as usize, &mut self.text);
            self.count += 1;
        }
        self
    }
}
