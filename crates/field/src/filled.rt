// A text in a field that is longer or shorter.
ghost use Rattle.std.specs.Prelude.{◌≡◌};
ghost use Rattle.field.specs.Filled.{filled_to};

use crate::bytes::{part, put};

// The first N characters of a text, filled with spaces.
pub fn filled_to<const N: usize>(text: &[u8]) -> [u8; N]
    ensures { result ≡ filled_to N text.now }
{
    let mut field = [b' '; N];
    put(part(text, 0, N), 0, &mut field);
    field
}
