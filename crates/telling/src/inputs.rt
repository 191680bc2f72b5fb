// The names of inputs.
ghost use Rattle.std.specs.Prelude.{◌≡◌};
ghost use Rattle.page.specs.Lines.{with_text};
ghost use Rattle.telling.specs.Names.{input_name};

use page::put_text;

// The name of an input; standard input has an empty one.
pub fn input_name(name: &[u8]) -> &[u8]
    ensures { result.now ≡ input_name name.now }
{
    if name.is_empty() {
        return b"standard input";
    }
    name
}

// The same onto a lent page.
pub fn put_name(page: &mut [u8], at: usize, name: &[u8]) -> usize
    ensures { (page.new, result) ≡ with_text (page.old, at) (input_name name.now) }
{
    put_text(page, at, input_name(name))
}
