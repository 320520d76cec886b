//! How far a line goes within a limit.

ghost use Rattle.std.specs.Prelude.{◌≡◌};
ghost use Rattle.std.specs.Str.{chars};
ghost use Rattle.lsp_text.specs.Units.{units};
ghost use Rattle.lsp_text.specs.inner.Fitting.{fitting};

use crate::encoding::Encoding;

// The longest beginning of a line that counts at most the limit in one encoding: what it counts in another.
pub(crate) fn column(line: &str, within: Encoding, limit: usize, counted: Encoding) -> usize
    ensures { result ≡ units counted (fitting within limit (chars line.now)) }
{
    let mut left = limit;
    let mut count = 0;
    for character in line.chars() {
        let width = within.units(character);
        if width > left {
            return count;
        }
        left -= width;
        count += counted.units(character);
    }
    count
}
