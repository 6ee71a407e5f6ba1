// The columns of a line: the cell's number with leading zeros, and the figure right-aligned.
ghost use Rattle.std.specs.Prelude.{◌≡◌, ◌^◌, ◌<◌, true, length};
ghost use Rattle.page.specs.Page.{fits, line};

use itoa::write_digits;

// A line before its digits, or its letter D, are written over it.
const BLANK: &[u8] = b"0000              \n";

// Writes the whole line of a cell. A `write!` would answer whether it succeeded, and a line that has room is never refused.
#[tactic(auto, using(crate::proofs::Lines::columns))]
pub(crate) fn fill_line(part: &mut [u8], cell: usize, shown: Option<u64>)
    requires { (length part.old ≡ 19) × ((cell < 10 ^ 4) × (fits shown ≡ true)) }
    ensures { part.new ≡ line cell shown }
{
    part.copy_from_slice(BLANK);
    write_digits(cell as u64, part, 4);
    match shown {
        Some(figure) => {
            write_digits(figure, part, 18);
        }
        None => part[17] = b'D',
    }
}
