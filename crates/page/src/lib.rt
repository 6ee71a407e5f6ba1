// Pages: a line of 19 bytes for each cell, with its figure or the letter D.
#![tactic(auto)]

ghost use Rattle.std.specs.Prelude.{◌≡◌, ◌+◌, ◌*◌, ◌<◌, true, length};
ghost use Rattle.std.specs.List.{list_all};
ghost use Rattle.page.specs.Laws.{PageLaws};
ghost use Rattle.page.specs.Page.{fits};
ghost use Rattle.page.specs.Writing.{if_room, line_left, line_over, line_room, page_left, page_room};

use refusals::Refusal;

mod columns;

use columns::fill_line;

// the bytes of a line
pub const LINE: usize = 19;

// a cell's number has four digits
const CELLS: usize = 10_000;

// a figure has 13 columns
const FIGURES: u64 = 10_000_000_000_000;

fn fits_columns(shown: Option<u64>) -> bool
    ensures { result ≡ fits shown }
{
    shown.is_none_or(|figure| figure < FIGURES)
}

fn all_fit(shown: &[Option<u64>]) -> bool
    ensures { result ≡ list_all fits shown.now }
{
    shown.iter().all(|figure| fits_columns(*figure))
}

fn line_fits(size: usize, cell: usize, shown: Option<u64>) -> bool
    ensures { result ≡ line_room size cell shown }
{
    cell < CELLS && fits_columns(shown) && LINE * cell + LINE <= size
}

fn page_fits(size: usize, shown: &[Option<u64>]) -> bool
    ensures { result ≡ page_room size shown.now }
{
    shown.len() <= CELLS && all_fit(shown) && LINE * shown.len() <= size
}

#[tactic(auto, unfolding(crate::specs::Writing::line_over))]
fn put_line(memory: &mut [u8], cell: usize, shown: Option<u64>)
    requires { line_room (length memory.old) cell shown ≡ true }
    ensures { memory.new ≡ line_over memory.old cell shown }
{
    fill_line(&mut memory[LINE * cell..LINE * cell + LINE], cell, shown);
}

// Writes the line of one cell to its place in a page's memory, if it has room and the line's columns hold what is shown.
pub fn write_line(memory: &mut [u8], cell: usize, shown: Option<u64>) -> Result<(), Refusal>
    ensures answer { result ≡ if_room (line_room (length memory.old) cell shown) tt }
    ensures after { memory.new ≡ line_left memory.old cell shown }
{
    if !line_fits(memory.len(), cell, shown) {
        return Err(Refusal::MemorySize);
    }
    put_line(memory, cell, shown);
    Ok(())
}

// Writes the page that shows these figures to the front of the memory, and answers how many bytes it has.
pub fn write_page(memory: &mut [u8], shown: &[Option<u64>]) -> Result<usize, Refusal>
    ensures answer { result ≡ if_room (page_room (length memory.old) shown.now) (19 * length shown.now) }
    ensures after { memory.new ≡ page_left memory.old shown.now }
    ensures laws { PageLaws }
{
    if !page_fits(memory.len(), shown) {
        return Err(Refusal::MemorySize);
    }
    for (cell, figure) in shown.iter().enumerate() {
        put_line(memory, cell, *figure);
    }
    Ok(LINE * shown.len())
}

#[cfg(test)]
mod tests {
    use super::*;
    use std::test::Fail;

    #[test]
    fn two_lines_and_what_stood_after_them(rt: HostRuntime) -> Result<(), Fail> {
        let mut memory = [7u8; 40];
        let size = write_page(&mut memory, &[Some(2048), None])?;
        assert!(rt; size == 38);
        assert!(rt; &memory[0..38] == b"0000          2048\n0001             D\n".as_slice());
        assert!(rt; memory[38] == 7);
        Ok(())
    }
}
