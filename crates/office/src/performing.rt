// Performing one act on a sheet.
ghost use Rattle.std.specs.Prelude.{◌≡◌, IfOk, OnErr};
ghost use Rattle.runs.specs.Acts.{print, witness};
ghost use Rattle.sheet.specs.Sheets.{Acted};
ghost use Rattle.office.specs.Histories.{act_of, answer_of};

use crate::acts::{Act, Answer, LONGEST_PAGE, Outcome};
use layouts::admission::MOST_CELLS;
use sheet::Sheet;
use std::alloc::{AllocError, Global};

// Prints into as many bytes as are asked for, or as the longest page has where that is less.
fn print_page(heap: Global, sheet: &mut Sheet, memory: usize) -> Result<Outcome, AllocError>
    ensures acted { IfOk result (λ a. Acted sheet.old (print memory) (answer_of a) sheet.new) }
    ensures unchanged { OnErr result (sheet.new ≡ sheet.old) }
{
    let mut bytes = vec![in heap; 0; memory.min(LONGEST_PAGE)]?;
    Ok(
        sheet.print(&mut bytes).map(|count| {
            bytes.truncate(count);
            Answer::Page(bytes)
        }),
    )
}

// Writes a witness into room for as many figures as are asked for, or as there are cells at most where that is less.
fn write_table(
    heap: Global,
    sheet: &mut Sheet,
    cell: usize,
    side: usize,
    memory: usize,
) -> Result<Outcome, AllocError>
    ensures acted { IfOk result (λ a. Acted sheet.old (witness cell side memory) (answer_of a) sheet.new) }
    ensures unchanged { OnErr result (sheet.new ≡ sheet.old) }
{
    let mut figures = vec![in heap; 0; memory.min(MOST_CELLS)]?;
    Ok(
        sheet.witness(cell, side, &mut figures).map(|count| {
            figures.truncate(count);
            Answer::Table(figures)
        }),
    )
}

// Performs the act, in memory got for it beforehand. Want of memory leaves the sheet as it was.
pub(crate) fn perform(heap: Global, sheet: &mut Sheet, act: &Act) -> Result<Outcome, AllocError>
    ensures acted { IfOk result (λ a. Acted sheet.old (act_of act.now) (answer_of a) sheet.new) }
    ensures unchanged { OnErr result (sheet.new ≡ sheet.old) }
{
    match act {
        Act::Withhold(cells) => Ok(sheet.withhold(cells).map(Answer::Count)),
        Act::Search => Ok(Ok(Answer::Count(sheet.search()))),
        Act::Print { memory } => print_page(heap, sheet, *memory),
        Act::Witness { cell, side, memory } => write_table(heap, sheet, *cell, *side, *memory),
    }
}
