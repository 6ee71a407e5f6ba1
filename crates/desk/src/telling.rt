// Telling acts, answers and cells in words.
use crate::script::Script;
use layouts::memory::{Mark, Row};
use office::acts::{Act, Answer, LONGEST_PAGE, Outcome};
use refusals::Refusal;
use sheet::Sheet;
use std::io;
use std::io::Write;

fn sentence(refusal: Refusal) -> &'static str {
    match refusal {
        Refusal::UnknownCell { .. } => "there is no such cell",
        Refusal::AlreadyPrinted { .. } => "the cell is printed already",
        Refusal::NotSensitive { .. } => "the cell is not sensitive",
        Refusal::MemorySize => "the list is too long, or the memory too short",
        Refusal::Exposed { .. } => "a reader could tell the cell too closely",
        _ => "see the table of refusals",
    }
}

fn tell_act(rt: &HostRuntime, act: &Act) -> io::Result<()> {
    match act {
        Act::Withhold(cells) => println!(rt; "withhold {} cells", cells.len()),
        Act::Search => println!(rt; "search"),
        Act::Print { .. } => println!(rt; "print"),
        Act::Witness { cell, side, .. } => println!(rt; "witness {cell} {side}"),
    }
}

fn tell_answer(rt: &HostRuntime, answer: &Outcome) -> io::Result<()> {
    match answer {
        Ok(Answer::Count(count)) => println!(rt; "  accepted, {count} cells"),
        Ok(Answer::Page(page)) => rt.stdout().write_all(page),
        Ok(Answer::Table(table)) => {
            println!(rt; "  accepted, a table that a reader must hold possible:")?;
            for figure in table.iter() {
                print!(rt; " {figure}")?;
            }
            println!(rt; "")
        }
        Err(refusal) => {
            println!(rt; "  {refusal}: {}; all stands as it was", sentence(*refusal))
        }
    }
}

fn word_of(mark: Mark) -> &'static str {
    match mark {
        Mark::Open => "open",
        Mark::Sensitive => "sensitive",
        Mark::Complement => "complement",
        Mark::Printed => "printed",
        Mark::Barred => "barred",
    }
}

fn tell_cell(rt: &HostRuntime, cell: usize, looked: Result<Row, Refusal>) -> io::Result<()> {
    match looked {
        Ok(Row { figure, need, mark }) => {
            println!(rt;
                "look {cell}: figure {figure}, need {need}, {}",
                word_of(mark)
            )
        }
        Err(refusal) => println!(rt; "look {cell}: {refusal}"),
    }
}

// Performs the act once more, on the sheet that is looked at.
fn follow(sheet: &mut Sheet, act: &Act) {
    match act {
        Act::Withhold(cells) => {
            let _ = sheet.withhold(cells);
        }
        Act::Search => {
            let _ = sheet.search();
        }
        Act::Print { .. } => {
            let mut page = [0u8; LONGEST_PAGE];
            let _ = sheet.print(&mut page);
        }
        Act::Witness { .. } => {}
    }
}

fn tell_looks(rt: &HostRuntime, script: &Script, after: usize, sheet: &Sheet) -> io::Result<()> {
    let first = script.looks.partition_point(|look| look.after < after);
    let looks = script.looks[first..].iter();
    for look in looks.take_while(|look| look.after == after) {
        tell_cell(rt, look.cell, sheet.look(look.cell))?;
    }
    Ok(())
}

// Each act with its answer, and between them the looks.
pub fn tell_all(
    rt: &HostRuntime,
    script: &Script,
    answers: &[Outcome],
    mut sheet: Sheet,
) -> io::Result<()> {
    for (i, (act, answer)) in script.acts.iter().zip(answers).enumerate() {
        tell_looks(rt, script, i, &sheet)?;
        tell_act(rt, act)?;
        tell_answer(rt, answer)?;
        follow(&mut sheet, act);
    }
    tell_looks(rt, script, script.acts.len(), &sheet)
}
