// The worked cases, each printed with its outcome.
use crate::tables::open_square;
use layouts::admission::admit;
use layouts::grid::Grid;
use layouts::memory::{Contribution, Mark};
use page::LINE;
use refusals::{Refusal, Side};
use sheet::Sheet;
use std::alloc::Global;
use std::io;

// The largest of the worked tables has as many cells.
const CELLS: usize = 25;

const PAGE: usize = LINE * CELLS;

fn outcome(rt: &HostRuntime, what: &str, answer: Result<usize, Refusal>) -> io::Result<()> {
    match answer {
        Ok(count) => println!(rt; "  {what}: {count}"),
        Err(refusal) => println!(rt; "  {what}: {refusal}"),
    }
}

fn list_complements(rt: &HostRuntime, sheet: &Sheet) -> io::Result<()> {
    print!(rt; "  complements:")?;
    for cell in 0..CELLS {
        if let Ok(row) = sheet.look(cell)
            && row.mark == Mark::Complement
        {
            print!(rt; " {cell}")?;
        }
    }
    println!(rt; "")
}

// Works a case on its sheet, or prints why there is none.
fn work<F: FnOnce(Sheet) -> io::Result<()>>(
    rt: &HostRuntime,
    made: Result<Sheet, Refusal>,
    case: F,
) -> io::Result<()>
    requires { F.IsAlwaysCallable case }
{
    match made {
        Ok(sheet) => case(sheet),
        Err(refusal) => println!(rt; "  {refusal}"),
    }
}

// Withholds a list, and prints a page.
pub fn printing(rt: &HostRuntime, made: Result<Sheet, Refusal>, cells: &[usize]) -> io::Result<()> {
    work(rt, made, |mut sheet| {
        let mut page = [0u8; PAGE];
        outcome(rt, "withhold", sheet.withhold(cells))?;
        list_complements(rt, &sheet)?;
        outcome(rt, "print", sheet.print(&mut page))
    })
}

// Searches from no complements.
pub fn searching(rt: &HostRuntime, made: Result<Sheet, Refusal>) -> io::Result<()> {
    work(rt, made, |mut sheet| {
        outcome(rt, "search", Ok(sheet.search()))?;
        list_complements(rt, &sheet)
    })
}

// A list that is too long leaves the earlier complements standing.
pub fn long_list(rt: &HostRuntime, made: Result<Sheet, Refusal>) -> io::Result<()> {
    work(rt, made, |mut sheet| {
        outcome(rt, "withhold", sheet.withhold(&[1, 3, 4]))?;
        outcome(rt, "withhold 513 entries", sheet.withhold(&[2; 513]))?;
        list_complements(rt, &sheet)
    })
}

// After a page, a printed cell cannot be withheld any more.
pub fn printed_twice(rt: &HostRuntime, made: Result<Sheet, Refusal>) -> io::Result<()> {
    work(rt, made, |mut sheet| {
        let mut page = [0u8; PAGE];
        outcome(rt, "withhold", sheet.withhold(&[1, 3, 4]))?;
        outcome(rt, "print", sheet.print(&mut page))?;
        outcome(rt, "withhold 1 2", sheet.withhold(&[1, 2]))?;
        list_complements(rt, &sheet)
    })
}

// Witnesses of cell 0 on both sides, and its figure in each.
fn list_witnesses(rt: &HostRuntime, sheet: &mut Sheet) -> io::Result<()> {
    let mut table = [0u64; CELLS];
    outcome(
        rt,
        "witness above",
        sheet.witness(0, Side::Up.into(), &mut table),
    )?;
    let above = table[0];
    outcome(
        rt,
        "witness below",
        sheet.witness(0, Side::Down.into(), &mut table),
    )?;
    let below = table[0];
    println!(rt; "  cell 0 may be {above} or {below}")
}

// Withholds a list, and asks for the witnesses.
pub fn witnessing(
    rt: &HostRuntime,
    made: Result<Sheet, Refusal>,
    cells: &[usize],
) -> io::Result<()> {
    work(rt, made, |mut sheet| {
        outcome(rt, "withhold", sheet.withhold(cells))?;
        list_witnesses(rt, &mut sheet)
    })
}

fn open_grid(heap: Global, rows: usize) -> Result<usize, Refusal> {
    let admitted = admit(heap, &Grid::new(rows, 31)?)?;
    Ok(admitted.memory.rows.len())
}

pub fn opening(rt: &HostRuntime, rows: usize) -> io::Result<()> {
    println!(rt; "grid {rows} by 31")?;
    outcome(rt, "cells", open_grid(rt.alloc(), rows))
}

fn enter_one(heap: Global, amount: u64) -> Result<usize, Refusal> {
    open_square(heap, 2, 20)?.enter(Contribution {
        leaf: 0,
        company: 1,
        amount,
    })
}

pub fn entering(rt: &HostRuntime, amount: u64) -> io::Result<()> {
    println!(rt; "amount {amount}")?;
    outcome(rt, "held", enter_one(rt.alloc(), amount))
}
