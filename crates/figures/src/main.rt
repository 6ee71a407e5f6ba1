// Runs the worked cases through the public calls, and prints each with its outcome.
#![tactic(auto)]

use cases::{entering, long_list, opening, printed_twice, printing, searching, witnessing};
use std::io;
use tables::{grid_sheet, literature_sheet};

mod cases;
mod tables;

fn main(rt: HostRuntime) -> io::Result<()> {
    let heap = rt.alloc();
    println!(rt; "grid A")?;
    printing(&rt, grid_sheet(heap, 20), &[1, 3])?;
    searching(&rt, grid_sheet(heap, 20))?;
    long_list(&rt, grid_sheet(heap, 20))?;
    printed_twice(&rt, grid_sheet(heap, 20))?;
    println!(rt; "grid B")?;
    printing(&rt, grid_sheet(heap, 19), &[1, 3, 4])?;
    searching(&rt, grid_sheet(heap, 19))?;
    println!(rt; "the 4 by 4 table")?;
    printing(&rt, literature_sheet(heap), &[2, 7, 8, 15, 18])?;
    printing(&rt, literature_sheet(heap), &[1, 2, 5, 6, 7, 8, 15, 18])?;
    witnessing(&rt, literature_sheet(heap), &[1, 2, 5, 6, 7, 8, 15, 18])?;
    println!(rt; "limits")?;
    opening(&rt, 15)?;
    opening(&rt, 16)?;
    entering(&rt, 1_000_000_000)?;
    entering(&rt, 1_000_000_001)
}
