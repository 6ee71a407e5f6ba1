// The script: contributions, acts, and looks at cells, a line each.
use crate::faults::Fault;
use layouts::admission::MOST_CELLS;
use layouts::memory::Contribution;
use office::acts::{Act, LONGEST_PAGE};
use std::alloc::{AllocError, Global};
use std::num::ParseIntError;
use std::str::FromStr;
use thiserror::Error;

// A look at a cell, after so many acts.
#[derive(Clone, Copy)]
pub struct Look {
    pub after: usize,
    pub cell: usize,
}

// The looks stand in their order, so that those after the same number of acts stand together.
#[derive(Drop)]
pub struct Script {
    pub contributions: Vec<Contribution>,
    pub acts: Vec<Act>,
    pub looks: Vec<Look>,
}

#[derive(Drop)]
enum Line {
    Contributed(Contribution),
    Acted(Act),
    Looked(usize),
}

// Why a line is not read.
#[derive(Debug, Drop, Error)]
enum LineFault {
    #[error("a word is wanting or left over")]
    Words,
    #[error(transparent)]
    NoNumber(#[from] ParseIntError),
    #[error(transparent)]
    Memory(#[from(alloc)] AllocError),
}

impl LineFault {
    // The fault of a script whose line of that number this is.
    fn at(self, line: usize) -> Fault {
        match self {
            LineFault::Words | LineFault::NoNumber(_) => Fault::UnknownLine(line),
            LineFault::Memory(error) => Fault::Memory(error),
        }
    }
}

fn number<T: FromStr<Err = ParseIntError>>(word: Option<&str>) -> Result<T, LineFault> {
    Ok(word.ok_or(LineFault::Words)?.parse::<T>()?)
}

// A line `leaf company amount`.
fn read_contribution(line: &str) -> Result<Contribution, LineFault> {
    let mut words = line.split(' ');
    let leaf = number(words.next())?;
    let company = number(words.next())?;
    let amount = number(words.next())?;
    match words.next() {
        None => Ok(Contribution {
            leaf,
            company,
            amount,
        }),
        Some(_) => Err(LineFault::Words),
    }
}

fn read_cells(heap: Global, words: &str) -> Result<Vec<usize>, LineFault> {
    let mut cells = Vec::new(heap);
    for word in words.split(' ') {
        cells.push(word.parse::<usize>()?)?;
    }
    Ok(cells)
}

fn read_witness(words: &str) -> Result<Act, LineFault> {
    let mut words = words.split(' ');
    let cell = number(words.next())?;
    let side = number(words.next())?;
    Ok(Act::Witness {
        cell,
        side,
        memory: MOST_CELLS,
    })
}

fn read_line(heap: Global, line: &str) -> Result<Line, LineFault> {
    Ok(match line {
        "search" => Line::Acted(Act::Search),
        "print" => Line::Acted(Act::Print {
            memory: LONGEST_PAGE,
        }),
        "withhold" => Line::Acted(Act::Withhold(Vec::new(heap))),
        _ => match line.split_once(' ') {
            Some(("withhold", list)) => Line::Acted(Act::Withhold(read_cells(heap, list)?)),
            Some(("witness", rest)) => Line::Acted(read_witness(rest)?),
            Some(("look", cell)) => Line::Looked(cell.parse::<usize>()?),
            _ => Line::Contributed(read_contribution(line)?),
        },
    })
}

// The script in the text after the settings line. Empty lines are passed over.
pub fn read_script(heap: Global, text: &[u8]) -> Result<Script, Fault> {
    let mut script = Script {
        contributions: Vec::new(heap),
        acts: Vec::new(heap),
        looks: Vec::new(heap),
    };
    let text = std::str::from_utf8(text).map_err(|_| Fault::UnknownLine(2))?;
    for (number, line) in (2usize..).zip(text.lines()) {
        if line.is_empty() {
            continue;
        }
        match read_line(heap, line).map_err(|fault| fault.at(number))? {
            Line::Contributed(x) => script.contributions.push(x)?,
            Line::Acted(act) => script.acts.push(act)?,
            Line::Looked(cell) => script.looks.push(Look {
                after: script.acts.len(),
                cell,
            })?,
        }
    }
    Ok(script)
}
