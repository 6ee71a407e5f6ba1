// Reads the text that a deposit is made of.
ghost use Rattle.settings.specs.Reading.{Reads};
ghost use Rattle.composing.specs.Reading.{ContributionWrong, ReadsLine, ReadsAll};
ghost use Rattle.composing.specs.Text.{contribution_text, SmallContribution};

use crate::faults::Fault;
use layouts::memory::Contribution;
use settings::numbers::{Ending, NumberFault, read_number};
use std::alloc::Global;

fn read_contribution(bytes: &[u8]) -> Result<(Contribution, &[u8]), NumberFault>
    ensures { Reads SmallContribution contribution_text bytes.now ContributionWrong result }
{
    let (leaf, rest) = read_number(bytes, Ending::Blank, u32::MAX)?;
    let (company, rest) = read_number(rest, Ending::Blank, u32::MAX)?;
    let (amount, rest) = read_number(rest, Ending::Newline, u32::MAX)?;
    Ok((
        Contribution {
            leaf: leaf as usize,
            company,
            amount: u64::from(amount),
        },
        rest,
    ))
}

// The contribution on a line, or the fault of the line.
fn read_line(bytes: &[u8], line: usize) -> Result<(Contribution, &[u8]), Fault>
    ensures { ReadsLine line bytes.now result }
{
    read_contribution(bytes).map_err(|fault| Fault::on_line(line, fault))
}

// All contributions, the first of them on line 2.
pub(crate) fn read_contributions(heap: Global, text: &[u8]) -> Result<Vec<Contribution>, Fault>
    ensures { ReadsAll text.now result }
{
    let mut contributions = Vec::new(heap);
    let mut rest = text;
    while !rest.is_empty() {
        let line = contributions.len() + 2;
        let (contribution, after) = read_line(rest, line)?;
        contributions.push(contribution)?;
        rest = after;
    }
    Ok(contributions)
}
