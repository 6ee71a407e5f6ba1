// Reads a rule and amounts, one a line, and tells whether they are sensitive and why.
#![tactic(auto)]

use judging::{Judgement, judge};
use refusals::Refusal;
use settings::RuleSetting;
use std::io;
use std::io::{BufRead, BufReader};
use thiserror::Error;

// Why an input is not judged.
#[derive(Debug, Drop, Error)]
enum Fault {
    #[error("line 1 is no rule")]
    NoRule,
    #[error("line {line} is no amount")]
    NoAmount { line: u64 },
    #[error(transparent)]
    Refused(#[from] Refusal),
    #[error(transparent)]
    Input(#[from] io::Error),
}

// A line `p 20` or `nk 2 80`.
fn read_rule(line: &str) -> Option<RuleSetting> {
    if let Some(percent) = line.strip_prefix("p ") {
        let percent = percent.parse().ok()?;
        return Some(RuleSetting::P { percent });
    }
    let (n, k) = line.strip_prefix("nk ")?.split_once(' ')?;
    let n = n.parse().ok()?;
    let k = k.parse().ok()?;
    Some(RuleSetting::Nk { n, k })
}

// The judgement by the rule on the first line over the amounts on all further lines.
fn judge_input(rt: &HostRuntime) -> Result<Judgement, Fault> {
    let heap = rt.alloc();
    let mut lines = BufReader::new(heap, rt.stdin())?.lines(heap);
    // After the end no more is read: a terminal would be asked again.
    let first = lines.next().transpose()?;
    let rule = first
        .map(|line| read_rule(line.as_str()))
        .ok_or(Fault::NoRule)?;
    let mut amounts = Vec::new(heap);
    for (number, line) in (2u64..).zip(lines) {
        let amount = line?
            .as_str()
            .parse::<u64>()
            .map_err(|_| Fault::NoAmount { line: number })?;
        amounts.push(amount).map_err(io::Error::from)?;
    }
    let rule = rule.ok_or(Fault::NoRule)?;
    Ok(judge(rule, &amounts)?)
}

fn main(rt: HostRuntime) -> io::Result<()> {
    match judge_input(&rt) {
        Ok(judgement) => println!(rt; "{judgement}"),
        Err(Fault::Input(error)) => Err(error),
        Err(fault) => {
            println!(rt; "{fault}")?;
            Err(io::Error::from(io::ErrorKind::InvalidInput))
        }
    }
}
