// From the input to the page.
ghost use Rattle.std.specs.Prelude.{◌≡◌, IsOk, MatchResult};
ghost use Rattle.job.specs.Chosen.{shape_of};
ghost use Rattle.job.specs.Job.{Printed, Refused, page_in, too_large, unless_refused};

use crate::chosen_layout::ChosenLayout;
use crate::chosen_rule::ChosenRule;
use layouts::admission::is_admissible;
use office::acts::{Act, Answer, LONGEST_PAGE, Outcome};
use office::running::run_deposit;
use refusals::Refusal;
use settings::read_settings;
use std::alloc::Global;

pub const LONGEST_INPUT: usize = 40_000;

fn check_size(layout: &ChosenLayout, size: usize) -> Result<(), Refusal>
    ensures { result ≡ unless_refused (too_large (shape_of layout.now) size) }
{
    if !is_admissible(layout) {
        return Err(Refusal::LayoutTooLarge);
    }
    if size > LONGEST_INPUT {
        return Err(Refusal::DepositLength);
    }
    Ok(())
}

// The page in the last answer to a search and a print, which by the law is not refused.
fn page_of(last: Outcome) -> Result<Vec<u8>, Refusal>
    requires { IsOk (page_in last) }
    ensures { result ≡ page_in last }
{
    match last? {
        Answer::Page(page) => Ok(page),
        _ => unreachable!(),
    }
}

// Reads the settings line, makes the layout and the rule, and has the office load the deposit, settle, search and print.
pub fn suppress(heap: Global, input: &[u8]) -> Result<Vec<u8>, Refusal>
    ensures { MatchResult result (λ page. Printed input.now page.items) (λ e. Refused input.now e) }
{
    let (settings, deposit) = read_settings(input)?;
    let layout = ChosenLayout::try_from(settings.layout)?;
    let rule = ChosenRule::try_from(settings.rule)?;
    check_size(&layout, input.len())?;
    let acts = [
        Act::Search,
        Act::Print {
            memory: LONGEST_PAGE,
        },
    ];
    let mut answers = run_deposit(heap, &layout, rule, deposit, &acts)?;
    page_of(answers.pop().unwrap())
}
