// Running all acts of an office, from the contributions to the last answer.
ghost use Rattle.std.specs.Prelude.{◌≡◌, List, Ok, Err, Result, IfOk, MatchResult};
ghost use Rattle.std.specs.Fn.{FnOnceReturnsAtMut};
ghost use Rattle.refusals.specs.declared.Refusal.{Refusal};
ghost use Rattle.layouts.specs.Admission.{shape_of};
ghost use Rattle.layouts.specs.declared.memory.Contribution.{Contribution};
ghost use Rattle.layouts.specs.Shape.{Laws, Same, Shape};
ghost use Rattle.intake.specs.Chains.{held};
ghost use Rattle.intake.specs.Deposit.{deposited};
ghost use Rattle.runs.specs.Acts.{fresh};
ghost use Rattle.sheet.specs.Sheets.{figures_of, stands};
ghost use Rattle.office.specs.Office.{Answers, Fills, Ran, Refuses, entered, entered_after, figures_by, taken_in};

use crate::acts::{Act, Outcome};
use crate::performing::perform;
use intake::held::Intake;
use layouts::Layout;
use layouts::admission::admit;
use layouts::memory::Contribution;
use refusals::Refusal;
use rules::Rule;
use sheet::Sheet;
use std::alloc::{AllocError, Global};

// Performs the acts in their order, each on what its predecessor left, a refused one too.
fn run_acts(heap: Global, mut sheet: Sheet, acts: &[Act]) -> Result<Vec<Outcome>, AllocError>
    requires { stands sheet ≡ fresh }
    ensures { IfOk result (λ answers. Ran (figures_of sheet) acts.now answers.items) }
{
    let mut answers = Vec::with_capacity(heap, acts.len())?;
    for act in acts {
        answers.push(perform(heap, &mut sheet, act)?)?;
    }
    Ok(answers)
}

// Settles the intake and runs the acts, by the law of every layout that gives the answers that the intake goes by.
fn settle_and_run<R: Rule + Drop>(
    heap: Global,
    intake: Intake<R>,
    acts: &[Act],
) -> Result<Vec<Outcome>, AllocError>
    ensures { (s : Shape) → Laws s → Same s (shape_of intake.network) → IfOk result (λ answers. Ran (figures_by s (R.meaning intake.rule) (held intake.chains.records.items)) acts.now answers.items) }
{
    run_acts(heap, Sheet::new(intake.settle()), acts)
}

// Enters the contributions in their order, up to the first that is refused.
fn enter_all<R: Drop>(intake: &mut Intake<R>, contributions: &[Contribution]) -> Result<(), Refusal>
    ensures taken { MatchResult result (λ _. entered_after (shape_of intake.old.network) (held intake.old.chains.records.items) contributions.now ≡ Ok (held intake.new.chains.records.items)) (λ e. entered_after (shape_of intake.old.network) (held intake.old.chains.records.items) contributions.now ≡ Err e) }
    ensures same { (intake.new.network ≡ intake.old.network) × (intake.new.rule ≡ intake.old.rule) }
{
    for x in contributions {
        let _ = intake.enter(*x)?;
    }
    Ok(())
}

// Admits the layout, has the intake filled, settles it, and performs the acts.
fn run_filled<L: Layout, R: Rule + Drop, F: FnOnce(&mut Intake<R>) -> Result<(), Refusal>>(
    heap: Global,
    layout: &L,
    rule: R,
    fill: F,
    acts: &[Act],
) -> Result<Vec<Outcome>, Refusal>
    requires { F.IsAlwaysCallable fill }
    ensures { (asked : Result (List Contribution) Refusal) → Fills (L.shape layout.now) asked (FnOnceReturnsAtMut F.FnOnce fill) → MatchResult result (λ answers. Answers (L.shape layout.now) (R.meaning rule) (taken_in (L.shape layout.now) asked) acts.now answers.items) (λ e. Refuses (taken_in (L.shape layout.now) asked) e) }
{
    let mut intake = Intake::open(admit(heap, layout)?, rule);
    fill(&mut intake)?;
    Ok(settle_and_run(heap, intake, acts)?)
}

// Admits the layout, enters the contributions, settles, and performs the acts. All answers together are a run over the layout's own
// answers and the rule's meaning, and keep to the law.
pub fn run<L: Layout, R: Rule + Drop>(
    heap: Global,
    layout: &L,
    rule: R,
    contributions: &[Contribution],
    acts: &[Act],
) -> Result<Vec<Outcome>, Refusal>
    ensures { MatchResult result (λ answers. Answers (L.shape layout.now) (R.meaning rule) (taken_in (L.shape layout.now) (entered (L.shape layout.now) contributions.now)) acts.now answers.items) (λ e. Refuses (taken_in (L.shape layout.now) (entered (L.shape layout.now) contributions.now)) e) }
{
    run_filled(
        heap,
        layout,
        rule,
        |intake| enter_all(intake, contributions),
        acts,
    )
}

// The same with the contributions that a deposit holds.
pub fn run_deposit<L: Layout, R: Rule + Drop>(
    heap: Global,
    layout: &L,
    rule: R,
    deposit: &[u8],
    acts: &[Act],
) -> Result<Vec<Outcome>, Refusal>
    ensures { MatchResult result (λ answers. Answers (L.shape layout.now) (R.meaning rule) (taken_in (L.shape layout.now) (deposited (L.shape layout.now) 0 deposit.now)) acts.now answers.items) (λ e. Refuses (taken_in (L.shape layout.now) (deposited (L.shape layout.now) 0 deposit.now)) e) }
{
    run_filled(
        heap,
        layout,
        rule,
        |intake| intake.load(deposit).map(drop),
        acts,
    )
}
