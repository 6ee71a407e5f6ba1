// Why a list of amounts is sensitive, or is not: the figures that a rule goes by, and its need.
#![tactic(auto)]

ghost use Rattle.std.specs.Prelude.{◌≡◌, Some};
ghost use Rattle.std.specs.Fmt.{WritesOnOk};
ghost use Rattle.judging.specs.Judged.{judged};
ghost use Rattle.judging.specs.Told.{told, verdict_text};
ghost use Rattle.settings.specs.declared.choices.RuleSetting.TheVariants.{P as ask_p, Nk as ask_nk};

use refusals::Refusal;
use rules::need_of;
use rules::nk::NK;
use rules::p_percent::PPercent;
use settings::RuleSetting;
use std::fmt;

// The figures that the rule goes by, over the amounts told.
#[derive(Clone, Copy)]
pub enum Judgement {
    P {
        percent: u64,
        count: usize,
        total: u64,
        largest: u64,
        second: u64,
        remainder: u64,
        need: u64,
    },
    Nk {
        n: u64,
        k: u64,
        count: usize,
        total: u64,
        of_largest: u64,
        need: u64,
    },
}

// The rule is the one that was asked for, in or out of its range.
pub fn judge(asked: RuleSetting, amounts: &[u64]) -> Result<Judgement, Refusal>
    ensures { result ≡ judged asked amounts.now }
{
    match asked {
        RuleSetting::P { percent } => judge_p(percent, amounts),
        RuleSetting::Nk { n, k } => judge_nk(n, k, amounts),
    }
}

#[tactic(auto, using(crate::proofs::Judging::accepted_all))]
fn judge_p(percent: u64, amounts: &[u64]) -> Result<Judgement, Refusal>
    ensures { result ≡ judged (ask_p percent) amounts.now }
{
    let mut rule = PPercent::new(percent)?;
    let need = need_of(&mut rule, amounts)?;
    let told = rule.told;
    Ok(Judgement::P {
        percent,
        count: amounts.len(),
        total: told.total,
        largest: told.first,
        second: told.second,
        remainder: told.remainder(),
        need,
    })
}

fn judge_nk(n: u64, k: u64, amounts: &[u64]) -> Result<Judgement, Refusal>
    ensures { result ≡ judged (ask_nk n k) amounts.now }
{
    let mut rule = NK::new(n, k)?;
    let need = need_of(&mut rule, amounts)?;
    let told = rule.told;
    Ok(Judgement::Nk {
        n,
        k,
        count: amounts.len(),
        total: told.total,
        of_largest: told.of_largest(n),
        need,
    })
}

// The judgement in the words of an office.
impl fmt::Display for Judgement {
    ghost output = { λ j. Some (told j) };

    fn fmt<W: fmt::Write>(&self, f: &mut fmt::Formatter<W>) -> fmt::Result {
        match self {
            Judgement::P {
                percent,
                count,
                total,
                largest,
                second,
                remainder,
                need,
            } => {
                writeln!(f, "rule: p-percent with P {percent}")?;
                writeln!(f, "amounts: {count}, in all T = {total}")?;
                writeln!(
                    f,
                    "the largest L = {largest}, the second largest S = {second}"
                )?;
                writeln!(f, "the remainder T - L - S = {remainder}")?;
                sensitive(f, *need, "100 x remainder is below P x L")
            }
            Judgement::Nk {
                n,
                k,
                count,
                total,
                of_largest,
                need,
            } => {
                writeln!(f, "rule: (n,k) with N {n} and K {k}")?;
                writeln!(f, "amounts: {count}, in all T = {total}")?;
                writeln!(f, "the {n} largest together X = {of_largest}")?;
                sensitive(f, *need, "100 x X is above K x T")
            }
        }
    }
}

// Whether there is a need, and why.
fn sensitive<W: fmt::Write>(f: &mut fmt::Formatter<W>, need: u64, since: &str) -> fmt::Result
    ensures { WritesOnOk W.write_str_gives f.old result (verdict_text need since.now) f.new }
{
    if need > 0 {
        writeln!(f, "sensitive: yes, since {since}")?;
        write!(f, "need: {need}")
    } else {
        write!(f, "sensitive: no")
    }
}
