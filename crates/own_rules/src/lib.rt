// An association's own rule, written against the trait: a list of fewer than three contributors needs its whole sum.
#![tactic(auto)]

ghost use Rattle.std.specs.Prelude.{◌≡◌, ◌*◌, ◌≤◌, length, sum};
ghost use Rattle.own_rules.specs.Few.{few_need};
ghost use Rattle.own_rules.specs.FewLaws.{few_bound, few_order};

use refusals::Refusal;
use rules::Rule;
use rules::telling::verdict;

#[derive(Clone, Copy)]
pub struct FewContributors {
    total: u64,
    count: usize,
    ghost ok: { (count ≤ 2048) × (total ≤ count * 1000000000) },
}

impl FewContributors {
    pub fn new() -> FewContributors
        ensures { (result.total ≡ 0) × (result.count ≡ 0) }
    {
        FewContributors { total: 0, count: 0 }
    }
}

impl Rule for FewContributors {
    ghost meaning = { λ _ xs. few_need xs };

    ghost stands = { λ r xs. (r.total ≡ sum xs) × (r.count ≡ length xs) };

    ghost bound = { λ _ xs. few_bound xs };

    ghost order = { λ _ xs ys s. few_order xs ys s };

    fn begin(&mut self) {
        *self = FewContributors::new();
    }

    fn tell(&mut self, amount: u64) -> Result<(), Refusal> {
        verdict(0, amount, self.count)?;
        *self = FewContributors {
            total: self.total + amount,
            count: self.count + 1,
        };
        Ok(())
    }

    fn need(&self) -> u64 {
        if self.count < 3 { self.total } else { 0 }
    }
}

#[cfg(test)]
mod tests {
    use super::*;
    use rules::need_of;
    use rules::nk::NK;
    use rules::p_percent::PPercent;
    use std::test::Fail;

    #[test]
    fn worked_needs(rt: HostRuntime) -> Result<(), Fail> {
        let mut p = PPercent::new(20)?;
        assert_eq!(rt; need_of(&mut p, &[250, 100, 25])?, 25);
        assert_eq!(rt; need_of(&mut p, &[250, 100, 50])?, 0);
        assert_eq!(rt; need_of(&mut p, &[250, 100, 49])?, 1);
        let mut nk = NK::new(2, 80)?;
        assert_eq!(rt; need_of(&mut nk, &[50, 30, 10])?, 10);
        assert_eq!(rt; need_of(&mut nk, &[50, 22, 18])?, 0);
        let mut few = FewContributors::new();
        assert_eq!(rt; need_of(&mut few, &[4, 3])?, 7);
        assert_eq!(rt; need_of(&mut few, &[4, 3, 1])?, 0);
        Ok(())
    }

    #[test]
    fn limits(rt: HostRuntime) -> Result<(), Fail> {
        let mut p = PPercent::new(20)?;
        let zeros = [0; 2049];
        assert_eq!(rt; number(need_of(&mut p, &[1_000_000_000])), 0);
        assert_eq!(rt; number(need_of(&mut p, &[1_000_000_001])), 8);
        assert_eq!(rt; number(need_of(&mut p, &zeros[0..2048])), 0);
        assert_eq!(rt; number(need_of(&mut p, &zeros)), 9);
        Ok(())
    }

    #[test]
    fn ranges(rt: HostRuntime) {
        assert!(rt;
            PPercent::new(0).is_err() && PPercent::new(101).is_err() && PPercent::new(100).is_ok()
        );
        assert!(rt; NK::new(0, 80).is_err() && NK::new(4, 80).is_err() && NK::new(3, 99).is_ok());
        assert!(rt; NK::new(2, 49).is_err() && NK::new(2, 100).is_err() && NK::new(1, 50).is_ok());
    }

    // The number of the refusal, or 0.
    fn number(answer: Result<u64, Refusal>) -> usize {
        answer.map_or_else(|refusal| refusal.number(), |_| 0)
    }
}
