// Making the layout and the rule that a settings line names.
ghost use Rattle.job.specs.Chosen.{MakesLayout, MakesRule};

use crate::chosen_layout::ChosenLayout;
use crate::chosen_rule::ChosenRule;
use layouts::grid::Grid;
use layouts::listing::Listing;
use refusals::Refusal;
use rules::nk::NK;
use rules::p_percent::PPercent;
use settings::{LayoutSetting, RuleSetting};

impl TryFrom<LayoutSetting> for ChosenLayout {
    type Error = Refusal;

    ghost try_from_gives = { MakesLayout };

    fn try_from(setting: LayoutSetting) -> Result<ChosenLayout, Refusal> {
        Ok(match setting {
            LayoutSetting::Grid { rows, columns } => ChosenLayout::Grid(Grid::new(rows, columns)?),
            LayoutSetting::List { leaves } => ChosenLayout::Leaves(Listing::new(leaves)?),
        })
    }
}

impl TryFrom<RuleSetting> for ChosenRule {
    type Error = Refusal;

    ghost try_from_gives = { MakesRule };

    fn try_from(setting: RuleSetting) -> Result<ChosenRule, Refusal> {
        Ok(match setting {
            RuleSetting::P { percent } => ChosenRule::P(PPercent::new(percent)?),
            RuleSetting::Nk { n, k } => ChosenRule::Nk(NK::new(n, k)?),
        })
    }
}
