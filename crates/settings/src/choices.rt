// What a settings line can choose. The ranges of the numbers are no matter of the line; whoever makes the layout and the rule checks them.
#[derive(Clone, Copy, Debug, PartialEq, Eq)]
pub enum LayoutSetting {
    Grid { rows: usize, columns: usize },
    List { leaves: usize },
}

#[derive(Clone, Copy, Debug, PartialEq, Eq)]
pub enum RuleSetting {
    P { percent: u64 },
    Nk { n: u64, k: u64 },
}

#[derive(Clone, Copy, Debug, PartialEq, Eq)]
pub struct Settings {
    pub layout: LayoutSetting,
    pub rule: RuleSetting,
}
