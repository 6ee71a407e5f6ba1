// The settings line that an input begins with: which layout and which rule a table is to have.
#![tactic(auto)]

ghost use Rattle.settings.specs.Line.{layout_text, rule_text, settings_text, ShortLayout, ShortRule, ShortSettings, ShortLine};
ghost use Rattle.settings.specs.Reading.{Exactly, ReadsSettings};

use refusals::Refusal;

mod choices;
pub mod numbers;

pub use choices::{LayoutSetting, RuleSetting, Settings};
use numbers::{Ending, read_number, read_pair};

// The numbers of a line have at most four digits.
const LARGEST_NUMBER: u32 = 9_999;

fn read_layout(bytes: &[u8]) -> Option<(LayoutSetting, &[u8])>
    ensures { Exactly ShortLayout layout_text bytes.now result }
{
    match bytes {
        [b'g', b'r', b'i', b'd', b' ', rest @ ..] => {
            let ((rows, columns), rest) = read_pair(rest, Ending::Blank, LARGEST_NUMBER).ok()?;
            Some((
                LayoutSetting::Grid {
                    rows: rows as usize,
                    columns: columns as usize,
                },
                rest,
            ))
        }
        [b'l', b'i', b's', b't', b' ', rest @ ..] => {
            let (leaves, rest) = read_number(rest, Ending::Blank, LARGEST_NUMBER).ok()?;
            Some((
                LayoutSetting::List {
                    leaves: leaves as usize,
                },
                rest,
            ))
        }
        _ => None,
    }
}

fn read_rule(bytes: &[u8]) -> Option<(RuleSetting, &[u8])>
    ensures { Exactly ShortRule rule_text bytes.now result }
{
    match bytes {
        [b'p', b' ', rest @ ..] => {
            let (percent, rest) = read_number(rest, Ending::Newline, LARGEST_NUMBER).ok()?;
            Some((
                RuleSetting::P {
                    percent: u64::from(percent),
                },
                rest,
            ))
        }
        [b'n', b'k', b' ', rest @ ..] => {
            let ((n, k), rest) = read_pair(rest, Ending::Newline, LARGEST_NUMBER).ok()?;
            Some((
                RuleSetting::Nk {
                    n: u64::from(n),
                    k: u64::from(k),
                },
                rest,
            ))
        }
        _ => None,
    }
}

fn read_line(bytes: &[u8]) -> Option<(Settings, &[u8])>
    ensures { Exactly ShortSettings settings_text bytes.now result }
{
    let (layout, rest) = read_layout(bytes)?;
    let (rule, rest) = read_rule(rest)?;
    Some((Settings { layout, rule }, rest))
}

// The settings that the input begins with, and what follows their line.
pub fn read_settings(input: &[u8]) -> Result<(Settings, &[u8]), Refusal>
    ensures reads { ReadsSettings input.now result }
    ensures short { ShortLine }
{
    read_line(input).ok_or(Refusal::SettingsForm)
}

#[cfg(test)]
mod tests {
    use super::*;
    use std::test::Fail;

    #[test]
    fn a_grid_with_what_follows(rt: HostRuntime) -> Result<(), Fail> {
        let (settings, rest) = read_settings(b"grid 2 2 nk 2 80\nmore")?;
        assert_eq!(rt;
            settings.layout,
            LayoutSetting::Grid {
                rows: 2,
                columns: 2
            }
        );
        assert_eq!(rt; settings.rule, RuleSetting::Nk { n: 2, k: 80 });
        assert_eq!(rt; rest, b"more".as_slice());
        Ok(())
    }

    #[test]
    fn a_leading_zero_is_refused(rt: HostRuntime) {
        assert!(rt; read_settings(b"list 09 p 15\n").is_err());
    }
}
