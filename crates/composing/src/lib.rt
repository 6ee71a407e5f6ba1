// Makes a deposit from text, so that a person can try the product.
#![tactic(auto)]

ghost use Rattle.std.specs.Prelude.{◌≡◌};
ghost use Rattle.settings.specs.Asked.{shape_asked};
ghost use Rattle.settings.specs.Line.{ShortLayout};
ghost use Rattle.composing.specs.Reading.{ComposesText};

use settings::{LayoutSetting, read_settings};
use std::alloc::Global;
use text::read_contributions;

mod deposit;
mod faults;
mod text;

pub use deposit::compose;
pub use faults::Fault;

fn count_cells(layout: LayoutSetting) -> u32
    requires { ShortLayout layout }
    ensures { result ≡ (shape_asked layout).cells }
{
    match layout {
        LayoutSetting::Grid { rows, columns } => (rows as u32 + 1) * (columns as u32 + 1),
        LayoutSetting::List { leaves } => leaves as u32 + 1,
    }
}

// The settings line as it was read, and then the deposit of the contributions on the lines after it.
pub fn compose_text(heap: Global, input: &[u8]) -> Result<Vec<u8>, Fault>
    ensures { ComposesText input.now result }
{
    let (settings, rest) = read_settings(input).map_err(|_| Fault::Settings)?;
    let contributions = read_contributions(heap, rest)?;
    let deposit = compose(heap, count_cells(settings.layout), &contributions)?;
    let mut out = Vec::from_slice(heap, &input[0..input.len() - rest.len()])?;
    out.extend_from_slice(&deposit)?;
    Ok(out)
}
