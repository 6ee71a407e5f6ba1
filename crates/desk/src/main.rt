// An office's desk: reads settings, contributions and a script of acts, runs the acts under the law, and tells each with its answer.
#![tactic(auto)]

use faults::Fault;
use intake::held::Intake;
use job::chosen_layout::ChosenLayout;
use job::chosen_rule::ChosenRule;
use layouts::admission::admit;
use office::acts::Outcome;
use office::running::run;
use refusals::Refusal;
use script::{Script, read_script};
use settings::{Settings, read_settings};
use sheet::Sheet;
use std::alloc::Global;
use std::io;
use std::io::Read;
use telling::tell_all;

mod faults;
mod script;
mod telling;

// A sheet of the same contributions, to look at cells between the acts.
fn open_sheet(heap: Global, settings: &Settings, script: &Script) -> Result<Sheet, Refusal> {
    let layout = ChosenLayout::try_from(settings.layout)?;
    let admitted = admit(heap, &layout)?;
    let mut intake = Intake::open(admitted, ChosenRule::try_from(settings.rule)?);
    for x in script.contributions.iter() {
        let _ = intake.enter(*x)?;
    }
    Ok(Sheet::new(intake.settle()))
}

// The answers to all acts of the script.
fn run_script(heap: Global, settings: &Settings, script: &Script) -> Result<Vec<Outcome>, Refusal> {
    let layout = ChosenLayout::try_from(settings.layout)?;
    let rule = ChosenRule::try_from(settings.rule)?;
    run(heap, &layout, rule, &script.contributions, &script.acts)
}

fn serve(rt: &HostRuntime) -> Result<(), Fault> {
    let mut input = Vec::new(rt.alloc());
    rt.stdin().read_to_end(&mut input)?;
    let (settings, rest) = read_settings(&input)?;
    let script = read_script(rt.alloc(), rest)?;
    let answers = run_script(rt.alloc(), &settings, &script)?;
    let sheet = open_sheet(rt.alloc(), &settings, &script)?;
    tell_all(rt, &script, &answers, sheet)?;
    Ok(())
}

fn main(rt: HostRuntime) -> io::Result<()> {
    match serve(&rt) {
        Ok(()) => Ok(()),
        Err(Fault::Io(error)) => Err(error),
        Err(Fault::Memory(error)) => Err(io::Error::from(error)),
        Err(fault) => {
            println!(rt; "{fault}")?;
            Err(io::Error::from(io::ErrorKind::InvalidInput))
        }
    }
}
