// Reads a settings line and a deposit, and writes the page of the table, or the line of its refusal.
#![tactic(auto)]

use job::suppressing::{LONGEST_INPUT, suppress};
use std::io;
use std::io::{Read, Write};

// All of standard input, or one byte more than an input may have.
fn read_input(rt: &HostRuntime) -> io::Result<Vec<u8>> {
    let mut input = Vec::new(rt.alloc());
    rt.stdin()
        .take(LONGEST_INPUT as u64 + 1)
        .read_to_end(&mut input)?;
    Ok(input)
}

fn main(rt: HostRuntime) -> io::Result<()> {
    let input = read_input(&rt)?;
    match suppress(rt.alloc(), &input) {
        Ok(page) => rt.stdout().write_all(&page),
        Err(refusal) => {
            println!(rt; "{refusal}")?;
            Err(io::Error::from(io::ErrorKind::InvalidInput))
        }
    }
}
