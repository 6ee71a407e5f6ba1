// Reads a settings line and contributions, and writes the settings line and the deposit.
#![tactic(auto)]

use composing::compose_text;
use std::io;
use std::io::{Read, Write};

fn main(rt: HostRuntime) -> io::Result<()> {
    let heap = rt.alloc();
    let mut input = Vec::new(heap);
    rt.stdin().read_to_end(&mut input)?;
    match compose_text(heap, &input) {
        Ok(bytes) => rt.stdout().write_all(&bytes),
        // The fault's line stands on standard output, as the deposit would.
        Err(fault) => {
            println!(rt; "{fault}")?;
            Err(io::Error::from(io::ErrorKind::InvalidInput))
        }
    }
}
