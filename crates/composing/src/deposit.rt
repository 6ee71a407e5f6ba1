// A deposit from contributions: the chain of each leaf in their order, and the bytes.
ghost use Rattle.std.specs.Prelude.{◌≡◌, ℕ, ◌^◌, ◌<◌, ◌++◌, length, IfOk, OnOk, MatchResult, slice_index, slice_index_or};
ghost use Rattle.std.specs.List.{flat_map};
ghost use Rattle.composing.specs.Composed.{fault_of, Composes};
ghost use Rattle.composing.specs.Deposit.{numbers as deposit_numbers, number_bytes, records, next_at, Linked, Chained};

use crate::faults::Fault;
use layouts::memory::Contribution;
use std::alloc::{AllocError, Global};
use std::mem;

// The first fault of contributions that no deposit can hold.
fn check(cells: u32, contributions: &[Contribution]) -> Result<(), Fault>
    ensures { MatchResult result (λ _. fault_of cells contributions.now ≡ None) (λ e. fault_of cells contributions.now ≡ Some e) }
{
    if contributions.len() > u32::MAX as usize {
        return Err(Fault::TooMany);
    }
    for (i, x) in contributions.iter().enumerate() {
        let line = i + 2;
        if x.leaf >= cells as usize {
            return Err(Fault::UnknownLeaf { line });
        }
        if x.amount > u64::from(u32::MAX) {
            return Err(Fault::TooLarge { line });
        }
    }
    Ok(())
}

// From the last contribution back, so that the head of a leaf is always its first record among those done.
fn link(contributions: &[Contribution], heads: &mut [u32], nexts: &mut [u32])
    requires fits { fault_of (length heads.old) contributions.now ≡ None }
    requires clear { (l : ℕ) → l < length heads.old → slice_index heads.old l ≡ 0 }
    requires long { length nexts.old ≡ length contributions.now }
    ensures { Linked contributions.now heads.new nexts.new }
{
    for (i, x) in contributions.iter().enumerate().rev() {
        nexts[i] = mem::replace(&mut heads[x.leaf], (i + 1) as u32);
    }
}

fn push_records(
    numbers: &mut Vec<u32>,
    contributions: &[Contribution],
    nexts: &[u32],
) -> Result<(), AllocError>
    requires fits { (k : ℕ) → k < length contributions.now → (slice_index_or contributions.now k (record { leaf = 0; company = 0; amount = 0 })).amount < 2 ^ 32 }
    requires long { length nexts.now ≡ length contributions.now }
    requires linked { (k : ℕ) → k < length contributions.now → slice_index nexts.now k ≡ next_at contributions.now k }
    ensures { OnOk result (numbers.new.items ≡ numbers.old.items ++ records 1 contributions.now) }
{
    for (x, next) in contributions.iter().zip(nexts) {
        numbers.extend_from_slice(&[x.company, x.amount as u32, *next])?;
    }
    Ok(())
}

// The chains of the leaves, in vectors: the heads, and the next of each record.
fn chains(
    heap: Global,
    cells: u32,
    contributions: &[Contribution],
) -> Result<(Vec<u32>, Vec<u32>), AllocError>
    requires { fault_of cells contributions.now ≡ None }
    ensures { IfOk result (λ p. Chained cells contributions.now p.0.items p.1.items) }
{
    let mut heads = vec![in heap; 0; cells as usize]?;
    let mut nexts = vec![in heap; 0; contributions.len()]?;
    link(contributions, &mut heads, &mut nexts);
    Ok((heads, nexts))
}

fn list_numbers(
    heap: Global,
    cells: u32,
    contributions: &[Contribution],
) -> Result<Vec<u32>, AllocError>
    requires { fault_of cells contributions.now ≡ None }
    ensures { IfOk result (λ v. v.items ≡ deposit_numbers cells contributions.now) }
{
    let (heads, nexts) = chains(heap, cells, contributions)?;
    let mut numbers = vec![in heap; cells, contributions.len() as u32]?;
    numbers.extend_from_slice(&heads)?;
    push_records(&mut numbers, contributions, &nexts)?;
    Ok(numbers)
}

// Each number in four bytes, the low byte first.
fn write_numbers(heap: Global, numbers: &[u32]) -> Result<Vec<u8>, AllocError>
    ensures { IfOk result (λ v. v.items ≡ flat_map number_bytes numbers.now) }
{
    let mut out = Vec::new(heap);
    for number in numbers {
        out.extend_from_slice(&number.to_le_bytes())?;
    }
    Ok(out)
}

// The deposit of the contributions under a layout of so many cells.
pub fn compose(heap: Global, cells: u32, contributions: &[Contribution]) -> Result<Vec<u8>, Fault>
    ensures { Composes cells contributions.now result }
{
    check(cells, contributions)?;
    let numbers = list_numbers(heap, cells, contributions)?;
    Ok(write_numbers(heap, &numbers)?)
}
