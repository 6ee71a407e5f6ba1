// Reading a deposit: its numbers, and the walk over its chains up to the first fault.
ghost use Rattle.std.specs.Prelude.{◌≡◌, ◌+◌, ◌*◌, ◌≤◌, true, false, [], length, replicate, Ok, is_ok, vec_len, vec_capacity};
ghost use Rattle.std.specs.Result.{result_and};
ghost use Rattle.layouts.specs.Admission.{shape_of};
ghost use Rattle.intake.specs.Deposit.{contribution, counted, link, walk, word};
ghost use Rattle.intake.specs.Walks.{RecordInside};

use layouts::memory::Contribution;
use layouts::network::Network;
use refusals::Refusal;
use rules::telling::{LARGEST_AMOUNT, MOST_CONTRIBUTIONS};

fn word(bytes: &[u8], place: usize) -> u32
    requires { 4 * place + 4 ≤ length bytes.now }
    ensures { result ≡ word bytes.now place }
{
    let at = 4 * place;
    u32::from_le_bytes([bytes[at], bytes[at + 1], bytes[at + 2], bytes[at + 3]])
}

// The place of the record that a link names, if it names one.
fn link(bytes: &[u8], place: usize) -> Option<usize>
    requires { 4 * place + 4 ≤ length bytes.now }
    ensures { result ≡ link (word bytes.now place) }
{
    (word(bytes, place) as usize).checked_sub(1)
}

// The record count, after the checks of the length, of the cell count and of the room.
pub(crate) fn count_records(bytes: &[u8], cells: usize, held: usize) -> Result<usize, Refusal>
    requires { (cells ≤ 512) × (held ≤ 2048) }
    ensures { result ≡ counted cells held bytes.now }
{
    if bytes.len() < 8 {
        return Err(Refusal::DepositLength);
    }
    let heads = word(bytes, 0) as usize;
    let records = word(bytes, 1) as usize;
    if bytes.len() != 8 + 4 * heads + 12 * records {
        return Err(Refusal::DepositLength);
    }
    if heads != cells {
        return Err(Refusal::DepositCells);
    }
    if held + records > MOST_CONTRIBUTIONS {
        return Err(Refusal::TooManyContributions);
    }
    Ok(records)
}

// The record at that place, as a contribution at the cell.
fn contribution(bytes: &[u8], cells: usize, cell: usize, at: usize) -> Contribution
    requires { RecordInside (length bytes.now) cells at }
    ensures { result ≡ contribution cells bytes.now cell at }
{
    let place = 2 + cells + 3 * at;
    Contribution {
        leaf: cell,
        company: word(bytes, place),
        amount: word(bytes, place + 1) as u64,
    }
}

// The contributions of the chains, cell after cell and link after link, go to `pending`; the first fault met is the answer.
fn walk_chains(
    bytes: &[u8],
    network: &Network,
    seen: &mut [bool],
    pending: &mut Vec<Contribution>,
) -> Result<(), Refusal>
    requires sizes { length bytes.now ≡ 8 + 4 * vec_len network.now.edges + 12 * length seen.old }
    requires room { (length seen.old ≤ 2048) × (2048 ≤ vec_capacity pending.old) }
    requires none { (pending.old.items ≡ []) × (seen.old ≡ replicate (length seen.old) false) }
    ensures walked { walk (shape_of network.now) bytes.now (length seen.old) (vec_len network.now.edges) 0 seen.old ≡ result_and result (Ok pending.new.items) }
    ensures capacity { 2048 ≤ vec_capacity pending.new }
    ensures many { is_ok result ≡ true → vec_len pending.new ≡ length seen.old }
{
    let cells = network.edges.len();
    let records = seen.len();
    'walk: {
        for (cell, edge) in network.edges.iter().enumerate() {
            let mut next = link(bytes, 2 + cell);
            if next.is_some() && !edge.leaf {
                break 'walk Err(Refusal::NotALeaf { cell });
            }
            while let Some(at) = next {
                if at >= records {
                    break 'walk Err(Refusal::LinkTooLarge { cell });
                }
                if seen[at] {
                    break 'walk Err(Refusal::RecordReached { cell });
                }
                let x = contribution(bytes, cells, cell, at);
                if x.amount > LARGEST_AMOUNT {
                    break 'walk Err(Refusal::AmountTooLarge { cell });
                }
                seen[at] = true;
                pending.push_reserved(x);
                next = link(bytes, 4 + cells + 3 * at);
            }
        }
        if pending.len() < records {
            break 'walk Err(Refusal::RecordUnreached);
        }
        Ok(())
    }
}

// Reads the chains of a deposit with that many records into `pending`.
pub(crate) fn read_chains(
    bytes: &[u8],
    network: &Network,
    records: usize,
    seen: &mut Vec<bool>,
    pending: &mut Vec<Contribution>,
) -> Result<(), Refusal>
    requires sizes { (length bytes.now ≡ 8 + 4 * vec_len network.now.edges + 12 * records) × (records ≤ 2048) }
    requires room { (vec_len seen.old ≡ 2048) × (2048 ≤ vec_capacity pending.old) }
    ensures walked { walk (shape_of network.now) bytes.now records (vec_len network.now.edges) 0 (replicate records false) ≡ result_and result (Ok pending.new.items) }
    ensures capacity { 2048 ≤ vec_capacity pending.new }
    ensures many { is_ok result ≡ true → vec_len pending.new ≡ records }
    ensures long { vec_len seen.new ≡ 2048 }
{
    let marks = &mut seen[..records];
    marks.fill(false);
    pending.clear();
    walk_chains(bytes, network, marks, pending)
}
