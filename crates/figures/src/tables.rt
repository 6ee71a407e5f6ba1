// The worked tables: grid A, grid B, and the 4 by 4 table of the literature.
use intake::held::Intake;
use layouts::admission::admit;
use layouts::grid::Grid;
use layouts::memory::Contribution;
use refusals::Refusal;
use rules::p_percent::PPercent;
use sheet::Sheet;
use std::alloc::Global;

// Contributions of one amount at a leaf, each of a company of its own: the leaf, how many, and the amount.
type Group = (usize, u32, u64);

// The intake of a grid with as many rows as columns, under the P% rule.
pub fn open_square(heap: Global, side: usize, p: u64) -> Result<Intake<PPercent>, Refusal> {
    let admitted = admit(heap, &Grid::new(side, side)?)?;
    Ok(Intake::open(admitted, PPercent::new(p)?))
}

fn enter_group(intake: &mut Intake<PPercent>, group: Group) -> Result<(), Refusal> {
    let (leaf, many, amount) = group;
    for company in 0..many {
        let _ = intake.enter(Contribution {
            leaf,
            company,
            amount,
        })?;
    }
    Ok(())
}

// The sheet of a square grid into which the groups were entered in turn.
fn square_sheet(heap: Global, side: usize, p: u64, groups: &[Group]) -> Result<Sheet, Refusal> {
    let mut intake = open_square(heap, side, p)?;
    for group in groups {
        enter_group(&mut intake, *group)?;
    }
    Ok(Sheet::new(intake.settle()))
}

// Grid A has twenty of 1 in cell 1, and grid B nineteen.
pub fn grid_sheet(heap: Global, ones: u32) -> Result<Sheet, Refusal> {
    let groups = [
        (0, 1, 150),
        (0, 1, 40),
        (0, 1, 10),
        (1, ones, 1),
        (3, 4, 25),
        (4, 4, 75),
    ];
    square_sheet(heap, 2, 20, &groups)
}

// The first cell is one contribution of 100, and every other cell as many of 1 as its figure.
const LITERATURE: [Group; 16] = [
    (0, 1, 100),
    (1, 12, 1),
    (2, 5, 1),
    (3, 250, 1),
    (5, 12, 1),
    (6, 12, 1),
    (7, 5, 1),
    (8, 5, 1),
    (10, 40, 1),
    (11, 200, 1),
    (12, 90, 1),
    (13, 300, 1),
    (15, 5, 1),
    (16, 70, 1),
    (17, 50, 1),
    (18, 5, 1),
];

pub fn literature_sheet(heap: Global) -> Result<Sheet, Refusal> {
    square_sheet(heap, 4, 15, &LITERATURE)
}
