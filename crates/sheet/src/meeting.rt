// A cell meets an event: its own mark and the event together decide the next mark.
ghost use Rattle.std.specs.Prelude.{◌≡◌, true};
ghost use Rattle.sheet.specs.Cells.{is_cell};
ghost use Rattle.sheet.specs.Events.{met};
ghost use Rattle.sheet.specs.Records.{Made, row_of};

use crate::cell::Cell;
use crate::events::Event;
use layouts::memory::{Mark, Row};

// A row whose need, figure and mark go together is the record of a cell; another is given back.
impl TryFrom<Row> for Cell {
    type Error = Row;

    ghost try_from_gives = { Made };

    fn try_from(row: Row) -> Result<Cell, Row> {
        let Row { figure, need, mark } = row;
        if need > figure {
            return Err(row);
        }
        let tied = match mark {
            Mark::Open | Mark::Complement | Mark::Printed => need == 0,
            Mark::Sensitive => need > 0,
            Mark::Barred => false,
        };
        if tied {
            Ok(Cell { figure, need, mark })
        } else {
            Err(row)
        }
    }
}

impl From<Cell> for Row {
    ghost from_gives = { λ cell row. row ≡ row_of cell };

    fn from(cell: Cell) -> Row {
        let Cell { figure, need, mark } = cell;
        Row { figure, need, mark }
    }
}

impl Cell {
    pub(crate) fn meet(&mut self, event: Event)
        ensures { row_of self.new ≡ met (row_of self.old) event }
    {
        let figure = self.figure;
        let need = self.need;
        match (self.mark, event) {
            (Mark::Open, Event::Listed | Event::Added) => *self = Cell {
                figure,
                need,
                mark: Mark::Complement,
            },
            (Mark::Open, Event::PagePrinted) => *self = Cell {
                figure,
                need,
                mark: Mark::Printed,
            },
            (Mark::Complement, Event::Unlisted) => *self = Cell {
                figure,
                need,
                mark: Mark::Open,
            },
            (_, _) => {}
        }
    }
}

// The row once the event has met its cell.
pub(crate) fn met_row(row: Row, event: Event) -> Row
    requires { is_cell row ≡ true }
    ensures { result ≡ met row event }
{
    match Cell::try_from(row) {
        Ok(mut cell) => {
            cell.meet(event);
            cell.into()
        }
        Err(row) => row,
    }
}
