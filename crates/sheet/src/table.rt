// The inner table of a sheet: plain rows, one for each cell.
ghost use Rattle.std.specs.Prelude.{◌≡◌, ◌<◌, true, vec_len, slice_index_or, slice_set};
ghost use Rattle.std.specs.Borrow.{sem, follows};
ghost use Rattle.std.specs.Vec.{with_item};
ghost use Rattle.layouts.specs.contracts.memory.Row.{the_row as the_line};
ghost use Rattle.sheet.specs.contracts.table.Table.{the_row as the_table};
ghost use Rattle.sheet.specs.Cells.{is_cell, row_at};
ghost use Rattle.sheet.specs.Events.{met};

use crate::events::Event;
use crate::meeting::met_row;
use layouts::memory::Row;

#[derive(Drop)]
pub(crate) struct Table {
    pub(crate) rows: Vec<Row>,
}

impl Table {
    // The row of a cell as it stands.
    pub(crate) fn look(&self, cell: usize) -> Row
        requires { cell < vec_len self.now.rows }
        ensures { result ≡ row_at self.now.rows.items cell }
    {
        self.rows[cell]
    }

    // The row of a cell, lent to change its mark.
    fn row(&mut self, cell: usize) -> &mut Row
        requires { cell < vec_len self.old.rows }
        ensures* follows { sem 𝓛 (follows the_table the_line self.entry.ghost_name result.ghost_name (λ w. record { rows = with_item self.old.rows cell w })) }
        ensures value { result.now ≡ slice_index_or self.old.rows.items cell result.now }
    {
        &mut self.rows[cell]
    }

    // A cell meets an event: its record is made from the row, and goes back as a whole row.
    pub(crate) fn meet(&mut self, cell: usize, event: Event)
        requires within { cell < vec_len self.old.rows }
        requires cell { is_cell (row_at self.old.rows.items cell) ≡ true }
        ensures { self.new.rows.items ≡ slice_set self.old.rows.items cell (met (row_at self.old.rows.items cell) event) }
    {
        let row = self.row(cell);
        *row = met_row(*row, event);
    }
}
