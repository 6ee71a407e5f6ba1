// Looking at a cell.
ghost use Rattle.std.specs.Prelude.{◌≡◌};
ghost use Rattle.sheet.specs.Calls.{look_answer};

use crate::held::Sheet;
use layouts::memory::Row;
use refusals::Refusal;

impl Sheet {
    // A cell's figure, need and mark.
    pub fn look(&self, cell: usize) -> Result<Row, Refusal>
        ensures { result ≡ look_answer self.now cell }
    {
        if cell >= self.cells() {
            return Err(Refusal::UnknownCell { cell });
        }
        Ok(self.row(cell))
    }
}
