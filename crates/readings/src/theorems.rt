// What is proved of readings, exposure and the audit, each theorem on a function of its own.
ghost use Rattle.readings.specs.Theorems.{AuditRight, WallsStay, WallsTell};
ghost use Rattle.readings.specs.Worked.{RunsFrom0To220};

// The test by walls says exactly which cells are exposed.
pub fn walls_tell()
    ensures { WallsTell }
{}

// Withholding less never hides a cell.
pub fn walls_stay()
    ensures { WallsStay }
{}

// The audit names the first cell that is exposed, and passes exactly where none is.
pub fn audit_right()
    ensures { AuditRight }
{}

// The readings of cell 0 of the worked grid run from 0 to 220.
pub fn worked_range()
    ensures { RunsFrom0To220 }
{}
