//! What the lines of a data file say, taken in turn.

ghost use Rattle.std.specs.Prelude.{◌≡◌, ◌⊎◌, ◌<◌, ◌≤◌, List, ℕ, length, true, false, refl, OnOk, IfErr, Ok};
ghost use Rattle.uca_values.specs.declared.faults.FaultKind.{FaultKind};
ghost use Rattle.uca_lines.specs.declared.files.TheConstants.{TABLE_FORM};
ghost use Rattle.uca_lines.specs.FileStops.{is_read_kind};
ghost use Rattle.uca_table.specs.DataSoFar.{Says, Cause, RangeCause, summary};
ghost use Rattle.uca_table.specs.inside.DataSteps.{Takes, IsAdded, IsNumbered};

use crate::data_file::lines::{RangeLine, range_line};
use std::alloc::Allocator;
use uca_lines::fields::line_text;
use uca_lines::files::{FileForm, LineParser, TABLE_FORM};
use uca_values::{Data, FaultKind, RangeFault};

/// The line before all ranges.
const HEADER: &[u8] = b"@data 1";

/// What the lines so far say: whether the header was there, and the properties that the ranges give.
#[derive(Drop)]
pub struct DataSoFar<A: Allocator> {
    pub started: bool,
    pub data: Data<A>,
}

impl<A: Allocator> DataSoFar<A> {
    // Takes the next line, without its LF.
    fn take_line(&mut self, line: &[u8]) -> Result<(), FaultKind>
        ensures ok { OnOk result (Takes (summary self.old.started self.old.«data») line.now
            (summary self.new.started self.new.«data»)) }
        ensures fault { IfErr result (λ kind. (kind ≡ FaultKind.Memory)
            ⊎ Cause (summary self.old.started self.old.«data») line.now kind) }
    {
        let text = line_text(line);
        if text.is_empty() {
            return Ok(());
        }
        if text == HEADER {
            return start(&mut self.started);
        }
        if !self.started {
            return Err(FaultKind::Order);
        }
        add(&mut self.data, range_line(text)?)
    }
}

impl<A: Allocator> LineParser for DataSoFar<A> {
    type Kind = FaultKind;

    ghost form = { TABLE_FORM };

    ghost is_read = { is_read_kind };

    ghost says = { λ lines so_far. Says lines (summary so_far.started so_far.«data») };

    ghost cause = { λ so_far line kind. Cause (summary so_far.started so_far.«data») line kind };

    fn form() -> FileForm<FaultKind> {
        TABLE_FORM
    }

    fn take(&mut self, line: &[u8]) -> Result<(), FaultKind> {
        self.take_line(line)
    }
}

// From now on the header was there. It is an `Order` error if it was there before.
fn start(started: &mut bool) -> Result<(), FaultKind>
    ensures ok { OnOk result ((started.old ≡ false) × (started.new ≡ true)) }
    ensures err { IfErr result (λ kind. (kind ≡ FaultKind.Order) × (started.old ≡ true) × (started.new ≡ started.old)) }
{
    if *started {
        return Err(FaultKind::Order);
    }
    *started = true;
    Ok(())
}

fn add<A: Allocator>(data: &mut Data<A>, range: RangeLine) -> Result<(), FaultKind>
    requires { IsNumbered range }
    ensures ok { OnOk result (IsAdded (summary true «data».old) range (summary true «data».new)) }
    ensures err { IfErr result (λ kind. («data».new ≡ «data».old)
        × ((kind ≡ FaultKind.Memory) ⊎ RangeCause (summary true «data».old) (Ok range) kind)) }
{
    let added = match range {
        RangeLine::Class(range) => data.add_class(range),
        RangeLine::Core(range) => data.add_core(range),
        RangeLine::Other(range) => data.add_other(range),
    };
    match added {
        Ok(()) => Ok(()),
        Err(RangeFault::Empty | RangeFault::Overlap) => Err(FaultKind::Range),
        Err(RangeFault::Limit) => Err(FaultKind::Limit),
        Err(RangeFault::Memory) => Err(FaultKind::Memory),
    }
}
