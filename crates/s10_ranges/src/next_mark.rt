//! The mark after a serial that a range issued.

ghost use Rattle.std.specs.Prelude.{◌≡◌, ◌==◌, ◌≤◌, ◌+◌, if◌then◌else◌};
ghost use Rattle.s10_ranges.specs.Laps.{mark_after};

use crate::lap::Lap;
use crate::mark::Mark;
use s10_core::Serial;
use s10_history::Range;

// Returns the mark of the range after it issued `serial` in the lap `lap`.
pub(crate) fn next_mark(range: &Range, lap: Lap, serial: Serial) -> Mark
    requires { serial ≤ range.now.last }
    ensures { result ≡ mark_after range.now lap serial }
{
    let next = range.serial_after(serial, 1);
    if serial.value() == range.last.value() {
        return Mark {
            serial: next,
            lap: Lap::Later,
        };
    }
    Mark { serial: next, lap }
}
