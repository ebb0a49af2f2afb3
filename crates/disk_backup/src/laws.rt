// Laws of the definitions.
ghost use Rattle.disk_backup.specs.Logs.{OneLog, OneRecordMore, ClosedIsLog, LogIsClosed};
ghost use Rattle.disk_backup.specs.Scanning.{ScannedIsFront, LogIsWhole};

/// A disk has one log. If the gate at its end is opened, and a record and a gate that is not open follow, the log has
/// that record more. Settling speaks of logs that end at a gate that is not open. What was scanned is a prefix of the
/// disk's log, which is not damaged.
pub fn logs_are_read_once()
    ensures one { OneLog }
    ensures more { OneRecordMore }
    ensures closed { ClosedIsLog }
    ensures log { LogIsClosed }
    ensures front { ScannedIsFront }
    ensures whole { LogIsWhole }
{}
