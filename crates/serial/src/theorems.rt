//! What owing means over several reads: a statement that the check holds the definitions to.

ghost use Rattle.serial.specs.Theorems.{ReadsOweTogether};

/// Two reads owe together what the second alone would, and leave the same time paid, if the clock does not go back and
/// the second alone would find no more than 50 ticks due.
pub fn reads_owe_together()
    ensures { ReadsOweTogether }
{}
