//! Worked examples of records files.

ghost use Rattle.records.specs.Examples.{ReadFiles, WorkedFiles};

/// Law: the contents of files, and the first fault of invalid ones: an IMSI or an MSISDN on two lines, nine prefixes, a withdrawn
/// subscriber with a register, a sixth field in version 1, a code twice, an IMSI of four or of sixteen digits, and no header.
pub fn law_worked_files()
    ensures { WorkedFiles }
{}

/// Law: the same files, as read.
pub fn law_read_files()
    ensures { ReadFiles }
{}
