//! Worked examples of the lines of a log, of its text, of runs that wrote one, and of the saved file of a register.

ghost use Rattle.embed.specs.Examples.{LogLines, LogTexts, LoggedRuns, SavedFiles};

/// Law: a line of each kind, and the event or the clock value that it has.
pub fn law_log_lines()
    ensures { LogLines }
{}

/// Law: the whole lines of texts, of which one ends within a line, and the octets of lines.
pub fn law_log_texts()
    ensures { LogTexts }
{}

/// Law: runs of no line and of two clock values, with and without frames taken between them, and runs that are none.
pub fn law_logged_runs()
    ensures { LoggedRuns }
{}

/// Law: the saved file of a register with one record, which an update marks, and a file that is not the one.
pub fn law_saved_files()
    ensures { SavedFiles }
{}
