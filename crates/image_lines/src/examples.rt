//! Worked examples of lines.

ghost use Rattle.image_lines.specs.Examples.{NoLines, WorkedLines};

/// Law: a line of each kind, with and without each field that may be `-`, and what it has.
pub fn law_worked_lines()
    ensures { WorkedLines }
{}

/// Law: texts that are no line: of each kind one that differs from a line in one place.
pub fn law_no_lines()
    ensures { NoLines }
{}
