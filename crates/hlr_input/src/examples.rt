//! Worked examples of command lines, of lines of a script, and of the ids that letters stand for.

ghost use Rattle.hlr_input.specs.Examples.{CommandLines, NotedIds, ScriptLines};

/// Law: what the words of a command line ask for, and which words are none: a number of workers with a leading zero or above 16, an
/// option twice, and a third path.
pub fn law_command_lines()
    ensures { CommandLines }
{}

/// Law: a line of each kind, and what it says. The greatest clock value is one.
pub fn law_script_lines()
    ensures { ScriptLines }
{}

/// Law: a letter stands for the originating id of a Begin or of a Continue, if it has four octets, and an id is noted once.
pub fn law_noted_ids()
    ensures { NotedIds }
{}
