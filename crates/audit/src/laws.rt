//! A law about a saved register, and worked examples of listings and of a saved file.

ghost use Rattle.audit.specs.Examples.{SavedByImsi, WorkedLines};
ghost use Rattle.audit.specs.Saving.{SavedRegisterIsRead};

/// Law: what is saved of one or more shards is a records file with their records, without their current updates, and the HLR
/// number, if no two of the records share an IMSI or an MSISDN.
pub fn saved_register_is_read()
    ensures { SavedRegisterIsRead }
{}

/// Law: the line of an entry of each kind, the lines of a dialogue of each kind, and which of two entries comes first.
pub fn worked_lines()
    ensures { WorkedLines }
{}

/// Law: of two records the one with the lesser IMSI is saved first, octet for octet, though its shard is the later one.
pub fn saved_by_imsi()
    ensures { SavedByImsi }
{}
