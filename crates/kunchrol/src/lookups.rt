//! What is looked up in a register. None of these calls changes it.

ghost use Rattle.std.specs.Prelude.{◌≡◌, ◌≢◌, length, None, Some};
ghost use Rattle.machine.specs.Deadlines.{IsFirst};
ghost use Rattle.embed.specs.Lookups.{IsTimerOf};
ghost use Rattle.kunchrol.specs.Lookups.{IsImsiRecord, IsNumberRecord, ListsDialogues, RefusesCounts, RefusesDeadline, RefusesDialogues, RefusesRecord, RefusesSubject, TellsCounts, TellsDeadline, TellsSubject, WritesRecord};

use crate::buffer::{list_dialogues, write_found, write_subject};
use crate::code::{ARGUMENT, CLOSED, NONE, OK};
use crate::handle::Handle;
use embed::{Register, read_imsi, read_number};
use hlrcore::ShardNumber;
use std::alloc::Global;

/// Puts the first deadline of all timers at `when`.
#[unsafe(no_mangle)]
pub extern "C" fn kunchrol_deadline(alloc: Global, handle: &mut Handle, when: &mut u64) -> u32
    ensures told { result ≡ 0 → TellsDeadline handle.old.value when.new }
    ensures why { result ≢ 0 → RefusesDeadline handle.old.value result }
    ensures unchanged { handle.new.value ≡ handle.old.value }
    ensures refused { result ≢ 0 → when.new ≡ when.old }
{
    let Some(register) = handle.take(alloc) else {
        return CLOSED;
    };
    let code = first_deadline(&register, when);
    handle.put(register);
    code
}

fn first_deadline(register: &Register, when: &mut u64) -> u32
    ensures told { result ≡ 0 → IsFirst (IsTimerOf register.now.node) (Some when.new) }
    ensures why { result ≢ 0 → (result ≡ 1) × IsFirst (IsTimerOf register.now.node) None }
    ensures refused { result ≢ 0 → when.new ≡ when.old }
{
    let Some(first) = register.first_deadline() else {
        return NONE;
    };
    *when = first;
    OK
}

/// Puts how many dialogues of a shard are open at `dialogues`, and how many entries its journal has at `entries`.
#[unsafe(no_mangle)]
pub extern "C" fn kunchrol_counts(
    alloc: Global,
    handle: &mut Handle,
    shard: u8,
    dialogues: &mut usize,
    entries: &mut usize,
) -> u32
    ensures told { result ≡ 0 → TellsCounts shard handle.old.value dialogues.new entries.new }
    ensures why { result ≢ 0 → RefusesCounts shard handle.old.value result }
    ensures unchanged { handle.new.value ≡ handle.old.value }
    ensures refused { result ≢ 0 → (dialogues.new ≡ dialogues.old) × (entries.new ≡ entries.old) }
{
    let Some(shard) = ShardNumber::new(shard) else {
        return ARGUMENT;
    };
    let Some(register) = handle.take(alloc) else {
        return CLOSED;
    };
    let counts = register.counts(shard);
    handle.put(register);
    *dialogues = counts.dialogues;
    *entries = counts.entries;
    OK
}

/// Writes the text of the IMSI that the last event was about into the buffer, and its length at `len`, also if the buffer is too small.
#[unsafe(no_mangle)]
pub extern "C" fn kunchrol_subject(
    alloc: Global,
    handle: &mut Handle,
    buffer: &mut [u8],
    len: &mut usize,
) -> u32
    ensures told { result ≡ 0 → TellsSubject handle.old.value buffer.old len.new buffer.new }
    ensures why { result ≢ 0 → RefusesSubject handle.old.value (length buffer.old) len.new result }
    ensures unchanged { handle.new.value ≡ handle.old.value }
    ensures refused { result ≢ 0 → buffer.new ≡ buffer.old }
    ensures len { result ≢ 0 → result ≢ 2 → len.new ≡ len.old }
{
    let Some(register) = handle.take(alloc) else {
        return CLOSED;
    };
    let code = write_subject(&register, buffer, len);
    handle.put(register);
    code
}

/// Writes the record of a subscriber into the buffer, as a line of a records file, and its length at `len`, also if the buffer is too
/// small. The text of an IMSI.
#[unsafe(no_mangle)]
pub extern "C" fn kunchrol_record(
    alloc: Global,
    handle: &mut Handle,
    imsi: &[u8],
    buffer: &mut [u8],
    len: &mut usize,
) -> u32
    ensures written { result ≡ 0 → WritesRecord (IsImsiRecord imsi.now)
        handle.old.value buffer.old len.new buffer.new }
    ensures why { result ≢ 0 → RefusesRecord (IsImsiRecord imsi.now)
        handle.old.value (length buffer.old) len.new result }
    ensures unchanged { handle.new.value ≡ handle.old.value }
    ensures refused { result ≢ 0 → buffer.new ≡ buffer.old }
    ensures len { result ≢ 0 → result ≢ 2 → len.new ≡ len.old }
{
    let Some(imsi) = read_imsi(imsi) else {
        return ARGUMENT;
    };
    let Some(register) = handle.take(alloc) else {
        return CLOSED;
    };
    let code = write_found(alloc, register.record(&imsi), buffer, len);
    handle.put(register);
    code
}

/// The same, with the text of an MSISDN.
#[unsafe(no_mangle)]
pub extern "C" fn kunchrol_record_of_number(
    alloc: Global,
    handle: &mut Handle,
    msisdn: &[u8],
    buffer: &mut [u8],
    len: &mut usize,
) -> u32
    ensures written { result ≡ 0 → WritesRecord (IsNumberRecord msisdn.now)
        handle.old.value buffer.old len.new buffer.new }
    ensures why { result ≢ 0 → RefusesRecord (IsNumberRecord msisdn.now)
        handle.old.value (length buffer.old) len.new result }
    ensures unchanged { handle.new.value ≡ handle.old.value }
    ensures refused { result ≢ 0 → buffer.new ≡ buffer.old }
    ensures len { result ≢ 0 → result ≢ 2 → len.new ≡ len.old }
{
    let Some(msisdn) = read_number(msisdn) else {
        return ARGUMENT;
    };
    let Some(register) = handle.take(alloc) else {
        return CLOSED;
    };
    let code = write_found(alloc, register.record_by_number(&msisdn), buffer, len);
    handle.put(register);
    code
}

/// Writes the listing of a shard's open dialogues into the buffer, and its length at `len`, also if the buffer is too small.
#[unsafe(no_mangle)]
pub extern "C" fn kunchrol_dialogues(
    alloc: Global,
    handle: &mut Handle,
    shard: u8,
    buffer: &mut [u8],
    len: &mut usize,
) -> u32
    ensures listed { result ≡ 0 → ListsDialogues shard handle.old.value buffer.old len.new buffer.new }
    ensures why { result ≢ 0 → RefusesDialogues shard handle.old.value (length buffer.old) len.new result }
    ensures unchanged { handle.new.value ≡ handle.old.value }
    ensures refused { result ≢ 0 → buffer.new ≡ buffer.old }
    ensures len { result ≢ 0 → result ≢ 2 → len.new ≡ len.old }
{
    let Some(shard) = ShardNumber::new(shard) else {
        return ARGUMENT;
    };
    let Some(register) = handle.take(alloc) else {
        return CLOSED;
    };
    let code = list_dialogues(&register, shard, buffer, len);
    handle.put(register);
    code
}
