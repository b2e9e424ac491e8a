//! The register for programs in C. `include/kunchrol.h` says the same in C's words.
//!
//! Each function answers a number. 0 says that it did what it is asked for. With each other number nothing has changed in the
//! register, but for the lines of a log that `kunchrol_replay` has done.
#![tactic(auto)]

mod buffer;
mod code;
mod handle;
mod image;
mod lookups;
mod next;
mod replay;

ghost use Rattle.std.specs.Prelude.{◌≡◌, ◌≢◌, length, true, None, Some};
ghost use Rattle.hlrcore.specs.Events.{raw_event};
ghost use Rattle.embed.specs.Events.{IsFrame, IsExpiry, IsCodesChange, IsWithdrawal};
ghost use Rattle.embed.specs.Registers.{Gives, SetsClocks};
ghost use Rattle.kunchrol.specs.Calls.{OpensText, Takes, SetsAll, GivesLine, SendsFrame, SavesRecords, CutsJournal, keep_of};
ghost use Rattle.kunchrol.specs.Refusals.{Refused, RefusesClock, RefusesClocks, RefusesCut, RefusesEvent, RefusesKind, RefusesLine, RefusesNext, RefusesSave, RefusesText};

use buffer::{cut_journal, save_records};
use code::{ARGUMENT, CLOSED, MEMORY, NONE, OK, OPEN, code_of_cause, code_of_records, line_of};
use embed::{
    Keep, LogLine, Register, codes_event, expiry_event, frame_event, read_log_line,
    withdrawal_event,
};
pub use handle::Handle;
use hlrcore::{RawEvent, ShardNumber};
pub use image::{kunchrol_image, kunchrol_restore};
pub use lookups::{
    kunchrol_counts, kunchrol_deadline, kunchrol_dialogues, kunchrol_record,
    kunchrol_record_of_number, kunchrol_subject,
};
use machine::numbers::MAX_CLOCK;
use next::next_frame;
pub use replay::{kunchrol_drop_frames, kunchrol_replay};
use std::alloc::Global;

/// The release: 65,536 times its first number, 256 times its second, and its third. This is 0.1.0.
#[unsafe(no_mangle)]
pub extern "C" fn kunchrol_version() -> u32
    ensures { result ≡ 256 }
{
    0x00_01_00
}

/// Opens a register on the text of a records file. It keeps journals, or with `journals` 0 none. The number of the start moves where local
/// ids begin (`Register::open`). If a line has a fault its number is put at `line`, else 0.
#[unsafe(no_mangle)]
pub extern "C" fn kunchrol_open(
    alloc: Global,
    text: &[u8],
    journals: u8,
    start: u32,
    handle: &mut Handle,
    line: &mut u64,
) -> u32
    ensures opened { result ≡ 0 → OpensText text.now (keep_of journals)
        start handle.old.value handle.new.value }
    ensures why { result ≢ 0 → RefusesText text.now handle.old.value line.new result }
    ensures no_line { result ≢ 9 → result ≢ 10 → line.new ≡ 0 }
    ensures refused { result ≢ 0 → handle.new.value ≡ handle.old.value }
{
    *line = 0;
    if let Some(register) = handle.take(alloc) {
        handle.put(register);
        return OPEN;
    }
    match Register::open(alloc, text, keep_of(journals), start) {
        Ok(register) => match Box::new(alloc, register) {
            Ok(register) => {
                handle.put(register);
                OK
            }
            Err(_) => MEMORY,
        },
        Err(fault) => {
            *line = line_of(fault);
            code_of_records(fault)
        }
    }
}

fn keep_of(journals: u8) -> Keep
    ensures { result ≡ keep_of journals }
{
    if journals == 0 {
        Keep::Nothing
    } else {
        Keep::Entries
    }
}

/// Gives a frame, with the text of the digits that it comes from.
#[unsafe(no_mangle)]
pub extern "C" fn kunchrol_frame(
    alloc: Global,
    handle: &mut Handle,
    from: &[u8],
    octets: &[u8],
) -> u32
    ensures handled { result ≡ 0 → Takes
        (IsFrame from.now octets.now) handle.old.value handle.new.value }
    ensures why { result ≢ 0 → RefusesKind (IsFrame from.now octets.now) handle.old.value result }
    ensures refused { result ≢ 0 → handle.new.value ≡ handle.old.value }
{
    match frame_event(alloc, from, octets) {
        Ok(Some(event)) => give(alloc, handle, event),
        Ok(None) => ARGUMENT,
        Err(_) => MEMORY,
    }
}

/// Sets the clock of each shard, or of none.
#[unsafe(no_mangle)]
pub extern "C" fn kunchrol_clock(alloc: Global, handle: &mut Handle, now: u64) -> u32
    ensures set { result ≡ 0 → SetsAll now handle.old.value handle.new.value }
    ensures why { result ≢ 0 → RefusesClock now handle.old.value result }
    ensures refused { result ≢ 0 → handle.new.value ≡ handle.old.value }
{
    if now > MAX_CLOCK {
        return ARGUMENT;
    }
    let Some(mut register) = handle.take(alloc) else {
        return CLOSED;
    };
    let code = set_clocks(&mut register, now);
    handle.put(register);
    code
}

fn set_clocks(register: &mut Register, now: u64) -> u32
    ensures set { result ≡ 0 → SetsClocks register.old now register.new }
    ensures why { result ≢ 0 → RefusesClocks register.old now result }
    ensures refused { result ≢ 0 → register.new ≡ register.old }
{
    match register.set_clocks(now) {
        Ok(()) => OK,
        Err(refused) => code_of_cause(refused),
    }
}

/// Gives the expiry of a shard's least timer that is due, if one is.
#[unsafe(no_mangle)]
pub extern "C" fn kunchrol_expire(alloc: Global, handle: &mut Handle, shard: u8) -> u32
    ensures handled { result ≡ 0 → Takes (IsExpiry shard) handle.old.value handle.new.value }
    ensures why { result ≢ 0 → RefusesKind (IsExpiry shard) handle.old.value result }
    ensures refused { result ≢ 0 → handle.new.value ≡ handle.old.value }
{
    match expiry_event(shard) {
        Some(event) => give(alloc, handle, event),
        None => ARGUMENT,
    }
}

/// Gives new teleservice codes for a subscriber who has a record: the texts of an IMSI and of codes, as a records file has them.
#[unsafe(no_mangle)]
pub extern "C" fn kunchrol_codes(
    alloc: Global,
    handle: &mut Handle,
    imsi: &[u8],
    codes: &[u8],
) -> u32
    ensures handled { result ≡ 0 → Takes
        (IsCodesChange imsi.now codes.now) handle.old.value handle.new.value }
    ensures why { result ≢ 0 → RefusesKind
        (IsCodesChange imsi.now codes.now) handle.old.value result }
    ensures refused { result ≢ 0 → handle.new.value ≡ handle.old.value }
{
    match codes_event(alloc, imsi, codes) {
        Ok(Some(event)) => give(alloc, handle, event),
        Ok(None) => ARGUMENT,
        Err(_) => MEMORY,
    }
}

/// Ends the subscription of a subscriber who has a record.
#[unsafe(no_mangle)]
pub extern "C" fn kunchrol_withdraw(alloc: Global, handle: &mut Handle, imsi: &[u8]) -> u32
    ensures handled { result ≡ 0 → Takes (IsWithdrawal imsi.now) handle.old.value handle.new.value }
    ensures why { result ≢ 0 → RefusesKind (IsWithdrawal imsi.now) handle.old.value result }
    ensures refused { result ≢ 0 → handle.new.value ≡ handle.old.value }
{
    match withdrawal_event(imsi) {
        Some(event) => give(alloc, handle, event),
        None => ARGUMENT,
    }
}

/// Gives the event of a line of a log, without its line feed (`embed::read_log_line`), or sets the clock of each shard to its value.
#[unsafe(no_mangle)]
pub extern "C" fn kunchrol_line(alloc: Global, handle: &mut Handle, line: &[u8]) -> u32
    ensures given { result ≡ 0 → GivesLine line.now handle.old.value handle.new.value }
    ensures why { result ≢ 0 → RefusesLine line.now handle.old.value result }
    ensures refused { result ≢ 0 → handle.new.value ≡ handle.old.value }
{
    match read_log_line(alloc, line) {
        Ok(Some(LogLine::Event(event))) => give(alloc, handle, event),
        Ok(Some(LogLine::Clocks(now))) => kunchrol_clock(alloc, handle, now),
        Ok(None) => ARGUMENT,
        Err(_) => MEMORY,
    }
}

fn give(alloc: Global, handle: &mut Handle, event: RawEvent) -> u32
    ensures handled { result ≡ 0 → Takes
        (λ raw. raw ≡ raw_event event) handle.old.value handle.new.value }
    ensures why { result ≢ 0 → Refused (raw_event event) handle.old.value result }
    ensures refused { result ≢ 0 → handle.new.value ≡ handle.old.value }
{
    let Some(mut register) = handle.take(alloc) else {
        return CLOSED;
    };
    let code = answer(&mut register, event);
    handle.put(register);
    code
}

fn answer(register: &mut Register, event: RawEvent) -> u32
    ensures handled { result ≡ 0 → Gives true register.old (raw_event event) register.new }
    ensures why { result ≢ 0 → RefusesEvent register.old (raw_event event) result }
    ensures refused { result ≢ 0 → register.new ≡ register.old }
{
    match register.handle(event) {
        Ok(true) => OK,
        Ok(false) => NONE,
        Err(cause) => code_of_cause(cause),
    }
}

/// Takes the frame that is to be sent next: the text of the digits that it goes to, and its octets, each with its length. Where
/// a buffer is too small the lengths are put all the same, and the frame still waits.
#[unsafe(no_mangle)]
pub extern "C" fn kunchrol_next(
    alloc: Global,
    handle: &mut Handle,
    to: &mut [u8],
    to_len: &mut usize,
    octets: &mut [u8],
    octets_len: &mut usize,
) -> u32
    ensures sent { result ≡ 0
        → SendsFrame handle.old.value to.new to_len.new octets.new octets_len.new handle.new.value }
    ensures why { result ≢ 0 → RefusesNext handle.old.value (length to.old)
        (length octets.old) to_len.new octets_len.new result }
    ensures refused { result ≢ 0 → handle.new.value ≡ handle.old.value }
    ensures rooms { result ≢ 0 → (to.new ≡ to.old) × (octets.new ≡ octets.old) }
    ensures lens { result ≢ 0 → result ≢ 2
        → (to_len.new ≡ to_len.old) × (octets_len.new ≡ octets_len.old) }
{
    let Some(mut register) = handle.take(alloc) else {
        return CLOSED;
    };
    let code = next_frame(&mut register, to, to_len, octets, octets_len);
    handle.put(register);
    code
}

/// Writes the records as a records file into the buffer, and its length at `len`, also if the buffer is too small.
#[unsafe(no_mangle)]
pub extern "C" fn kunchrol_save(
    alloc: Global,
    handle: &mut Handle,
    buffer: &mut [u8],
    len: &mut usize,
) -> u32
    ensures saved { result ≡ 0
        → SavesRecords handle.old.value buffer.old len.new buffer.new handle.new.value }
    ensures why { result ≢ 0 → RefusesSave handle.old.value (length buffer.old) len.new result }
    ensures unchanged { handle.new.value ≡ handle.old.value }
    ensures refused { result ≢ 0 → buffer.new ≡ buffer.old }
    ensures len { result ≢ 0 → result ≢ 2 → len.new ≡ len.old }
{
    let Some(register) = handle.take(alloc) else {
        return CLOSED;
    };
    let code = save_records(&register, buffer, len);
    handle.put(register);
    code
}

/// Cuts the journal of a shard off, with its listing in the buffer and its length at `len`, also if the buffer is too small.
#[unsafe(no_mangle)]
pub extern "C" fn kunchrol_cut(
    alloc: Global,
    handle: &mut Handle,
    shard: u8,
    buffer: &mut [u8],
    len: &mut usize,
) -> u32
    ensures cut { result ≡ 0
        → CutsJournal handle.old.value shard buffer.old len.new buffer.new handle.new.value }
    ensures why { result ≢ 0 → RefusesCut shard handle.old.value (length buffer.old) len.new result }
    ensures refused { result ≢ 0 → handle.new.value ≡ handle.old.value }
    ensures buffer { result ≢ 0 → buffer.new ≡ buffer.old }
    ensures len { result ≢ 0 → result ≢ 2 → len.new ≡ len.old }
{
    let Some(shard) = ShardNumber::new(shard) else {
        return ARGUMENT;
    };
    let Some(mut register) = handle.take(alloc) else {
        return CLOSED;
    };
    let code = cut_journal(&mut register, shard, buffer, len);
    handle.put(register);
    code
}

/// Closes a register, and gives its memory back. Nothing happens to a handle that is closed.
#[unsafe(no_mangle)]
pub extern "C" fn kunchrol_close(alloc: Global, handle: &mut Handle)
    ensures { handle.new.value ≡ None }
{
    drop(handle.take(alloc));
}
