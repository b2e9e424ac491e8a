//! Texts in the caller's buffer.

ghost use Rattle.std.specs.Prelude.{◌≡◌, ◌≢◌, ℕ, List, Some, length, option_copied};
ghost use Rattle.embed.specs.Images.{IsImageOf, IsSaved};
ghost use Rattle.embed.specs.Journals.{CutsOff, ListsOpen, ListsShard};
ghost use Rattle.embed.specs.Buffers.{Writes};
ghost use Rattle.records.specs.Subscriber.{Subscriber};
ghost use Rattle.records.specs.Written.{record_line};
ghost use Rattle.hlr_types.specs.DigitTexts.{text_of};
ghost use Rattle.kunchrol.specs.Lookups.{RefusesFound, RefusesImsi};
ghost use Rattle.kunchrol.specs.Refusals.{RefusesRoom, code_of_room, len_of_room};

use crate::code::{MEMORY, NONE, OK, SMALL};
use embed::{BufferFault, Register, write_record};
use hlrcore::ShardNumber;
use records::{Record, Version};
use std::alloc::Global;

pub(crate) fn save_records(register: &Register, buffer: &mut [u8], len: &mut usize) -> u32
    ensures saved { result ≡ 0 → (text : List ℕ) × IsSaved register.now.node text
        × Writes text buffer.old len.new buffer.new }
    ensures why { result ≢ 0 → RefusesRoom (IsSaved register.now.node)
        (length buffer.old) len.new result }
    ensures refused { result ≢ 0 → buffer.new ≡ buffer.old }
    ensures len { result ≢ 0 → result ≢ 2 → len.new ≡ len.old }
{
    match register.save(buffer) {
        Ok(count) => {
            *len = count;
            OK
        }
        Err(fault) => refused(fault, len),
    }
}

pub(crate) fn cut_journal(
    register: &mut Register,
    shard: ShardNumber,
    buffer: &mut [u8],
    len: &mut usize,
) -> u32
    ensures cut { result ≡ 0 → CutsOff register.old shard register.new }
    ensures lists { result ≡ 0 → (text : List ℕ) × ListsShard register.old.node shard text
        × Writes text buffer.old len.new buffer.new }
    ensures why { result ≢ 0 → RefusesRoom (ListsShard register.old.node shard)
        (length buffer.old) len.new result }
    ensures refused { result ≢ 0 → register.new ≡ register.old }
    ensures buffer { result ≢ 0 → buffer.new ≡ buffer.old }
    ensures len { result ≢ 0 → result ≢ 2 → len.new ≡ len.old }
{
    match register.cut_listed(shard, buffer) {
        Ok(count) => {
            *len = count;
            OK
        }
        Err(fault) => refused(fault, len),
    }
}

/// Writes a record that was found.
pub(crate) fn write_found(
    alloc: Global,
    found: Option<&Record>,
    buffer: &mut [u8],
    len: &mut usize,
) -> u32
    ensures written { result ≡ 0 → (s : Subscriber) × (option_copied found.entry ≡ Some s)
        × Writes (record_line Version.Two s) buffer.old len.new buffer.new }
    ensures why { result ≢ 0 → RefusesFound (option_copied found.entry) (length buffer.old) len.new result }
    ensures refused { result ≢ 0 → buffer.new ≡ buffer.old }
    ensures len { result ≢ 0 → result ≢ 2 → len.new ≡ len.old }
{
    let Some(record) = found else {
        return NONE;
    };
    match write_record(alloc, record, buffer) {
        Ok(count) => {
            *len = count;
            OK
        }
        Err(fault) => refused(fault, len),
    }
}

/// Writes the IMSI that the last event was about.
pub(crate) fn write_subject(register: &Register, buffer: &mut [u8], len: &mut usize) -> u32
    ensures written { result ≡ 0 → (imsi : List ℕ) × (register.now.subject ≡ Some imsi)
        × Writes (text_of imsi) buffer.old len.new buffer.new }
    ensures why { result ≢ 0 → RefusesImsi register.now.subject (length buffer.old) len.new result }
    ensures refused { result ≢ 0 → buffer.new ≡ buffer.old }
    ensures len { result ≢ 0 → result ≢ 2 → len.new ≡ len.old }
{
    let Some(imsi) = register.subject() else {
        return NONE;
    };
    let text = imsi.digits().text();
    let digits = text.as_slice();
    *len = digits.len();
    if buffer.len() < digits.len() {
        return SMALL;
    }
    buffer[..digits.len()].copy_from_slice(digits);
    OK
}

pub(crate) fn list_dialogues(
    register: &Register,
    shard: ShardNumber,
    buffer: &mut [u8],
    len: &mut usize,
) -> u32
    ensures listed { result ≡ 0 → (text : List ℕ) × ListsOpen register.now.node shard text
        × Writes text buffer.old len.new buffer.new }
    ensures why { result ≢ 0 → RefusesRoom (ListsOpen register.now.node shard)
        (length buffer.old) len.new result }
    ensures refused { result ≢ 0 → buffer.new ≡ buffer.old }
    ensures len { result ≢ 0 → result ≢ 2 → len.new ≡ len.old }
{
    match register.list_dialogues(shard, buffer) {
        Ok(count) => {
            *len = count;
            OK
        }
        Err(fault) => refused(fault, len),
    }
}

pub(crate) fn write_image(
    register: &Register,
    shard: ShardNumber,
    buffer: &mut [u8],
    len: &mut usize,
) -> u32
    ensures written { result ≡ 0 → (text : List ℕ) × IsImageOf register.now.node shard text
        × Writes text buffer.old len.new buffer.new }
    ensures why { result ≢ 0 → RefusesRoom (IsImageOf register.now.node shard)
        (length buffer.old) len.new result }
    ensures refused { result ≢ 0 → buffer.new ≡ buffer.old }
    ensures len { result ≢ 0 → result ≢ 2 → len.new ≡ len.old }
{
    match register.write_image(shard, buffer) {
        Ok(count) => {
            *len = count;
            OK
        }
        Err(fault) => refused(fault, len),
    }
}

/// Puts the length that is needed, if the buffer is too small.
fn refused(fault: BufferFault, len: &mut usize) -> u32
    ensures code { result ≡ code_of_room fault }
    ensures len { len.new ≡ len_of_room len.old fault }
    ensures kept { result ≢ 2 → len.new ≡ len.old }
{
    match fault {
        BufferFault::Small(needed) => {
            *len = needed;
            SMALL
        }
        BufferFault::Memory => MEMORY,
    }
}
