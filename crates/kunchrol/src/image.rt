//! The image of a register, and a register that goes on where it was made.

ghost use Rattle.std.specs.Prelude.{◌≡◌, ◌≢◌, length};
ghost use Rattle.kunchrol.specs.Calls.{keep_of};
ghost use Rattle.kunchrol.specs.Restoring.{RefusesImage, RefusesRestore, RestoresText, WritesImage, code_of_restore, line_of_restore};

use crate::buffer::write_image;
use crate::code::{
    ARGUMENT, CLOSED, IMAGE_LINE, IMAGE_SHORT, MEMORY, OK, OPEN, code_of_records, line_of,
};
use crate::handle::Handle;
use crate::keep_of;
use embed::{ImageFault, Register, RestoreFault};
use hlrcore::ShardNumber;
use std::alloc::Global;

/// Opens the register that goes on where it was saved (`embed::Register::restore`). It keeps journals, or with `journals` 0 none. If a line
/// of the records file or of the image has a fault its number is put at `line`, else 0.
#[unsafe(no_mangle)]
pub extern "C" fn kunchrol_restore(
    alloc: Global,
    text: &[u8],
    image: &[u8],
    journals: u8,
    handle: &mut Handle,
    line: &mut u64,
) -> u32
    ensures restored { result ≡ 0 → RestoresText text.now image.now (keep_of journals)
        handle.old.value handle.new.value }
    ensures why { result ≢ 0 → RefusesRestore text.now image.now handle.old.value line.new result }
    ensures refused { result ≢ 0 → handle.new.value ≡ handle.old.value }
    ensures no_line { result ≡ 0 → line.new ≡ 0 }
{
    *line = 0;
    if let Some(register) = handle.take(alloc) {
        handle.put(register);
        return OPEN;
    }
    match Register::restore(alloc, text, image, keep_of(journals)) {
        Ok(register) => match Box::new(alloc, register) {
            Ok(register) => {
                handle.put(register);
                OK
            }
            Err(_) => MEMORY,
        },
        Err(fault) => {
            *line = line_of_restore(fault);
            code_of_restore(fault)
        }
    }
}

/// Why a register was not restored.
fn code_of_restore(fault: RestoreFault) -> u32
    ensures { result ≡ code_of_restore fault }
{
    match fault {
        RestoreFault::Records(fault) => code_of_records(fault),
        RestoreFault::Image(ImageFault::Line(_)) => IMAGE_LINE,
        RestoreFault::Image(ImageFault::CutShort) => IMAGE_SHORT,
        RestoreFault::Image(ImageFault::Memory) => MEMORY,
    }
}

/// The line of a fault, from 1; 0 if it is none of one line.
fn line_of_restore(fault: RestoreFault) -> u64
    ensures { result ≡ line_of_restore fault }
{
    match fault {
        RestoreFault::Records(fault) => line_of(fault),
        RestoreFault::Image(ImageFault::Line(line)) => line,
        RestoreFault::Image(_) => 0,
    }
}

/// Writes the image of a shard into the buffer, and its length at `len`, also if the buffer is too small.
#[unsafe(no_mangle)]
pub extern "C" fn kunchrol_image(
    alloc: Global,
    handle: &mut Handle,
    shard: u8,
    buffer: &mut [u8],
    len: &mut usize,
) -> u32
    ensures written { result ≡ 0 → WritesImage shard handle.old.value buffer.old len.new buffer.new }
    ensures why { result ≢ 0 → RefusesImage shard handle.old.value (length buffer.old) len.new result }
    ensures unchanged { handle.new.value ≡ handle.old.value }
    ensures refused { result ≢ 0 → buffer.new ≡ buffer.old }
    ensures len { result ≢ 0 → result ≢ 2 → len.new ≡ len.old }
{
    let Some(shard) = ShardNumber::new(shard) else {
        return ARGUMENT;
    };
    let Some(register) = handle.take(alloc) else {
        return CLOSED;
    };
    let code = write_image(&register, shard, buffer, len);
    handle.put(register);
    code
}
