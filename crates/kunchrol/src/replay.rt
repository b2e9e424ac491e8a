//! A log that is replayed.

ghost use Rattle.std.specs.Prelude.{◌≡◌, ◌≢◌, length};
ghost use Rattle.embed.specs.Replay.{Replays, octets_of, whole_lines};
ghost use Rattle.kunchrol.specs.Refusals.{IsClosed};
ghost use Rattle.kunchrol.specs.Replay.{DropsFrames, RefusesReplay, ReplaysText, StopsAt, code_of_line};

use crate::code::{ARGUMENT, CLOSED, OK, code_of_cause};
use crate::handle::Handle;
use embed::{LineFault, Register};
use std::alloc::Global;

/// Does what the whole lines of the text of a log say, one after the other (`embed::Register::replay`), and puts the number of octets of
/// the lines that are done at `used`. This alone of all calls may change the register where it answers another number than 0: the lines
/// before the one whose number, from 1, it puts at `line` are done. Otherwise it puts 0 there.
#[unsafe(no_mangle)]
pub extern "C" fn kunchrol_replay(
    alloc: Global,
    handle: &mut Handle,
    text: &[u8],
    used: &mut usize,
    line: &mut u64,
) -> u32
    ensures replayed { result ≡ 0
        → ReplaysText text.now handle.old.value used.new handle.new.value }
    ensures why { result ≢ 0 → RefusesReplay text.now handle.old.value used.new line.new
        result handle.new.value }
    ensures no_line { result ≡ 0 → line.new ≡ 0 }
{
    *used = 0;
    *line = 0;
    let Some(mut register) = handle.take(alloc) else {
        return CLOSED;
    };
    let code = replay_text(&mut register, text, used, line);
    handle.put(register);
    code
}

fn replay_text(register: &mut Register, text: &[u8], used: &mut usize, line: &mut u64) -> u32
    ensures replayed { result ≡ 0 → Replays register.old (whole_lines text.now) register.new }
    ensures used { result ≡ 0 → used.new ≡ length (octets_of (whole_lines text.now)) }
    ensures why { result ≢ 0 → StopsAt register.old (whole_lines text.now) used.new line.new
        result register.new }
    ensures no_line { result ≡ 0 → line.new ≡ line.old }
{
    match register.replay(text) {
        Ok(count) => {
            *used = count;
            OK
        }
        Err(fault) => {
            *used = fault.used;
            *line = fault.line;
            code_of_line(fault.why)
        }
    }
}

/// Why a line was not done.
fn code_of_line(why: LineFault) -> u32
    ensures { result ≡ code_of_line why }
{
    match why {
        LineFault::NotALine => ARGUMENT,
        LineFault::Refused(cause) => code_of_cause(cause),
    }
}

/// Drops the frames that wait.
#[unsafe(no_mangle)]
pub extern "C" fn kunchrol_drop_frames(alloc: Global, handle: &mut Handle) -> u32
    ensures dropped { result ≡ 0 → DropsFrames handle.old.value handle.new.value }
    ensures why { result ≢ 0 → IsClosed handle.old.value result }
    ensures refused { result ≢ 0 → handle.new.value ≡ handle.old.value }
{
    let Some(mut register) = handle.take(alloc) else {
        return CLOSED;
    };
    register.drop_waiting();
    handle.put(register);
    OK
}
