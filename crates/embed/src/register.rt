//! A register, with the frames that wait to be sent.

ghost use Rattle.std.specs.Prelude.{◌≡◌, ◌≢◌, ◌⊎◌, ◌<◌, ℕ, List, [], Err, IfOk, IfErr, OnOk, OnErr, MatchResult, Some, drop, length, option_copied, option_map, slice_get, string_bytes};
ghost use Rattle.std.specs.List.{AllByRecursion};
ghost use Rattle.machine.specs.Deadlines.{IsFirst};
ghost use Rattle.records.specs.File.{Contents, File, IsBadLine, IsTwice};
ghost use Rattle.records.specs.Loaded.{loaded_from};
ghost use Rattle.hlrcore.specs.Events.{raw_event};
ghost use Rattle.hlrcore.specs.Frames.{raw_out};
ghost use Rattle.hlrcore.specs.Shards.{ShardState};
ghost use Rattle.images.specs.Again.{IsReadAgain};
ghost use Rattle.shardlog.specs.Log.{Log};
ghost use Rattle.wholenode.specs.Handling.{Refuses};
ghost use Rattle.wholenode.specs.Keeping.{NodeKeeps};
ghost use Rattle.restoring.specs.Restoring.{IsImageOver};
ghost use Rattle.wholenode.specs.Ticking.{RefusesTicks};
ghost use Rattle.embed.specs.Counts.{IsCountOf};
ghost use Rattle.embed.specs.Images.{AreListed, GoesOnFrom, IsImageOf, IsSaved};
ghost use Rattle.embed.specs.Keeping.{KeepsNothing};
ghost use Rattle.embed.specs.Lookups.{IsTimerOf, record_by_number, record_of};
ghost use Rattle.embed.specs.Numbers.{AreNumbered};
ghost use Rattle.embed.specs.Registers.{Answers, Gives, Opens, SetsClocks};
ghost use Rattle.embed.specs.Restoring.{IsMemoryFault, IsRestoreFault};
ghost use Rattle.embed.specs.Journals.{CutsOff, ListsOpen, ListsShard};
ghost use Rattle.embed.specs.Replay.{Does, Fails, IsLogLine, Replays, StopsReplay, octets_of, whole_lines};
ghost use Rattle.embed.specs.Buffers.{Writes};

use crate::buffer::{check_buffer, write_text};
use crate::fault::{BufferFault, LineFault, ReplayFault, RestoreFault};
use crate::log_line::{LogLine, read_log_line};
use crate::lookups::{Counts, first_deadline, is_idle, record_by_number, record_of, shard_at};
use crate::waiting::Waiting;
use audit::{list_dialogues, list_journal, save_records};
use bumpalo::Bump;
use hlr_types::{Imsi, IsdnAddress};
use hlrcore::{Out, RawEvent, ShardNumber};
use images::{law_read_again, write_shard};
use records::{Record, RecordsFault, read_records};
use std::alloc::{AllocError, Global};
use std::marker::Model;
use std::slice;
use texts::cut;
use wholenode::{Cause, Keep, Node};

/// The sixteen shards with their journals, an arena for one frame at a time, the frames that wait, and the subject of the last event. The
/// directory always has exactly the numbers of the records.
#[derive(Drop)]
pub struct Register {
    alloc: Global,
    node: Node,
    bump: Bump,
    waiting: Waiting,
    subject: Option<Imsi>,
}

impl Model for Register {
    ghost use Rattle.embed.specs.Registers.{IsKept, RegisterState, register, register_state_code};
    ghost use Rattle.embed.specs.Waiting.{waiting_in};

    ghost Value = { RegisterState };

    ghost coded = { register_state_code };

    ghost view = { λ r.
        register r.node (waiting_in r.waiting.taken r.waiting.lists.items) r.subject };

    ghost invariant = { λ r. IsKept r.node r.waiting.taken r.waiting.lists.items };
}

impl Register {
    /// The register of a records file, which `read_records` describes: no dialogue is open, each clock is at 0, the journals are
    /// empty, and no frame waits. Each event gets an entry in the journal of its shard, or none does. The number of the start, which is to
    /// differ from one start to the next, moves where local ids begin (`Node::new`). The first line with a fault decides.
    pub fn open(
        alloc: Global,
        text: &[u8],
        keep: Keep,
        start: u32,
    ) -> Result<Register, RecordsFault>
        // A text that is opened is a records file, and the register begins with its contents.
        ensures found { IfOk result (λ r.
            (contents : Contents) × File text.now contents × Opens contents keep start r) }

        // A records file is opened, unless memory runs out.
        ensures only { (contents : Contents) → File text.now contents
            → MatchResult result (Opens contents keep start)
            (λ fault. fault ≡ RecordsFault.Memory) }

        // A fault is the one of the first line with a fault, which is reported unless memory runs out.
        ensures bad_line { (n : ℕ) → result ≡ Err (RecordsFault.BadLine n) → IsBadLine text.now n }
        ensures twice { (n : ℕ) → result ≡ Err (RecordsFault.Twice n) → IsTwice text.now n }
        ensures at_bad_line { (n : ℕ) → IsBadLine text.now n
            → MatchResult result (λ _. ⊥)
            (λ fault. (fault ≡ RecordsFault.BadLine n) ⊎ (fault ≡ RecordsFault.Memory)) }
        ensures at_twice { (n : ℕ) → IsTwice text.now n
            → MatchResult result (λ _. ⊥)
            (λ fault. (fault ≡ RecordsFault.Twice n) ⊎ (fault ≡ RecordsFault.Memory)) }
    {
        let loaded = read_records(alloc, text)?;
        let node = Node::new(alloc, loaded, keep, start)?;
        Ok(Register {
            alloc,
            node,
            bump: Bump::new(alloc),
            waiting: Waiting::none(alloc),
            subject: None,
        })
    }

    /// The register that goes on where it was saved: `text` is the records file that `save` wrote, and `image` is what `write_image` wrote of
    /// each shard, in the order of their numbers, with no event between all these calls. Clocks, open dialogues and local ids are as they
    /// were; the journals are empty, and no frame waits.
    ///
    /// - `Records`: the first fault of the records file.
    /// - `Image`: the first line of the image that does not have its form, or cannot follow those before it; or the image ends too early.
    ///
    /// Either of them has `Memory` when out of memory.
    pub fn restore(
        alloc: Global,
        text: &[u8],
        image: &[u8],
        keep: Keep,
    ) -> Result<Register, RestoreFault>
        ensures found { IfOk result (λ r. (contents : Contents) × File text.now contents
            × GoesOnFrom contents keep image.now r) }
        // A records file with an image over it is restored, unless memory runs out.
        ensures only { (contents : Contents) (shards : List ShardState) → File text.now contents
            → IsImageOver (loaded_from contents) image.now shards → IfErr result IsMemoryFault }
        ensures fault { IfErr result (IsRestoreFault text.now image.now) }
    {
        let loaded = read_records(alloc, text)?;
        let node = restoring::restore(alloc, loaded, keep, image)?;
        Ok(Register {
            alloc,
            node,
            bump: Bump::new(alloc),
            waiting: Waiting::none(alloc),
            subject: None,
        })
    }

    /// Handles one event, and puts the frames that it sends after those that wait. They are to be read by `front` and taken by
    /// `drop_front`, one after the other. An event that would do nothing is not handled, and `false` is returned: an expiry when no timer
    /// is due, or an operator's change of a subscriber without a record. Then, and on error, nothing changes, and the event is dropped.
    ///
    /// - `JournalFull`: the journal of its shard has 65,536 entries, until `cut`.
    /// - `NoRoom`: it is an operator's change for which the machine has no step: it would open a dialogue beside 4,096.
    /// - `Memory`: out of memory.
    /// - `ResetRefused`: it is a frame, after which the arena could not be reset.
    pub fn handle(&mut self, raw: RawEvent) -> Result<bool, Cause>
        ensures gives { IfOk result (λ done. Gives done self.old (raw_event raw) self.new) }
        ensures refused { IfErr result (λ cause. Refuses self.old.node (raw_event raw) cause) }
        ensures err { OnErr result (self.new ≡ self.old) }
    {
        if is_idle(&self.node, &raw) {
            return Ok(false);
        }
        self.take(raw)?;
        Ok(true)
    }

    /// Handles one event.
    fn take(&mut self, raw: RawEvent) -> Result<(), Cause>
        ensures answers { OnOk result (Answers self.old (raw_event raw) self.new) }
        ensures refused { IfErr result (λ cause. Refuses self.old.node (raw_event raw) cause) }
        ensures err { OnErr result (self.new ≡ self.old) }
    {
        if self.waiting.reserve().is_err() {
            return Err(Cause::Memory);
        }
        match self.node.take(&mut self.bump, raw) {
            Ok(handled) => {
                self.subject = handled.subject;
                self.waiting.append(handled.outs);
                Ok(())
            }
            Err(cause) => {
                // After a fault the arena's contents are unspecified.
                self.bump = Bump::new(self.alloc);
                Err(cause)
            }
        }
    }

    /// Sets the clock of each of the sixteen shards, as one event for each of them in turn does, or of none. No frame is sent. On error
    /// nothing changes.
    ///
    /// - `JournalFull`: a journal has 65,536 entries, until `cut`.
    /// - `Memory`: out of memory, which can be only if journals are kept.
    pub fn set_clocks(&mut self, now: u64) -> Result<(), Cause>
        ensures sets { OnOk result (SetsClocks self.old now self.new) }
        ensures refused { IfErr result (RefusesTicks self.old.node now) }
        ensures never { KeepsNothing self.old.node → OnErr result ⊥ }
        ensures err { OnErr result (self.new ≡ self.old) }
    {
        self.node.tick_all(now)?;
        self.subject = None;
        Ok(())
    }

    /// Does what the whole lines of a log say, one after the other (`read_log_line`): an event is handled, and a clock value is set. What
    /// each event sends waits after the frames that wait. Returns the number of octets of these lines. What follows the last line feed is a
    /// line whose writing was cut off: it is not read. So a log can be given in pieces, each of which begins with what the call before it
    /// left.
    ///
    /// On error the lines before the one that is named are done. That one changes nothing: it is no line of a log, or `handle` or
    /// `set_clocks` refuses it.
    pub fn replay(&mut self, text: &[u8]) -> Result<usize, ReplayFault>
        ensures replays { OnOk result (Replays self.old (whole_lines text.now) self.new) }
        ensures used { IfOk result (λ used. used ≡ length (octets_of (whole_lines text.now))) }
        ensures stops { IfErr result
            (λ fault. StopsReplay self.old (whole_lines text.now) fault self.new) }
        ensures only { AllByRecursion IsLogLine (whole_lines text.now)
            → IfErr result (λ fault. fault.why ≢ LineFault.NotALine) }
    {
        let octets = text.len();
        let mut left = text;
        let mut number = 0;
        'lines: loop {
            let (line, rest) = cut(left, b'\n');
            let Some(rest) = rest else {
                return Ok(octets - left.len());
            };
            number += 1;
            if let Err(why) = self.replay_line(line) {
                let used = octets - left.len();
                let line = number;
                return Err(ReplayFault { used, line, why });
            }
            left = rest;
        }
    }

    /// Does what a line of a log says. On error nothing changes.
    fn replay_line(&mut self, line: &[u8]) -> Result<(), LineFault>
        ensures does { OnOk result (Does self.old line.now self.new) }
        ensures fails { IfErr result (Fails self.old line.now) }
        ensures err { OnErr result (self.new ≡ self.old) }
    {
        match read_log_line(self.alloc, line)? {
            Some(LogLine::Event(raw)) => {
                let _is_handled = self.handle(raw)?;
                Ok(())
            }
            Some(LogLine::Clocks(now)) => {
                self.set_clocks(now)?;
                Ok(())
            }
            None => Err(LineFault::NotALine),
        }
    }

    /// The first deadline of the timers of all shards, whether it is due or not; `None` if no timer runs.
    pub fn first_deadline(&self) -> Option<u64>
        ensures { IsFirst (IsTimerOf self.now.node) result }
    {
        first_deadline(&self.node)
    }

    /// How full a shard is.
    pub fn counts(&self, shard: ShardNumber) -> Counts
        ensures { IsCountOf self.now.node shard result.dialogues result.entries }
    {
        let shard = shard_at(&self.node, shard.number());
        Counts {
            dialogues: shard.state().dialogues().len(),
            entries: shard.entries().len(),
        }
    }

    /// The record of a subscriber.
    pub fn record(&self, imsi: &Imsi) -> Option<&Record>
        ensures { option_copied result ≡ record_of self.now.node imsi.now }
    {
        record_of(&self.node, imsi)
    }

    /// The record of the subscriber with this MSISDN.
    pub fn record_by_number(&self, msisdn: &IsdnAddress) -> Option<&Record>
        ensures { option_copied result ≡ record_by_number self.now.node msisdn.now }
    {
        record_by_number(&self.node, msisdn)
    }

    /// Whom the last event was about: the subscriber of the open dialogue that it was for, otherwise the one that it names, if there is a
    /// record. `None` if it was about nobody, as a clock value is, and if no event has come since `open` or `restore`. An event that did
    /// nothing, or was refused, is none.
    pub fn subject(&self) -> Option<&Imsi>
        ensures { option_map (λ imsi. imsi.now) result ≡ self.now.subject }
    {
        self.subject.as_ref()
    }

    /// The frame that is to be taken next. It still waits.
    pub fn front(&self) -> Option<&Out>
        ensures { option_map (λ out. raw_out out.now) result ≡ slice_get self.now.waiting 0 }
    {
        self.waiting.front()
    }

    /// Drops the frame that is to be taken next, if one waits.
    pub fn drop_front(&mut self)
        ensures rest { self.new.waiting ≡ drop 1 self.old.waiting }
        ensures node { self.new.node ≡ self.old.node }
        ensures subject { self.new.subject ≡ self.old.subject }
    {
        self.waiting.drop_front();
    }

    /// Drops each frame that waits.
    pub fn drop_waiting(&mut self)
        ensures none { self.new.waiting ≡ [] }
        ensures node { self.new.node ≡ self.old.node }
        ensures subject { self.new.subject ≡ self.old.subject }
    {
        self.waiting.drop_all();
    }

    /// Cuts the journal of a shard off, and drops it. The states stay the same. The shard's state is copied, as the base of the next
    /// journal. On error nothing changes.
    pub fn cut(&mut self, shard: ShardNumber) -> Result<(), AllocError>
        ensures cuts { OnOk result (CutsOff self.old shard self.new) }
        ensures err { OnErr result (self.new ≡ self.old) }
    {
        let _epoch = self.node.cut(shard.number())?;
        Ok(())
    }

    /// The same, with the listing of the journal (`audit::list_journal`) at the front of the buffer. Returns the number of octets
    /// written. On error nothing changes, the buffer included.
    pub fn cut_listed(
        &mut self,
        shard: ShardNumber,
        buffer: &mut [u8],
    ) -> Result<usize, BufferFault>
        ensures cuts { OnOk result (CutsOff self.old shard self.new) }
        ensures lists { IfOk result (λ count.
            (text : List ℕ) × ListsShard self.old.node shard text
            × Writes text buffer.old count buffer.new) }
        ensures small { (n : ℕ) → result ≡ Err (BufferFault.Small n)
            → (text : List ℕ) × ListsShard self.old.node shard text × (length buffer.old < n)
            × (n ≡ length text) }
        ensures err { OnErr result (self.new ≡ self.old) }
        ensures buffer { OnErr result (buffer.new ≡ buffer.old) }
    {
        let text = self.listing(shard)?;
        check_buffer(buffer, text.as_bytes())?;
        self.cut(shard)?;
        Ok(write_text(buffer, text.as_bytes()))
    }

    /// The listing of a shard's journal.
    fn listing(&self, shard: ShardNumber) -> Result<String, AllocError>
        ensures { IfOk result (λ text. ListsShard self.now.node shard (string_bytes text)) }
    {
        let shard = shard_at(&self.node, shard.number());
        list_journal(self.alloc, slice::from_ref(shard))
    }

    /// Writes the listing of a shard's open dialogues (`audit::list_dialogues`) at the front of the buffer, and returns the number of octets
    /// written. On error the buffer is unchanged.
    pub fn list_dialogues(
        &self,
        shard: ShardNumber,
        buffer: &mut [u8],
    ) -> Result<usize, BufferFault>
        ensures lists { IfOk result (λ count.
            (text : List ℕ) × ListsOpen self.now.node shard text
            × Writes text buffer.old count buffer.new) }
        ensures small { (n : ℕ) → result ≡ Err (BufferFault.Small n)
            → (text : List ℕ) × ListsOpen self.now.node shard text × (length buffer.old < n)
            × (n ≡ length text) }
        ensures err { OnErr result (buffer.new ≡ buffer.old) }
    {
        let lines = self.open_dialogues(shard)?;
        check_buffer(buffer, lines.as_bytes())?;
        Ok(write_text(buffer, lines.as_bytes()))
    }

    /// The listing of a shard's open dialogues.
    fn open_dialogues(&self, shard: ShardNumber) -> Result<String, AllocError>
        ensures { IfOk result (λ text. ListsOpen self.now.node shard (string_bytes text)) }
    {
        let shard = shard_at(&self.node, shard.number());
        list_dialogues(self.alloc, slice::from_ref(shard))
    }

    /// Writes the records as a records file (`audit::save_records`) at the front of the buffer, and returns the number of octets
    /// written. The file is one that `open` and `restore` read, as the same records, without the marks of current updates. On error the
    /// buffer is unchanged.
    pub fn save(&self, buffer: &mut [u8]) -> Result<usize, BufferFault>
        ensures saves { IfOk result (λ count.
            (text : List ℕ) × IsSaved self.now.node text
            × Writes text buffer.old count buffer.new) }
        ensures small { (n : ℕ) → result ≡ Err (BufferFault.Small n)
            → (text : List ℕ) × IsSaved self.now.node text × (length buffer.old < n)
            × (n ≡ length text) }
        ensures err { OnErr result (buffer.new ≡ buffer.old) }
    {
        let file = self.saved()?;
        check_buffer(buffer, file.as_bytes())?;
        Ok(write_text(buffer, file.as_bytes()))
    }

    /// The records as a records file.
    fn saved(&self) -> Result<String, AllocError>
        ensures { IfOk result (λ text. IsSaved self.now.node (string_bytes text)) }
    {
        self.law_records_in_order();
        save_records(self.alloc, self.node.shards())
    }

    /// Writes the image of a shard (`images::write_shard`) at the front of the buffer, and returns the number of octets written. On error the
    /// buffer is unchanged.
    pub fn write_image(&self, shard: ShardNumber, buffer: &mut [u8]) -> Result<usize, BufferFault>
        ensures writes { IfOk result (λ count.
            (text : List ℕ) × IsImageOf self.now.node shard text
            × Writes text buffer.old count buffer.new) }
        ensures small { (n : ℕ) → result ≡ Err (BufferFault.Small n)
            → (text : List ℕ) × IsImageOf self.now.node shard text × (length buffer.old < n)
            × (n ≡ length text) }
        ensures err { OnErr result (buffer.new ≡ buffer.old) }
    {
        let image = self.image(shard)?;
        check_buffer(buffer, image.as_bytes())?;
        Ok(write_text(buffer, image.as_bytes()))
    }

    /// The image of a shard.
    fn image(&self, shard: ShardNumber) -> Result<String, AllocError>
        ensures { IfOk result (λ text. IsImageOf self.now.node shard (string_bytes text)) }
    {
        let shard = shard_at(&self.node, shard.number());
        let mut image = String::new(self.alloc);
        write_shard(&mut image, shard.state())?;
        Ok(image)
    }

    /// Law: the records of each shard are in order, and the directory is that of the records.
    fn law_records_in_order(&self)
        ensures order { (n : ℕ) (l : Log) → slice_get self.now.node.shards n ≡ Some l
            → AreListed l.state.records }
        ensures numbers { AreNumbered self.now.node }
        ensures keeps { NodeKeeps self.now.node }
    {
        let shards = self.node.shards();
        for shard in shards {
            shard.state().records().law_in_order();
        }
    }

    /// Law: each shard is read again from its image.
    pub(crate) fn law_shards_are_read(&self)
        ensures read { (n : ℕ) (l : Log) → slice_get self.now.node.shards n ≡ Some l
            → IsReadAgain l.state }
        ensures keeps { NodeKeeps self.now.node }
    {
        let shards = self.node.shards();
        for shard in shards {
            law_read_again(shard.state());
        }
    }
}
