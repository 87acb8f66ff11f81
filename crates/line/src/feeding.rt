// Feeding a line and settling its order.
ghost use Rattle.std.specs.Prelude.{◌≡◌, ◌+◌, ◌<◌, ◌≤◌, [], length, IfOk, vec_len, vec_capacity};
ghost use Rattle.std.specs.Option.{SomeIff};
ghost use Rattle.line.specs.Frame.{longest, frame_length, frame_tid};
ghost use Rattle.line.specs.Rule.{kept, judged, after_byte, hears};
ghost use Rattle.line.specs.Lines.{unfinished, ready_frame, heard, fed_tid, Taken};
ghost use Rattle.line.specs.Laws.{LineLaws};
ghost use Rattle.line.specs.Steps.{Judges, Keeps};

use crate::frame::{FIRST_BYTE, LENGTH_END, LONGEST, SECOND_BYTE, SHORTEST, TID_END};
use crate::state::{Fed, FrameBuffer, Holding, Line, Listening, PendingReply};
use std::alloc::{AllocError, Global};

// LENGTH, once its bytes are there.
fn length_of(frame: &[u8]) -> Option<usize>
    ensures { SomeIff result (6 ≤ length frame.now) (frame_length frame.now) }
{
    let [_, _, a, b, c, d] = *frame.first_chunk::<LENGTH_END>()?;
    Some(u32::from_be_bytes([a, b, c, d]) as usize)
}

// TID, once its bytes are there. It has a function beside LENGTH's, since `from_be_bytes` is in no trait.
fn tid_of(frame: &[u8]) -> Option<u16>
    ensures { SomeIff result (8 ≤ length frame.now) (frame_tid frame.now) }
{
    let [.., a, b] = *frame.first_chunk::<TID_END>()?;
    Some(u16::from_be_bytes([a, b]))
}

// What the bytes kept of a frame are.
enum Verdict {
    Unfinished,
    Dropped,
    Whole,
}

fn judge(tid: u16, frame: &[u8]) -> Verdict
    ensures { Judges (judged tid frame.now) frame.now result }
{
    let Some(length) = length_of(frame) else {
        return Verdict::Unfinished;
    };
    if !(SHORTEST..=LONGEST).contains(&length) {
        Verdict::Dropped
    } else if frame.len() < length {
        Verdict::Unfinished
    } else if tid_of(frame) == Some(tid) {
        Verdict::Whole
    } else {
        Verdict::Dropped
    }
}

impl FrameBuffer {
    pub fn new(heap: Global) -> Result<FrameBuffer, AllocError>
        ensures { IfOk result (λ b. vec_capacity b.bytes ≡ longest) }
    {
        let bytes = Vec::with_capacity(heap, LONGEST)?;
        Ok(FrameBuffer { bytes })
    }

    // Keeps one byte more of a frame's beginning.
    fn keep(&mut self, byte: u8)
        requires { vec_len self.old.bytes < longest }
        ensures bytes { self.new.bytes.items ≡ kept self.old.bytes.items byte }
        ensures bound { vec_len self.new.bytes ≤ vec_len self.old.bytes + 1 }
    {
        match (self.bytes.as_slice(), byte) {
            ([_, _, ..], _) | ([_], SECOND_BYTE) => self.bytes.push_reserved(byte),
            (_, FIRST_BYTE) => {
                self.bytes.clear();
                self.bytes.push_reserved(byte);
            }
            _ => self.bytes.clear(),
        }
    }

    // Hears one byte more, and tells whether an order is ready with it.
    fn hear(&mut self, tid: u16, byte: u8) -> bool
        requires { vec_len self.old.bytes < longest }
        ensures { Keeps (after_byte tid self.old.bytes.items byte) self.new.bytes.items result }
    {
        self.keep(byte);
        match judge(tid, &self.bytes) {
            Verdict::Unfinished => false,
            Verdict::Dropped => {
                self.bytes.clear();
                false
            }
            Verdict::Whole => true,
        }
    }
}

impl<L> Line<L> {
    pub fn tid(&self) -> u16
        ensures { result ≡ self.now.tid }
    {
        self.tid
    }
}

impl Line<Listening> {
    // A line that has heard nothing, whatever the buffer held.
    pub fn new(tid: u16, mut buffer: FrameBuffer) -> Line<Listening>
        ensures tid { result.tid ≡ tid }
        ensures unfinished { unfinished result ≡ [] }
    {
        buffer.bytes.clear();
        let state = Listening { kept: buffer };
        Line { tid, state }
    }

    // How many bytes of an unfinished frame the line has.
    pub fn bytes_waiting(&self) -> usize
        ensures { result ≡ length (unfinished self.now) }
    {
        self.state.kept.bytes.len()
    }

    // Takes the piece up to the byte that makes an order ready, or all of it.
    #[tactic(auto, using(crate::proofs::Hearing::still_listening, crate::proofs::Hearing::all_heard))]
    pub fn feed(self, piece: &[u8]) -> Fed
        ensures rule { heard result ≡ hears self.tid (unfinished self) piece.now }
        ensures tid { fed_tid result ≡ self.tid }
        ensures taken { Taken piece.now result }
        ensures laws { LineLaws self.tid }
    {
        let Line { tid, state } = self;
        let Listening { mut kept } = state;
        for (i, byte) in piece.iter().enumerate() {
            if kept.hear(tid, *byte) {
                let state = Holding { frame: kept };
                return Fed::Ready(Line { tid, state }, PendingReply(()), i + 1);
            }
        }
        let state = Listening { kept };
        Fed::Waiting(Line { tid, state }, piece.len())
    }
}

impl Line<Holding> {
    // The bytes of the ready order.
    pub fn frame(&self) -> &[u8]
        ensures { result.now ≡ ready_frame self.now }
    {
        &self.state.frame.bytes
    }

    // Drops the ready order. Nothing else changes.
    pub fn withdraw(self, pending: PendingReply) -> Line<Listening>
        ensures tid { result.tid ≡ self.tid }
        ensures unfinished { unfinished result ≡ [] }
    {
        let PendingReply(()) = pending;
        let Line { tid, state } = self;
        let Holding { frame } = state;
        Line::new(tid, frame)
    }
}
