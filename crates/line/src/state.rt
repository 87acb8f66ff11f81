// The states of a line, and the memory that each of them has.
ghost use Rattle.std.specs.Prelude.{◌≡◌, ◌<◌, ◌≤◌, vec_len, vec_capacity};
ghost use Rattle.line.specs.Frame.{shortest, longest};

// The bytes that are kept of a frame. Room for the longest one is reserved beforehand, since no call of a
// line allocates.
#[derive(Drop)]
pub struct FrameBuffer {
    pub(crate) bytes: Vec<u8>,
    ghost room: { vec_capacity bytes ≡ longest },
}

// No order is ready. What is kept is the beginning of an unfinished frame.
#[derive(Drop)]
pub struct Listening {
    pub(crate) kept: FrameBuffer,
    ghost short: { vec_len kept.bytes < longest },
}

// An order is ready: its frame. It is not `Drop`, so a line that holds an order cannot be let go.
pub struct Holding {
    pub(crate) frame: FrameBuffer,
    ghost whole: { shortest ≤ vec_len frame.bytes },
    ghost fits: { vec_len frame.bytes ≤ longest },
}

// The reply that is owed for a ready order. It is not `Drop`: settling the order is what spends it.
pub struct PendingReply(pub(crate) ());

// A line in the state `L`, of the controller with the identity `tid`.
#[derive(Drop)]
pub struct Line<L> {
    pub(crate) tid: u16,
    pub(crate) state: L,
}

// What feeding comes to, and how many bytes of the piece it took.
pub enum Fed {
    Waiting(Line<Listening>, usize),
    Ready(Line<Holding>, PendingReply, usize),
}
