// The X3.28 receiving station (000, C.3): what it is, and what it answers. The line driver frames the units and reports what arrived.

#![tactic(auto)]

#[derive(Clone, Copy)]
pub enum Station {
    Closed,
    // The expected block number, and the length of the text held in the message buffer.
    Open(u64, usize),
}

// What a reply is, its number aside. Numbered as in the driver's words (GMV_REPLY_..).
#[derive(Clone, Copy)]
pub enum ReplyKind {
    NoneYet = 0,
    Ack = 1,
    Nak = 2,
    Rint = 5,
}

// How a station stands with RINT: none is asked for, one is, or one was given and no ACK since.
// Numbered as in the words (GMV_INTERRUPT_..).
#[derive(Clone, Copy)]
pub enum Interrupt {
    Unasked = 0,
    Pending = 1,
    Given = 2,
}

// What an open station keeps of its replies: the last one, and RINT. Closed: none, and unasked.
#[derive(Clone, Copy)]
pub struct Turn {
    pub last: ReplyKind,
    pub interrupt: Interrupt,
}

#[derive(Clone, Copy)]
pub struct StationState {
    pub station: Station,
    pub turn: Turn,
}

// How a good block ended.
#[derive(Clone, Copy)]
pub enum Ending {
    Etb,
    Etx,
}

#[derive(Clone, Copy)]
pub enum Reply {
    NoReply,
    // With the block's number.
    Ack(u64),
    Nak,
    Eot,
    Rint,
}

// What an act answers.
#[derive(Clone, Copy)]
pub struct Acted {
    // 0, or 11 for what is no station.
    pub refusal: u64,
    pub station: Station,
    pub reply: Reply,
    pub message: Option<usize>,
}

// The same, with what is kept of the replies then.
#[derive(Clone, Copy)]
pub struct StationAnswer {
    pub acted: Acted,
    pub turn: Turn,
}
