// The X3.28 sending station, the master (000, C.3; 02, §3 and §14): what it is, and what it answers. The line driver keeps the message,
// frames the blocks and reports the replies.
// A block is out: it was sent, and its ACK is awaited.

#![tactic(auto)]

#[derive(Clone, Copy)]
pub struct Outstanding {
    pub message_length: u64,
    pub block_size: u64,
    // Where the block begins in the message.
    pub offset: u64,
    pub resends: u64,
    // The blocks acknowledged since the opening; the block's number follows from it.
    pub count: u64,
}

#[derive(Clone, Copy)]
pub enum Master {
    // The blocks that were acknowledged in the opening that ended.
    Closed(u64),
    // The blocks acknowledged since the opening.
    Idle(u64),
    Waiting(Outstanding),
}

// How an open master stands with RINT and its enquiry. Closed: no reply, and no to all.
#[derive(Clone, Copy)]
pub struct Reversal {
    // The last undamaged reply, its number aside.
    pub last: station::ReplyKind,
    // A RINT came in this opening.
    pub interrupted: bool,
    // What was sent last is ENQ.
    pub enquired: bool,
    // The driver may receive: it ends when the block out is acknowledged.
    pub may_receive: bool,
}

#[derive(Clone, Copy)]
pub struct MasterState {
    pub master: Master,
    pub reversal: Reversal,
}

// A reply as it arrived.
#[derive(Clone, Copy)]
pub enum Response {
    Ack(u64),
    Nak,
    Eot,
    Damaged,
    Rint,
}

// A block to send: its text is a part of the message.
#[derive(Clone, Copy)]
pub struct BlockPart {
    pub number: u64,
    pub ending: station::Ending,
    pub offset: u64,
    pub length: u64,
}

// What to send now.
#[derive(Clone, Copy)]
pub enum Transmission {
    Nothing,
    SendBlock(BlockPart),
    SendEot,
    SendEnq,
}

// What an ACK brought.
#[derive(Clone, Copy)]
pub enum Progress {
    NoProgress,
    Acknowledged,
    // The message's last block.
    Done,
}

// How the opening ended. Numbered as in the driver's words (GMV_MASTER_END_..).
#[derive(Clone, Copy)]
pub enum End {
    NotEnded = 0,
    Failed = 1,
    BySlave = 2,
    ByDriver = 3,
    // The driver may receive, and no block is out.
    Reversed = 4,
}

// What an act answers.
#[derive(Clone, Copy)]
pub struct MasterActed {
    // 0, or 1 or 11.
    pub refusal: u64,
    pub master: Master,
    pub send: Transmission,
    pub progress: Progress,
    pub end: End,
}

// The same, with how it stands with RINT then.
#[derive(Clone, Copy)]
pub struct MasterAnswer {
    pub acted: MasterActed,
    pub reversal: Reversal,
}
