// The first act: what the receiver decides on an accepted block, and what is to be stored then.
ghost use Rattle.std.specs.Prelude.{◌≡◌};
ghost use Rattle.header.specs.Header.{header_of};
ghost use Rattle.receiver.specs.Receiver.{undecided, opens, header_decided, decide_of};

use crate::states::is_receiver;
use crate::table::table_row;
use crate::{Application, Decided, Decision, Receiver, Row};
use control_id::ControlId;
use fields::field_content;
use numbers::{SequenceNumber, read_number};

const NAK_BLOCK: u64 = 78;

fn leave_undecided(refusal: u64, block: u64, receiver: Receiver) -> Decided
    ensures { result ≡ undecided refusal block receiver }
{
    Decided {
        refusal,
        block,
        opened: false,
        receiver,
    }
}

fn open_decision(receiver: Receiver, control_id: ControlId, row: Row) -> Decided
    ensures { result ≡ opens receiver control_id row }
{
    Decided {
        refusal: 0,
        block: 0,
        opened: true,
        receiver: Receiver {
            expected: receiver.expected,
            decision: Some(Decision { control_id, row }),
        },
    }
}

#[tactic(auto, using(crate::proofs::Laws::field_fits_lem))]
fn decide_data(application: Application, receiver: Receiver, content: &[u8]) -> Decided
    ensures { result ≡ header_decided application receiver content.now (header_of content.now) }
{
    let Some(header) = header::read_header(content) else {
        return leave_undecided(0, refusal::HEAD, receiver);
    };
    let id_content = field_content(content, header.control_id);
    if !settings::are_allowed(id_content) {
        return leave_undecided(0, refusal::HEAD, receiver);
    }
    let number = read_number(
        field_content(content, header.sequence),
        SequenceNumber::GREATEST_SENT,
    );
    open_decision(
        receiver,
        control_id::pack(id_content),
        table_row(application, receiver.expected, number),
    )
}

// The decision on an accepted block, by its type and data. It is opened, and stays open until it is reported stored or failed.
#[tactic(auto, unfolding(crate::specs::Receiver::decide_of))]
pub fn decide(
    application: Application,
    receiver: Receiver,
    block_type: u64,
    content: &[u8],
) -> Decided
    ensures { result ≡ decide_of application receiver block_type content.now }
{
    if !is_receiver(&receiver) {
        return leave_undecided(refusal::STATE, 0, receiver);
    }
    if receiver.decision.is_some() {
        return leave_undecided(refusal::STATE, 0, receiver);
    }
    if block_type == NAK_BLOCK {
        return leave_undecided(0, 0, receiver);
    }
    decide_data(application, receiver, content)
}
