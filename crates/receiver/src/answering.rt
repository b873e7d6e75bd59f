// The second act: the answer of the open decision, once it is reported stored. And the N reply.
ghost use Rattle.std.specs.Prelude.{◌≡◌, true, ◌+◌, ◌≤◌, leb, length};
ghost use Rattle.lists.specs.Outcome.{outcome};
ghost use Rattle.control_id.specs.ControlId.{bytes_in};
ghost use Rattle.messages.specs.Messages.{answerable};
ghost use Rattle.receiver.specs.Receiver.{answered, carried, closed, valid_receiver, is_block_number, reason_of, nak_block, nak_reply, answer_block, reply_space, reported_of, answer_of, nak_of};
ghost use Rattle.receiver.specs.Internal.{Linked, framed, Answerable};

use crate::states::is_receiver;
use crate::{Answered, Decision, Receiver, Row};
use control_id::ControlId;
use settings::{Kind, Settings};

// Whether a reply of D data bytes would fit from the offset on.
pub fn fits_reply(settings: Settings, have: usize, start: usize) -> bool
    ensures { result ≡ leb (start + reply_space settings) have }
{
    writer::is_long_enough(have, start, settings.kind, settings.data_limit)
}

// Whether a refused block has this number: 3 to 8 are the reader's, 9 is a decision's.
pub fn is_block_number(number: u64) -> bool
    ensures { result ≡ is_block_number number }
{
    (refusal::BYTE..=refusal::HEAD).contains(&number)
}

fn answer_as(refusal: u64, receiver: Receiver, reply_length: usize) -> Answered
    ensures { result ≡ answered refusal receiver reply_length }
{
    Answered {
        refusal,
        receiver,
        reply_length,
    }
}

fn close(expected: Option<u64>) -> Receiver
    ensures { result ≡ closed expected }
{
    Receiver {
        expected,
        decision: None,
    }
}

// The reason that an N block gives for the number of a refused one.
fn reason_of(number: u64) -> u8
    ensures { result ≡ reason_of number }
{
    match number {
        refusal::LONG => b'B',
        refusal::COUNT => b'C',
        refusal::CHECK => b'X',
        _ => b'G',
    }
}

#[tactic(auto, using(crate::proofs::Replying::nak_framed))]
fn write_nak(settings: Settings, number: u64, buffer: &mut [u8], start: usize) -> usize
    requires { Linked settings start (length buffer.old) }
    ensures { outcome result buffer.new ≡ framed (nak_block settings number) start buffer.old }
{
    let content = [reason_of(number)];
    refusal::written_length(writer::write(settings, b'N', &content, buffer, start))
}

// A minimal link has no N block.
#[tactic(auto, using(lists::proofs::Put::put_none))]
fn write_nak_reply(settings: Settings, number: u64, buffer: &mut [u8], start: usize) -> usize
    requires { Linked settings start (length buffer.old) }
    ensures { outcome result buffer.new ≡ framed (nak_reply settings number) start buffer.old }
{
    match settings.kind {
        Kind::Hybrid => write_nak(settings, number, buffer, start),
        Kind::Minimal => 0,
    }
}

// Makes the answer in the first bytes of `message`, and frames it as a block.
#[tactic(auto, using(message_theorems::proofs::Answer::answer_length, message_theorems::proofs::InBlock::answer_in_block, lists::proofs::Put::first_part), unfolding(messages::specs::Write::write_answer_of))]
fn frame_answer(
    settings: Settings,
    control_id: &[u8],
    row: Row,
    message: &mut [u8],
    buffer: &mut [u8],
    start: usize,
) -> usize
    requires linked { Linked settings start (length buffer.old) }
    requires answerable { Answerable control_id.now row.number }
    requires in_bounds { 93 ≤ length message.old }
    ensures { outcome result buffer.new ≡ framed (answer_block settings control_id.now row) start buffer.old }
{
    let written = messages::write_answer(control_id, row.code, row.number, message, 0);
    let size = refusal::written_length(written);
    refusal::written_length(writer::write(settings, b'D', &message[..size], buffer, start))
}

// An answer has at most 93 bytes.
fn write_answer(
    settings: Settings,
    control_id: &[u8],
    row: Row,
    buffer: &mut [u8],
    start: usize,
) -> usize
    requires linked { Linked settings start (length buffer.old) }
    requires answerable { Answerable control_id.now row.number }
    ensures { outcome result buffer.new ≡ framed (answer_block settings control_id.now row) start buffer.old }
{
    let mut message = [0u8; 93];
    frame_answer(settings, control_id, row, &mut message, buffer, start)
}

// The answer to the control ID that the state carries.
#[tactic(auto, using(crate::proofs::Replying::unpacked_part), unfolding(crate::specs::Receiver::carried))]
fn write_carried(
    settings: Settings,
    control_id: ControlId,
    row: Row,
    buffer: &mut [u8],
    start: usize,
) -> usize
    requires linked { Linked settings start (length buffer.old) }
    requires control_id_value { carried control_id ≡ true }
    requires number_value { answerable row.number ≡ true }
    ensures { outcome result buffer.new ≡ framed (answer_block settings (bytes_in control_id) row) start buffer.old }
{
    let length = control_id.length as usize;
    let mut bytes = [0u8; 24];
    control_id::unpack(control_id, &mut bytes);
    write_answer(settings, &bytes[..length], row, buffer, start)
}

// The report on what is open: stored or failed.
#[tactic(auto, using(crate::proofs::Rows::open_answerable), unfolding(crate::specs::Receiver::valid_receiver))]
fn report_on(
    settings: Settings,
    stored: bool,
    receiver: Receiver,
    buffer: &mut [u8],
    start: usize,
) -> Answered
    requires linked { Linked settings start (length buffer.old) }
    requires receiver_value { valid_receiver receiver ≡ true }
    ensures { outcome result buffer.new ≡ reported_of settings stored receiver start buffer.old receiver.decision }
{
    let Some(decision) = receiver.decision else {
        return answer_as(refusal::STATE, receiver, 0);
    };
    if !stored {
        return answer_as(0, close(receiver.expected), 0);
    }
    let row = decision.row;
    let size = write_carried(settings, decision.control_id, row, buffer, start);
    answer_as(0, close(row.persisted.expected), size)
}

// The report on the open decision. Reported stored, its answer is written into the buffer from an offset on; reported failed,
// nothing is, and the state is that of before the decision.
#[tactic(auto, unfolding(crate::specs::Receiver::answer_of, settings::specs::Settings::valid_link))]
pub fn answer(
    settings: Settings,
    stored: bool,
    receiver: Receiver,
    buffer: &mut [u8],
    start: usize,
) -> Answered
    ensures { outcome result buffer.new ≡ answer_of settings stored receiver start buffer.old }
{
    if !settings.is_link() {
        return answer_as(refusal::SETTING, receiver, 0);
    }
    if !fits_reply(settings, buffer.len(), start) {
        return answer_as(refusal::TOO_SHORT, receiver, 0);
    }
    if !is_receiver(&receiver) {
        return answer_as(refusal::STATE, receiver, 0);
    }
    report_on(settings, stored, receiver, buffer, start)
}

// The N reply to a block that was refused, by its number: 3 to 8, or the 9 of a decision.
#[tactic(auto, unfolding(crate::specs::Receiver::nak_of, settings::specs::Settings::valid_link))]
pub fn nak(
    settings: Settings,
    number: u64,
    receiver: Receiver,
    buffer: &mut [u8],
    start: usize,
) -> Answered
    ensures { outcome result buffer.new ≡ nak_of settings number receiver start buffer.old }
{
    if !(settings.is_link() & is_block_number(number)) {
        return answer_as(refusal::SETTING, receiver, 0);
    }
    if !fits_reply(settings, buffer.len(), start) {
        return answer_as(refusal::TOO_SHORT, receiver, 0);
    }
    if !(is_receiver(&receiver) & receiver.decision.is_none()) {
        return answer_as(refusal::STATE, receiver, 0);
    }
    let size = write_nak_reply(settings, number, buffer, start);
    answer_as(0, receiver, size)
}
