// A block that was read on the circuit.
ghost use Rattle.std.specs.Prelude.{◌≡◌};
ghost use Rattle.header.specs.Header.{acknowledgment_of};
ghost use Rattle.sender.specs.Sender.{waits_of, resend_of, with_block, data_block, block_act_of};

use crate::answers::answer;
use crate::circuit::resend;
use crate::state::{ValidSender, act, is_on_circuit, refuse, refuse_state, waiting_message};
use crate::{Acted, Event, Sender, SenderSettings};
use fields::field_content;
use numbers::{SequenceNumber, read_number};
use refusal::{Accepted, Refusal, Verdict};

// A refused block: its number is reported.
fn resend_for(number: u64, resends: u64, valid: ValidSender) -> Acted
    ensures { result ≡ with_block number (resend_of resends valid.sender (waits_of valid.sender)) }
{
    Acted {
        block: number,
        ..resend(resends, valid)
    }
}

// The data of an accepted data block. An answer to anything but what waits is dropped.
fn read_data(resends: u64, valid: ValidSender, content: &[u8]) -> Acted
    ensures { result ≡ data_block resends valid.sender content.now (acknowledgment_of content.now) }
{
    let sender = valid.sender;
    let Some(answered) = header::read_acknowledgment(content) else {
        return resend_for(refusal::HEAD, resends, valid);
    };
    let Some(number) = waiting_message(sender) else {
        return act(sender, None, Event::NoEvent);
    };
    if !numbers::is_text(field_content(content, answered.control_id), number) {
        return act(sender, None, Event::Dropped);
    }
    answer(
        valid,
        header::read_code(field_content(content, answered.code)),
        read_number(
            field_content(content, answered.expected),
            SequenceNumber::GREATEST_EXPECTED,
        ),
    )
}

// A block was read: an answer, an N block or a refused block.
#[tactic(auto, unfolding(crate::specs::Sender::block_act_of, crate::specs::Sender::block_read_of))]
pub fn block_read(
    settings: SenderSettings,
    sender: Sender,
    verdict: Verdict,
    content: &[u8],
) -> Acted
    ensures { result ≡ block_act_of settings sender verdict content.now }
{
    if !settings.is_valid() {
        return refuse(refusal::SETTING, 0, sender);
    }
    if !is_on_circuit(sender) {
        return refuse_state(sender);
    }
    let valid = ValidSender { sender };
    match verdict {
        Ok(accepted) if accepted.block_type == b'N' => resend(settings.resends, valid),
        Ok(_) => read_data(settings.resends, valid, content),
        Err(refusal) => resend_for(refusal.number, settings.resends, valid),
    }
}
