// Circuits opened and ended, the timer, and the operator's reset.
ghost use Rattle.std.specs.Prelude.{◌≡◌};
ghost use Rattle.sender.specs.Sender.{waits_of, open_of, ended_of, reset_of, resend_of, timer_act_of};

use crate::state::{
    ValidSender, act, begin, end_circuit, is_on_circuit, is_open, is_state, refuse, refuse_state,
    waiting_message,
};
use crate::{Acted, Event, Persisted, Sender, SenderSettings, Waiting};

// A circuit was opened.
#[tactic(auto, unfolding(crate::specs::Sender::open_of))]
pub fn circuit_opened(sender: Sender) -> Acted
    ensures { result ≡ open_of sender }
{
    if !is_state(sender) {
        return refuse_state(sender);
    }
    let persisted = sender.persisted;
    if is_open(sender.waiting) | persisted.frozen {
        return refuse(refusal::STATE, 0, sender);
    }
    if persisted.resynchronized {
        begin(persisted, Waiting::Querying, 1, Event::NoEvent)
    } else {
        begin(persisted, Waiting::Resynchronizing, 1, Event::NoEvent)
    }
}

// The circuit ended.
#[tactic(auto, unfolding(crate::specs::Sender::ended_of))]
pub fn circuit_ended(sender: Sender) -> Acted
    ensures { result ≡ ended_of sender }
{
    if !is_on_circuit(sender) {
        return refuse_state(sender);
    }
    end_circuit(sender.persisted, 0, Event::NoEvent)
}

// An operator resets a frozen sender.
#[tactic(auto, unfolding(crate::specs::Sender::reset_of))]
pub fn operator_reset(sender: Sender) -> Acted
    ensures { result ≡ reset_of sender }
{
    if !is_state(sender) {
        return refuse_state(sender);
    }
    if !sender.persisted.frozen {
        return refuse(refusal::STATE, 0, sender);
    }
    let thawed = Persisted {
        frozen: false,
        ..sender.persisted
    };
    end_circuit(thawed, 0, Event::NoEvent)
}

// The message that waits is sent again, or given up.
pub(crate) fn resend(resends: u64, valid: ValidSender) -> Acted
    ensures { result ≡ resend_of resends valid.sender (waits_of valid.sender) }
{
    let sender = valid.sender;
    let message = waiting_message(sender);
    if message.is_none() {
        return act(sender, None, Event::NoEvent);
    }
    if resends < sender.sends {
        return end_circuit(sender.persisted, sender.sends, Event::Abandoned);
    }
    let mut next = sender;
    next.sends += 1;
    act(next, message, Event::NoEvent)
}

// The timer ran out.
#[tactic(auto, unfolding(crate::specs::Sender::timer_act_of, crate::specs::Sender::timer_of))]
pub fn timer_ran_out(settings: SenderSettings, sender: Sender) -> Acted
    ensures { result ≡ timer_act_of settings sender }
{
    if !settings.is_valid() {
        return refuse(refusal::SETTING, 0, sender);
    }
    if !is_on_circuit(sender) {
        return refuse_state(sender);
    }
    resend(settings.resends, ValidSender { sender })
}
