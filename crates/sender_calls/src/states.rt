// A sender's state as words.
ghost use Rattle.std.specs.Prelude.{◌≡◌, ◌≤◌, length};
ghost use Rattle.lists.specs.Bytes.{over};
ghost use Rattle.sender_calls.specs.SenderCalls.{waiting_of, sender_words, sender_in};

use sender::{Persisted, Sender, Waiting};

// How many words a state has.
pub(crate) const SENDER_WORDS: usize = 7;

fn waiting_of(word: u64) -> Waiting
    ensures { result ≡ waiting_of word }
{
    match word {
        0 => Waiting::Closed,
        1 => Waiting::Idle,
        2 => Waiting::Resynchronizing,
        3 => Waiting::Querying,
        _ => Waiting::Sending,
    }
}

// Writes over the first seven words.
#[tactic(auto, unfolding(lists::specs::Bytes::over))]
pub(crate) fn write_sender(words: &mut [u64], sender: Sender)
    requires { 7 ≤ length words.old }
    ensures { words.new ≡ over words.old (sender_words sender) }
{
    let persisted = sender.persisted;
    let state = [
        persisted.first,
        persisted.delivered,
        persisted.last,
        u64::from(persisted.resynchronized),
        u64::from(persisted.frozen),
        sender.waiting as u64,
        sender.sends,
    ];
    words[..SENDER_WORDS].copy_from_slice(&state);
}

// The sender that the words encode.
#[tactic(auto, unfolding(crate::specs::SenderCalls::sender_in))]
pub(crate) fn read_sender(words: &[u64]) -> Option<Sender>
    requires { 7 ≤ length words.now }
    ensures { result ≡ sender_in words.now }
{
    let &[
        first,
        delivered,
        last,
        resynchronized,
        frozen,
        waiting,
        sends,
        ..
    ] = words
    else {
        unreachable!();
    };
    if 1 < resynchronized || 1 < frozen || 4 < waiting {
        return None;
    }
    Some(Sender {
        persisted: Persisted {
            first,
            delivered,
            last,
            resynchronized: resynchronized == 1,
            frozen: frozen == 1,
        },
        waiting: waiting_of(waiting),
        sends,
    })
}
