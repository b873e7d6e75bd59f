// A decision as the words of its report.
ghost use Rattle.std.specs.Prelude.{◌≡◌, ◌≤◌, length};
ghost use Rattle.lists.specs.Bytes.{over};
ghost use Rattle.receiver_calls.specs.ReceiverCalls.{decision_words};

use crate::inputs::optional_word;
use receiver::Decided;

// How many words a decision has.
pub(crate) const DECISION_WORDS: usize = 5;

// The decision's words, and what is to be stored: as the open decision says, or nothing new.
fn decision_words(decided: &Decided) -> [u64; DECISION_WORDS]
    ensures { result ≡ decision_words decided.now }
{
    let expected = decided.receiver.expected;
    match decided.receiver.decision {
        Some(decision) if decided.opened => {
            let persisted = decision.row.persisted;
            let changes = !receiver::is_same_expected(persisted.expected, expected);
            [
                decided.block,
                1,
                optional_word(persisted.transaction),
                optional_word(persisted.expected),
                u64::from(changes),
            ]
        }
        _ => [
            decided.block,
            u64::from(decided.opened),
            0,
            optional_word(expected),
            0,
        ],
    }
}

// Writes over the first five words.
#[tactic(auto, unfolding(lists::specs::Bytes::over))]
pub(crate) fn write_decision(words: &mut [u64], decided: &Decided)
    requires { 5 ≤ length words.old }
    ensures { words.new ≡ over words.old (decision_words decided.now) }
{
    words[..DECISION_WORDS].copy_from_slice(&decision_words(decided));
}
