// A verdict that a C driver hands on as numbers, and a report as its 64-bit words.

#![tactic(auto)]

ghost use Rattle.std.specs.Prelude.{◌≡◌, []};
ghost use Rattle.lists.specs.Bytes.{over};
ghost use Rattle.lists.specs.Outcome.{called};
ghost use Rattle.refusal.specs.Refusal.{number_of, answer_by};
ghost use Rattle.words.specs.Words.{short_refusal, report_words, write_finished, type_byte, verdict_from};

use refusal::{Accepted, Refusal, Verdict, Written};

// The refusal of memory that is too short: 2, where the settings are valid.
pub fn refuse_short(valid: bool) -> Refusal
    ensures { result ≡ record { number = short_refusal valid; offset = 0 } }
{
    if valid {
        Refusal::TOO_SHORT
    } else {
        Refusal::SETTING
    }
}

// Writes a writer's report over the first two words; nothing where there are fewer.
#[tactic(auto, unfolding(lists::specs::Bytes::over))]
pub fn write_report(words: &mut [u64], length: usize, forbidden_offset: usize)
    ensures { words.new ≡ over words.old (report_words length forbidden_offset) }
{
    if words.len() >= 2 {
        words[..2].copy_from_slice(&[length as u64, forbidden_offset as u64]);
    }
}

// What a writer answered, with the report written unless the number is 1 or 2.
#[tactic(auto, unfolding(crate::specs::Words::write_finished))]
pub fn report_written(written: Written, report: &mut [u64]) -> Result<(), Refusal>
    ensures { (called (number_of result) [] [] report.new ≡ write_finished [] report.old written) × (result ≡ answer_by (number_of result)) }
{
    match written {
        Ok(length) => {
            write_report(report, length, 0);
            Ok(())
        }
        Err(refusal) => {
            if refusal.number > refusal::TOO_SHORT {
                write_report(report, 0, refusal.offset);
            }
            refusal::answered(refusal.number)
        }
    }
}

// A type that is no byte counts as 0, which is no type.
pub fn type_byte(t: u64) -> u8
    ensures { result ≡ type_byte t }
{
    if t > 255 { 0 } else { t as u8 }
}

// The verdict that a reader gave, by its number and type.
pub fn verdict_from(number: u64, t: u64) -> Option<Verdict>
    ensures { result ≡ verdict_from number t }
{
    match number {
        0 => Some(Ok(Accepted {
            block_type: type_byte(t),
            data_length: 0,
        })),
        refusal::BYTE..=refusal::INTERRUPTED => Some(Err(Refusal { number, offset: 0 })),
        _ => None,
    }
}
