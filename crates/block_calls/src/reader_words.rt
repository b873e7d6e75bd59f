// A reader's state and a verdict as the 64-bit words of a C driver.
ghost use Rattle.std.specs.Prelude.{◌≡◌, ◌≤◌, length};
ghost use Rattle.lists.specs.Bytes.{over};
ghost use Rattle.block_calls.specs.Internal.{phase_from};
ghost use Rattle.block_calls.specs.ReaderWords.{phase_number, reader_words, decoded, data_start, verdict_words, pending_words};

use refusal::Verdict;
use stream::{Phase, Reader};

fn phase_number(phase: Phase) -> u64
    ensures { result ≡ phase_number phase }
{
    match phase {
        Phase::Between => 0,
        Phase::Inside => 1,
        Phase::Ended => 2,
    }
}

fn phase_from(word: u64) -> Option<Phase>
    ensures { result ≡ phase_from word }
{
    match word {
        0 => Some(Phase::Between),
        1 => Some(Phase::Inside),
        2 => Some(Phase::Ended),
        _ => None,
    }
}

// Writes a reader's state over the first four words.
#[tactic(auto, unfolding(crate::specs::ReaderWords::reader_words, lists::specs::Bytes::over))]
pub(crate) fn write_reader(words: &mut [u64], reader: Reader)
    requires { 4 ≤ length words.old }
    ensures { words.new ≡ over words.old (reader_words reader) }
{
    words[..4].copy_from_slice(&[
        phase_number(reader.phase),
        reader.body_length as u64,
        reader.block_offset as u64,
        reader.position as u64,
    ]);
}

// The state that the words encode.
#[tactic(auto, unfolding(crate::specs::ReaderWords::decoded))]
pub(crate) fn read_reader(words: &[u64]) -> Option<Reader>
    requires { 4 ≤ length words.now }
    ensures { result ≡ decoded words.now }
{
    let &[phase, body_length, block_offset, position, ..] = words else {
        unreachable!();
    };
    Some(Reader {
        phase: phase_from(phase)?,
        body_length: body_length as usize,
        block_offset: block_offset as usize,
        position: position as usize,
    })
}

// Where an accepted block's data begins; 0 for a refused block.
fn data_start(offset: usize, verdict: Verdict) -> usize
    ensures { result ≡ data_start offset verdict }
{
    match verdict {
        Ok(_) => offset,
        Err(_) => 0,
    }
}

// Writes a verdict over the first eight words.
#[tactic(auto, unfolding(crate::specs::ReaderWords::verdict_words, lists::specs::Bytes::over))]
pub(crate) fn write_verdict(
    words: &mut [u64],
    start: usize,
    verdict: Verdict,
    offset: usize,
    used: usize,
)
    requires { 8 ≤ length words.old }
    ensures { words.new ≡ over words.old (verdict_words start verdict offset used) }
{
    words[..8].copy_from_slice(&[
        1,
        start as u64,
        refusal::number_in(verdict.err()),
        refusal::offset_in(verdict.err()) as u64,
        u64::from(refusal::type_of(verdict)),
        data_start(offset, verdict) as u64,
        refusal::length_of(verdict) as u64,
        used as u64,
    ]);
}

// Writes over the first eight words that no block ended yet.
#[tactic(auto, unfolding(crate::specs::ReaderWords::pending_words, lists::specs::Bytes::over))]
pub(crate) fn write_pending(words: &mut [u64], used: usize)
    requires { 8 ≤ length words.old }
    ensures { words.new ≡ over words.old (pending_words used) }
{
    words[..8].copy_from_slice(&[0, 0, 0, 0, 0, 0, 0, used as u64]);
}
