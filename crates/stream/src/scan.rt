// Reading a part of a stream up to the first verdict.
ghost use Rattle.std.specs.Prelude.{◌≡◌, ◌+◌, ◌≤◌, length, Some, None, Ok, Err};
ghost use Rattle.settings.specs.Settings.{capacity_of};
ghost use Rattle.lists.specs.Outcome.{outcome};
ghost use Rattle.stream.specs.Scan.{stored_verdict, read_of};
ghost use Rattle.stream.specs.Internal.{advanced, stored, from, Ready, Reads};
ghost use Rattle.stream.specs.declared.Phase.TheVariants.{Between, Inside, Ended};

use crate::{Found, Phase, Reader, Reading};
use lists::find_stop;
use refusal::{Refusal, Verdict};
use settings::Settings;

// How many bytes between SB and EB the buffer holds.
fn capacity(settings: Settings) -> usize
    requires { settings.data_limit ≤ 99994 }
    ensures { result ≡ capacity_of settings }
{
    settings.data_limit + block::inner_frame(settings.kind)
}

// Stores the bytes of a block that follow its first `held` ones, as many as fit in `limit`, and returns the new count.
#[tactic(auto, using(crate::proofs::Store::store_cases))]
fn store(limit: usize, held: usize, piece: &[u8], buffer: &mut [u8]) -> usize
    requires limit_in_bounds { limit ≤ length buffer.old }
    requires limit_bound { limit ≤ 100006 }
    ensures value { result ≡ advanced limit held (length piece.now) }
    ensures buffer_after { buffer.new ≡ stored limit held piece.now buffer.old }
{
    if limit < held {
        return held;
    }
    let remaining = limit - held;
    if piece.len() <= remaining {
        lists::copy_bytes(&mut buffer[held..], piece);
        return held + piece.len();
    }
    lists::copy_bytes(&mut buffer[held..], &piece[..remaining]);
    limit + 1
}

// The verdict on a block of which `held` bytes were counted, with the byte after its EB.
#[tactic(auto, unfolding(crate::specs::Scan::stored_verdict))]
fn verdict_on(settings: Settings, held: usize, after: u8, buffer: &[u8]) -> Verdict
    requires { capacity_of settings ≤ length buffer.now }
    ensures { result ≡ stored_verdict settings held buffer.now after }
{
    if block::is_long(settings, held) {
        return Err(Refusal::LONG);
    }
    if after != b'\r' {
        return Err(Refusal::SHAPE);
    }
    block::judge_block(settings, &buffer[..held])
}

// All of the part was read, without a verdict: the reader is in this phase then, and at this position.
fn pending(phase: Phase, reader: Reader, position: usize, used: usize) -> Reading
    ensures { result ≡ record { answer = Ok None; reader = record { phase = phase; body_length = reader.body_length; block_offset = reader.block_offset; position = position }; used = used } }
{
    Reading {
        answer: Ok(None),
        reader: Reader {
            phase,
            position,
            ..reader
        },
        used,
    }
}

// A verdict came on the block whose SB stands at `block_offset`.
fn found(block_offset: usize, verdict: Verdict, reader: Reader, used: usize) -> Reading
    ensures { result ≡ record { answer = Ok (Some (record { block_offset = block_offset; verdict = verdict })); reader = reader; used = used } }
{
    Reading {
        answer: Ok(Some(Found {
            block_offset,
            verdict,
        })),
        reader,
        used,
    }
}

// Inside a block whose SB stands at `block_offset`, and of which nothing was read.
fn inside(block_offset: usize, position: usize) -> Reader
    ensures { result ≡ record { phase = Inside; body_length = 0; block_offset = block_offset; position = position } }
{
    Reader {
        phase: Phase::Inside,
        body_length: 0,
        block_offset,
        position,
    }
}

// Between two blocks.
pub(crate) fn between(position: usize) -> Reader
    ensures { result ≡ record { phase = Between; body_length = 0; block_offset = 0; position = position } }
{
    Reader {
        phase: Phase::Between,
        body_length: 0,
        block_offset: 0,
        position,
    }
}

// From offset `at` of the part on, after a block's EB. The offset of the part's first byte is the reader's position.
#[tactic(auto, using(crate::proofs::Steps::ended_cases))]
fn read_ended(
    settings: Settings,
    reader: Reader,
    part: &[u8],
    at: usize,
    buffer: &mut [u8],
) -> Reading
    requires { Ready settings reader.position at part.now buffer.old }
    ensures { Reads result buffer.new reader.position (from settings Ended reader.body_length reader.block_offset reader.position buffer.old at part.now) }
{
    let start = reader.block_offset;
    let here = reader.position + at;
    if at == part.len() {
        return pending(Phase::Ended, reader, here, at);
    }
    let x = part[at];
    let verdict = verdict_on(settings, reader.body_length, x, buffer);
    if x == settings.start_block {
        return found(start, verdict, inside(here, here + 1), at + 1);
    }
    found(start, verdict, between(here + 1), at + 1)
}

// From offset `at` on, inside a block.
#[tactic(auto, using(crate::proofs::Store::inside_cases))]
fn read_inside(
    settings: Settings,
    reader: Reader,
    part: &[u8],
    at: usize,
    buffer: &mut [u8],
) -> Reading
    requires { Ready settings reader.position at part.now buffer.old }
    ensures { Reads result buffer.new reader.position (from settings Inside reader.body_length reader.block_offset reader.position buffer.old at part.now) }
{
    let stop = at + find_stop(&part[at..], settings.start_block, settings.end_block);
    let held = store(
        capacity(settings),
        reader.body_length,
        &part[at..stop],
        buffer,
    );
    let reader = Reader {
        body_length: held,
        ..reader
    };
    let here = reader.position + stop;
    if stop == part.len() {
        return pending(Phase::Inside, reader, here, stop);
    }
    let x = part[stop];
    if x == settings.start_block {
        return found(
            reader.block_offset,
            Err(Refusal::INTERRUPTED),
            inside(here, here + 1),
            stop + 1,
        );
    }
    read_ended(settings, reader, part, stop + 1, buffer)
}

// From the part's first byte on, between blocks.
#[tactic(auto, using(crate::proofs::Store::between_cases))]
fn read_between(settings: Settings, reader: Reader, part: &[u8], buffer: &mut [u8]) -> Reading
    requires { Ready settings reader.position 0 part.now buffer.old }
    ensures { Reads result buffer.new reader.position (from settings Between reader.body_length reader.block_offset reader.position buffer.old 0 part.now) }
{
    let stop = find_stop(part, settings.start_block, settings.start_block);
    let here = reader.position + stop;
    if stop == part.len() {
        return pending(Phase::Between, reader, here, stop);
    }
    read_inside(
        settings,
        inside(here, reader.position),
        part,
        stop + 1,
        buffer,
    )
}

fn refuse(refusal: Refusal, reader: Reader) -> Reading
    ensures { result ≡ record { answer = Err refusal; reader = reader; used = 0 } }
{
    Reading {
        answer: Err(refusal),
        reader,
        used: 0,
    }
}

// From the part's first byte on, in the phase that the reader is in.
fn read_part(settings: Settings, reader: Reader, part: &[u8], buffer: &mut [u8]) -> Reading
    requires { Ready settings reader.position 0 part.now buffer.old }
    ensures { Reads result buffer.new reader.position (from settings reader.phase reader.body_length reader.block_offset reader.position buffer.old 0 part.now) }
{
    match reader.phase {
        Phase::Between => read_between(settings, reader, part, buffer),
        Phase::Inside => read_inside(settings, reader, part, 0, buffer),
        Phase::Ended => read_ended(settings, reader, part, 0, buffer),
    }
}

// Reads a part of the stream up to the first verdict, or all of it.
#[tactic(auto, using(crate::proofs::Returns::read_cases))]
pub fn read(settings: Settings, reader: Reader, part: &[u8], buffer: &mut [u8]) -> Reading
    ensures { outcome result buffer.new ≡ read_of settings reader part.now buffer.old }
{
    if !settings.is_valid() {
        return refuse(Refusal::SETTING, reader);
    }
    if !block::buffer_fits(settings, buffer) {
        return refuse(Refusal::TOO_SHORT, reader);
    }
    if usize::MAX - reader.position < part.len() {
        return refuse(Refusal::STATE, reader);
    }
    read_part(settings, reader, part, buffer)
}
