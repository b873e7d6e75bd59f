// Document 01, 'Cases by hand', the others that concern blocks: data of D and D + 1 bytes, byte 7F, empty input; and the data
// of an accepted block as the part of the buffer that holds it. A line for each: what was tried, and what came.
use refusal::Written;
use settings::Settings;
use std::io;
use stream::Reader;

const DATA_LIMIT: usize = 16;

// Prints the number and the offset of a forbidden byte, and returns the length of the block written.
fn print_written(rt: &impl Print, written: Written) -> io::Result<usize> {
    let number = refusal::number_in(written.err());
    let offset = refusal::offset_in(written.err());
    print!(rt; " {number} {offset}")?;
    Ok(refusal::written_length(written))
}

// Writes a block of this data, and checks what was written: the writer's number and offset, then the check's number, offset
// and data length.
fn write_and_check(
    rt: &impl Print,
    settings: Settings,
    content: &[u8],
    buffer: &mut [u8],
) -> io::Result<()> {
    let written = writer::write(settings, b'D', content, buffer, 0);
    let length = print_written(rt, written)?;
    if 0 < length && length <= buffer.len() {
        print_check(rt, settings, &buffer[..length])?;
    }
    println!(rt)
}

fn print_check(rt: &impl Print, settings: Settings, bytes: &[u8]) -> io::Result<()> {
    let verdict = whole_block::check_block(settings, bytes);
    let number = refusal::number_in(verdict.err());
    let offset = refusal::offset_in(verdict.err());
    let data_length = refusal::length_of(verdict);
    print!(rt; " {number} {offset} {data_length}")
}

fn print_reading(rt: &impl Print, settings: Settings, part: &[u8]) -> io::Result<()> {
    let mut buffer = [0u8; 64];
    let reading = stream::read(settings, Reader::new(), part, &mut buffer);
    match reading.answer {
        Err(refusal) => {
            let number = refusal.number;
            print!(rt; " {number}")?
        }
        Ok(None) => print!(rt; " pending")?,
        Ok(Some(found)) => {
            let number = refusal::number_in(found.verdict.err());
            print!(rt; " {number} ")?;
            rt.write_all(block::block_content(settings, found.verdict, &buffer))?;
        }
    }
    let used = reading.used;
    println!(rt; " {used}")
}

fn run_cases(rt: &impl Print, settings: Settings) -> io::Result<()> {
    let mut buffer = [0u8; 64];
    let full = [b'A'; DATA_LIMIT];
    print!(rt; "data of D bytes:")?;
    write_and_check(rt, settings, &full, &mut buffer)?;
    let longer = [b'A'; DATA_LIMIT + 1];
    print!(rt; "data of D + 1 bytes:")?;
    write_and_check(rt, settings, &longer, &mut buffer)?;
    print!(rt; "a data byte 7F, written:")?;
    write_and_check(rt, settings, b"AB\x7f", &mut buffer)?;
    print!(rt; "a data byte 7F, checked:")?;
    print_check(rt, settings, b"\x0bD23\rAB\x7f00008019\x1c\r")?;
    println!(rt)?;
    print!(rt; "a block of D + 1 bytes, checked:")?;
    print_check(rt, settings, b"\x0bD23\rAAAAAAAAAAAAAAAAA00022002\x1c\r")?;
    println!(rt)?;
    print!(rt; "empty input, checked:")?;
    print_check(rt, settings, b"")?;
    println!(rt)?;
    print!(rt; "empty input, read:")?;
    print_reading(rt, settings, b"")?;
    print!(rt; "data AB, read:")?;
    print_reading(rt, settings, b"\x0bD23\rAB00007064\x1c\r")?;
    print!(rt; "empty data, read:")?;
    print_reading(rt, settings, b"\x0bD23\r00005067\x1c\r")
}

pub(crate) fn run(rt: &impl Print) -> io::Result<()> {
    let made = Settings::hybrid(
        u64::from(Settings::START_BLOCK),
        u64::from(Settings::END_BLOCK),
        DATA_LIMIT as u64,
    );
    let Some(settings) = made else {
        return Ok(());
    };
    run_cases(rt, settings)
}
