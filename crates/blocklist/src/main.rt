// Lists the blocks of a capture on standard input: for each verdict SB's offset, the number (0 if accepted) and the data
// length (0 if refused). Hybrid bytes, default settings, at most 4,096 data bytes. With --version it says its version instead.

#![tactic(auto)]

use settings::Settings;
use std::env::FillError;
use std::io;
use std::io::{ErrorKind, Read, Write};
use std::rt::Env;
use stream::{Found, Reader};

const DATA_LIMIT: u64 = 4096;
// What the reader keeps of a block: the data, and twelve bytes more.
const BUFFER_LENGTH: usize = 4108;

const PART_LENGTH: usize = 65536;

fn print_found(output: &mut impl Write, found: Found) -> io::Result<()> {
    let start = found.block_offset;
    let number = refusal::number_in(found.verdict.err());
    let data_length = refusal::length_of(found.verdict);
    writeln!(output, "{start} {number} {data_length}")
}

// Reads all of the part, and prints a line for each verdict.
fn list_part(
    output: &mut impl Write,
    settings: Settings,
    first: Reader,
    part: &[u8],
    buffer: &mut [u8],
) -> io::Result<Reader> {
    let mut reader = first;
    let mut rest = part;
    while !rest.is_empty() {
        let reading = stream::read(settings, reader, rest, buffer);
        let used = reading.used;
        reader = reading.reader;
        if let Ok(Some(found)) = reading.answer {
            print_found(output, found)?;
        }
        if used == 0 || rest.len() < used {
            break;
        }
        rest = &rest[used..];
    }
    Ok(reader)
}

// Reads some of the input and prints its lines. None at the end of the input.
fn list_some(
    input: &mut impl Read,
    output: &mut impl Write,
    settings: Settings,
    reader: Reader,
    buffer: &mut [u8],
) -> io::Result<Option<Reader>> {
    let mut part = [0u8; PART_LENGTH];
    let length = match input.read(&mut part) {
        Err(error) if error.kind() == ErrorKind::Interrupted => return Ok(Some(reader)),
        read => read?,
    };
    if length == 0 {
        return Ok(None);
    }
    let next = list_part(output, settings, reader, &part[..length], buffer)?;
    Ok(Some(next))
}

// To the end of the input; the count only lets the loop be seen to end.
fn list_all(
    input: &mut impl Read,
    output: &mut impl Write,
    settings: Settings,
    buffer: &mut [u8],
) -> io::Result<()> {
    let mut reader = Reader::new();
    for _ in 0..u64::MAX {
        let Some(next) = list_some(input, output, settings, reader, buffer)? else {
            break;
        };
        reader = next;
    }
    Ok(())
}

// Any other argument counts for nothing.
fn version_is_asked(rt: &impl Env) -> bool {
    let mut word = [0u8; 16];
    match rt.arg(1, &mut word) {
        Ok(length) => word[..length] == b"--version"[..],
        Err(FillError::NotPresent | FillError::TooLong) => false,
    }
}

fn print_version(rt: &impl Print) -> io::Result<()> {
    println!(rt;
        "blocklist {}.{}.{}",
        giamuvich::VERSION_MAJOR,
        giamuvich::VERSION_MINOR,
        giamuvich::VERSION_PATCH
    )
}

fn main(rt: HostRuntime) -> io::Result<()> {
    if version_is_asked(&rt) {
        return print_version(&rt);
    }
    let made = Settings::hybrid(
        u64::from(Settings::START_BLOCK),
        u64::from(Settings::END_BLOCK),
        DATA_LIMIT,
    );
    let Some(settings) = made else {
        return Ok(());
    };
    let mut buffer = [0u8; BUFFER_LENGTH];
    list_all(
        &mut rt.reader(),
        &mut io::writer(&rt),
        settings,
        &mut buffer,
    )
}
