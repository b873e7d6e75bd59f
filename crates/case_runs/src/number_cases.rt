// Document 01, 'Cases by hand', the others that concern sequence numbers: number 999,999,999,999,998 and one more; submit of
// f + 1 first. A line for each: what was tried, and what came.
use sender::{Sender, SenderSettings};
use settings::Settings;
use std::io;

const DATA_LIMIT: usize = 128;
// The application accepts what is due.
const CODE_AA: u64 = 1;
// And what was decided is stored.
const STORED: u64 = 1;
// Where the MSA segment of a reply to a control ID of 15 bytes stands, without its CR.
const MSA_START: usize = 48;

const MSA_END: usize = 87;

const GREATEST: u64 = 999999999999998;

const TRANSACTION_6: [u8; 31] = *b"MSH|^~\\&|||||||ADT|6|P|2.3.1|6\r";

const TRANSACTION_7: [u8; 31] = *b"MSH|^~\\&|||||||ADT|7|P|2.3.1|7\r";

const TRANSACTION_GREATEST: [u8; 59] =
    *b"MSH|^~\\&|||||||ADT|999999999999998|P|2.3.1|999999999999998\r";

const ONE_MORE: [u8; 59] = *b"MSH|^~\\&|||||||ADT|999999999999999|P|2.3.1|999999999999999\r";

// A word that is 0 where there is no number.
fn print_word(rt: &impl Print, word: u64) -> io::Result<()> {
    if word == 0 {
        return print!(rt; " none");
    }
    print!(rt; " {word}")
}

// The decision's number, the report's, the transaction to persist, the expected number then, and the end of the answer: MSA-1 to
// MSA-4.
fn print_received(
    rt: &impl Print,
    made: Option<Settings>,
    expected: u64,
    content: &[u8],
) -> io::Result<u64> {
    let mut state = [expected, 0, 0, 0, 0, 0, 0, 0, 0];
    let mut decision = [0u64; 5];
    let mut report = [0u64; 2];
    let mut buffer = [0u8; DATA_LIMIT + 15];
    let decided = refusal::number_in(receiver_calls::decide_words(
        CODE_AA,
        u64::from(b'D'),
        content,
        &mut state,
        &mut decision,
    ).err());
    let answered = refusal::number_in(receiver_calls::answer_words(
        made,
        STORED,
        &mut state,
        &mut buffer,
        0,
        &mut report,
    ).err());
    print!(rt; " {decided} {answered}")?;
    print_word(rt, decision[2])?;
    print_word(rt, state[0])?;
    print!(rt; " ")?;
    print_acknowledgment(rt, &buffer)?;
    println!(rt)?;
    Ok(state[0])
}

fn print_acknowledgment(rt: &impl Print, reply: &[u8]) -> io::Result<()> {
    if reply.len() < MSA_END {
        return Ok(());
    }
    rt.write_all(&reply[MSA_START..MSA_END])
}

fn run_receiver(rt: &impl Print, made: Option<Settings>) -> io::Result<()> {
    print!(rt; "received 999999999999998:")?;
    let expected = print_received(rt, made, 0, &TRANSACTION_GREATEST)?;
    print!(rt; "received one more:")?;
    print_received(rt, made, expected, &ONE_MORE)?;
    Ok(())
}

// The act's number and the last number submitted then.
fn print_submitted(rt: &impl Print, sender: Sender, message: &[u8]) -> io::Result<Sender> {
    let acted = sender::submit_transaction(DATA_LIMIT, sender, message);
    let refusal = acted.refusal;
    let last = acted.sender.persisted.last;
    println!(rt; " {refusal} {last}")?;
    Ok(acted.sender)
}

fn run_first(rt: &impl Print, first: u64, message: &[u8], next: &[u8]) -> io::Result<()> {
    let Some(settings) = SenderSettings::new(first, SenderSettings::RESENDS) else {
        return println!(rt; " refused");
    };
    let Some(fresh) = sender::new_sender(settings) else {
        return println!(rt; " refused");
    };
    let then = print_submitted(rt, fresh, message)?;
    print!(rt; "then:")?;
    print_submitted(rt, then, next)?;
    Ok(())
}

pub(crate) fn run(rt: &impl Print) -> io::Result<()> {
    println!(rt;
        "resends where nothing else is said: {}",
        SenderSettings::RESENDS
    )?;
    let made = Settings::hybrid(
        u64::from(Settings::START_BLOCK),
        u64::from(Settings::END_BLOCK),
        DATA_LIMIT as u64,
    );
    run_receiver(rt, made)?;
    print!(rt; "first number 999999999999998, submitted 999999999999998:")?;
    run_first(rt, GREATEST, &TRANSACTION_GREATEST, &ONE_MORE)?;
    print!(rt; "first number 999999999999999:")?;
    run_first(rt, GREATEST + 1, &ONE_MORE, &ONE_MORE)?;
    print!(rt; "first number 6, submitted 7:")?;
    run_first(rt, 6, &TRANSACTION_7, &TRANSACTION_6)
}
