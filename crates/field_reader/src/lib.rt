// A reader over a message: it holds the message's bytes and its position and gives the next field each time. The work is done
// by field_at, which takes the slice and the position.

#![tactic(auto)]

ghost use Rattle.std.specs.Prelude.{◌≡◌};
ghost use Rattle.field_reader.specs.FieldReader.{next_of, advanced};

use fields::{BAR, Field, find_field};

// What ended a field.
#[derive(Clone, Copy)]
pub enum Delimiter {
    Separator,
    SegmentEnd,
    MessageEnd,
}

// The next field, what ended it, and the position after that.
#[derive(Clone, Copy)]
pub struct FoundField {
    pub field: Field,
    pub delimiter: Delimiter,
    pub after: usize,
}

#[derive(Clone, Copy)]
pub struct FieldReader<'a> {
    pub message: &'a [u8],
    pub position: usize,
}

// The field that begins at `position`.
#[tactic(auto, using(crate::proofs::Laws::field_cases))]
fn field_at(message: &[u8], position: usize) -> Option<FoundField>
    ensures { result ≡ next_of message.now position }
{
    if position >= message.len() {
        return None;
    }
    let field = find_field(message, position, BAR, 0);
    let end = field.start + field.length;
    match message.get(end) {
        None => Some(FoundField {
            field,
            delimiter: Delimiter::MessageEnd,
            after: end,
        }),
        Some(&BAR) => Some(FoundField {
            field,
            delimiter: Delimiter::Separator,
            after: end + 1,
        }),
        Some(_) => Some(FoundField {
            field,
            delimiter: Delimiter::SegmentEnd,
            after: end + 1,
        }),
    }
}

// A reader over the message, from `position` on.
pub fn read_from<'a>(message: &'a [u8], position: usize) -> FieldReader<'a>
    ensures { (result.message ≡ message.entry) × (result.position ≡ position) }
{
    FieldReader { message, position }
}

// The next field. The reader stays where it is.
pub fn peek<'a>(reader: FieldReader<'a>) -> Option<FoundField>
    ensures { result ≡ next_of reader.entry.message.now reader.entry.position }
{
    field_at(reader.message, reader.position)
}

// The next field, each time: the reader goes on behind it.
pub fn next<'s, 'a>(reader: &'s mut FieldReader<'a>) -> Option<FoundField>
    ensures { (result ≡ next_of reader.old.message.now reader.old.position) × (reader.new ≡ advanced reader.old) }
{
    let found = peek(*reader);
    if let Some(FoundField { after, .. }) = found {
        reader.position = after;
    }
    found
}

// The next field of a message from `position` on, for callers that hold the message themselves.
pub fn next_field(message: &[u8], position: usize) -> Option<FoundField>
    ensures { result ≡ next_of message.now position }
{
    peek(read_from(message, position))
}
