// Fields of a message's segments, as parts of the message.

#![tactic(auto)]

ghost use Rattle.std.specs.Prelude.{◌≡◌, ◌+◌, drop};
ghost use Rattle.lists.specs.Bytes.{part_address};
ghost use Rattle.fields.specs.Fields.{field_length, field_start, field_of, bytes_of};

// The field separator of document 01.
pub const BAR: u8 = b'|';

// Where a field stands in the message.
#[derive(Clone, Copy)]
pub struct Field {
    pub start: usize,
    pub length: usize,
}

// The offset of the first separator or CR from `from` on, or the message's end. (With `for i in from..` the compiler counts twice.)
pub fn field_end(message: &[u8], from: usize, separator: u8) -> usize
    ensures { result ≡ from + field_length separator (drop from message.now) }
{
    let mut end = from;
    while let Some(&x) = message.get(end) {
        if x == separator || x == b'\r' {
            break;
        }
        end += 1;
    }
    end
}

// The offset after `count` separators of the segment that begins at `from`, or its end where it has fewer.
fn field_start(message: &[u8], from: usize, separator: u8, count: usize) -> usize
    ensures { result ≡ from + field_start separator count (drop from message.now) }
{
    let mut start = from;
    for _ in 0..count {
        let end = field_end(message, start, separator);
        if end >= message.len() || message[end] != separator {
            return end;
        }
        start = end + 1;
    }
    start
}

// Field `count` of the segment that begins at `from`.
#[tactic(auto, using(crate::proofs::Laws::found))]
pub fn find_field(message: &[u8], from: usize, separator: u8, count: usize) -> Field
    ensures { result ≡ field_of separator from count message.now }
{
    let start = field_start(message, from, separator, count);
    let end = field_end(message, start, separator);
    Field {
        start,
        length: end - start,
    }
}

// The bytes of a field, as the part of the message that holds them.
#[tactic(auto, unfolding(crate::specs::Fields::bytes_of))]
pub fn field_content(message: &[u8], field: Field) -> &[u8]
    ensures { (result.now ≡ bytes_of field message.now) × (result.ref_ptr ≡ part_address message.entry field.start) }
{
    lists::part_of(message, field.start, field.length)
}
