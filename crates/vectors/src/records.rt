// The records of a text: one a line, numbers with a space between them.
use std::fmt;

// How many numbers a record has at most, a buffer's values aside.
const FIRST: usize = 16;

// The first numbers of a line, in two's complement where they are negative; 0 where it has fewer.
pub(crate) type Numbers = [u64; FIRST];

// What is no record: a line that does not end, an unknown opcode or buffer, too few numbers or too many.
#[derive(Clone, Copy)]
pub(crate) struct Malformed;

#[derive(Clone, Copy)]
pub(crate) enum Buffer {
    Older,
    Newer,
    Work,
    Samples,
    Table,
}

impl TryFrom<u64> for Buffer {
    type Error = Malformed;

    fn try_from(number: u64) -> Result<Buffer, Malformed> {
        match number {
            0 => Ok(Buffer::Older),
            1 => Ok(Buffer::Newer),
            2 => Ok(Buffer::Work),
            3 => Ok(Buffer::Samples),
            4 => Ok(Buffer::Table),
            _ => Err(Malformed),
        }
    }
}

// What a record does: it ends the text, lends a buffer with new content, compares one, or makes a call.
#[derive(Clone, Copy)]
pub(crate) enum Opcode {
    End,
    Lend(Buffer),
    Compare(Buffer),
    Block,
    Pluck,
    Reading,
    Sheet,
    BlockInPlace,
    PluckWith,
}

// An opcode is written as its number.
impl fmt::Display for Opcode {
    fn fmt<W: fmt::Write>(&self, f: &mut fmt::Formatter<W>) -> fmt::Result {
        let number = match *self {
            Opcode::End => 0,
            Opcode::Lend(_) => 1,
            Opcode::Compare(_) => 2,
            Opcode::Block => 3,
            Opcode::Pluck => 4,
            Opcode::Reading => 5,
            Opcode::Sheet => 6,
            Opcode::BlockInPlace => 7,
            Opcode::PluckWith => 8,
        };
        write!(f, "{number}")
    }
}

impl TryFrom<Numbers> for Opcode {
    type Error = Malformed;

    fn try_from(numbers: Numbers) -> Result<Opcode, Malformed> {
        let [opcode, buffer, ..] = numbers;
        match opcode {
            0 => Ok(Opcode::End),
            1 => Ok(Opcode::Lend(Buffer::try_from(buffer)?)),
            2 => Ok(Opcode::Compare(Buffer::try_from(buffer)?)),
            3 => Ok(Opcode::Block),
            4 => Ok(Opcode::Pluck),
            5 => Ok(Opcode::Reading),
            6 => Ok(Opcode::Sheet),
            7 => Ok(Opcode::BlockInPlace),
            8 => Ok(Opcode::PluckWith),
            _ => Err(Malformed),
        }
    }
}

pub(crate) fn is_space(byte: &u8) -> bool {
    *byte == b' '
}

// One digit more. What takes more than 64 bits is some other number.
fn longer(digits: u64, byte: u8) -> u64 {
    let tens = digits.min(u64::MAX / 10) * 10;
    tens.wrapping_add(u64::from(byte % 16))
}

// The number of a field: a minus makes it negative where a digit follows, and any other byte is a digit. `parse` would refuse
// some that are taken.
pub(crate) fn number(field: &[u8]) -> u64 {
    let mut digits = 0;
    let mut is_negative = false;
    let mut bits = 0;
    for byte in field {
        if *byte == b'-' {
            is_negative = true;
        } else {
            digits = longer(digits, *byte);
            bits = if is_negative {
                digits.wrapping_neg()
            } else {
                digits
            };
        }
    }
    bits
}

// The first numbers of a line without its line feed.
fn first_numbers(line: &[u8]) -> Numbers {
    let mut numbers = [0; FIRST];
    for (place, field) in numbers.iter_mut().zip(line.split(is_space)) {
        *place = number(field);
    }
    numbers
}

#[derive(Clone, Copy)]
pub(crate) struct Record<'a> {
    pub(crate) opcode: Opcode,
    pub(crate) numbers: Numbers,
    // Its line without the line feed.
    pub(crate) line: &'a [u8],
}

impl Record<'_> {
    // The length of the buffer that it lends or compares.
    pub(crate) fn length(&self) -> u64 {
        let [_, _, length, ..] = self.numbers;
        length
    }

    // How many numbers it must have.
    fn size(&self) -> u64 {
        match self.opcode {
            Opcode::End => 1,
            Opcode::Lend(_) | Opcode::Compare(_) => self.length().wrapping_add(3),
            Opcode::Reading => 7,
            Opcode::Pluck | Opcode::PluckWith => 8,
            Opcode::Block | Opcode::BlockInPlace => 14,
            Opcode::Sheet => 16,
        }
    }
}

// A line with its line feed, as a record.
impl<'a> TryFrom<&'a [u8]> for Record<'a> {
    type Error = Malformed;

    fn try_from(line: &'a [u8]) -> Result<Record<'a>, Malformed> {
        let line = line.strip_suffix(b"\n").ok_or(Malformed)?;
        let numbers = first_numbers(line);
        let opcode = Opcode::try_from(numbers)?;
        let record = Record {
            opcode,
            numbers,
            line,
        };
        if line.split(is_space).count() as u64 == record.size() {
            Ok(record)
        } else {
            Err(Malformed)
        }
    }
}
