// The lent buffers: lending them with new content, comparing them with what is expected.
use crate::records::{Buffer, Record, is_space, number};

// The most points of a level, the most samples, and the most entries of a table.
pub(crate) const MOST: usize = 4100;

// What a buffer holds.
pub(crate) trait Element: Copy + PartialEq {
    // A record's number as an element, 0 where it is none.
    fn of(number: u64) -> Self;
}

impl Element for i64 {
    fn of(number: u64) -> i64 {
        number.cast_signed()
    }
}

impl Element for i16 {
    fn of(number: u64) -> i16 {
        i16::try_from(number.cast_signed()).unwrap_or(0)
    }
}

impl Element for u32 {
    fn of(number: u64) -> u32 {
        u32::try_from(number).unwrap_or(0)
    }
}

// Room for a buffer, lent in its first elements: its length beside it, since there is no heap for a Vec.
#[derive(Drop)]
pub(crate) struct Lent<'a, T> {
    room: &'a mut [T],
    length: usize,
}

impl<'a, T: Element> Lent<'a, T> {
    pub(crate) fn new(room: &'a mut [T]) -> Lent<'a, T> {
        Lent { room, length: 0 }
    }

    pub(crate) fn lent(&mut self) -> &mut [T] {
        let length = self.length.min(self.room.len());
        &mut self.room[..length]
    }

    // Lends it with the record's values. Whether all of them fit.
    fn lend(&mut self, record: &Record) -> bool {
        let length = record.length() as usize;
        let values = record.line.split(is_space).skip(3);
        for (held, value) in self.room.iter_mut().zip(values) {
            *held = T::of(number(value));
        }
        self.length = length;
        length <= self.room.len()
    }

    // Whether it has the record's length and values.
    fn holds(&mut self, record: &Record) -> bool {
        let held = self.lent();
        let values = record.line.split(is_space).skip(3);
        held.len() as u64 == record.length()
            && held
                .iter()
                .zip(values)
                .all(|(held, value)| *held == T::of(number(value)))
    }
}

#[derive(Drop)]
pub(crate) struct Buffers<'a> {
    pub(crate) older: Lent<'a, i64>,
    pub(crate) newer: Lent<'a, i64>,
    pub(crate) work: Lent<'a, i64>,
    pub(crate) samples: Lent<'a, i16>,
    pub(crate) table: Lent<'a, u32>,
}

// Each of its methods has an arm for each buffer: they are of three types.
impl Buffers<'_> {
    pub(crate) fn lend(&mut self, buffer: Buffer, record: &Record) -> bool {
        match buffer {
            Buffer::Older => self.older.lend(record),
            Buffer::Newer => self.newer.lend(record),
            Buffer::Work => self.work.lend(record),
            Buffer::Samples => self.samples.lend(record),
            Buffer::Table => self.table.lend(record),
        }
    }

    pub(crate) fn hold(&mut self, buffer: Buffer, record: &Record) -> bool {
        match buffer {
            Buffer::Older => self.older.holds(record),
            Buffer::Newer => self.newer.holds(record),
            Buffer::Work => self.work.holds(record),
            Buffer::Samples => self.samples.holds(record),
            Buffer::Table => self.table.holds(record),
        }
    }
}
