// What was compared, and the lines that say so.
use crate::records::Opcode;
use std::{fmt, io};

// How many records of each kind were carried out, and how many of them were not met.
#[derive(Clone, Copy, Default)]
struct Counts {
    levels: u64,
    blocks: u64,
    blocks_in_place: u64,
    plucks: u64,
    plucks_with: u64,
    readings: u64,
    sheets: u64,
    differences: u64,
}

impl fmt::Display for Counts {
    fn fmt<W: fmt::Write>(&self, f: &mut fmt::Formatter<W>) -> fmt::Result {
        let Counts {
            levels,
            blocks,
            blocks_in_place,
            plucks,
            plucks_with,
            readings,
            sheets,
            differences,
        } = *self;
        write!(f, "{blocks} blocks, {blocks_in_place} blocks in place, ")?;
        write!(f, "{plucks} plucks, {plucks_with} plucks by a lent table, ")?;
        write!(f, "{readings} readings, {sheets} sheets, ")?;
        write!(f, "{levels} levels compared, {differences} differences")
    }
}

impl Counts {
    fn count(&mut self, opcode: Opcode) {
        let count = match opcode {
            Opcode::Compare(_) => &mut self.levels,
            Opcode::Block => &mut self.blocks,
            Opcode::BlockInPlace => &mut self.blocks_in_place,
            Opcode::Pluck => &mut self.plucks,
            Opcode::PluckWith => &mut self.plucks_with,
            Opcode::Reading => &mut self.readings,
            Opcode::Sheet => &mut self.sheets,
            Opcode::End | Opcode::Lend(_) => return,
        };
        *count = count.wrapping_add(1);
    }
}

// The file of that path up to the present line.
#[derive(Clone, Copy)]
pub(crate) struct Tally<'a> {
    path: &'a str,
    line: u64,
    counts: Counts,
}

impl<'a> Tally<'a> {
    pub(crate) fn new(path: &'a str) -> Tally<'a> {
        Tally {
            path,
            line: 0,
            counts: Counts::default(),
        }
    }

    // One line more, be it a record or not.
    pub(crate) fn count_line(&mut self) {
        self.line = self.line.wrapping_add(1);
    }

    // At most 20 differences of a file have a line.
    fn differs(&mut self, rt: &impl Print, opcode: Opcode) -> io::Result<()> {
        let Tally { path, line, counts } = *self;
        if counts.differences < 20 {
            println!(rt; "{path}: record {line}: opcode {opcode} differs")?;
        }
        self.counts.differences = counts.differences.wrapping_add(1);
        Ok(())
    }

    // A record that was carried out, and whether it is met.
    pub(crate) fn record(
        &mut self,
        rt: &impl Print,
        opcode: Opcode,
        is_met: bool,
    ) -> io::Result<()> {
        self.counts.count(opcode);
        if is_met {
            Ok(())
        } else {
            self.differs(rt, opcode)
        }
    }

    // The last record must have opcode 0.
    pub(crate) fn report(self, rt: &impl Print, last: Option<Opcode>) -> io::Result<()> {
        let Tally { path, line, counts } = self;
        match last {
            Some(Opcode::End) => println!(rt; "{path}: {counts}"),
            _ => println!(rt; "{path}: record {line}: no opcode 0 at the end"),
        }
    }
}
