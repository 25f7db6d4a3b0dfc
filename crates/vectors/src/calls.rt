// The engine's calls with a record's arguments, and whether they answer what the record expects.
use crate::buffers::Buffers;
use crate::records::{Numbers, Opcode, Record};
use engine::{
    BlockAnswer, Grid, Hit, Instrument, block, block_in_place, number_of, pluck, pluck_with,
    reading, settings_for,
};
use packing::{hit_of, instrument_of, sheet_of};
use std::num::f64_from_bits_with_nan;

// A block's arguments, the buffers aside, and what is expected of it.
#[derive(Clone, Copy)]
struct Block {
    instrument: Instrument,
    pick_up: usize,
    hit: Option<Hit>,
    steps: u64,
    inexact: u64,
    refusal: u64,
}

impl From<Numbers> for Block {
    fn from(numbers: Numbers) -> Block {
        let [
            _,
            kind,
            columns,
            rows,
            q,
            m,
            s,
            pick_up,
            hit,
            point,
            force,
            steps,
            inexact,
            refusal,
            ..
        ] = numbers;
        Block {
            instrument: instrument_of(kind, columns as usize, rows as usize, q, m, s),
            pick_up: pick_up as usize,
            hit: hit_of(hit, point as usize, force.cast_signed()),
            steps,
            inexact,
            refusal,
        }
    }
}

impl Block {
    fn expects(&self, answer: BlockAnswer) -> bool {
        answer.steps as u64 == self.steps
            && answer.inexact == self.inexact
            && number_of(answer.outcome) == self.refusal
    }
}

// Of the two blocks each hands over its own buffers, which is all that differs.
fn block_agrees(numbers: Numbers, buffers: &mut Buffers) -> bool {
    let call = Block::from(numbers);
    call.expects(block(
        call.instrument,
        buffers.older.lent(),
        buffers.newer.lent(),
        buffers.work.lent(),
        buffers.samples.lent(),
        call.pick_up,
        call.hit,
    ))
}

fn block_in_place_agrees(numbers: Numbers, buffers: &mut Buffers) -> bool {
    let call = Block::from(numbers);
    call.expects(block_in_place(
        call.instrument,
        buffers.older.lent(),
        buffers.newer.lent(),
        buffers.samples.lent(),
        call.pick_up,
        call.hit,
    ))
}

// A pluck's arguments, the buffers aside, and what is expected of it.
#[derive(Clone, Copy)]
struct Pluck {
    grid: Grid,
    centre: usize,
    half_width: usize,
    height: i64,
    refusal: u64,
}

impl From<Numbers> for Pluck {
    fn from(numbers: Numbers) -> Pluck {
        let [
            _,
            kind,
            columns,
            rows,
            centre,
            half_width,
            height,
            refusal,
            ..
        ] = numbers;
        Pluck {
            grid: Grid::new(kind, columns as usize, rows as usize),
            centre: centre as usize,
            half_width: half_width as usize,
            height: height.cast_signed(),
            refusal,
        }
    }
}

// Of the two plucks one hands over the table besides, which is all that differs.
fn pluck_agrees(numbers: Numbers, buffers: &mut Buffers) -> bool {
    let call = Pluck::from(numbers);
    let outcome = pluck(
        call.grid,
        buffers.older.lent(),
        buffers.newer.lent(),
        call.centre,
        call.half_width,
        call.height,
    );
    number_of(outcome) == call.refusal
}

fn pluck_with_agrees(numbers: Numbers, buffers: &mut Buffers) -> bool {
    let call = Pluck::from(numbers);
    let outcome = pluck_with(
        call.grid,
        buffers.older.lent(),
        buffers.newer.lent(),
        call.centre,
        call.half_width,
        call.height,
        buffers.table.lent(),
    );
    number_of(outcome) == call.refusal
}

// The bit pattern of a float; that of no number is the largest.
fn bits_of(x: f64) -> u64 {
    if x.is_nan() { u64::MAX } else { x.to_bits() }
}

fn reading_agrees(numbers: Numbers, buffers: &mut Buffers) -> bool {
    let [_, kind, columns, rows, pick_up, value, refusal, ..] = numbers;
    let grid = Grid::new(kind, columns as usize, rows as usize);
    let told = match reading(grid, buffers.newer.lent(), pick_up as usize) {
        Ok(x) => [bits_of(x), 0],
        Err(refusal) => [0, refusal.number()],
    };
    told == [value, refusal]
}

fn sheet_agrees(numbers: Numbers) -> bool {
    let [
        _,
        kind,
        columns,
        rows,
        rate,
        length,
        bending,
        by_tension,
        speed,
        density,
        by_seconds,
        loss,
        q,
        m,
        s,
        refusal,
    ] = numbers;
    let grid = Grid::new(kind, columns as usize, rows as usize);
    let sheet = sheet_of(
        f64_from_bits_with_nan(rate),
        f64_from_bits_with_nan(length),
        f64_from_bits_with_nan(bending),
        by_tension,
        f64_from_bits_with_nan(speed),
        f64_from_bits_with_nan(density),
        by_seconds,
        f64_from_bits_with_nan(loss),
    );
    let told = match settings_for(grid, sheet) {
        Ok(settings) => [settings.q, settings.m, settings.s, 0],
        Err(refusal) => [0, 0, 0, refusal.number()],
    };
    told == [q, m, s, refusal]
}

// A record is carried out: a buffer filled or compared, or a call made. Whether what it expects is met.
pub(crate) fn agrees(record: &Record, buffers: &mut Buffers) -> bool {
    let numbers = record.numbers;
    match record.opcode {
        Opcode::End => true,
        Opcode::Lend(buffer) => buffers.lend(buffer, record),
        Opcode::Compare(buffer) => buffers.hold(buffer, record),
        Opcode::Block => block_agrees(numbers, buffers),
        Opcode::Pluck => pluck_agrees(numbers, buffers),
        Opcode::Reading => reading_agrees(numbers, buffers),
        Opcode::Sheet => sheet_agrees(numbers),
        Opcode::BlockInPlace => block_in_place_agrees(numbers, buffers),
        Opcode::PluckWith => pluck_with_agrees(numbers, buffers),
    }
}
