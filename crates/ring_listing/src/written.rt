// A text that is written into a lent buffer, from its start on.
// Not by `fmt::Write`: `write!` tells what was written only where it answers Ok, and `put_listing` fixes its buffer for every argument.
ghost use Rattle.std.specs.Prelude.{◌≡◌, ◌+◌, ◌≤◌, ◌<◌, ◌*◌, length};
ghost use Rattle.ring_listing.specs.Text.{decimal, signed_decimal, pair_line, step_lines, done_line};
ghost use Rattle.ring_listing.specs.Put.{sign, Put, Room};

// The first `length` bytes of the buffer are written.
#[derive(Drop)]
pub(crate) struct Text<'a> {
    buffer: &'a mut [u8],
    length: usize,
}

impl<'a> Text<'a> {
    // Nothing is written yet.
    pub(crate) fn new(buffer: &'a mut [u8]) -> Text<'a>
        ensures same { result.buffer.ghost_name ≡ buffer.entry.ghost_name }
        ensures value { result.buffer.now ≡ buffer.old }
        ensures length { result.length ≡ 0 }
    {
        Text { buffer, length: 0 }
    }

    pub(crate) fn len(&self) -> usize
        ensures { result ≡ self.now.length }
    {
        self.length
    }

    fn put_bytes(&mut self, bytes: &[u8])
        requires { Room self.old bytes.now }
        ensures { Put self.old bytes.now self.new }
    {
        let end = self.length + bytes.len();
        self.buffer[self.length..end].copy_from_slice(bytes);
        self.length = end;
    }

    fn put_decimal(&mut self, n: u64)
        requires { Room self.old (decimal n) }
        ensures { Put self.old (decimal n) self.new }
    {
        let mut digits = [0u8; 20];
        let count = io::decimal(n, &mut digits);
        self.put_bytes(&digits[..count]);
    }

    fn put_sign(&mut self, value: i16)
        requires { Room self.old (sign value) }
        ensures { Put self.old (sign value) self.new }
    {
        if value < 0 {
            self.put_bytes(b"-");
        }
    }

    fn put_signed(&mut self, value: i16)
        requires { Room self.old (signed_decimal value) }
        ensures { Put self.old (signed_decimal value) self.new }
    {
        self.put_sign(value);
        self.put_decimal(u64::from(value.unsigned_abs()));
    }

    // A line of two numbers.
    fn put_pair(&mut self, number: u64, value: i16)
        requires { Room self.old (pair_line number value) }
        ensures { Put self.old (pair_line number value) self.new }
    {
        self.put_decimal(number);
        self.put_bytes(b" ");
        self.put_signed(value);
        self.put_bytes(b"\n");
    }

    // A line for each sample.
    pub(crate) fn put_steps(&mut self, samples: &[i16])
        requires { (length samples.now ≤ 8192) × (self.old.length + 12 * length samples.now ≤ length self.old.buffer.now) }
        ensures upper_bound { self.new.length ≤ self.old.length + 12 * length samples.now }
        ensures put { Put self.old (step_lines (length samples.now) samples.now) self.new }
    {
        for (i, sample) in samples.iter().enumerate() {
            self.put_pair(i as u64 + 1, *sample);
        }
    }

    // The last line. The refusal is a number, as `put_listing` takes it.
    pub(crate) fn put_done(&mut self, count: u64, refusal: u64)
        requires { (refusal < 100) × Room self.old (done_line count refusal) }
        ensures { Put self.old (done_line count refusal) self.new }
    {
        self.put_bytes(b"done ");
        self.put_pair(count, refusal as i16);
    }
}
