// The ten numbers in the order of the line.

#[derive(Clone, Copy)]
pub struct Numbers {
    pub kind: u64,
    pub columns: usize,
    pub rows: usize,
    pub q: u64,
    pub m: u64,
    pub s: u64,
    pub pick: usize,
    pub steps: usize,
    pub point: usize,
    pub force: i64,
}
