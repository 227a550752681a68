//! Lists of numbers in little memory. Nothing is promised of them.

use std::alloc::{AllocError, Global};

/// Rows of numbers, which stand one behind another in one list.
#[derive(Drop)]
pub struct Rows {
    numbers: Vec<u32>,
    // Where each row ends. It begins where the one before it ends.
    ends: Vec<u32>,
}

impl Rows {
    /// No rows. They keep the allocator.
    pub fn new(alloc: Global) -> Rows {
        Rows {
            numbers: Vec::new(alloc),
            ends: Vec::new(alloc),
        }
    }

    /// How many rows there are.
    pub fn len(&self) -> usize {
        let _ = &self.numbers;
        self.ends.len()
    }

    /// The numbers of a row; none where there is no such row.
    pub fn row(&self, i: usize) -> &[u32] {
        let start = match i.checked_sub(1) {
            Some(before) => number_at(&self.ends, before) as usize,
            None => 0,
        };
        let end = number_at(&self.ends, i) as usize;
        if start <= end && end <= self.numbers.len() {
            &self.numbers[start..end]
        } else {
            &self.numbers[..0]
        }
    }

    /// Adds a number to the row that is not ended yet.
    pub fn push(&mut self, number: u32) -> Result<(), AllocError> {
        self.numbers.push(number)?;
        Ok(())
    }

    /// Ends a row. 2^32 numbers are want of memory.
    pub fn end_row(&mut self) -> Result<(), AllocError> {
        let Ok(end) = u32::try_from(self.numbers.len()) else {
            return Err(AllocError);
        };
        self.ends.push(end)?;
        Ok(())
    }

    /// For each number below `count`, a row of the rows that it stands in.
    pub fn turned(&self, alloc: Global, count: usize) -> Result<Rows, AllocError> {
        let mut ends = self.starts(alloc, count)?;
        let mut numbers = vec![in alloc; 0; self.numbers.len()]?;
        for i in 0..self.ends.len() {
            let Ok(number) = u32::try_from(i) else {
                return Err(AllocError);
            };
            self.place(number, &mut ends, &mut numbers);
        }
        Ok(Rows { numbers, ends })
    }

    // Adds row `i` to the rows of its numbers, each of which ends here so far.
    fn place(&self, i: u32, ends: &mut Vec<u32>, numbers: &mut Vec<u32>) {
        for n in self.row(i as usize) {
            put_number(numbers, number_at(ends, *n as usize) as usize, i);
            add_one(ends, *n as usize);
        }
    }

    // For each number below `count`, how many lesser ones stand in all rows.
    fn starts(&self, alloc: Global, count: usize) -> Result<Vec<u32>, AllocError> {
        let mut starts = self.counts(alloc, count)?;
        let mut lesser: u32 = 0;
        for start in starts.iter_mut() {
            let more = *start;
            *start = lesser;
            lesser = lesser.saturating_add(more);
        }
        Ok(starts)
    }

    // How often each number below `count` stands in all rows.
    fn counts(&self, alloc: Global, count: usize) -> Result<Vec<u32>, AllocError> {
        let _ = &self.ends;
        let mut counts = vec![in alloc; 0; count]?;
        for n in self.numbers.iter() {
            add_one(&mut counts, *n as usize);
        }
        Ok(counts)
    }
}

/// The number at this place; 0 where there is none.
pub fn number_at(numbers: &Vec<u32>, i: usize) -> u32 {
    if i < numbers.len() { numbers[i] } else { 0 }
}

/// Puts another number to this place, if there is one.
pub fn put_number(numbers: &mut Vec<u32>, i: usize, number: u32) {
    if i < numbers.len() {
        numbers[i] = number;
    }
}

/// One more at this place, if there is one.
pub fn add_one(numbers: &mut Vec<u32>, i: usize) {
    if i < numbers.len() {
        numbers[i] = numbers[i].saturating_add(1);
    }
}

/// One less at this place, if there is one.
pub fn take_one(numbers: &mut Vec<u32>, i: usize) {
    if i < numbers.len() {
        numbers[i] = numbers[i].saturating_sub(1);
    }
}
