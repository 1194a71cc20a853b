//! Lists that are made one after another, with one test for all of them.

use crate::NoMemory;
use std::alloc::{AllocError, Global};

/// Makes lists. Where there is no memory for one, it stays empty, and nothing that is made of the
/// lists is handed out.
#[derive(Drop)]
pub struct Lists {
    alloc: Global,
    /// Whether there was no memory for some list.
    pub is_short: bool,
}

impl Lists {
    /// No list so far.
    pub fn new(alloc: Global) -> Lists {
        Lists {
            alloc,
            is_short: false,
        }
    }

    // A list that there was memory for, else an empty one.
    fn kept<T: Copy>(&mut self, made: Result<Vec<T>, NoMemory>) -> Vec<T> {
        match made {
            Ok(list) => list,
            Err(_) => {
                self.is_short = true;
                Vec::new(self.alloc)
            }
        }
    }

    /// A list of so many equal numbers.
    pub fn of<T: Copy>(&mut self, number: T, count: usize) -> Vec<T> {
        let made = vec![in self.alloc; number; count];
        self.kept(made)
    }

    /// A list of the same numbers.
    pub fn copy_of<T: Copy>(&mut self, numbers: &[T]) -> Vec<T> {
        let made = Vec::from_slice(self.alloc, numbers);
        self.kept(made)
    }

    /// An empty list with room for so many numbers.
    pub fn room<T: Copy>(&mut self, count: usize) -> Vec<T> {
        let made = Vec::with_capacity(self.alloc, count);
        self.kept(made)
    }

    /// Appends numbers to a list.
    pub fn append<T: Copy>(&mut self, list: &mut Vec<T>, numbers: &[T]) {
        if !self.is_short {
            self.is_short = list.extend_from_slice(numbers).is_err();
        }
    }

    /// Appends a number to a list.
    #[inline]
    pub fn push<T: Copy>(&mut self, list: &mut Vec<T>, number: T) {
        if !self.is_short {
            self.is_short = list.push(number).is_err();
        }
    }

    /// What was made of the lists. The error is want of memory, for any of them.
    pub fn whole<T: Drop>(self, made: T) -> Result<T, NoMemory> {
        if self.is_short {
            return Err(AllocError);
        }
        Ok(made)
    }
}
