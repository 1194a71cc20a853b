//! Rows of values, one behind another in one list.

ghost use Rattle.std.specs.Prelude.{◌≡◌, ◌<◌, ◌≤◌, ◌+◌, ◌-◌, ◌*◌, [], ◌∷◌, ◌++◌, List, max, length};
ghost use Rattle.std.specs.Prelude.{vec_len, vec_capacity, OnOk, OnErr};
ghost use Rattle.asg_pool.specs.Strips.{Rows, row_at, with_row};

use crate::NoMemory;
use std::alloc::Global;
use std::marker::Model;

// Rows of at most so many values. Row k has the places from k times the width on; those behind its
// last value mean nothing. Memory is taken by `reserve` alone, and what lies behind the last row
// isn't touched.
#[derive(Drop)]
pub(crate) struct Strips<T: Copy> {
    width: u32,
    room: u32,
    lens: Vec<u32>,
    values: Vec<T>,
}

impl<T: Copy> Model for Strips<T> {
    ghost use Rattle.std.specs.Prelude.{vec_capacity};
    ghost use Rattle.asg_pool.specs.Strips.{Rows, rows_of, IsStored};

    ghost Value = { Rows T };

    ghost view = { λ s. record {
      width = s.width;
      room = s.room;
      rows = rows_of s.width s.lens.items s.values.items;
    } };

    ghost invariant = { λ s. IsStored s.width s.room s.lens.items s.values.items
        (vec_capacity s.lens) (vec_capacity s.values) };
}

impl<T: Copy> Strips<T> {
    // No row, and no memory yet.
    pub(crate) fn new(alloc: Global, width: u32) -> Strips<T>
        ensures { result ≡ record { width = width; room = 0; rows = [] } }
    {
        Strips {
            width,
            room: 0,
            lens: Vec::new(alloc),
            values: Vec::new(alloc),
        }
    }

    // Takes memory for so many rows in all. The error is want of memory.
    pub(crate) fn reserve(&mut self, room: u32) -> Result<(), NoMemory>
        ensures ok { OnOk result (self.new ≡ record self.old { room = max self.old.room room }) }
        ensures err { OnErr result (self.new ≡ self.old) }
    {
        if room <= self.room {
            return Ok(());
        }
        let places = room as usize * self.width as usize;
        self.lens.reserve(room as usize - self.lens.len())?;
        self.values.reserve(places - self.values.len())?;
        self.room = room;
        Ok(())
    }

    // Writes a row at a place, or next after the last row.
    pub(crate) fn put(&mut self, k: u32, row: &[T])
        requires place { k ≤ length self.old.rows }
        requires room { k < self.old.room }
        requires some { 1 ≤ length row.now }
        requires width { length row.now ≤ self.old.width }
        ensures { self.new ≡ record self.old { rows = with_row self.old.rows k row.now } }
    {
        if (k as usize) < self.lens.len() {
            let first = k as usize * self.width as usize;
            self.values[first..first + row.len()].copy_from_slice(row);
            self.lens[k as usize] = row.len() as u32;
        } else {
            append(&mut self.values, row, self.width as usize);
            self.lens.push_reserved(row.len() as u32);
        }
    }

    // The row at a place.
    pub(crate) fn row(&self, k: u32) -> &[T]
        requires { k < length self.now.rows }
        ensures { result.now ≡ row_at self.now k }
    {
        let first = k as usize * self.width as usize;
        &self.values[first..first + self.lens[k as usize] as usize]
    }
}

// Puts a row behind the values, and its first value again and again up to the width.
fn append<T: Copy>(values: &mut Vec<T>, row: &[T], width: usize)
    requires some { 1 ≤ length row.now }
    requires width { length row.now ≤ width }
    requires room { vec_len values.old + width ≤ vec_capacity values.old }
    ensures items { (more : List T) × (values.new.items ≡ values.old.items ++ (row.now ++ more))
        × (length row.now + length more ≡ width) }
    ensures capacity { vec_capacity values.old ≤ vec_capacity values.new }
{
    let places = values.len() + width;
    let _ = values.extend_from_slice(row);
    let _ = values.resize(places, row[0]);
}
