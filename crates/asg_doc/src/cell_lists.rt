//! Lists of chosen cells.

ghost use Rattle.std.specs.Prelude.{◌≡◌, ◌↔◌, ◌≤◌, [], length, take, IsTrue};
ghost use Rattle.asg_doc.specs.CellIds.{AreCellIds};

use std::marker::Model;

// How many cells stand in a list itself.
const FEW: usize = 3;

// Few cells, with their number, or more in a piece of memory.
#[derive(Drop)]
enum CellRoom {
    Few { count: u8, cells: [(u32, u32); FEW] },
    Many(Vec<(u32, u32)>),
}

// Few cells, as the first of an array.
fn few(cells: &[(u32, u32)]) -> [(u32, u32); FEW]
    requires { length cells.now ≤ 3 }
    ensures { take (length cells.now) result ≡ cells.now }
{
    let mut few = [(0, 0); FEW];
    few[..cells.len()].copy_from_slice(cells);
    few
}

/// Chosen cells: the ids of their row and of their column, in the order of the rows. Up to three
/// take no memory beside the list's own 32 bytes.
#[derive(Drop)]
pub struct Cells {
    room: CellRoom,
}

impl Model for Cells {
    ghost use Rattle.std.specs.Prelude.{List, ℕ};

    ghost Value = { List (ℕ × ℕ) };

    ghost use Rattle.asg_doc.specs.CellRooms.{cells_in, IsCellRoom};

    ghost view = { λ cells. cells_in cells.room };

    ghost invariant = { λ cells. IsCellRoom cells.room };
}

impl Cells {
    /// The list of these cells. It takes no memory, and frees that of few cells.
    pub fn from_vec(items: Vec<(u32, u32)>) -> Cells
        requires { AreCellIds items.items }
        ensures { result ≡ items.items }
    {
        if items.len() > FEW {
            return Cells {
                room: CellRoom::Many(items),
            };
        }
        let count = items.len() as u8;
        let cells = few(items.as_slice());
        Cells {
            room: CellRoom::Few { count, cells },
        }
    }

    /// The cells in order.
    pub fn as_slice(&self) -> &[(u32, u32)]
        ensures items { result.now ≡ self.now }
        ensures within { AreCellIds self.now }
    {
        match &self.room {
            CellRoom::Few { count, cells } => &cells[..*count as usize],
            CellRoom::Many(cells) => cells.as_slice(),
        }
    }

    /// The number of cells.
    pub fn len(&self) -> usize
        ensures count { result ≡ length self.now }
        ensures within { AreCellIds self.now }
    {
        self.as_slice().len()
    }

    /// Whether there is no cell.
    pub fn is_empty(&self) -> bool
        ensures { IsTrue result ↔ (self.now ≡ []) }
    {
        self.as_slice().is_empty()
    }
}
