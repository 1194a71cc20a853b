//! Where the costs of arcs stand in a table.

ghost use Rattle.std.specs.Prelude.{◌≡◌, ℕ, ℤ, ◌+◌, ◌*◌, ◌^◌, ◌<◌, ◌≤◌, ◌||◌, [], Option, Some, None, All, length, not, pos, slice_index_or, IfOk, OnOk, IfErr, IfSome};
ghost use Rattle.std.specs.List.{slice_set};
ghost use Rattle.std.specs.Option.{option_map};
ghost use Rattle.std.specs.Ordering.{int_eq};
ghost use Rattle.asg_model.specs.Limits.{most_rows, most_columns};
ghost use Rattle.asg_model.specs.Table.{absent, table_cells};
ghost use Rattle.asg_model.specs.ValueRange.{IsPartInRange};
ghost use Rattle.asg_networks.specs.AsnArcs.{are_unlike};
ghost use Rattle.asg_networks.specs.Layouts.{AreNodeIds, TellsPlaces, IsLayout, HasCell, cell_between, with_cost};
ghost use Rattle.asg_networks.specs.Networks.{firsts_between, known_cost, twice_faults};
ghost use Rattle.asg_tokens.specs.Slots.{IsEarliest};

use crate::links::Link;
use asg_model::laws::last_cell_law;
use asg_model::{ABSENT, Cost};
use asg_tokens::TextRefusal;
use std::alloc::{AllocError, Global};

/// The nodes of the rows and of the columns of a table, and for each id the row and the column that
/// it stands at, if it does.
#[derive(Drop)]
pub(crate) struct Layout<'a> {
    sources: &'a [u32],
    targets: &'a [u32],
    rows: Vec<Option<u32>>,
    columns: Vec<Option<u32>>,
}

impl<'a> Layout<'a> {
    /// The layout of a table whose rows go from these sources, and whose columns go to these
    /// targets, which are among so many nodes.
    pub(crate) fn new(
        alloc: Global,
        sources: &'a [u32],
        targets: &'a [u32],
        nodes: u32,
    ) -> Result<Layout<'a>, AllocError>
        requires sources { AreNodeIds nodes sources.now }
        requires targets { AreNodeIds nodes targets.now }
        requires few_rows { length sources.now ≤ most_rows }
        requires few_columns { length targets.now ≤ most_columns }
        ensures sources { IfOk result (λ layout. layout.sources.now ≡ sources.now) }
        ensures targets { IfOk result (λ layout. layout.targets.now ≡ targets.now) }
        ensures layout { IfOk result IsLayout }
    {
        let rows = places_of(alloc, sources, nodes)?;
        let columns = places_of(alloc, targets, nodes)?;
        Ok(Layout {
            sources,
            targets,
            rows,
            columns,
        })
    }

    /// The first parts of a table without a cost.
    pub(crate) fn absent_firsts(&self, alloc: Global) -> Result<Vec<i64>, AllocError>
        requires { IsLayout self.now }
        ensures { IfOk result (λ firsts. firsts.items
            ≡ firsts_between (λ source target. None) self.now.sources.now self.now.targets.now) }
    {
        vec![in alloc; ABSENT; self.sources.len() * self.targets.len()]
    }

    /// Puts the costs of all these arcs into a table without a cost, or refuses the first of them
    /// that repeats another at another cost.
    pub(crate) fn fill(&self, firsts: &mut Vec<i64>, links: &[Link]) -> Result<(), TextRefusal>
        requires layout { IsLayout self.now }
        requires none { firsts.old.items
            ≡ firsts_between (λ source target. None) self.now.sources.now self.now.targets.now }
        requires cells { All (HasCell self.now) links.now }
        ensures filled { OnOk result (firsts.new.items
            ≡ firsts_between (known_cost links.now) self.now.sources.now self.now.targets.now) }
        ensures once { OnOk result (twice_faults [] links.now ≡ []) }
        ensures refused { IfErr result (IsEarliest (twice_faults [] links.now)) }
    {
        for link in links {
            if !self.put(firsts, link) {
                return Err(TextRefusal::ArcTwice(link.line));
            }
        }
        Ok(())
    }

    /// The cells of these arcs with their costs, in order, where the cell of each arc comes behind
    /// that of the one before it; else `None`. It takes one step for each arc.
    pub(crate) fn cells(
        &self,
        alloc: Global,
        links: &[Link],
    ) -> Result<Option<Vec<((u32, u32), Cost)>>, AllocError>
        requires layout { IsLayout self.now }
        requires cells { All (HasCell self.now) links.now }
        ensures cells { IfOk result (λ found. IfSome found (λ cells.
            cells.items ≡ table_cells (length self.now.targets.now) (firsts_between
            (known_cost links.now) self.now.sources.now self.now.targets.now) [])) }
        ensures once { IfOk result (λ found.
            IfSome found (λ cells. twice_faults [] links.now ≡ [])) }
    {
        last_cell_law();
        let mut cells = Vec::with_capacity(alloc, links.len())?;
        // The first place in the table behind the cells so far.
        let mut next = 0;
        for link in links {
            let Some((places, cell)) = self.placed_cell((link.source, link.target)) else {
                return Ok(None);
            };
            if cell < next {
                return Ok(None);
            }
            cells.push((places, Cost { a: link.cost, b: 0 }))?;
            next = cell + 1;
        }
        Ok(Some(cells))
    }

    // Puts the cost of an arc into its cell of a table. Whether no other cost was there.
    #[inline]
    fn put(&self, firsts: &mut Vec<i64>, link: &Link) -> bool
        requires layout { IsLayout self.now }
        requires whole { length firsts.old.items
            ≡ length self.now.sources.now * length self.now.targets.now }
        requires cell { HasCell self.now link.now }
        ensures put { (known : ℕ → ℕ → Option ℤ)
            → firsts.old.items ≡ firsts_between known self.now.sources.now self.now.targets.now
            → firsts.new.items ≡ firsts_between
            (with_cost known (link.now.source, link.now.target) link.now.cost)
            self.now.sources.now self.now.targets.now }
        ensures alike { (known : ℕ → ℕ → Option ℤ)
            → firsts.old.items ≡ firsts_between known self.now.sources.now self.now.targets.now
            → IfSome (known link.now.source link.now.target) IsPartInRange
            → result ≡ not (are_unlike (Some link.now.cost) (known link.now.source link.now.target)) }
    {
        let Some(cell) = self.cell((link.source, link.target)) else {
            return true;
        };
        put_at(firsts, cell, link.cost)
    }

    // The place of the cell from a source to a target, if there is one.
    #[inline]
    fn cell(&self, ends: (u32, u32)) -> Option<usize>
        requires { IsLayout self.now }
        ensures { result ≡ cell_between self.now ends }
    {
        let (_places, cell) = self.placed_cell(ends)?;
        Some(cell)
    }

    // The places of the row and of the column from a source to a target, and that of their cell in
    // the table, if there is one.
    #[inline]
    fn placed_cell(&self, ends: (u32, u32)) -> Option<((u32, u32), usize)>
        requires { IsLayout self.now }
        ensures cell { option_map (λ found. found.1) result ≡ cell_between self.now ends }
        ensures place { IfSome result (λ found.
            found.1 ≡ found.0.0 * length self.now.targets.now + found.0.1) }
        ensures column { IfSome result (λ found. found.0.1 < length self.now.targets.now) }
    {
        let row = place(self.rows.as_slice(), ends.0)?;
        let column = place(self.columns.as_slice(), ends.1)?;
        let cell = row as usize * self.targets.len() + column as usize;
        Some(((row, column), cell))
    }
}

// Puts a cost at a place. Whether no other cost was there.
#[inline]
fn put_at(firsts: &mut Vec<i64>, cell: usize, cost: i64) -> bool
    requires { cell < length firsts.old.items }
    ensures put { firsts.new.items ≡ slice_set firsts.old.items cell cost }
    ensures alike { result ≡ (int_eq (slice_index_or firsts.old.items cell (pos 0)) absent
        || int_eq (slice_index_or firsts.old.items cell (pos 0)) cost) }
{
    let earlier = firsts[cell];
    firsts[cell] = cost;
    is_alike(earlier, cost)
}

// Whether a place holds no other cost.
#[inline]
fn is_alike(earlier: i64, cost: i64) -> bool
    ensures { result ≡ (int_eq earlier absent || int_eq earlier cost) }
{
    earlier == ABSENT || earlier == cost
}

// For each id up to the number of nodes, its place among these ids, if it is one of them.
fn places_of(alloc: Global, ids: &[u32], nodes: u32) -> Result<Vec<Option<u32>>, AllocError>
    requires ids { AreNodeIds nodes ids.now }
    requires few { length ids.now < 2 ^ 32 }
    ensures { IfOk result (λ places. TellsPlaces places.items ids.now) }
{
    let mut places = vec![in alloc; None; nodes as usize + 1]?;
    for (place, id) in ids.iter().enumerate() {
        places[*id as usize] = Some(place as u32);
    }
    Ok(places)
}

// The place that is told for an id.
#[inline]
fn place(places: &[Option<u32>], id: u32) -> Option<u32>
    ensures { result ≡ slice_index_or places.now id None }
{
    match places.get(id as usize) {
        Some(Some(place)) => Some(*place),
        _ => None,
    }
}
