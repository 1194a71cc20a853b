//! The instance of a network.

ghost use Rattle.std.specs.Prelude.{◌≡◌, ◌+◌, ◌-◌, ◌<◌, ◌≤◌, [], Some, All, length, map, IfOk, IfErr, IfSome, OnOk};
ghost use Rattle.asg_model.specs.Limits.{most_rows, most_columns};
ghost use Rattle.asg_model.specs.Table.{table_cells};
ghost use Rattle.asg_networks.specs.AsnArcs.{count_faults, targets, nodes_of};
ghost use Rattle.asg_networks.specs.Layouts.{HasCell, IsLayout};
ghost use Rattle.asg_networks.specs.Networks.{IsSound, reading_of_network, known_cost, firsts_between, twice_faults};
ghost use Rattle.asg_tokens.specs.Readings.{Spells, TellsOf, row_of, column_of};
ghost use Rattle.asg_tokens.specs.Slots.{IsEarliest};

use crate::layouts::Layout;
use crate::links::earliest;
use crate::network::Network;
use asg_model::laws::whole_table_law;
use asg_model::limits::{MOST_COLUMNS, MOST_ROWS};
use asg_model::{Column, Cost, Instance, Place, Row};
use asg_tokens::TextRefusal;
use std::alloc::{AllocError, Global};

// Arcs are few where the table has this many places for each of them, or more.
const PLACES_FOR_FEW: usize = 16;

impl Network {
    /// The instance of a whole file, or its earliest fault: that of the first arc that repeats
    /// another at another cost, else that of its counts of arcs, rows and columns.
    pub(crate) fn instance(&self, alloc: Global) -> Result<Instance, TextRefusal>
        requires { IsSound self.now }
        ensures instance { IfOk result (λ inst. reading_of_network self.now ≡ Spells inst) }
        ensures refused { IfErr result (TellsOf (reading_of_network self.now)) }
    {
        match self.check_counts() {
            Ok(nodes) => self.table(alloc, nodes),
            Err(refusal) => Err(earliest(alloc, self.links.as_slice(), refusal)),
        }
    }

    // How many nodes are stated. Refuses another number of arcs than stated, and counts of rows and
    // columns that no instance has.
    fn check_counts(&self) -> Result<u32, TextRefusal>
        ensures right { OnOk result (count_faults self.now.sizes
            (length self.now.links.items) (length self.now.sources.items) ≡ []) }
        ensures nodes { IfOk result (λ nodes. nodes ≡ nodes_of self.now.sizes) }
        ensures some { OnOk result (0 < length self.now.sources.items) }
        ensures few_rows { OnOk result (length self.now.sources.items ≤ most_rows) }
        ensures few_columns { IfOk result (λ nodes.
            nodes - length self.now.sources.items ≤ most_columns) }
        ensures refused { IfErr result (IsEarliest (count_faults self.now.sizes
            (length self.now.links.items) (length self.now.sources.items))) }
    {
        let Some(sizes) = self.sizes else {
            return Err(TextRefusal::NoProblemLine);
        };
        let found = self.links.len() as u64;
        if found != u64::from(sizes.arcs) {
            return Err(TextRefusal::ArcCount(u64::from(sizes.arcs), found));
        }
        let rows = self.sources.len();
        if rows == 0 {
            return Err(TextRefusal::NoRows);
        }
        let columns = (sizes.nodes as usize).saturating_sub(rows);
        if rows > MOST_ROWS {
            return Err(TextRefusal::TooLarge(rows as u64, columns as u64));
        }
        if columns > MOST_COLUMNS {
            return Err(TextRefusal::TooLarge(rows as u64, columns as u64));
        }
        Ok(sizes.nodes)
    }

    // The instance of these sources among so many nodes, where no arc repeats another at another
    // cost. It keeps few arcs in order as a list, and others in a table.
    fn table(&self, alloc: Global, nodes: u32) -> Result<Instance, TextRefusal>
        requires sound { IsSound self.now }
        requires nodes { nodes ≡ nodes_of self.now.sizes }
        requires right { count_faults self.now.sizes
            (length self.now.links.items) (length self.now.sources.items) ≡ [] }
        requires some { 0 < length self.now.sources.items }
        requires few_rows { length self.now.sources.items ≤ most_rows }
        requires few_columns { nodes - length self.now.sources.items ≤ most_columns }
        ensures instance { IfOk result (λ inst. reading_of_network self.now ≡ Spells inst) }
        ensures refused { IfErr result (TellsOf (reading_of_network self.now)) }
    {
        whole_table_law();
        let ids = self.source_set.others(alloc, nodes)?;
        let rows = rows_of(alloc, self.sources.as_slice())?;
        let columns = columns_of(alloc, ids.as_slice())?;
        if let Some(cells) = self.few_cells(alloc, ids.as_slice(), nodes)? {
            return Ok(Instance::of_cells(rows, columns, cells, Place::All));
        }
        let firsts = self.firsts(alloc, ids.as_slice(), nodes)?;
        Ok(Instance::of_table(rows, columns, firsts, Vec::new(alloc), Place::All))
    }

    // The cells from each source to each of these nodes, which are the others, with their costs,
    // where the arcs are few and stand in the order of the cells; else `None`.
    fn few_cells(
        &self,
        alloc: Global,
        others: &[u32],
        nodes: u32,
    ) -> Result<Option<Vec<((u32, u32), Cost)>>, AllocError>
        requires sound { IsSound self.now }
        requires nodes { nodes ≡ nodes_of self.now.sizes }
        requires others { others.now ≡ targets self.now.sources.items nodes }
        requires few_rows { length self.now.sources.items ≤ most_rows }
        requires few_columns { nodes - length self.now.sources.items ≤ most_columns }
        ensures cells { IfOk result (λ found. IfSome found (λ cells.
            cells.items ≡ table_cells (length others.now) (firsts_between
            (known_cost self.now.links.items) self.now.sources.items others.now) [])) }
        ensures once { IfOk result (λ found.
            IfSome found (λ cells. twice_faults [] self.now.links.items ≡ [])) }
    {
        if self.links.len() > self.sources.len() * others.len() / PLACES_FOR_FEW {
            return Ok(None);
        }
        let layout = self.layout(alloc, others, nodes)?;
        layout.cells(alloc, self.links.as_slice())
    }

    // The first parts of a table of the costs from each source to each of these nodes, which are
    // the others.
    fn firsts(&self, alloc: Global, others: &[u32], nodes: u32) -> Result<Vec<i64>, TextRefusal>
        requires sound { IsSound self.now }
        requires nodes { nodes ≡ nodes_of self.now.sizes }
        requires others { others.now ≡ targets self.now.sources.items nodes }
        requires few_rows { length self.now.sources.items ≤ most_rows }
        requires few_columns { nodes - length self.now.sources.items ≤ most_columns }
        ensures firsts { IfOk result (λ firsts. firsts.items ≡ firsts_between
            (known_cost self.now.links.items) self.now.sources.items others.now) }
        ensures once { OnOk result (twice_faults [] self.now.links.items ≡ []) }
        ensures refused { IfErr result (IsEarliest (twice_faults [] self.now.links.items)) }
    {
        let layout = self.layout(alloc, others, nodes)?;
        let mut firsts = layout.absent_firsts(alloc)?;
        layout.fill(&mut firsts, self.links.as_slice())?;
        Ok(firsts)
    }

    // Where the costs from each source to each of these nodes, which are the others, stand in a
    // table.
    fn layout<'a>(
        &'a self,
        alloc: Global,
        others: &'a [u32],
        nodes: u32,
    ) -> Result<Layout<'a>, AllocError>
        requires sound { IsSound self.now }
        requires nodes { nodes ≡ nodes_of self.now.sizes }
        requires others { others.now ≡ targets self.now.sources.items nodes }
        requires few_rows { length self.now.sources.items ≤ most_rows }
        requires few_columns { nodes - length self.now.sources.items ≤ most_columns }
        ensures sources { IfOk result (λ layout. layout.sources.now ≡ self.now.sources.items) }
        ensures targets { IfOk result (λ layout. layout.targets.now ≡ others.now) }
        ensures layout { IfOk result IsLayout }
        ensures cells { IfOk result (λ layout. All (HasCell layout) self.now.links.items) }
    {
        Layout::new(alloc, self.sources.as_slice(), others, nodes)
    }
}

// Active rows with these ids.
fn rows_of(alloc: Global, ids: &[u32]) -> Result<Vec<Row>, AllocError>
    ensures { IfOk result (λ rows. rows.items ≡ map row_of ids.now) }
{
    ids.iter()
        .map(|id| Row {
            id: *id,
            active: true,
        })
        .collect(alloc)
}

// Open columns with these ids, for one row each.
fn columns_of(alloc: Global, ids: &[u32]) -> Result<Vec<Column>, AllocError>
    ensures { IfOk result (λ columns. columns.items ≡ map column_of ids.now) }
{
    ids.iter()
        .map(|id| Column {
            id: *id,
            cap: 1,
            usable: true,
        })
        .collect(alloc)
}
