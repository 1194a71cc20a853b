//! Laws over the definitions: each is the contract of a function that does nothing.

ghost use Rattle.std.specs.Prelude.{◌≡◌, ◌≢◌, ◌+◌, ◌*◌, ◌^◌, ◌<◌, ◌≤◌, ℕ, ℤ, pos, true, List, [], ◌∷◌, ◌++◌, length, slice_get, slice_index_or, option_and_then, All, AllPairs, Contains};
ghost use Rattle.std.specs.List.{slice_set};
ghost use Rattle.asg_model.specs.declared.parts.Row.{Row};
ghost use Rattle.asg_model.specs.declared.parts.Column.{Column};
ghost use Rattle.asg_model.specs.declared.parts.Place.{Place};
ghost use Rattle.asg_model.specs.Problem.{Problem, problem_of};
ghost use Rattle.std.specs.BTreeMap.{insert_entry};
ghost use Rattle.asg_model.specs.declared.parts.Cost.{Cost};
ghost use Rattle.asg_model.specs.Instances.{IsCostInRange, IsInstance, IsPlaceInRange, AreCellsOf, IsWellFormed, by_places};
ghost use Rattle.asg_model.specs.Limits.{most_capacity};
ghost use Rattle.asg_model.specs.Shapes.{shaped, is_range_of};
ghost use Rattle.asg_model.specs.Live.{cost_at};
ghost use Rattle.asg_model.specs.Counts.{total_capacity};
ghost use Rattle.asg_model.specs.Table.{absent, table_cost, table_cells, IsTable};
ghost use Rattle.asg_model.specs.ValueRange.{IsPartInRange};

/// The pigeonhole principle: different numbers that all stand in a list are no more than it has.
pub fn pigeonhole_law()
    ensures { (xs ys : List ℕ) → AllPairs ◌≢◌ xs → All (Contains ys) xs → length xs ≤ length ys }
{}

/// What a map of cells keeps: cells of so many rows and columns, with costs in range, stay so where
/// such a cell is inserted.
pub fn insert_law()
    ensures { (rows columns : ℕ) (cells : List ((ℕ × ℕ) × Cost)) (place : ℕ × ℕ) (cost : Cost) →
        AreCellsOf rows columns cells → place.0 < rows → place.1 < columns → IsCostInRange cost →
        AreCellsOf rows columns (insert_entry by_places cells place cost) }
{}

/// Parts that are well-formed with no cell are so with cells of their rows and columns.
pub fn well_formed_law()
    ensures { (rows : List Row) (columns : List Column) →
        (cells : List ((ℕ × ℕ) × Cost)) (place : Place) →
        IsWellFormed (problem_of rows columns [] place) →
        AreCellsOf (length rows) (length columns) cells →
        IsWellFormed (problem_of rows columns cells place) }
{}

/// The law of tables: the cost at a place is what stands at the index of the place, row by row.
pub fn table_law()
    ensures { (columns : ℕ) (firsts seconds : List ℤ) (r c : ℕ) → c < columns →
        cost_at (table_cells columns firsts seconds) r c
        ≡ option_and_then (table_cost seconds (r * columns + c))
        (slice_get firsts (r * columns + c)) }
{}

/// The law of the last cell: a table without a cost has no cell; and where a table has no cost from
/// the index of a place on, a cost in range that is put there is that of the cell that comes last.
pub fn last_cell_law()
    ensures none { (columns : ℕ) (firsts : List ℤ) →
        ((k : ℕ) → slice_index_or firsts k absent ≡ absent) → table_cells columns firsts [] ≡ [] }
    ensures last { (columns : ℕ) (firsts : List ℤ) (r c : ℕ) (a : ℤ) → c < columns →
        r * columns + c < length firsts → IsPartInRange a →
        ((k : ℕ) → r * columns + c ≤ k → slice_index_or firsts k absent ≡ absent) →
        table_cells columns (slice_set firsts (r * columns + c) a) []
        ≡ table_cells columns firsts [] ++ ((r, c), record { a = a; b = pos 0 }) ∷ [] }
{}

/// The law of whole tables: well-formed parts whose ids are below 2^32 are an instance with the
/// cells of a table of costs that is whole for them.
pub fn whole_table_law()
    ensures { (rows : List Row) (columns : List Column) (firsts seconds : List ℤ) (place : Place) →
        IsWellFormed (problem_of rows columns [] place) →
        All (λ row. row.id < 2 ^ 32) rows → All (λ column. column.id < 2 ^ 32) columns →
        IsTable (length rows) (length columns) firsts seconds →
        IsInstance (problem_of rows columns (table_cells (length columns) firsts seconds) place) }
{}

/// The law of shapes: an instance stays one with another place rule that is in range then, and with
/// one capacity in range for all columns; and a place rule that passes the test is in range.
pub fn shape_law()
    ensures shaped { (X : Problem) (place : Place) (each : ℕ) → IsInstance X → 1 ≤ each →
        each ≤ most_capacity → IsPlaceInRange (shaped X place each) place →
        IsInstance (shaped X place each) }
    ensures in_range { (X : Problem) (place : Place) →
        is_range_of place (length X.rows) (total_capacity X) ≡ true → IsPlaceInRange X place }
{}
