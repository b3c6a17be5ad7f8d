//! Tables, row by row and column by column.
ghost use Rattle.std.specs.Prelude.{◌≡◌, ℕ, ◌<◌, ◌++◌, ◌∷◌, [], All, IfOk, OnOk};
ghost use Rattle.std.specs.Prelude.{length, map, slice_index_or};
ghost use Rattle.std.specs.List.{AllByRecursion};
ghost use Rattle.workers.specs.Tables.{AreColumnsOf};

use imm_base::Memory;
use std::alloc::Global;

// So many columns with nothing in them.
fn no_rows<T: Drop>(alloc: Global, width: usize) -> Result<Vec<Vec<T>>, Memory>
    ensures many { IfOk result (λ all. length all.items ≡ width) }
    ensures each { IfOk result (λ all. All (λ column. column.items ≡ []) all.items) }
{
    let mut columns = Vec::new(alloc);
    while columns.len() < width {
        columns.push(Vec::new(alloc))?;
    }
    Ok(columns)
}

// Puts each element of a row behind the column at its place.
fn push_row<T: Drop>(columns: &mut Vec<Vec<T>>, row: Vec<T>) -> Result<(), Memory>
    requires { length row.items ≡ length columns.old.items }
    ensures many { length columns.new.items ≡ length columns.old.items }
    ensures each { OnOk result ((c : ℕ) (d : _) (x : T) → c < length columns.old.items
        → (slice_index_or columns.new.items c d).items
        ≡ (slice_index_or columns.old.items c d).items ++ slice_index_or row.items c x ∷ []) }
{
    let mut place = 0;
    for element in row {
        columns[place].push(element)?;
        place += 1;
    }
    Ok(())
}

/// The columns of a table of so many, whose rows these are.
pub(crate) fn transpose<T: Drop>(
    alloc: Global,
    rows: Vec<Vec<T>>,
    width: usize,
) -> Result<Vec<Vec<T>>, Memory>
    requires { AllByRecursion (λ row. length row ≡ width)
        (map (λ row. row.items) rows.items) }
    ensures { IfOk result (λ columns. AreColumnsOf width (map (λ row. row.items) rows.items)
        (map (λ column. column.items) columns.items)) }
{
    let mut columns = no_rows(alloc, width)?;
    for row in rows {
        push_row(&mut columns, row)?;
    }
    Ok(columns)
}
