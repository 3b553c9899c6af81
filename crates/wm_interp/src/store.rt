// Variables and their cells.
ghost use Rattle.std.specs.Prelude.{◌≡◌, ◌∷◌, ◌++◌, [], slice_index_or, slice_set, replicate, map, pos, OnOk, OnErr, IfOk};
ghost use Rattle.wm_program.specs.State.{number_in};
ghost use Rattle.wm_interp.specs.Rows.{rows_of};
ghost use Rattle.wm_program.specs.Execution.{listed};

use crate::halt::Refusal;
use std::alloc::Global;
use std::marker::Model;

/// Variables, each with its cells, of which each may be unset. Contracts see it as the list of their cells.
#[derive(Drop)]
pub(crate) struct Store {
    rows: Vec<Vec<Option<i64>>>,
}

impl Model for Store {
    ghost use Rattle.std.specs.Prelude.{ℤ, List, Option};
    ghost use Rattle.wm_interp.specs.Rows.{rows_of};

    ghost Value = { List (List (Option ℤ)) };

    ghost view = { λ store. rows_of store.rows.items };
}

impl Store {
    /// No variables.
    pub(crate) fn new(alloc: Global) -> Store
        ensures { result ≡ [] }
    {
        Store {
            rows: Vec::new(alloc),
        }
    }

    /// The number of a cell; none where it is unset or not there.
    #[tactic(auto)]
    pub(crate) fn cell(&self, variable: usize, index: usize) -> Option<i64>
        ensures { result ≡ number_in (slice_index_or self.now variable []) index }
    {
        match self.rows.get(variable) {
            Some(row) => cell_in(row.as_slice(), index),
            None => None,
        }
    }

    /// The cells of a variable; none where there is no such variable.
    pub(crate) fn row(&self, variable: usize) -> &[Option<i64>]
        ensures { result.now ≡ slice_index_or self.now variable [] }
    {
        match self.rows.get(variable) {
            Some(row) => row.as_slice(),
            None => &[],
        }
    }

    /// Gives a cell a number; one that is not there stays so.
    pub(crate) fn set(&mut self, variable: usize, index: usize, number: i64) -> Result<(), Refusal>
        ensures { OnOk result (self.new ≡ slice_set self.old variable (slice_set (slice_index_or self.old variable []) index (Some number))) }
    {
        set_cell(&mut self.rows, variable, index, number)
    }

    /// Makes each cell of a variable of so many cells unset.
    pub(crate) fn blank(&mut self, variable: usize, count: usize) -> Result<(), Refusal>
        ensures { OnOk result (self.new ≡ slice_set self.old variable (replicate count None)) }
    {
        blank_cells(&mut self.rows, variable, count)
    }

    /// Gives a variable of so many cells these numbers, and 0 to the cells behind them.
    pub(crate) fn list(
        &mut self,
        variable: usize,
        count: usize,
        numbers: &[i64],
    ) -> Result<(), Refusal>
        ensures { OnOk result (self.new ≡ slice_set self.old variable (listed count numbers.now)) }
    {
        list_cells(&mut self.rows, variable, count, numbers)
    }

    /// One more variable, of so many cells.
    pub(crate) fn push(
        &mut self,
        alloc: Global,
        count: usize,
        cell: Option<i64>,
    ) -> Result<(), Refusal>
        ensures { OnOk result (self.new ≡ self.old ++ replicate count cell ∷ []) }
    {
        let row = row_of(alloc, count, cell)?;
        match self.rows.push(row) {
            Ok(()) => Ok(()),
            Err(_) => Err(Refusal::NoMemory),
        }
    }

    /// One more variable, of so many cells, with these numbers and 0 in the cells behind them.
    pub(crate) fn push_list(
        &mut self,
        alloc: Global,
        count: usize,
        numbers: &[i64],
    ) -> Result<(), Refusal>
        ensures { OnOk result (self.new ≡ self.old ++ listed count numbers.now ∷ []) }
    {
        let mut row = row_of(alloc, count, None)?;
        list_row(&mut row, count, numbers)?;
        match self.rows.push(row) {
            Ok(()) => Ok(()),
            Err(_) => Err(Refusal::NoMemory),
        }
    }

    /// Gives all cells of a variable their numbers.
    #[tactic(auto, using(crate::proofs::Rows::listed_whole))]
    pub(crate) fn write(&mut self, variable: usize, numbers: &[i64]) -> Result<(), Refusal>
        ensures { OnOk result (self.new ≡ slice_set self.old variable (map Some numbers.now)) }
    {
        self.list(variable, numbers.len(), numbers)
    }
}

type Rows = Vec<Vec<Option<i64>>>;

#[tactic(auto, using(crate::proofs::Rows::cell_set))]
fn set_cell(rows: &mut Rows, variable: usize, index: usize, number: i64) -> Result<(), Refusal>
    ensures { OnOk result (rows_of rows.new.items ≡ slice_set (rows_of rows.old.items) variable (slice_set (slice_index_or (rows_of rows.old.items) variable []) index (Some number))) }
{
    if variable >= rows.len() {
        return Err(Refusal::Unfit);
    }
    let row = &mut rows[variable];
    set_in(row, index, number);
    Ok(())
}

#[tactic(auto, using(crate::proofs::Rows::rows_set))]
fn blank_cells(rows: &mut Rows, variable: usize, count: usize) -> Result<(), Refusal>
    ensures { OnOk result (rows_of rows.new.items ≡ slice_set (rows_of rows.old.items) variable (replicate count None)) }
{
    match rows.get_mut(variable) {
        Some(row) => blank_row(row, count),
        None => Err(Refusal::Unfit),
    }
}

#[tactic(auto, using(crate::proofs::Rows::rows_set))]
fn list_cells(
    rows: &mut Rows,
    variable: usize,
    count: usize,
    numbers: &[i64],
) -> Result<(), Refusal>
    ensures { OnOk result (rows_of rows.new.items ≡ slice_set (rows_of rows.old.items) variable (listed count numbers.now)) }
{
    match rows.get_mut(variable) {
        Some(row) => list_row(row, count, numbers),
        None => Err(Refusal::Unfit),
    }
}

fn set_in(row: &mut Vec<Option<i64>>, index: usize, number: i64)
    ensures { row.new.items ≡ slice_set row.old.items index (Some number) }
{
    if let Some(cell) = row.get_mut(index) {
        *cell = Some(number);
    }
}

fn blank_row(row: &mut Vec<Option<i64>>, count: usize) -> Result<(), Refusal>
    ensures { OnOk result (row.new.items ≡ replicate count None) }
{
    if row.len() != count {
        return Err(Refusal::Unfit);
    }
    row.fill(None);
    Ok(())
}

fn list_row(row: &mut Vec<Option<i64>>, count: usize, numbers: &[i64]) -> Result<(), Refusal>
    ensures { OnOk result (row.new.items ≡ listed count numbers.now) }
{
    if row.len() != count || count < numbers.len() {
        return Err(Refusal::Unfit);
    }
    row.clear();
    for number in numbers {
        if row.push(Some(*number)).is_err() {
            return Err(Refusal::NoMemory);
        }
    }
    push_zeros(row, count - numbers.len())
}

/// So many cells more, with the number 0.
fn push_zeros(row: &mut Vec<Option<i64>>, count: usize) -> Result<(), Refusal>
    ensures { OnOk result (row.new.items ≡ row.old.items ++ replicate count (Some (pos 0))) }
{
    for _ in 0..count {
        if row.push(Some(0)).is_err() {
            return Err(Refusal::NoMemory);
        }
    }
    Ok(())
}

/// A row of so many cells.
fn row_of(alloc: Global, count: usize, cell: Option<i64>) -> Result<Vec<Option<i64>>, Refusal>
    ensures { IfOk result (λ row. row.items ≡ replicate count cell) }
{
    let mut row = Vec::new(alloc);
    for _ in 0..count {
        if row.push(cell).is_err() {
            return Err(Refusal::NoMemory);
        }
    }
    Ok(row)
}

fn cell_in(row: &[Option<i64>], index: usize) -> Option<i64>
    ensures { result ≡ number_in row.now index }
{
    match row.get(index) {
        Some(cell) => *cell,
        None => None,
    }
}
