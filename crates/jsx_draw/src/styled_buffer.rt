//! A grid of characters with styles.

ghost use Rattle.std.specs.Prelude.{◌≡◌, ◌+◌, ◌-◌, ◌<◌, ◌≤◌, [], ◌++◌, map, length, vec_len, vec_capacity, IfOk, OnOk, OnErr};
ghost use Rattle.std.specs.Str.{chars};
ghost use Rattle.jsx_draw.specs.Grid.{HasRoom, grid_of, in_style, padded, put, put_all, with_rows, put_cell, put_text, put_before, put_behind, row_at, restyle, restyled, change_from, is_plain, run_of, run_of_cell, add_cell, add_cells, shown_cell, shown_row, shown_runs};

use jsx_diag::Style;
use std::alloc::{AllocError, Global};
use std::marker::Model;

/// A text in one style.
#[derive(Debug, Drop)]
pub struct StyledString {
    pub text: String,
    pub style: Style,
}

/// Rows of characters, each with a style.
#[derive(Debug, Drop)]
pub struct StyledBuffer {
    alloc: Global,
    rows: Vec<Vec<(char, Style)>>,
}

impl Model for StyledBuffer {
    ghost use Rattle.jsx_draw.specs.Grid.{Grid, grid_of};

    ghost Value = { Grid };

    ghost view = { λ it. grid_of it.rows.items };
}

impl StyledBuffer {
    /// Without rows. It takes no memory.
    pub fn new(alloc: Global) -> StyledBuffer
        ensures { result ≡ [] }
    {
        StyledBuffer {
            alloc,
            rows: Vec::new(alloc),
        }
    }

    /// The rows as runs of one style, with tabs as four blanks.
    ///
    /// # Errors
    ///
    /// `AllocError` for want of memory.
    pub fn render(&mut self) -> Result<Vec<Vec<StyledString>>, AllocError>
        ensures shown { IfOk result (λ rows. map shown_runs rows.items ≡ map shown_row self.old) }
        ensures same { self.new ≡ self.old }
    {
        shown_rows(self.alloc, &self.rows)
    }

    /// How many rows there are.
    pub fn num_lines(&self) -> usize
        ensures { result ≡ length self.now }
    {
        self.rows.len()
    }

    /// Puts a character at a column of a row. What is missing before it becomes blank.
    ///
    /// # Errors
    ///
    /// `AllocError` for want of memory. Then nothing has changed.
    pub fn putc(
        &mut self,
        line: usize,
        col: usize,
        chr: char,
        style: Style,
    ) -> Result<(), AllocError>
        ensures put { OnOk result (self.new ≡ put_cell line col (chr, style) self.old) }
        ensures kept { OnErr result (self.new ≡ self.old) }
    {
        lay(&mut self.rows, self.alloc, line, col, &[(chr, style)])
    }

    /// Puts a text from a column of a row on. An empty one changes nothing.
    ///
    /// # Errors
    ///
    /// `AllocError` for want of memory. Then nothing has changed.
    pub fn puts(
        &mut self,
        line: usize,
        col: usize,
        string: &str,
        style: Style,
    ) -> Result<(), AllocError>
        ensures put { OnOk result (self.new ≡ put_text line col (in_style style (chars string.now)) self.old) }
        ensures kept { OnErr result (self.new ≡ self.old) }
    {
        let cells = cells_of(self.alloc, string, style)?;
        lay(&mut self.rows, self.alloc, line, col, &cells)
    }

    /// Puts a text before what stands in a row.
    ///
    /// # Errors
    ///
    /// `AllocError` for want of memory. Then nothing has changed.
    pub fn prepend(&mut self, line: usize, string: &str, style: Style) -> Result<(), AllocError>
        ensures put { OnOk result (self.new ≡ put_before line (in_style style (chars string.now)) self.old) }
        ensures kept { OnErr result (self.new ≡ self.old) }
    {
        let cells = cells_of(self.alloc, string, style)?;
        put_before(&mut self.rows, self.alloc, line, cells)
    }

    /// Puts a text behind what stands in a row. An empty one changes nothing.
    ///
    /// # Errors
    ///
    /// `AllocError` for want of memory. Then nothing has changed.
    pub fn append(&mut self, line: usize, string: &str, style: Style) -> Result<(), AllocError>
        ensures put { OnOk result (self.new ≡ put_behind line (in_style style (chars string.now)) self.old) }
        ensures kept { OnErr result (self.new ≡ self.old) }
    {
        let col = row_len(&self.rows, line);
        self.puts(line, col, string, style)
    }

    /// Gives a cell another style, if it is there, and unless `overwrite` has none or is quoted.
    pub fn set_style(&mut self, line: usize, col: usize, style: Style, overwrite: bool)
        ensures { self.new ≡ restyle line col 1 style overwrite self.old }
    {
        restyle_row(&mut self.rows, line, (col, 1), style, overwrite);
    }

    /// Does so for each column from one up to another.
    pub fn set_style_range(
        &mut self,
        line: usize,
        col_start: usize,
        col_end: usize,
        style: Style,
        overwrite: bool,
    )
        ensures { self.new ≡ restyle line col_start (col_end - col_start) style overwrite self.old }
    {
        let n = col_end.saturating_sub(col_start);
        restyle_row(&mut self.rows, line, (col_start, n), style, overwrite);
    }
}

// How long a row is, or 0 where it isn't there.
fn row_len(rows: &[Vec<(char, Style)>], line: usize) -> usize
    ensures { result ≡ length (row_at line (grid_of rows.now)) }
{
    match rows.get(line) {
        Some(row) => row.len(),
        None => 0,
    }
}

// The characters of a text in a style.
fn cells_of(alloc: Global, text: &str, style: Style) -> Result<Vec<(char, Style)>, AllocError>
    ensures { IfOk result (λ cells. cells.items ≡ in_style style (chars text.now)) }
{
    text.chars().map(|c| (c, style)).collect(alloc)
}

// Puts cells from a column of a row on.
fn lay(
    rows: &mut Vec<Vec<(char, Style)>>,
    alloc: Global,
    line: usize,
    col: usize,
    cells: &[(char, Style)],
) -> Result<(), AllocError>
    ensures put { OnOk result (grid_of rows.new.items ≡ put_text line col cells.now (grid_of rows.old.items)) }
    ensures kept { OnErr result (grid_of rows.new.items ≡ grid_of rows.old.items) }
{
    if cells.is_empty() {
        return Ok(());
    }
    let Some(end) = col.checked_add(cells.len()) else {
        return Err(AllocError);
    };
    make_row(rows, alloc, line, end)?;
    put_all(&mut rows[line], col, cells);
    Ok(())
}

// Puts cells before what stands in a row.
fn put_before(
    rows: &mut Vec<Vec<(char, Style)>>,
    alloc: Global,
    line: usize,
    mut cells: Vec<(char, Style)>,
) -> Result<(), AllocError>
    ensures put { OnOk result (grid_of rows.new.items ≡ put_before line cells.items (grid_of rows.old.items)) }
    ensures kept { OnErr result (grid_of rows.new.items ≡ grid_of rows.old.items) }
{
    push_row(&mut cells, rows, line)?;
    make_row(rows, alloc, line, 0)?;
    rows[line] = cells;
    Ok(())
}

// Adds what stands in a row.
fn push_row(
    cells: &mut Vec<(char, Style)>,
    rows: &[Vec<(char, Style)>],
    line: usize,
) -> Result<(), AllocError>
    ensures { OnOk result (cells.new.items ≡ cells.old.items ++ row_at line (grid_of rows.now)) }
{
    let Some(row) = rows.get(line) else {
        return Ok(());
    };
    cells.extend_from_slice(row)?;
    Ok(())
}

// Makes a row, where it isn't there, and room in it for so many cells.
fn make_row(
    rows: &mut Vec<Vec<(char, Style)>>,
    alloc: Global,
    line: usize,
    cells: usize,
) -> Result<(), AllocError>
    ensures made { OnOk result (grid_of rows.new.items ≡ with_rows (line + 1) (grid_of rows.old.items)) }
    ensures there { OnOk result (line < length rows.new.items) }
    ensures room { OnOk result (HasRoom line cells rows.new.items) }
    ensures kept { OnErr result (grid_of rows.new.items ≡ grid_of rows.old.items) }
{
    if line < rows.len() {
        let row = &mut rows[line];
        let more = cells.saturating_sub(row.len());
        return row.try_reserve(more);
    }
    add_row(rows, alloc, line, cells)
}

// The same for a row that isn't there.
fn add_row(
    rows: &mut Vec<Vec<(char, Style)>>,
    alloc: Global,
    line: usize,
    cells: usize,
) -> Result<(), AllocError>
    requires { length rows.old.items ≤ line }
    ensures made { OnOk result (grid_of rows.new.items ≡ with_rows (line + 1) (grid_of rows.old.items)) }
    ensures there { OnOk result (line < length rows.new.items) }
    ensures room { OnOk result (HasRoom line cells rows.new.items) }
    ensures kept { OnErr result (grid_of rows.new.items ≡ grid_of rows.old.items) }
{
    let row = Vec::with_capacity(alloc, cells)?;
    let Some(more) = (line - rows.len()).checked_add(1) else {
        return Err(AllocError);
    };
    rows.try_reserve(more)?;
    add_empty(rows, alloc, line);
    rows.push_reserved(row);
    Ok(())
}

// Adds empty rows, for which there is room, until there are so many.
fn add_empty(rows: &mut Vec<Vec<(char, Style)>>, alloc: Global, n: usize)
    requires below { vec_len rows.old ≤ n }
    requires room { n ≤ vec_capacity rows.old }
    ensures rows { grid_of rows.new.items ≡ with_rows n (grid_of rows.old.items) }
    ensures len { vec_len rows.new ≡ n }
    ensures capacity { vec_capacity rows.new ≡ vec_capacity rows.old }
{
    while rows.len() < n {
        rows.push_reserved(Vec::new(alloc));
    }
}

// Puts cells, for which there is room, one behind the other from a column on.
fn put_all(row: &mut Vec<(char, Style)>, col: usize, cells: &[(char, Style)])
    requires { col + length cells.now ≤ vec_capacity row.old }
    ensures { row.new.items ≡ put_all col cells.now row.old.items }
{
    let mut at = col;
    for cell in cells {
        put(row, at, *cell);
        at += 1;
    }
}

// Puts a cell, for which there is room, at a column.
fn put(row: &mut Vec<(char, Style)>, col: usize, cell: (char, Style))
    requires { col < vec_capacity row.old }
    ensures put { row.new.items ≡ put col cell row.old.items }
    ensures capacity { vec_capacity row.new ≡ vec_capacity row.old }
{
    pad(row, col);
    if col < row.len() {
        row[col] = cell;
    } else {
        row.push_reserved(cell);
    }
}

// Adds blanks, for which there is room, until there are so many cells.
fn pad(row: &mut Vec<(char, Style)>, n: usize)
    requires { n ≤ vec_capacity row.old }
    ensures row { row.new.items ≡ padded n row.old.items }
    ensures capacity { vec_capacity row.new ≡ vec_capacity row.old }
{
    while row.len() < n {
        row.push_reserved((' ', Style::NoStyle));
    }
}

// Gives the cells of some columns of a row another style: from the first so many.
fn restyle_row(
    rows: &mut Vec<Vec<(char, Style)>>,
    line: usize,
    cols: (usize, usize),
    style: Style,
    overwrite: bool,
)
    ensures { grid_of rows.new.items ≡ restyle line cols.0 cols.1 style overwrite (grid_of rows.old.items) }
{
    if line < rows.len() {
        restyle(&mut rows[line], cols.0, cols.1, style, overwrite);
    }
}

// The same in one row.
fn restyle(row: &mut [(char, Style)], begin: usize, n: usize, style: Style, overwrite: bool)
    ensures { row.new ≡ change_from begin n (restyled style overwrite) row.old }
{
    let end = begin.saturating_add(n).min(row.len());
    for col in begin..end {
        row[col] = restyled(row[col], style, overwrite);
    }
}

// A cell with another style, where that may be.
fn restyled(cell: (char, Style), style: Style, overwrite: bool) -> (char, Style)
    ensures { result ≡ restyled style overwrite cell }
{
    if overwrite || is_plain(cell.1) {
        (cell.0, style)
    } else {
        cell
    }
}

// Whether another style may take the place of this one.
fn is_plain(style: Style) -> bool
    ensures { result ≡ is_plain style }
{
    matches!(style, Style::NoStyle | Style::Quotation)
}

// What is shown of each row.
fn shown_rows(
    alloc: Global,
    rows: &[Vec<(char, Style)>],
) -> Result<Vec<Vec<StyledString>>, AllocError>
    ensures { IfOk result (λ shown. map shown_runs shown.items ≡ map shown_row (grid_of rows.now)) }
{
    let mut shown = Vec::with_capacity(alloc, rows.len())?;
    for row in rows {
        shown.push(shown_row(alloc, row)?)?;
    }
    Ok(shown)
}

// What is shown of a row.
fn shown_row(alloc: Global, row: &[(char, Style)]) -> Result<Vec<StyledString>, AllocError>
    ensures { IfOk result (λ shown. shown_runs shown ≡ shown_row row.now) }
{
    let mut shown = Vec::new(alloc);
    for cell in row {
        show_cell(alloc, &mut shown, *cell)?;
    }
    Ok(shown)
}

// Adds what is shown of a cell.
fn show_cell(
    alloc: Global,
    shown: &mut Vec<StyledString>,
    cell: (char, Style),
) -> Result<(), AllocError>
    ensures { OnOk result (shown_runs shown.new ≡ add_cells (shown_runs shown.old) (shown_cell cell)) }
{
    if cell.0 != '\t' {
        return add_cell(alloc, shown, cell);
    }
    add_cell(alloc, shown, (' ', cell.1))?;
    add_cell(alloc, shown, (' ', cell.1))?;
    add_cell(alloc, shown, (' ', cell.1))?;
    add_cell(alloc, shown, (' ', cell.1))
}

// Adds a cell to the last run, or one of its own.
fn add_cell(
    alloc: Global,
    shown: &mut Vec<StyledString>,
    cell: (char, Style),
) -> Result<(), AllocError>
    ensures { OnOk result (shown_runs shown.new ≡ add_cell (shown_runs shown.old) cell) }
{
    let Some(mut last) = shown.pop() else {
        shown.push(one_cell(alloc, cell)?)?;
        return Ok(());
    };
    if last.style == cell.1 {
        last.text.push(cell.0)?;
        shown.push(last)?;
        return Ok(());
    }
    shown.push(last)?;
    shown.push(one_cell(alloc, cell)?)?;
    Ok(())
}

// A run of one cell.
fn one_cell(alloc: Global, cell: (char, Style)) -> Result<StyledString, AllocError>
    ensures { IfOk result (λ it. run_of it ≡ run_of_cell cell) }
{
    let mut text = String::new(alloc);
    text.push(cell.0)?;
    Ok(StyledString {
        text,
        style: cell.1,
    })
}
