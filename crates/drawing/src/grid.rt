// A table as a grid: a shift or a dot for empty, rows and columns numbered, the staircase set apart.
use crate::parted;
use crate::parted::Shape;
use console::page;

pub fn put(record: &[u8], shape: Shape, page: &mut [u8], at: usize) -> usize {
    let a = page::form(b"\nz #\n", &[shape.z], page, at);
    let mut end = put_columns(shape, page, a);
    for row in 0..shape.rows() {
        let next = put_rule(row, shape, page, end);
        end = put_row(record, shape, row, page, next);
    }
    end
}

// The numbers of the columns, over them.
fn put_columns(shape: Shape, page: &mut [u8], at: usize) -> usize {
    let mut end = page::put(b"    ", page, at);
    for column in 0..shape.columns() {
        let next = put_bar(b" |", column, shape, page, end);
        end = page::right(column, 3, page, next);
    }
    page::put(b"\n", page, end)
}

// A bar stands before the staircase, and before the extension.
fn put_bar(bar: &[u8], column: usize, shape: Shape, page: &mut [u8], at: usize) -> usize {
    if column == shape.kb || column == shape.behind() {
        return page::put(bar, page, at);
    }
    at
}

// A line stands before the first row of the extension.
fn put_rule(row: usize, shape: Shape, page: &mut [u8], at: usize) -> usize {
    if row != shape.m {
        return at;
    }
    let mut end = page::put(b"    ", page, at);
    for column in 0..shape.columns() {
        let next = put_bar(b"-+", column, shape, page, end);
        end = page::put(b"---", page, next);
    }
    page::put(b"\n", page, end)
}

fn put_row(record: &[u8], shape: Shape, row: usize, page: &mut [u8], at: usize) -> usize {
    let mut end = page::right(row, 4, page, at);
    for column in 0..shape.columns() {
        let next = put_bar(b" |", column, shape, page, end);
        end = put_entry(parted::entry(record, shape, row, column), page, next);
    }
    page::put(b"\n", page, end)
}

fn put_entry(entry: usize, page: &mut [u8], at: usize) -> usize {
    if entry == parted::EMPTY {
        return page::put(b"  .", page, at);
    }
    page::right(entry, 3, page, at)
}
