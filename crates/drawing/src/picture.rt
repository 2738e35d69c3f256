// The spread-out matrix as a picture: a diagonal for each shift, and the parity part shaded.
ghost use Rattle.std.specs.Prelude.{◌≤◌};

use crate::parted;
use crate::parted::Shape;
use console::{counted, page, parts};
use text::octets;

// How wide a picture is shown.
const WIDTH: usize = 1200;

// The measures of a picture in its own units: those of one place of the matrix, and of the margins on the left and above.
#[derive(Clone, Copy)]
pub struct Scale {
    pub place: usize,
    pub left: usize,
    pub top: usize,
    // The height of a letter.
    pub letter: usize,
}

// A small matrix has more units to a place, so that every measure is a whole number. The margins are a twentieth and a tenth of the width.
fn scale_of(shape: Shape) -> Scale {
    let wide = parts::times(shape.columns(), shape.z);
    let place = octets::least(counted::per(WIDTH, wide), WIDTH) + 1;
    let all = parts::times(wide, place);
    Scale {
        place,
        left: all / 20,
        top: all / 10,
        letter: all / 100,
    }
}

// So many groups of places, in units; from the left, and from above.
fn groups(n: usize, shape: Shape, scale: Scale) -> usize
    ensures { result ≤ 4294836225 }
{
    parts::times(parts::times(n, shape.z), scale.place)
}

fn across(n: usize, shape: Shape, scale: Scale) -> usize
    ensures { result ≤ 8589672450 }
{
    octets::least(scale.left, 4294836225) + groups(n, shape, scale)
}

fn down(n: usize, shape: Shape, scale: Scale) -> usize
    ensures { result ≤ 8589672450 }
{
    octets::least(scale.top, 4294836225) + groups(n, shape, scale)
}

pub fn put(record: &[u8], shape: Shape, page: &mut [u8], at: usize) -> usize {
    let scale = scale_of(shape);
    let a = put_head(shape, scale, page, at);
    let b = put_shades(shape, scale, page, a);
    let c = put_lines(shape, scale, page, b);
    let d = put_numbers(shape, scale, page, c);
    let e = put_shifts(record, shape, scale, page, d);
    page::put(b"</svg>\n", page, e)
}

// The whole picture is as far below and behind the matrix as its left margin.
fn put_head(shape: Shape, scale: Scale, page: &mut [u8], at: usize) -> usize {
    let border = octets::least(scale.left, 4294836225);
    let wide = across(shape.columns(), shape, scale) + border;
    let high = down(shape.rows(), shape, scale) + border;
    let a = page::form(
        b"<svg xmlns=\"http://www.w3.org/2000/svg\" width=\"#\" height=\"#\" viewBox=\"0 0 # #\" font-family=\"sans-serif\">\n<rect width=\"#\" height=\"#\" fill=\"white\"/>\n",
        &[WIDTH, shown(high, wide), wide, high, wide, high],
        page,
        at,
    );
    put_title(shape, scale, page, a)
}

// A height as it is shown, where so many units are shown WIDTH wide.
fn shown(high: usize, wide: usize) -> usize {
    counted::per(parts::times(octets::least(high, 65535), WIDTH), wide)
}

// What it is, and below that what is drawn.
fn put_title(shape: Shape, scale: Scale, page: &mut [u8], at: usize) -> usize {
    let rows = parts::times(shape.rows(), shape.z);
    let columns = parts::times(shape.columns(), shape.z);
    let large = parts::times(octets::least(scale.letter, 65535), 2);
    let a = page::form(
        b"<text x=\"#\" y=\"#\" font-size=\"#\">kb #, m #, x #, type #, z #: # rows and # columns</text>\n",
        &[
            scale.left,
            scale.top / 3,
            large,
            shape.kb,
            shape.m,
            shape.x,
            shape.kind,
            shape.z,
            rows,
            columns,
        ],
        page,
        at,
    );
    let b = page::form(
        b"<text x=\"#\" y=\"#\" font-size=\"#\">Each line is the diagonal of ones of a shift. Shaded is the parity part, from column # on",
        &[scale.left, scale.top / 9 * 5, large / 3 * 2, shape.kb],
        page,
        a,
    );
    let c = put_extended(shape, page, b);
    page::put(b".</text>\n", page, c)
}

fn put_extended(shape: Shape, page: &mut [u8], at: usize) -> usize {
    if shape.x == 0 {
        return at;
    }
    page::form(
        b", its extension from column # on",
        &[shape.behind()],
        page,
        at,
    )
}

// The columns of the staircase and of the extension.
fn put_shades(shape: Shape, scale: Scale, page: &mut [u8], at: usize) -> usize {
    let high = groups(shape.rows(), shape, scale);
    let top = scale.top;
    page::form(
        b"<rect x=\"#\" y=\"#\" width=\"#\" height=\"#\" fill=\"lightblue\" fill-opacity=\"0.6\"/>\n<rect x=\"#\" y=\"#\" width=\"#\" height=\"#\" fill=\"wheat\" fill-opacity=\"0.6\"/>\n",
        &[
            across(shape.kb, shape, scale),
            top,
            groups(shape.m, shape, scale),
            high,
            across(shape.behind(), shape, scale),
            top,
            groups(shape.x, shape, scale),
            high,
        ],
        page,
        at,
    )
}

// Lines between the groups.
fn put_lines(shape: Shape, scale: Scale, page: &mut [u8], at: usize) -> usize {
    let a = page::form(
        b"<path fill=\"none\" stroke=\"silver\" stroke-width=\"#\" d=\"",
        &[scale.letter / 12],
        page,
        at,
    );
    let b = put_uprights(shape, scale, page, a);
    let c = put_levels(shape, scale, page, b);
    page::put(b"\"/>\n", page, c)
}

fn put_uprights(shape: Shape, scale: Scale, page: &mut [u8], at: usize) -> usize {
    let high = groups(shape.rows(), shape, scale);
    let mut end = at;
    for n in 0..=shape.columns() {
        let from = across(n, shape, scale);
        end = page::form(b"M# #v#", &[from, scale.top, high], page, end);
    }
    end
}

fn put_levels(shape: Shape, scale: Scale, page: &mut [u8], at: usize) -> usize {
    let wide = groups(shape.columns(), shape, scale);
    let mut end = at;
    for n in 0..=shape.rows() {
        let from = down(n, shape, scale);
        end = page::form(b"M# #h#", &[scale.left, from, wide], page, end);
    }
    end
}

// The numbers of the columns above them, and of the rows on their left.
fn put_numbers(shape: Shape, scale: Scale, page: &mut [u8], at: usize) -> usize {
    let a = page::form(
        b"<g font-size=\"#\" text-anchor=\"middle\">\n",
        &[scale.letter],
        page,
        at,
    );
    let b = put_columns(shape, scale, page, a);
    let c = put_rows(shape, scale, page, b);
    page::put(b"</g>\n", page, c)
}

fn put_columns(shape: Shape, scale: Scale, page: &mut [u8], at: usize) -> usize {
    let half = groups(1, shape, scale) / 2;
    let over = scale.top - scale.top / 20;
    let mut end = at;
    for n in 0..shape.columns() {
        let middle = across(n, shape, scale) + half;
        end = page::form(
            b"<text x=\"#\" y=\"#\">#</text>\n",
            &[middle, over, n],
            page,
            end,
        );
    }
    end
}

fn put_rows(shape: Shape, scale: Scale, page: &mut [u8], at: usize) -> usize {
    let half = groups(1, shape, scale) / 2 + octets::least(scale.letter, 4294836225) / 3;
    let beside = scale.left - scale.left / 4;
    let mut end = at;
    for n in 0..shape.rows() {
        let middle = down(n, shape, scale) + half;
        end = page::form(
            b"<text x=\"#\" y=\"#\">#</text>\n",
            &[beside, middle, n],
            page,
            end,
        );
    }
    end
}

// The diagonals, all in one path.
fn put_shifts(record: &[u8], shape: Shape, scale: Scale, page: &mut [u8], at: usize) -> usize {
    let mut end = page::form(
        b"<path fill=\"none\" stroke=\"midnightblue\" stroke-width=\"#\" d=\"",
        &[scale.letter / 6],
        page,
        at,
    );
    for row in 0..shape.rows() {
        end = put_row(record, shape, scale, row, page, end);
    }
    page::put(b"\"/>\n", page, end)
}

fn put_row(
    record: &[u8],
    shape: Shape,
    scale: Scale,
    row: usize,
    page: &mut [u8],
    at: usize,
) -> usize {
    let mut end = at;
    for column in 0..shape.columns() {
        let shift = parted::entry(record, shape, row, column);
        let left = across(column, shape, scale);
        let top = down(row, shape, scale);
        end = put_shift(shift, left, top, shape, scale, page, end);
    }
    end
}

// "Shift s stands for the z by z matrix whose row i has its one in column (i+s) mod z": from column s of row 0 down to the last column, and from column 0 of
// the next row to the last row.
fn put_shift(
    shift: usize,
    left: usize,
    top: usize,
    shape: Shape,
    scale: Scale,
    page: &mut [u8],
    at: usize,
) -> usize
    requires { (left ≤ 8589672450) × (top ≤ 8589672450) }
{
    if shift == parted::EMPTY {
        return at;
    }
    let along = parts::times(shift, scale.place);
    let rest = parts::times(counted::left(shape.z, shift), scale.place);
    let a = page::form(b"M# #l# #", &[left + along, top, rest, rest], page, at);
    if shift == 0 {
        return a;
    }
    page::form(b"M# #l# #", &[left, top + rest, along, along], page, a)
}
