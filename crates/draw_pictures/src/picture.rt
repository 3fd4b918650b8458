//! The picture of a trace, as the text of an SVG.
ghost use Rattle.std.specs.Prelude.{◌≡◌, ◌++◌, ◌+◌, ◌<◌, ◌^◌, ◌≤◌, max, length, IfOk, OnOk, codes, string_bytes};
ghost use Rattle.stm_model.specs.Algorithms.{alg_name};
ghost use Rattle.draw_pictures.specs.Shapes.{boxes_of, box_of, shape_at};
ghost use Rattle.draw_pictures.specs.Markup.{IsMarkup};
ghost use Rattle.draw_pictures.specs.Texts.{column, left, lines_bytes, titled_bytes, top, tall, edge, lanes_of, sheet_of, shape_bytes, closed_bytes, installed_bytes, part_bytes, layer_bytes, layers_onto, squeezed, box_rect, label_bytes, row_bytes, box_bytes, boxes_bytes, drawing_bytes, clock_bytes, deep, head_at, heads_bytes, lane_bytes, naming_bytes, number_bytes, turn_bytes, page_width, page_height, page_bytes, view_bytes, style_bytes, legend_bytes, name_bytes, axis_bytes, head_bytes, foot_bytes, svg_of};

use crate::kind::Kind;
use crate::label::label;
use crate::part::{Callers, Lines};
use crate::row::Row;
use crate::shape::{Layer, Shape, shape_at};
use crate::shown::{put_words, shown};
use crate::style::{LEGEND, STYLE};
use crate::writing::{put_open, put_rect};
use std::alloc::{AllocError, Global};
use stm_model::alg::Alg;
use stm_model::memory::Memory;

/// What a picture shows: the lines that are named and the callers that have lanes, where not all of them are drawn; and
/// how many of its rows stand above the part.
#[derive(Clone, Copy, Drop)]
pub struct Leaf {
    pub lines: Option<Lines>,
    pub callers: Option<Callers>,
    pub above: usize,
}

/// The page: how many lanes and rows it has, and what it shows.
#[derive(Clone, Copy, Drop)]
pub struct Sheet {
    lanes: u128,
    rows: u128,
    leaf: Leaf,
}

/// A caller's lane, counted from the left: those of callers that aren't drawn are left out.
fn column(callers: Option<Callers>, lane: usize) -> u128
    ensures is { result ≡ column callers lane }
    ensures within { result < 2 ^ 64 }
{
    match callers {
        None => lane as u128,
        Some(callers) => callers.below(lane) as u128,
    }
}

/// Where a row begins, below the heads above it; how high one is with so many after it.
fn top(row: u128) -> u128
    requires { row ≤ 2 ^ 65 }
    ensures { result ≡ top row }
{
    44 + (row + row / 40) * 24
}

fn tall(from: usize, more: usize) -> u128
    ensures { result ≡ tall from more }
{
    let first = from as u128;
    let last = first + more as u128;
    22 + (top(last) - top(first))
}

impl Sheet {
    /// The page that these lines need.
    fn of(leaf: Leaf, lines: &[Row]) -> Sheet
        ensures is { result ≡ sheet_of leaf (boxes_of lines.now) }
        ensures lanes { result.lanes ≤ 2 ^ 64 }
        ensures rows { result.rows ≤ 2 ^ 64 }
    {
        Sheet {
            lanes: lanes(leaf.callers, lines),
            rows: lines.len() as u128,
            leaf,
        }
    }

    /// Where a caller's lane begins.
    fn left(self, lane: usize) -> u128
        ensures { result ≡ left self lane }
    {
        138 + column(self.leaf.callers, lane) * 216
    }

    /// Where the lanes end.
    fn edge(self) -> u128
        requires { self.lanes ≤ 2 ^ 64 }
        ensures { result ≡ edge self }
    {
        138 + self.lanes * 216
    }

    /// How many rows there are with those of the heads.
    fn deep(self) -> u128
        requires { self.rows ≤ 2 ^ 64 }
        ensures is { result ≡ deep self }
        ensures within { result ≤ 2 ^ 65 }
    {
        self.rows + self.rows / 40
    }

    fn width(self) -> u128
        requires { self.lanes ≤ 2 ^ 64 }
        ensures { result ≡ page_width self }
    {
        (self.edge() + 140).max(766)
    }

    fn height(self) -> u128
        requires { self.rows ≤ 2 ^ 64 }
        ensures { result ≡ page_height self }
    {
        self.deep() * 24 + 116
    }
}

/// How many lanes the lines lie in.
fn lanes(callers: Option<Callers>, lines: &[Row]) -> u128
    ensures all { result ≡ lanes_of callers (boxes_of lines.now) }
    ensures few { result ≤ 2 ^ 64 }
{
    let mut lanes = 0u128;
    for line in lines {
        lanes = lanes.max(column(callers, line.lane()) + 1);
    }
    lanes
}

/// The words beside an install, and what closes them.
fn put_install(text: &mut String, alg: Alg) -> Result<(), AllocError>
    ensures { OnOk result (string_bytes text.new
        ≡ string_bytes text.old ++ (alg_name alg ++ codes " from here</text>\n")) }
{
    text.push_str(alg.name())?;
    text.push_str(" from here</text>\n")
}

/// The head of a lane.
#[tactic(auto, unfolding(crate::specs::Texts::head_at))]
fn put_head_at(text: &mut String, sheet: Sheet, lane: usize, y: u128) -> Result<(), AllocError>
    ensures { OnOk result
        (string_bytes text.new ≡ string_bytes text.old ++ head_at sheet lane y) }
{
    put_open(text, "head", "words", sheet.left(lane) + 108, y, "")?;
    write!(text, "caller {lane}</text>\n")
}

/// The heads of a lane once more, above each block of forty rows.
fn put_heads(text: &mut String, sheet: Sheet, lane: usize, blocks: u128) -> Result<(), AllocError>
    requires { blocks ≤ 2 ^ 59 }
    ensures { OnOk result
        (string_bytes text.new ≡ string_bytes text.old ++ heads_bytes sheet lane blocks) }
{
    for block in 0..blocks {
        put_head_at(text, sheet, lane, top((block + 1) * 40) - 8)?;
    }
    Ok(())
}

/// A caller's lane, with its heads.
#[tactic(auto, unfolding(crate::specs::Texts::lane_bytes))]
fn put_lane(text: &mut String, sheet: Sheet, lane: usize) -> Result<(), AllocError>
    requires { sheet.rows ≤ 2 ^ 64 }
    ensures { OnOk result
        (string_bytes text.new ≡ string_bytes text.old ++ lane_bytes sheet lane) }
{
    put_rect(
        text,
        "lane",
        "shape",
        sheet.left(lane) + 2,
        36,
        212,
        sheet.deep() * 24 + 16,
    )?;
    put_head_at(text, sheet, lane, 28)?;
    put_heads(text, sheet, lane, sheet.rows.saturating_sub(1) / 40)
}

/// The clock, after a commit.
#[tactic(auto, unfolding(crate::specs::Texts::clock_bytes))]
fn put_clock(alloc: Global, text: &mut String, row: usize, time: u64) -> Result<(), AllocError>
    ensures { OnOk result
        (string_bytes text.new ≡ string_bytes text.old ++ clock_bytes row time) }
{
    let words = format!(in alloc; "{time}")?;
    let short = shown(alloc, words.as_str())?;
    put_rect(text, "tick", "shape", 126, top(row as u128) + 8, 8, 8)?;
    put_open(text, "clock", "words", 120, top(row as u128) + 16, "")?;
    put_words(text, words.as_str(), short.as_str())?;
    text.push_str("</text>\n")
}

/// The gate, closed across all lanes from a row on.
#[tactic(auto, unfolding(crate::specs::Texts::closed_bytes))]
fn put_closed(
    text: &mut String,
    sheet: Sheet,
    lane: usize,
    from: usize,
    more: usize,
) -> Result<(), AllocError>
    requires { sheet.lanes ≤ 2 ^ 64 }
    ensures { OnOk result
        (string_bytes text.new ≡ string_bytes text.old ++ closed_bytes sheet lane from more) }
{
    let y = top(from as u128);
    let wide = sheet.lanes * 216 + 16;
    put_rect(text, "closed", "shape", 130, y, wide, tall(from, more) + 2)?;
    put_open(text, "side", "words", sheet.edge() + 14, y + 16, "")?;
    write!(text, "gate closed by {lane}</text>\n")
}

/// An install, under its row.
#[tactic(auto, unfolding(crate::specs::Texts::installed_bytes))]
fn put_installed(text: &mut String, sheet: Sheet, row: usize, alg: Alg) -> Result<(), AllocError>
    requires { sheet.lanes ≤ 2 ^ 64 }
    ensures { OnOk result
        (string_bytes text.new ≡ string_bytes text.old ++ installed_bytes sheet row alg) }
{
    let y = top(row as u128);
    let wide = sheet.lanes * 216 + 16;
    put_rect(text, "installed", "shape", 130, y + 23, wide, 2)?;
    put_open(text, "side", "words", sheet.edge() + 14, y + 28, "")?;
    put_install(text, alg)
}

#[tactic(auto, unfolding(crate::specs::Texts::shape_bytes))]
fn put_shape(alloc: Global, text: &mut String, sheet: Sheet, shape: Shape) -> Result<(), AllocError>
    requires lanes { sheet.lanes ≤ 2 ^ 64 }
    requires rows { sheet.rows ≤ 2 ^ 64 }
    ensures { OnOk result
        (string_bytes text.new ≡ string_bytes text.old ++ shape_bytes sheet shape) }
{
    match shape {
        Shape::Lane { lane } => put_lane(text, sheet, lane),
        Shape::Closed { lane, from, more } => put_closed(text, sheet, lane, from, more),
        Shape::Installed { row, alg } => put_installed(text, sheet, row, alg),
        Shape::Attempt {
            lane,
            from,
            more,
            kind,
        } => put_rect(
            text,
            "attempt",
            kind.class(),
            sheet.left(lane) + 4,
            top(from as u128) + 1,
            208,
            tall(from, more),
        ),
        Shape::Irrevocable { lane, from, more } => put_rect(
            text,
            "sure",
            "shape",
            sheet.left(lane) + 4,
            top(from as u128) + 1,
            6,
            tall(from, more),
        ),
        Shape::Clock { row, time } => put_clock(alloc, text, row, time),
    }
}

/// The shape of a layer at a line, where there is one.
fn put_at(
    alloc: Global,
    text: &mut String,
    sheet: Sheet,
    sort: Layer,
    row: usize,
    line: Row,
    rest: &[Row],
) -> Result<(), AllocError>
    requires lanes { sheet.lanes ≤ 2 ^ 64 }
    requires rows { sheet.rows ≤ 2 ^ 64 }
    requires room { row + length rest.now + 1 < 2 ^ 64 }
    ensures { OnOk result (string_bytes text.new
        ≡ string_bytes text.old
        ++ part_bytes sheet (shape_at sort row (box_of line) (boxes_of rest.now))) }
{
    match shape_at(sort, row, line, rest) {
        None => Ok(()),
        Some(shape) => put_shape(alloc, text, sheet, shape),
    }
}

/// A layer, shape by shape.
fn put_layer(
    alloc: Global,
    text: &mut String,
    sheet: Sheet,
    sort: Layer,
    lines: &[Row],
) -> Result<(), AllocError>
    requires lanes { sheet.lanes ≤ 2 ^ 64 }
    requires rows { sheet.rows ≤ 2 ^ 64 }
    ensures { OnOk result (string_bytes text.new
        ≡ string_bytes text.old ++ layer_bytes sheet sort 0 (boxes_of lines.now)) }
{
    for (row, line) in lines.iter().enumerate() {
        put_at(alloc, text, sheet, sort, row, *line, &lines[row + 1..])?;
    }
    Ok(())
}

/// What makes words narrower that are too long for a box.
fn squeezed(words: &str) -> &'static str
    ensures { result.now ≡ squeezed words.now }
{
    if 29 < words.len() {
        " textLength='184' lengthAdjust='spacingAndGlyphs'"
    } else {
        ""
    }
}

/// The rectangle of a box: in its lane, or across all where it ends the schedule.
#[tactic(auto, unfolding(crate::specs::Texts::box_rect))]
fn put_box_rect(text: &mut String, sheet: Sheet, row: usize, line: Row) -> Result<(), AllocError>
    requires { sheet.lanes ≤ 2 ^ 64 }
    ensures { OnOk result
        (string_bytes text.new ≡ string_bytes text.old ++ box_rect sheet row (box_of line)) }
{
    let class = line.kind().class();
    let y = top(row as u128) + 3;
    match line.kind() {
        Kind::Finishes => put_rect(text, "box", class, 134, y, sheet.lanes * 216 + 8, 18),
        _ => put_rect(text, "box", class, sheet.left(line.lane()) + 14, y, 194, 18),
    }
}

/// The words on the box of a line.
#[tactic(auto, unfolding(crate::specs::Texts::label_bytes))]
fn put_label(
    alloc: Global,
    text: &mut String,
    sheet: Sheet,
    row: usize,
    line: Row,
) -> Result<(), AllocError>
    ensures { OnOk result
        (string_bytes text.new ≡ string_bytes text.old ++ label_bytes sheet row (box_of line)) }
{
    let words = label(alloc, line)?;
    let short = shown(alloc, words.as_str())?;
    let class = line.kind().class();
    let x = sheet.left(line.lane()) + 19;
    let y = top(row as u128) + 16;
    put_open(text, "label", class, x, y, squeezed(short.as_str()))?;
    put_words(text, words.as_str(), short.as_str())?;
    text.push_str("</text>\n")
}

/// The number of a line, beside its box.
#[tactic(auto, unfolding(crate::specs::Texts::row_bytes))]
fn put_row(text: &mut String, row: usize, number: usize) -> Result<(), AllocError>
    ensures { OnOk result
        (string_bytes text.new ≡ string_bytes text.old ++ row_bytes row number) }
{
    put_open(text, "row", "words", 58, top(row as u128) + 16, "")?;
    write!(text, "{number}</text>\n")
}

/// The box of a line, its words on it, and the number of the line.
#[tactic(auto, unfolding(crate::specs::Texts::box_bytes))]
fn put_box(
    alloc: Global,
    text: &mut String,
    sheet: Sheet,
    row: usize,
    line: Row,
) -> Result<(), AllocError>
    requires { sheet.lanes ≤ 2 ^ 64 }
    ensures { OnOk result
        (string_bytes text.new ≡ string_bytes text.old ++ box_bytes sheet row (box_of line)) }
{
    put_box_rect(text, sheet, row, line)?;
    put_label(alloc, text, sheet, row, line)?;
    put_row(text, row, line.number)
}

fn put_boxes(
    alloc: Global,
    text: &mut String,
    sheet: Sheet,
    lines: &[Row],
) -> Result<(), AllocError>
    requires { sheet.lanes ≤ 2 ^ 64 }
    ensures { OnOk result (string_bytes text.new
        ≡ string_bytes text.old ++ boxes_bytes sheet 0 (boxes_of lines.now)) }
{
    for (row, line) in lines.iter().enumerate() {
        put_box(alloc, text, sheet, row, *line)?;
    }
    Ok(())
}

/// What stands over a column.
#[tactic(auto, unfolding(crate::specs::Texts::name_bytes))]
fn put_name(text: &mut String, x: u128, words: &str) -> Result<(), AllocError>
    ensures { OnOk result
        (string_bytes text.new ≡ string_bytes text.old ++ name_bytes x words.now) }
{
    put_open(text, "name", "words", x, 28, "")?;
    text.push_str(words)?;
    text.push_str("</text>\n")
}

/// The axis, and what stands over the lines' numbers and over the clock.
#[tactic(auto, unfolding(crate::specs::Texts::axis_bytes))]
fn put_axis(text: &mut String, sheet: Sheet) -> Result<(), AllocError>
    requires { sheet.rows ≤ 2 ^ 64 }
    ensures { OnOk result (string_bytes text.new ≡ string_bytes text.old ++ axis_bytes sheet) }
{
    put_rect(text, "axis", "shape", 129, 36, 2, sheet.deep() * 24 + 16)?;
    put_name(text, 58, "line")?;
    put_name(text, 120, "clock")
}

#[tactic(auto, unfolding(crate::specs::Texts::page_bytes))]
fn put_page(text: &mut String, width: u128, height: u128) -> Result<(), AllocError>
    ensures { OnOk result
        (string_bytes text.new ≡ string_bytes text.old ++ page_bytes width height) }
{
    put_view(text, width, height)?;
    write!(text, "' width='{width}' height='{height}'>\n")
}

/// What opens the page, up to the size that it is drawn for.
#[tactic(auto, unfolding(crate::specs::Texts::view_bytes))]
fn put_view(text: &mut String, width: u128, height: u128) -> Result<(), AllocError>
    ensures { OnOk result
        (string_bytes text.new ≡ string_bytes text.old ++ view_bytes width height) }
{
    write!(
        text,
        "<svg xmlns='http://www.w3.org/2000/svg' role='img' viewBox='0 0 {width} {height}"
    )
}

/// What the picture is, for who can't see it.
fn put_naming(text: &mut String, sheet: Sheet) -> Result<(), AllocError>
    ensures { OnOk result
        (string_bytes text.new ≡ string_bytes text.old ++ naming_bytes sheet.leaf.lines) }
{
    match sheet.leaf.lines {
        None => text.push_str("<title>A trace</title>\n"),
        Some(lines) => put_title(text, lines),
    }
}

#[tactic(auto, unfolding(crate::specs::Texts::titled_bytes))]
fn put_title(text: &mut String, lines: Lines) -> Result<(), AllocError>
    ensures { OnOk result
        (string_bytes text.new ≡ string_bytes text.old ++ titled_bytes lines) }
{
    let Lines { first, last } = lines;
    write!(text, "<title>Lines {first} to {last} of a trace</title>\n")
}

/// Which lines are drawn, where not all are.
fn put_number(text: &mut String, sheet: Sheet) -> Result<(), AllocError>
    requires { sheet.lanes ≤ 2 ^ 64 }
    ensures { OnOk result
        (string_bytes text.new ≡ string_bytes text.old ++ number_bytes sheet sheet.leaf.lines) }
{
    match sheet.leaf.lines {
        None => Ok(()),
        Some(lines) => put_lines(text, sheet, lines),
    }
}

#[tactic(auto, unfolding(crate::specs::Texts::lines_bytes))]
fn put_lines(text: &mut String, sheet: Sheet, lines: Lines) -> Result<(), AllocError>
    requires { sheet.lanes ≤ 2 ^ 64 }
    ensures { OnOk result
        (string_bytes text.new ≡ string_bytes text.old ++ lines_bytes sheet lines) }
{
    let Lines { first, last } = lines;
    put_open(text, "side", "words", sheet.edge() + 14, 28, "")?;
    write!(text, "lines {first} to {last}</text>\n")
}

/// The line under the rows that stand above the page's own.
fn put_turn(text: &mut String, sheet: Sheet) -> Result<(), AllocError>
    requires { sheet.lanes ≤ 2 ^ 64 }
    ensures { OnOk result
        (string_bytes text.new ≡ string_bytes text.old ++ turn_bytes sheet) }
{
    if sheet.leaf.above == 0 {
        return Ok(());
    }
    let y = top(sheet.leaf.above as u128) - 1;
    put_rect(text, "turn", "shape", 130, y, sheet.lanes * 216 + 16, 2)
}

#[tactic(auto, unfolding(crate::specs::Texts::style_bytes))]
fn put_style(text: &mut String) -> Result<(), AllocError>
    ensures { OnOk result (string_bytes text.new ≡ string_bytes text.old ++ style_bytes) }
{
    text.push_str(STYLE)
}

#[tactic(auto, unfolding(crate::specs::Texts::legend_bytes))]
fn put_legend(text: &mut String) -> Result<(), AllocError>
    ensures { OnOk result (string_bytes text.new ≡ string_bytes text.old ++ legend_bytes) }
{
    text.push_str(LEGEND)
}

#[tactic(auto, unfolding(crate::specs::Texts::head_bytes))]
fn put_head(text: &mut String, sheet: Sheet) -> Result<(), AllocError>
    requires lanes { sheet.lanes ≤ 2 ^ 64 }
    requires rows { sheet.rows ≤ 2 ^ 64 }
    ensures { OnOk result (string_bytes text.new ≡ string_bytes text.old ++ head_bytes sheet) }
{
    let width = sheet.width();
    let height = sheet.height();
    put_page(text, width, height)?;
    put_naming(text, sheet)?;
    put_style(text)?;
    put_rect(text, "page", "shape", 0, 0, width, height)?;
    put_axis(text, sheet)?;
    put_number(text, sheet)
}

#[tactic(auto, unfolding(crate::specs::Texts::foot_bytes))]
fn put_foot(text: &mut String, sheet: Sheet) -> Result<(), AllocError>
    requires { sheet.rows ≤ 2 ^ 64 }
    ensures { OnOk result (string_bytes text.new ≡ string_bytes text.old ++ foot_bytes sheet) }
{
    let y = sheet.deep() * 24 + 66;
    write!(text, "<g transform='translate(138,{y})'>\n")?;
    put_legend(text)?;
    text.push_str("</g>\n</svg>\n")
}

/// The layers, each on those before it.
fn put_layers(
    alloc: Global,
    text: &mut String,
    sheet: Sheet,
    lines: &[Row],
) -> Result<(), AllocError>
    requires lanes { sheet.lanes ≤ 2 ^ 64 }
    requires rows { sheet.rows ≤ 2 ^ 64 }
    ensures { OnOk result (string_bytes text.new
        ≡ layers_onto (string_bytes text.old) sheet (boxes_of lines.now)) }
{
    put_layer(alloc, text, sheet, Layer::Lanes, lines)?;
    put_layer(alloc, text, sheet, Layer::Closings, lines)?;
    put_layer(alloc, text, sheet, Layer::Installs, lines)?;
    put_layer(alloc, text, sheet, Layer::Attempts, lines)?;
    put_layer(alloc, text, sheet, Layer::Promotions, lines)?;
    put_layer(alloc, text, sheet, Layer::Clocks, lines)
}

/// The text of a sheet.
fn drawing(alloc: Global, sheet: Sheet, lines: &[Row]) -> Result<String, AllocError>
    requires lanes { sheet.lanes ≤ 2 ^ 64 }
    requires rows { sheet.rows ≤ 2 ^ 64 }
    ensures { IfOk result (λ t. string_bytes t ≡ drawing_bytes sheet (boxes_of lines.now)) }
{
    let mut text = String::new(alloc);
    put_head(&mut text, sheet)?;
    put_layers(alloc, &mut text, sheet, lines)?;
    put_boxes(alloc, &mut text, sheet, lines)?;
    put_turn(&mut text, sheet)?;
    put_foot(&mut text, sheet)?;
    Ok(text)
}

/// The picture of a page: one box for each of its rows, in the lane of its caller and in the order of the rows, with
/// what the row tells; and under them what the rows tell together. Its text is markup. Memory may be refused.
pub fn picture(alloc: Global, leaf: Leaf, lines: &[Row]) -> Result<Vec<u8>, Memory>
    ensures is { IfOk result (λ t. t.items ≡ svg_of leaf (boxes_of lines.now)) }
    ensures markup { IfOk result (λ t. IsMarkup t.items) }
{
    let text = drawing(alloc, Sheet::of(leaf, lines), lines)?;
    Ok(text.into_bytes())
}
