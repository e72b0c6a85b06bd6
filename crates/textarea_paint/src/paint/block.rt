//! A block's borders, corners and title.
ghost use Rattle.std.specs.Prelude.{◌≡◌, ◌+◌, ◌<◌, ◌≤◌, ◌&&◌, length, IsOk, IfSome, OnOk, OnErr, if◌then◌else◌};
ghost use Rattle.textarea_paint.specs.Prelude.{block_view, Changes, KeepsOutside, with_symbol, inset_of, contains, is_in_row, empty_style, INLINE_BYTES, in_area, in_turn, side_changes, corner_changes, title_change, block_cell, row_clusters, AreInline};

use super::cells::RowCells;
use super::clusters::LineClusters;
use super::row::draw_clusters;
use std::alloc::AllocError;
use textarea_screen::screen::{Block, Borders, Buffer, Rect, Style};

/// Draws a block over an area, if that has a cell: its style, its borders, its corners and its
/// title, each over the one before. After out of memory, cells of the area may be changed already.
pub fn draw_block(buffer: &mut Buffer, area: Rect, block: &Block) -> Result<(), AllocError>
    ensures ok { OnOk result
        (Changes buffer.old buffer.new (block_cell (block_view block.now) area)) }
    ensures inline { IfSome (block_view block.now).title (λ title.
        AreInline (row_clusters empty_style title)) → IsOk result }
    ensures err { OnErr result (KeepsOutside (contains area) buffer.old buffer.new) }
{
    if area.is_empty() {
        return Ok(());
    }
    buffer.set_style(area, block.style);
    draw_sides(buffer, area, block.borders, block.border_style)?;
    draw_corners(buffer, area, block.borders, block.border_style)?;
    draw_title(buffer, area, block)
}

fn draw_sides(
    buffer: &mut Buffer,
    area: Rect,
    borders: Borders,
    style: Style,
) -> Result<(), AllocError>
    requires columns { 0 < area.width }
    requires rows { 0 < area.height }
    ensures ok { OnOk result
        (Changes buffer.old buffer.new
        (in_area area (in_turn (side_changes borders style area)))) }
    ensures inline { IsOk result }
    ensures err { OnErr result (KeepsOutside (contains area) buffer.old buffer.new) }
{
    let has_left = borders.contains(Borders::LEFT);
    let has_top = borders.contains(Borders::TOP);
    let has_right = borders.contains(Borders::RIGHT);
    let has_bottom = borders.contains(Borders::BOTTOM);
    let left = Rect::new(area.x, area.y, 1, area.height);
    let left_drawn = draw_border(buffer, has_left, left, "│", style)?;
    let top = Rect::new(area.x, area.y, area.width, 1);
    let top_drawn = draw_border(buffer, has_top, top, "─", style)?;
    let right = Rect::new(area.x + area.width - 1, area.y, 1, area.height);
    let right_drawn = draw_border(buffer, has_right, right, "│", style)?;
    let bottom = Rect::new(area.x, area.y + area.height - 1, area.width, 1);
    draw_border(buffer, has_bottom, bottom, "─", style)?;
    Ok(())
}

fn draw_corners(
    buffer: &mut Buffer,
    area: Rect,
    borders: Borders,
    style: Style,
) -> Result<(), AllocError>
    requires columns { 0 < area.width }
    requires rows { 0 < area.height }
    ensures ok { OnOk result
        (Changes buffer.old buffer.new
        (in_area area (in_turn (corner_changes borders style area)))) }
    ensures inline { IsOk result }
    ensures err { OnErr result (KeepsOutside (contains area) buffer.old buffer.new) }
{
    let right = area.x + area.width - 1;
    let bottom = area.y + area.height - 1;
    let has_left = borders.contains(Borders::LEFT);
    let has_top = borders.contains(Borders::TOP);
    let has_right = borders.contains(Borders::RIGHT);
    let has_bottom = borders.contains(Borders::BOTTOM);
    let bottom_right = Rect::new(right, bottom, 1, 1);
    let bottom_right_drawn = draw_border(buffer, has_right & has_bottom, bottom_right, "┘", style)?;
    let top_right = Rect::new(right, area.y, 1, 1);
    let top_right_drawn = draw_border(buffer, has_right & has_top, top_right, "┐", style)?;
    let bottom_left = Rect::new(area.x, bottom, 1, 1);
    let bottom_left_drawn = draw_border(buffer, has_left & has_bottom, bottom_left, "└", style)?;
    let top_left = Rect::new(area.x, area.y, 1, 1);
    draw_border(buffer, has_left & has_top, top_left, "┌", style)?;
    Ok(())
}

fn draw_title(buffer: &mut Buffer, area: Rect, block: &Block) -> Result<(), AllocError>
    requires columns { 0 < area.width }
    requires rows { 0 < area.height }
    ensures ok { OnOk result
        (Changes buffer.old buffer.new (in_area area (title_change (block_view block.now) area))) }
    ensures inline { IfSome (block_view block.now).title (λ title.
        AreInline (row_clusters empty_style title)) → IsOk result }
    ensures err { OnErr result (KeepsOutside (contains area) buffer.old buffer.new) }
{
    let left = side_width(block.borders.contains(Borders::LEFT));
    let right = side_width(block.borders.contains(Borders::RIGHT));
    match &block.title {
        Some(title) => {
            let cells = RowCells {
                x: area.x + left,
                y: area.y,
                width: area.width.saturating_sub(left).saturating_sub(right),
            };
            let clusters = LineClusters::new(title, Style::new());
            draw_clusters(buffer, cells, 0, clusters)
        }
        None => Ok(()),
    }
}

/// Returns the number of columns that a side takes.
fn side_width(is_drawn: bool) -> u16
    ensures { result ≡ inset_of is_drawn 0 }
{
    u16::from(is_drawn)
}

/// If `is_drawn`, puts a text into each cell of an area.
fn draw_border(
    buffer: &mut Buffer,
    is_drawn: bool,
    area: Rect,
    text: &str,
    style: Style,
) -> Result<(), AllocError>
    ensures ok { OnOk result (Changes buffer.old buffer.new (λ x y cell.
        if is_drawn && contains area x y then with_symbol text.now style cell else cell)) }
    ensures inline { length text.now ≤ INLINE_BYTES → IsOk result }
    ensures err { OnErr result (KeepsOutside (contains area) buffer.old buffer.new) }
{
    if is_drawn {
        let area = area.intersection(buffer.area());
        for y in area.y..area.y + area.height {
            draw_border_row(buffer, area, y, text, style)?;
        }
    }
    Ok(())
}

fn draw_border_row(
    buffer: &mut Buffer,
    area: Rect,
    row: u16,
    text: &str,
    style: Style,
) -> Result<(), AllocError>
    requires { (area.y ≤ row) × (row < area.y + area.height) }
    ensures ok { OnOk result (Changes buffer.old buffer.new (λ x y cell.
        if is_in_row area row x y then with_symbol text.now style cell else cell)) }
    ensures inline { length text.now ≤ INLINE_BYTES → IsOk result }
    ensures err { OnErr result (KeepsOutside (contains area) buffer.old buffer.new) }
{
    for x in area.x..area.x + area.width {
        buffer.put(x, row, text, style)?;
    }
    Ok(())
}
