//! What a picture shows, made line by line: what is kept is what is drawn alone.
ghost use Rattle.std.specs.Prelude.{◌≡◌, ◌<◌, ◌≤◌, ◌+◌, ◌^◌, ◌++◌, [], ◌∷◌, List, Some, None, IfOk, OnOk, length, map, true, false};
ghost use Rattle.std.specs.List.{filter};
ghost use Rattle.draw_pictures.specs.Shapes.{Box, box_of, boxes_of};
ghost use Rattle.draw_pictures.specs.Rows.{rows_of};
ghost use Rattle.draw_pictures.specs.Standing.{standing_of, standing_rows};
ghost use Rattle.draw_pictures.specs.Parts.{is_shown, leaf_by, IsFew, IsPageOf, IsSettled, IsUnfit};

use crate::part::{Part, lanes_with};
use crate::picture::Leaf;
use crate::row::{Row, joins};
use crate::standing::{Slot, none_stand, stand, standing_rows};
use crate::step::Step;
use std::alloc::{AllocError, Global};

/// The page, as far as the lines were read.
#[derive(Drop)]
pub struct Page {
    part: Part,
    /// How many rows of the part are at their ends.
    count: usize,
    /// What stands of the rows before it.
    above: Vec<Slot>,
    /// The rows of the part, while they aren't too many to be drawn.
    own: Vec<Row>,
    /// The last row, which may still grow.
    last: Option<Row>,
    /// How many lines were read.
    lines: usize,
}

impl Page {
    /// A page of nothing.
    pub fn new(alloc: Global, part: Part) -> Result<Page, AllocError>
        ensures is { IfOk result (λ p. IsPageOf p []) }
        ensures part { IfOk result (λ p. p.part ≡ part) }
    {
        Ok(Page {
            part,
            count: 0,
            above: none_stand(alloc)?,
            own: Vec::new(alloc),
            last: None,
            lines: 0,
        })
    }

    /// One row more is at its end.
    fn settle(&mut self, row: Row) -> Result<(), AllocError>
        requires { self.old.count < 2 ^ 62 }
        ensures is { OnOk result ((rows : List Box) → IsSettled self.old rows
            → IsSettled self.new (rows ++ box_of row ∷ [])) }
        ensures part { self.new.part ≡ self.old.part }
        ensures count { OnOk result (self.new.count ≤ self.old.count + 1) }
        ensures lines { self.new.lines ≡ self.old.lines }
    {
        if self.part.is_after(row) {
            stand(&mut self.above, row);
            return Ok(());
        }
        if !self.part.has(row) {
            return Ok(());
        }
        self.count += 1;
        if !self.part.keeps(self.count) {
            return Ok(());
        }
        self.own.push(row)?;
        Ok(())
    }

    /// One line more.
    pub fn add(&mut self, step: Step) -> Result<(), AllocError>
        requires few { self.old.lines < 2 ^ 62 }
        requires is { (lines : List Box) × IsPageOf self.old lines }
        ensures is { OnOk result ((lines : List Box) → IsPageOf self.old lines → IsPageOf self.new
            (lines ++ box_of (record { number = length lines + 1; times = 1; step = step }) ∷ [])) }
        ensures part { self.new.part ≡ self.old.part }
        ensures lines { OnOk result (self.new.lines ≡ self.old.lines + 1) }
    {
        self.lines += 1;
        let row = Row {
            number: self.lines,
            times: 1,
            step,
        };
        let Some(last) = self.last else {
            self.last = Some(row);
            return Ok(());
        };
        if joins(last, row) {
            self.last = Some(Row {
                times: last.times + 1,
                ..last
            });
            return Ok(());
        }
        self.settle(last)?;
        self.last = Some(row);
        Ok(())
    }

    /// All lines were read.
    pub fn end(&mut self) -> Result<(), AllocError>
        requires { self.old.count < 2 ^ 62 }
        ensures is { OnOk result ((lines : List Box) → IsPageOf self.old lines
            → IsSettled self.new (rows_of lines)) }
        ensures part { self.new.part ≡ self.old.part }
        ensures few { OnOk result (self.new.count ≤ self.old.count + 1) }
    {
        if let Some(last) = self.last {
            return self.settle(last);
        }
        Ok(())
    }

    /// The rows that stand above the part and are shown.
    pub fn above(&self, alloc: Global) -> Result<Vec<Row>, AllocError>
        ensures { IfOk result (λ r. boxes_of r.items
            ≡ filter (is_shown self.now.part) (standing_rows (map standing_of self.now.above.items))) }
    {
        let all = standing_rows(alloc, self.above.as_slice())?;
        let rows = all.as_slice();
        let mut shown = Vec::new(alloc);
        for row in rows {
            self.put_shown(&mut shown, *row)?;
        }
        Ok(shown)
    }

    /// Appends a row that stands above, if it is shown.
    fn put_shown(&self, shown: &mut Vec<Row>, row: Row) -> Result<(), AllocError>
        ensures { OnOk result (boxes_of shown.new.items
            ≡ boxes_of shown.old.items ++ filter (is_shown self.now.part) (box_of row ∷ [])) }
    {
        if self.part.shows(row) {
            shown.push(row)?;
            return Ok(());
        }
        Ok(())
    }

    /// Appends the rows of the part that are kept.
    pub fn put_own(&self, rows: &mut Vec<Row>) -> Result<(), AllocError>
        ensures { OnOk result (boxes_of rows.new.items ≡ boxes_of rows.old.items ++ boxes_of self.now.own.items) }
    {
        let own = self.own.as_slice();
        for row in own {
            rows.push(*row)?;
        }
        Ok(())
    }

    /// Whether its picture may be drawn.
    pub fn fits(&self) -> bool
        ensures few { result ≡ true → IsFew self.now.part.lines self.now.count }
        ensures unfit { result ≡ false → IsUnfit self.now.part.lines self.now.count }
    {
        self.part.fits(self.count)
    }

    /// What its picture shows, where these rows stand above.
    pub fn leaf(&self, above: &[Row]) -> Leaf
        ensures { result ≡ leaf_by self.now.part (boxes_of above.now) }
    {
        Leaf {
            lines: self.part.lines,
            callers: lanes_with(self.part.callers, above),
            above: above.len(),
        }
    }

    /// How many rows the part has, once all lines were read.
    pub fn count(&self) -> usize
        ensures { result ≡ self.now.count }
    {
        self.count
    }

    /// How many lines were read.
    pub fn lines(&self) -> usize
        ensures { result ≡ self.now.lines }
    {
        self.lines
    }
}
