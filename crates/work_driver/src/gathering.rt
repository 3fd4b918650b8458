//! The rows of all workers, gathered into one list.
ghost use Rattle.std.specs.Prelude.{◌≡◌, ◌<◌, ◌≤◌, ◌+◌, ◌++◌, [], length, vec_len, vec_capacity, true, IsPermutation, MatchOption};
ghost use Rattle.work_driver.specs.Gatherings.{HasRow, MovesLast, MovesSome, joined};

use crate::order::{Key, key};
use std::marker::Model;
use work_script::report::Row;

/// The rows of one worker.
#[derive(Drop)]
pub struct OwnRows {
    items: Vec<Row>,
}

impl Model for OwnRows {
    ghost use Rattle.std.specs.Prelude.{List};
    ghost use Rattle.work_script.specs.declared.report.Row.{Row};

    ghost Value = { List Row };

    ghost view = { λ r. r.items.items };
}

impl OwnRows {
    pub fn new(items: Vec<Row>) -> OwnRows
        ensures { result ≡ items.items }
    {
        OwnRows { items }
    }

    /// What the last row is ordered by.
    fn last_key(&self) -> Option<Key>
        ensures { MatchOption result (self.now ≡ []) (λ key. 0 < length self.now) }
    {
        match self.items.as_slice().last() {
            None => None,
            Some(row) => Some(key(row)),
        }
    }

    /// Whether the last row comes later in a report than this.
    fn ends_later(&self, than: Key) -> bool
        ensures { result ≡ true → 0 < length self.now }
    {
        match self.last_key() {
            None => false,
            Some(key) => than < key,
        }
    }

    /// Moves the last row to the end of others, where there is room for it.
    fn move_last(&mut self, to: &mut Vec<Row>)
        requires some { 0 < length self.old }
        requires room { vec_len to.old < vec_capacity to.old }
        ensures moves { MovesLast self.old self.new to.old.items to.new.items }
        ensures len { vec_len to.new ≡ vec_len to.old + 1 }
        ensures capacity { vec_capacity to.new ≡ vec_capacity to.old }
    {
        let Some(row) = self.items.pop() else {
            unreachable!()
        };
        to.push_reserved(row);
    }

    /// Moves the last row, and then all that end the list and come later in a report than `than`.
    fn move_later(&mut self, than: Key, to: &mut Vec<Row>)
        requires some { 0 < length self.old }
        requires room { vec_len to.old + length self.old ≤ vec_capacity to.old }
        ensures moves { MovesSome self.old self.new to.old.items to.new.items }
        ensures len { vec_len to.new + length self.new ≡ vec_len to.old + length self.old }
        ensures capacity { vec_capacity to.new ≡ vec_capacity to.old }
    {
        self.move_last(to);
        while self.ends_later(than) {
            self.move_last(to);
        }
    }
}

/// Moves the rows of all lists to the end of `to`, where there is room for them: a k-way merge from the back. Where
/// each list stands in the order of a report, they come in the reverse of it, and a sort takes one pass.
pub fn gather(lists: &mut [OwnRows], to: &mut Vec<Row>)
    requires { vec_len to.old + length (joined lists.old) ≤ vec_capacity to.old }
    ensures { IsPermutation (to.old.items ++ joined lists.old) to.new.items }
{
    while let Some((n, others)) = latest(lists) {
        lists[n].move_later(others, to);
    }
}

/// The list whose last row comes last in a report, and what the last of all others is ordered by.
fn latest(lists: &[OwnRows]) -> Option<(usize, Key)>
    ensures { MatchOption result (joined lists.now ≡ []) (λ found. HasRow lists.now found.0) }
{
    let mut found = None;
    let mut most = (0, 0, 0, 0);
    let mut others = (0, 0, 0, 0);
    for n in 0..lists.len() {
        if let Some(key) = lists[n].last_key() {
            if found.is_none() || most < key {
                found = Some(n);
                others = most;
                most = key;
            } else if others < key {
                others = key;
            }
        }
    }
    match found {
        None => None,
        Some(n) => Some((n, others)),
    }
}
