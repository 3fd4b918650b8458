//! A hotel: its rule, and its transactions.
ghost use Rattle.std.specs.Prelude.{◌≡◌};

use tx_transaction::transaction::Transaction;
use tx_transaction::words::{read_count, read_sum, read_words, write_words};
use tx_transaction::{Access, MemRule, Stop};

/// A hotel of eight rooms. Word `room` of its memory is the number of the room's guest, from 1 on, or 0 where it is
/// free; word `8 + room` how many of its keys are out, of two; word 16 how many rooms are taken, and word 17 how many
/// keys are out.
#[derive(Drop)]
pub struct Hotel;

/// No guest has two rooms, no key of a free room is out, and what is taken and out is counted.
impl MemRule for Hotel {
    ghost use Rattle.example_hotel_jobs.specs.Hotels.{IsOrderly};

    ghost good = { λ hotel memory. IsOrderly memory };
}

/// A guest takes a room, and a key of it. Answers None, having written nothing, where the room is taken; false where
/// the guest has a room.
#[derive(Drop)]
pub struct CheckIn {
    pub guest: u64,
    pub room: usize,
}

impl Transaction<Hotel> for CheckIn {
    ghost use Rattle.std.specs.Prelude.{◌<◌, ◌≡◌, [], IfNone};

    type Output = Option<bool>;

    ghost precondition = { λ it hotel words. (words ≡ 18) × (it.room < 8) × (0 < it.guest) };

    ghost postcondition = { λ it hotel words came log. IfNone came (log.writes ≡ []) };

    fn run<A: Access>(&self, _: &Hotel, memory: &mut A) -> Result<Option<bool>, Stop> {
        let [guest, taken, out] = read_words(memory, [self.room, 16, 17])?;
        if guest != 0 {
            return Ok(None);
        }
        let rooms = read_count(memory, 0..8, &|guest| guest == self.guest)?;
        if rooms != 0 {
            return Ok(Some(false));
        }
        write_words(
            memory,
            [
                (self.room, self.guest),
                (8 + self.room, 1),
                (16, taken + 1),
                (17, out + 1),
            ],
        )?;
        Ok(Some(true))
    }
}

/// One more key of a room is handed out. Answers false where the room is free or has none left.
#[derive(Drop)]
pub struct HandKey {
    pub room: usize,
}

impl Transaction<Hotel> for HandKey {
    ghost use Rattle.std.specs.Prelude.{◌<◌, ◌≡◌};

    type Output = bool;

    ghost precondition = { λ it hotel words. (words ≡ 18) × (it.room < 8) };

    fn run<A: Access>(&self, _: &Hotel, memory: &mut A) -> Result<bool, Stop> {
        let [guest, keys, out] = read_words(memory, [self.room, 8 + self.room, 17])?;
        if guest == 0 || keys == 2 {
            return Ok(false);
        }
        write_words(memory, [(8 + self.room, keys + 1), (17, out + 1)])?;
        Ok(true)
    }
}

/// A guest moves to another room, with as many keys as before. Answers false where there is no guest, or the other room
/// is taken.
#[derive(Drop)]
pub struct Move {
    pub from: usize,
    pub to: usize,
}

impl Transaction<Hotel> for Move {
    ghost use Rattle.std.specs.Prelude.{◌<◌, ◌≡◌};

    type Output = bool;

    ghost precondition = { λ it hotel words. (words ≡ 18) × (it.from < 8) × (it.to < 8) };

    fn run<A: Access>(&self, _: &Hotel, memory: &mut A) -> Result<bool, Stop> {
        let [guest, other, keys] = read_words(memory, [self.from, self.to, 8 + self.from])?;
        if guest == 0 || other != 0 {
            return Ok(false);
        }
        write_words(
            memory,
            [
                (self.from, 0),
                (self.to, guest),
                (8 + self.from, 0),
                (8 + self.to, keys),
            ],
        )?;
        Ok(true)
    }
}

/// A room's guest leaves, with all its keys given back. Answers how many those were.
#[derive(Drop)]
pub struct CheckOut {
    pub room: usize,
}

impl Transaction<Hotel> for CheckOut {
    ghost use Rattle.std.specs.Prelude.{◌<◌, ◌≡◌};

    type Output = u64;

    ghost precondition = { λ it hotel words. (words ≡ 18) × (it.room < 8) };

    fn run<A: Access>(&self, _: &Hotel, memory: &mut A) -> Result<u64, Stop> {
        let [guest, keys, taken, out] = read_words(memory, [self.room, 8 + self.room, 16, 17])?;
        if guest == 0 {
            return Ok(0);
        }
        write_words(
            memory,
            [
                (self.room, 0),
                (8 + self.room, 0),
                (16, taken - 1),
                (17, out - keys),
            ],
        )?;
        Ok(keys)
    }
}

/// How many keys the rooms lack, and how many are counted as out: as many.
#[derive(Drop)]
pub struct Audit;

impl Transaction<Hotel> for Audit {
    ghost use Rattle.std.specs.Prelude.{◌≡◌};

    type Output = (u64, u64);

    ghost precondition = { λ it hotel words. words ≡ 18 };

    ghost postcondition = { λ it hotel words came log. came.0 ≡ came.1 };

    fn run<A: Access>(&self, _: &Hotel, memory: &mut A) -> Result<(u64, u64), Stop> {
        let keys = read_sum(memory, 8..16)?;
        let [out] = read_words(memory, [17])?;
        Ok((keys, out))
    }
}
