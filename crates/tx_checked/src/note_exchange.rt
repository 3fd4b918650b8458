//! The note exchange of a memory: its callers lay notes there for each other. A note that is found there is of this
//! memory. Two callers share a memory if one finds the other's note in its note exchange. They aren't compared by an
//! identity: pointers into two blocks can't be compared, and a number for each memory would need a source that all
//! memories share. A place is its teller's and its word says for whom a note lies there, so a call with a stranger
//! disturbs nobody.
ghost use Rattle.std.specs.Prelude.{◌≡◌, ◌≢◌, ◌<◌, ◌≤◌, [], ◌∷◌, IfOk, IfSome, Option};
ghost use Rattle.stm_model.specs.declared.rule.AnyMem.{AnyMem};
ghost use Rattle.stm_rule.specs.Callers.{front_of};
ghost use Rattle.tx_checked.specs.declared.note_exchange.Letter.{Letter};
ghost use Rattle.tx_checked.specs.NoteExchanges.{IsLetter, IsOfSameMemory, IsOurs};

use atomic_table::{Play, Seat, Table, TableRule};
use std::alloc::Global;
use stm_model::memory::Memory;
use stm_model::rule::AnyMem;
use stm_rule::desc::Desc;
use stm_rule::note::Note;

/// The word of a place where no note lies.
const FREE: u64 = 0;

/// The word of a place that is open to one caller alone.
const OPEN: u64 = 1;

/// The word of a place where a note lies for this caller.
fn letter_to(caller: usize) -> u64
    ensures { result ≢ 1 }
{
    (caller as u64).saturating_add(2)
}

/// A note on its way, with the time of its teller's latest entry.
#[derive(Drop)]
pub struct Letter {
    pub note: Note<AnyMem>,
    pub latest: u64,
}

/// Notes that lie there are of the memory that the note exchange was made for.
pub struct SameMemory;

impl TableRule<Option<Letter>, Desc<AnyMem>, Desc<AnyMem>> for SameMemory {
    ghost use Rattle.tx_checked.specs.NoteExchanges.{Kept};

    ghost holds = { Kept };

    ghost first = { λ key. key };
}

struct Enter;

impl Play<Option<Letter>, Desc<AnyMem>> for Enter {
    ghost use Rattle.tx_checked.specs.NoteExchanges.{Entered};

    ghost then = { Entered };
}

struct Open;

impl Play<Option<Letter>, Desc<AnyMem>> for Open {
    ghost use Rattle.tx_checked.specs.NoteExchanges.{Opened};

    ghost then = { Opened };
}

struct Shut;

impl Play<Option<Letter>, Desc<AnyMem>> for Shut {
    ghost use Rattle.tx_checked.specs.NoteExchanges.{Silent};

    ghost then = { Silent };
}

/// The places for notes, one for each caller, shared by the callers.
#[derive(Drop)]
pub struct NoteExchange {
    pub table: Table<Option<Letter>, Desc<AnyMem>, Desc<AnyMem>, SameMemory, Global>,
    ghost sized: { table.shared.table_id.words ≡ table.shared.table_id.slots },
}

impl NoteExchange {
    /// With a free place for each of the callers, for the memory of which this is one.
    pub(crate) fn new(
        alloc: Global,
        of: &Desc<AnyMem>,
        callers: usize,
    ) -> Result<NoteExchange, Memory>
        ensures { IfOk result (λ m. m.table.shared.key ≡ of.now) }
    {
        let words = Vec::from_elem(alloc, FREE, callers)?;
        let (table, _) = Table::vacant(alloc, words.as_slice(), callers, of)?;
        Ok(NoteExchange { table })
    }

    /// Opens the place, where its word is the one wanted.
    fn open(&self, place: usize, wanted: u64) -> Option<Seat<Option<Letter>, Desc<AnyMem>>>
        requires place { place < self.now.table.shared.table_id.words }
        requires wanted { wanted ≢ 1 }
        ensures table { IfSome result (λ s. s.table_id ≡ self.now.table.shared.table_id) }
        ensures key { IfSome result (λ s. s.me.0 ≡ self.now.table.shared.key) }
        ensures out { IfSome result (λ s.
            (x : Option Letter) × (s.me.1 ≡ (place, x) ∷ []) × IsOurs s.me.0 x) }
    {
        let (_, mut seat) = self.table.shared.load_new_seat::<Enter>(place);
        let found = self
            .table
            .shared
            .compare_exchange::<Open>(&mut seat, place, wanted, OPEN);
        if found == wanted { Some(seat) } else { None }
    }

    /// Lays a letter into the place, for a caller, over one that nobody has fetched: the place is its teller's. It is
    /// lost where there is no such place, or another has it open.
    pub(crate) fn lay(&self, place: usize, caller: usize, letter: Letter)
        requires { IsLetter self.now.table.shared.key letter }
    {
        if place >= self.table.word_count() {
            return;
        }
        let shared = &self.table.shared;
        let (left, _) = shared.load_new_seat::<Enter>(place);
        if left == OPEN {
            return;
        }
        if let Some(mut seat) = self.open(place, left) {
            shared.exchange(&mut seat, place, Some(letter));
            shared.store::<Shut>(&mut seat, place, letter_to(caller));
        }
    }

    /// Takes the letter out of the place that lies there for a caller, and answers its note, where its teller's latest
    /// entry was then.
    pub(crate) fn take(&self, place: usize, caller: usize, latest: u64) -> Option<Note<AnyMem>>
        ensures memory { IfSome result (IsOfSameMemory self.now.table.shared.key) }
        ensures dated { IfSome result (λ note. latest ≤ front_of note.view) }
    {
        if place >= self.table.word_count() {
            return None;
        }
        let mut seat = self.open(place, letter_to(caller))?;
        let shared = &self.table.shared;
        let letter = shared.exchange(&mut seat, place, None);
        shared.store::<Shut>(&mut seat, place, FREE);
        note_of(letter?, latest)
    }
}

/// The note of a letter of that time.
fn note_of(letter: Letter, latest: u64) -> Option<Note<AnyMem>>
    ensures note { IfSome result (λ note. letter.note ≡ note) }
    ensures dated { IfSome result (λ note. letter.latest ≡ latest) }
{
    let Letter {
        note,
        latest: dated,
    } = letter;
    if dated == latest { Some(note) } else { None }
}
