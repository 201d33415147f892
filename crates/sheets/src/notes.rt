ghost use Rattle.std.specs.Prelude.{◌≡◌, ◌≤◌, [], length, pos, negsuc, ◌≤ℤ◌, IfOk, ◌==◌};
ghost use Rattle.sheets.specs.Notes.{barred, surcharged};
ghost use Rattle.sheets.specs.Calls.{standing_at, entering, to_prolong, to_lift};

use super::note::{Note, Visits};
use super::refusal::NoteRefusal;
use std::alloc::{AllocError, Global};
use std::marker::Model;

// The notes of a sheet in order of entry, placed from 1. There is room for all 24 from the start, and
// memory is asked for when the sheet is made, which may fail.
#[derive(Drop)]
pub struct Notes {
    list: Vec<Note>,
}

impl Model for Notes {
    ghost use Rattle.std.specs.Prelude.{◌≤◌, List, vec_len, vec_capacity};
    ghost use Rattle.sheets.specs.declared.note.Note.{Note};

    ghost Value = { List Note };

    ghost view = { λ n. n.list.items };

    ghost invariant = { λ n. record { room : 24 ≤ vec_capacity n.list; few : vec_len n.list ≤ 24 } };
}

impl Notes {
    pub(crate) fn new(heap: Global) -> Result<Notes, AllocError>
        ensures { IfOk result (λ s. s ≡ []) }
    {
        let list = Vec::with_capacity(heap, 24)?;
        Ok(Notes { list })
    }

    pub(crate) fn len(&self) -> usize
        ensures count { result ≡ length self.now }
        ensures few { length self.now ≤ 24 }
    {
        self.list.len()
    }

    pub(crate) fn is_empty(&self) -> bool
        ensures { result ≡ (length self.now == 0) }
    {
        self.list.is_empty()
    }

    // The note at a place.
    pub(crate) fn get(&self, place: usize) -> Option<Note>
        ensures { result ≡ standing_at self.now place }
    {
        self.list.get(place.checked_sub(1)?).copied()
    }

    // Whether one of the notes bars the remedy.
    pub(crate) fn forbids(&self, visit: usize, condition: usize, remedy: usize) -> bool
        ensures { result ≡ barred self.now visit condition remedy }
    {
        self.list
            .iter()
            .any(|note| note.forbids(visit, condition, remedy))
    }

    // What the notes add to the amount, all together.
    pub(crate) fn adds(&self, visit: usize, remedy: usize) -> i64
        ensures value { result ≡ surcharged self.now visit remedy }
        ensures low { negsuc 99999999999 ≤ℤ result }
        ensures high { result ≤ℤ pos 100000000000 }
    {
        self.list
            .iter()
            .map(|note| i64::from(note.adds(visit, remedy)))
            .sum()
    }

    // Enters a note at the end, and answers its place.
    pub(crate) fn enter(&mut self, note: Note) -> Result<usize, NoteRefusal>
        ensures { (result, self.new) ≡ entering self.old note }
    {
        if self.len() >= 24 {
            return Err(NoteRefusal::Full);
        }
        self.list.push_reserved(note);
        Ok(self.len())
    }

    // Gives the note at a place another last visit, and answers the place.
    pub(crate) fn prolong(&mut self, place: usize, last: usize) -> Result<usize, NoteRefusal>
        ensures { (result, self.new) ≡ to_prolong self.old place last }
    {
        let note = self.get(place).ok_or(NoteRefusal::Unknown)?;
        let visits = Visits {
            last,
            ..note.visits
        }
        .in_span()?;
        self.list[place - 1] = Note { visits, ..note };
        Ok(place)
    }

    // Takes the note at a place out, and answers how many are left.
    pub(crate) fn lift(&mut self, place: usize) -> Result<usize, NoteRefusal>
        ensures { (result, self.new) ≡ to_lift self.old place }
    {
        self.get(place).ok_or(NoteRefusal::Unknown)?;
        self.list.remove(place - 1);
        Ok(self.len())
    }
}
