//! The open branches, as the room in hand and the changes that lead back from it.
ghost use Rattle.std.specs.Prelude.{◌≡◌, ◌<◌, ◌∷◌, [], true, false, reverse, slice_set, MatchResult, IsOk, vec_len, vec_capacity};
ghost use Rattle.drg_rooms.specs.declared.refusal.Refusal.TheVariants.{NotMet};
ghost use Rattle.drg_rooms.specs.Trails.{kept_rooms, rooms_of, LeadBack};
ghost use Rattle.drg_rooms.specs.Lines.{in_hand as the_in_hand, kept_of, is_open as the_is_open};
ghost use Rattle.drg_rooms.specs.Values.{with_low, with_high, low_raised, high_lowered, raised as the_raised, lowered as the_lowered};

use crate::refusal::Refusal;
use drg_linear::bounds_at;
use std::alloc::{AllocError, Global};
use std::marker::Model;

/// A change of bounds in the room in hand: where it was made, and the bounds before it. Where it
/// halved a room and the upper half is kept for later, the low bound of that half.
#[derive(Clone, Copy, Debug)]
pub struct Change {
    pub place: usize,
    pub before: (i128, i128),
    pub kept: Option<i128>,
}

/// The rooms of the open branches. Only the one in hand is written out; each branch kept for later
/// is a change that can be taken back.
#[derive(Debug, Drop)]
pub struct Trail {
    open: bool,
    room: Vec<(i128, i128)>,
    changes: Vec<Change>,
}

impl Model for Trail {
    ghost use Rattle.std.specs.Prelude.{List, reverse};
    ghost use Rattle.drg_linear.specs.Rooms.{RoomBounds};
    ghost use Rattle.drg_rooms.specs.Trails.{rooms_of};

    ghost Value = { List RoomBounds };

    ghost view = { λ t. rooms_of t.open t.room.items (reverse t.changes.items) };
}

/// Puts these bounds at a place.
fn put(room: &mut Vec<(i128, i128)>, place: usize, bounds: (i128, i128))
    ensures { room.new.items ≡ slice_set room.old.items place bounds }
{
    if place < room.len() {
        room[place] = bounds;
    }
}

/// Keeps the bounds before a change, where a branch is kept for later. The oldest change is always
/// one that halved a room, so where there is no change no branch is kept. Where it fails, nothing
/// has changed.
fn keep(changes: &mut Vec<Change>, place: usize, before: (i128, i128)) -> Result<(), AllocError>
    ensures back { MatchResult result
        (λ _. LeadBack changes.old.items place before changes.new.items)
        (λ _. changes.new.items ≡ changes.old.items) }
    ensures free { vec_len changes.old < vec_capacity changes.old → IsOk result }
{
    if changes.is_empty() {
        return Ok(());
    }
    changes.push(Change {
        place,
        before,
        kept: None,
    })?;
    Ok(())
}

/// Goes back to the branch kept last, and says whether there is one.
fn take_up(room: &mut Vec<(i128, i128)>, changes: &mut Vec<Change>) -> bool
    ensures { rooms_of result room.new.items (reverse changes.new.items)
        ≡ kept_rooms room.old.items (reverse changes.old.items) }
{
    'back: while let Some(change) = changes.pop() {
        match change.kept {
            None => put(room, change.place, change.before),
            Some(low) => {
                put(room, change.place, (low, change.before.1));
                // The place that the change left is free, so this doesn't fail.
                let _ = keep(changes, change.place, change.before);
                return true;
            }
        }
    }
    false
}

/// The greater of the low bound at a place and v.
fn raised(room: &[(i128, i128)], place: usize, v: i128) -> i128
    ensures { result ≡ the_raised room.now place v }
{
    let bounds = bounds_at(room, place);
    if bounds.0 < v { v } else { bounds.0 }
}

/// The lesser of the high bound at a place and v.
fn lowered(room: &[(i128, i128)], place: usize, v: i128) -> i128
    ensures { result ≡ the_lowered room.now place v }
{
    let bounds = bounds_at(room, place);
    if v < bounds.1 { v } else { bounds.1 }
}

impl Trail {
    /// One open branch with this room.
    pub fn new(alloc: Global, room: Vec<(i128, i128)>) -> Trail
        ensures { result ≡ room.items ∷ [] }
    {
        Trail {
            open: true,
            room,
            changes: Vec::new(alloc),
        }
    }

    /// Whether a branch is open.
    pub fn is_open(&self) -> bool
        ensures { result ≡ the_is_open self.now }
    {
        self.open
    }

    /// The room in hand.
    fn in_hand(&self) -> &[(i128, i128)]
        ensures { result.now ≡ the_in_hand self.now }
    {
        if self.open { &self.room } else { &[] }
    }

    /// The room in hand, where a branch is open.
    pub fn room(&self) -> Result<&[(i128, i128)], Refusal>
        ensures { MatchResult result
            (λ room. (the_is_open self.now ≡ true) × (room.now ≡ the_in_hand self.now))
            (λ refusal. (the_is_open self.now ≡ false) × (refusal ≡ NotMet)) }
    {
        if self.open {
            Ok(&self.room)
        } else {
            Err(Refusal::NotMet)
        }
    }

    /// Puts these bounds at a place of the room in hand. Where it fails, nothing has changed.
    fn tighten(&mut self, place: usize, bounds: (i128, i128)) -> Result<(), AllocError>
        requires { the_is_open self.old ≡ true }
        ensures { MatchResult result
            (λ _. self.new ≡ slice_set (the_in_hand self.old) place bounds ∷ kept_of self.old)
            (λ _. self.new ≡ self.old) }
    {
        let before = bounds_at(&self.room, place);
        if bounds == before {
            return Ok(());
        }
        keep(&mut self.changes, place, before)?;
        put(&mut self.room, place, bounds);
        Ok(())
    }

    /// Raises a low bound of the room in hand to v, where it is lower. Where it fails, nothing has
    /// changed.
    #[tactic(auto, unfolding(crate::specs::Values::with_low))]
    pub fn raise(&mut self, place: usize, v: i128) -> Result<(), AllocError>
        requires { the_is_open self.old ≡ true }
        ensures { MatchResult result
            (λ _. self.new ≡ low_raised (the_in_hand self.old) place v ∷ kept_of self.old)
            (λ _. self.new ≡ self.old) }
    {
        let bounds = bounds_at(self.in_hand(), place);
        let low = raised(self.in_hand(), place, v);
        self.tighten(place, (low, bounds.1))
    }

    /// Lowers a high bound of the room in hand to v, where it is higher. Where it fails, nothing
    /// has changed.
    #[tactic(auto, unfolding(crate::specs::Values::with_high))]
    pub fn lower(&mut self, place: usize, v: i128) -> Result<(), AllocError>
        requires { the_is_open self.old ≡ true }
        ensures { MatchResult result
            (λ _. self.new ≡ high_lowered (the_in_hand self.old) place v ∷ kept_of self.old)
            (λ _. self.new ≡ self.old) }
    {
        let bounds = bounds_at(self.in_hand(), place);
        let high = lowered(self.in_hand(), place, v);
        self.tighten(place, (bounds.0, high))
    }

    /// Goes on with the lower half of the room in hand and keeps the upper half for later, divided
    /// at the unknown of a place. Where it fails, nothing has changed.
    pub fn halve(&mut self, place: usize, high: i128, low: i128) -> Result<(), AllocError>
        requires { the_is_open self.old ≡ true }
        ensures { MatchResult result
            (λ _. self.new ≡ with_high (the_in_hand self.old) place high
            ∷ with_low (the_in_hand self.old) place low ∷ kept_of self.old)
            (λ _. self.new ≡ self.old) }
    {
        let before = bounds_at(&self.room, place);
        self.changes.push(Change {
            place,
            before,
            kept: Some(low),
        })?;
        put(&mut self.room, place, (before.0, high));
        Ok(())
    }

    /// Closes the branch in hand, and takes up the one kept last.
    pub fn close(&mut self)
        ensures { self.new ≡ kept_of self.old }
    {
        if self.open {
            self.open = take_up(&mut self.room, &mut self.changes);
        }
    }
}
