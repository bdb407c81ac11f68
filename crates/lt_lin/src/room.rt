ghost use Rattle.std.specs.Prelude.{◌≡◌, ℕ, ℤ, ◌+◌, ◌≤◌, ◌↔◌, [], ◌++◌, IsTrue, IfOk, OnOk, IsOk};
ghost use Rattle.lt_lin.specs.Rows.{HasContradiction, Satisfies};
ghost use Rattle.lt_lin.specs.Lines.{lines_of};
ghost use Rattle.lt_lin.specs.Refutation.{Refutes};
ghost use Rattle.lt_lin.specs.Room.{places, IsRoomFor};

use crate::derive::contradicts;
use crate::desk::Desk;
use crate::line::Line;
use crate::lines::follow;
use crate::row::{Row, System};
use std::alloc::{AllocError, Global};
use std::marker::Model;

/// Room for the rows that a check of lines knows at one time; contracts see how many places it has.
#[derive(Drop)]
pub struct Room {
    desk: Desk,
}

impl Model for Room {
    ghost use Rattle.std.specs.Prelude.{◌≡◌, ℕ, []};

    ghost Value = { ℕ };

    ghost view = { λ r. r.desk.limit };

    ghost invariant = { λ r. r.desk.known.rows ≡ [] };
}

/// Whether the lines refute the rows of the system, as specs/Refutation.antt says it. Takes no memory but the room, and
/// leaves the room as it was. Where the answer is true, no whole numbers make every row true.
pub fn check_lines(s: &System, lines: &[Line], room: &mut Room) -> bool
    requires { IsRoomFor room.old s.now.rows.items (lines_of lines.now) }
    ensures answer { IsTrue result ↔ Refutes s.now.rows.items (lines_of lines.now) }
    ensures unsatisfied { IsTrue result → (v : ℕ → ℤ) → ¬ Satisfies v s.now.rows.items }
    ensures room { room.new ≡ room.old }
{
    match refute(&mut room.desk, s.rows.as_slice(), lines) {
        Ok(refuted) => refuted,
        Err(_) => unreachable!(),
    }
}

/// The room that a check of the lines against the system needs; an error only for want of memory.
pub fn reserve(alloc: Global, s: &System, lines: &[Line]) -> Result<Room, AllocError>
    ensures { IfOk result (λ room. IsRoomFor room s.now.rows.items (lines_of lines.now)) }
{
    let mut desk = Desk::new(alloc);
    let _refuted = refute(&mut desk, s.rows.as_slice(), lines)?;
    Ok(Room { desk })
}

// Takes more memory exactly where the desk lacks room.
fn refute(desk: &mut Desk, rows: &[Row], lines: &[Line]) -> Result<bool, AllocError>
    requires { desk.old.known.rows ≡ [] }
    ensures answer { IfOk result (λ b. IsTrue b ↔ Refutes rows.now (lines_of lines.now)) }
    ensures rows { OnOk result (desk.new.known.rows ≡ []) }
    ensures room { OnOk result (IsRoomFor desk.new.limit rows.now (lines_of lines.now)) }
    ensures enough { IsRoomFor desk.old.limit rows.now (lines_of lines.now) → IsOk result × (desk.new.limit ≡ desk.old.limit) }
{
    let contradiction = load(desk, rows)?;
    let refuted = follow(desk, contradiction, lines)?;
    desk.known.truncate(0);
    Ok(refuted)
}

// Makes the rows known, and says whether one is a contradiction.
fn load(desk: &mut Desk, rows: &[Row]) -> Result<bool, AllocError>
    requires { desk.old.known.rows ≡ [] }
    ensures contradiction { IfOk result (λ b. IsTrue b ↔ HasContradiction rows.now) }
    ensures rows { OnOk result (desk.new.known.rows ≡ rows.now) }
    ensures room { OnOk result (places rows.now ≤ desk.new.limit) }
    ensures enough { places rows.now ≤ desk.old.limit → IsOk result × (desk.new.limit ≡ desk.old.limit) }
{
    let mut contradiction = false;
    'rows: for row in rows {
        let terms = row.terms.as_slice();
        desk.make_room(terms.len())?;
        desk.scratch.set(terms);
        contradiction = contradicts(contradiction, terms, row.constant);
        desk.keep(row.constant);
    }
    Ok(contradiction)
}
