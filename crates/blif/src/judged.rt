//! The wires that are judged: each net's, and each output's.

ghost use Rattle.std.specs.Prelude.{◌≡◌, ◌<◌, ℕ, true, false, length, get_or, All, Contains, OnOk, IfOk, IsTrue};
ghost use Rattle.blif.specs.Judged.{IsMarked, AreJudged};

use std::alloc::{AllocError, Global};

/// Marks a wire, where there is a mark for it.
fn mark(marks: &mut Vec<bool>, wire: u32)
    ensures marked { IsMarked marks.new.items wire }
    ensures kept { (w : ℕ) → get_or marks.old.items w false ≡ true → get_or marks.new.items w false ≡ true }
    ensures long { length marks.new.items ≡ length marks.old.items }
{
    if (wire as usize) < marks.len() {
        marks[wire as usize] = true;
    }
}

/// Marks for this many wires: those of nets are marked.
fn marks_of(alloc: Global, nets: &[u32], wires: u32) -> Result<Vec<bool>, AllocError>
    ensures long { IfOk result (λ marks. length marks.items ≡ wires) }
    ensures marked { IfOk result (λ marks. All (IsMarked marks.items) nets.now) }
{
    let mut marks = vec![in alloc; false; wires as usize]?;
    for wire in nets {
        mark(&mut marks, *wire);
    }
    Ok(marks)
}

/// Adds a wire to a list, where it is wanted.
fn add_if(list: &mut Vec<u32>, wire: u32, wanted: bool) -> Result<(), AllocError>
    ensures had { OnOk result (IsTrue wanted → Contains list.new.items wire) }
    ensures kept { OnOk result ((w : ℕ) → Contains list.old.items w → Contains list.new.items w) }
{
    if wanted {
        list.push(wire)?;
    }
    Ok(())
}

/// The wires that are marked, and those from `first` on, in order.
fn listed(alloc: Global, marks: &[bool], wires: u32, first: u32) -> Result<Vec<u32>, AllocError>
    ensures { IfOk result (λ list. (w : ℕ) → w < wires → get_or marks.now w false ≡ true → Contains list.items w) }
{
    let mut list = Vec::new(alloc);
    for wire in 0..wires {
        let marked = marks.get(wire as usize).copied().unwrap_or(false);
        add_if(&mut list, wire, marked || first <= wire)?;
    }
    Ok(list)
}

/// The judged wires, in order: those of nets, and those from `first` on.
pub fn judged(alloc: Global, nets: &[u32], wires: u32, first: u32) -> Result<Vec<u32>, AllocError>
    ensures { IfOk result (λ list. AreJudged list.items wires nets.now) }
{
    let marks = marks_of(alloc, nets, wires)?;
    let list = listed(alloc, &marks, wires, first)?;
    Ok(list)
}
