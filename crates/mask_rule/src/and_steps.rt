//! The seven steps of the masked AND: their table, and one step by value.
ghost use Rattle.std.specs.Prelude.{◌≡◌, ◌≤◌, ◌<◌, ◌^◌, [], ◌∷◌, map, get_or};
ghost use Rattle.masking.specs.Mask.{rows, row_gates};
ghost use Rattle.gates.specs.Records.{blank, record_of};

use gates::records::GateRecord;

/// A row for each step: its operation, 1 for AND and 0 for XOR, and the places of its operands. The operation is a
/// number, since docs/RULES.md, Required forms, names this form, an array of seven arrays. Places: 0 A, 1 B, 2 the mask
/// P of A, 3 the mask Q of B, 4 the OR of the masks, 5 to 11 the steps themselves.
pub const ROWS: [[u8; 3]; 7] = [
    [1, 0, 1],
    [1, 0, 3],
    [0, 6, 3],
    [0, 5, 7],
    [1, 2, 1],
    [0, 9, 4],
    [0, 8, 10],
];

/// Step k, with the operands a and b, their mask wires p and q and the wire o of the OR of the masks, at the wires from
/// c.
pub fn step(
    first: u32,
    second: u32,
    first_mask: u32,
    second_mask: u32,
    either_mask: u32,
    wire: u32,
    index: usize,
) -> GateRecord
    requires { (wire ≤ 2 ^ 31) × (index < 7) }
    ensures { result ≡ get_or
        (map record_of (row_gates rows (first ∷ second ∷ first_mask ∷ second_mask ∷ either_mask ∷ []) wire)) index
        blank }
{
    let rows = ROWS;
    let row = rows[index];
    let places = [
        first,
        second,
        first_mask,
        second_mask,
        either_mask,
        wire,
        wire + 1,
        wire + 2,
        wire + 3,
        wire + 4,
        wire + 5,
        wire + 6,
    ];
    GateRecord {
        // 1 is the kind of an XOR, 2 that of an AND
        kind: row[0] as u32 + 1,
        first: places[row[1] as usize],
        second: places[row[2] as usize],
        result: wire + index as u32,
    }
}
