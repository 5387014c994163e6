//! The front page of what is proved. Each function's contract is a theorem that speaks of all inputs: it takes nothing
//! and does nothing. The statements stand in specs/, in the definitions that the services' contracts cite.
#![tactic(auto)]

ghost use Rattle.theorems.specs.Codes.{AfterAsTold, SameByTables, ThirdAsTold, ThirdIsSum};
ghost use Rattle.theorems.specs.Joins.{ThreeJoined};
ghost use Rattle.theorems.specs.Known.{Known, rows};
ghost use Rattle.theorems.specs.Masked.{MaskedComputes, MaskedIsClean, MaskedReadsBack, WrittenReadsBack};
ghost use Rattle.theorems.specs.Orders.{OrdersBreak};
ghost use Rattle.theorems.specs.Secrets.{AllSecret};
ghost use Rattle.theorems.specs.Sessions.{RowsMaskAfresh};
ghost use Rattle.theorems.specs.Texts.{LineEndsAlike, LinesLiteral};
ghost use Rattle.theorems.specs.Wide.{WideAgrees};

/// Every wire of what Mask writes has equal counts: its count, over the four mask settings, is the same for any two
/// input settings that agree in their public bits (docs/RULES.md, Leaks).
/// Edits of code that the same definitions refuse: mask_rule/must-fail/masks_off.edit,
/// mask/must-fail/same_codes.edit.
pub fn masked_is_clean()
    ensures { MaskedIsClean }
{}

/// The outputs of what Mask writes, with the masks of its output codes off, are the source's, for all inputs and all
/// four mask settings (docs/RULES.md, Masking a source).
/// Edits of code that the same definitions refuse: mask_rule/must-fail/second_operand_code.edit,
/// mask/must-fail/public_gate_left_out.edit.
pub fn masked_computes()
    ensures { MaskedComputes }
{}

/// What Mask writes reads back as the masked netlist (docs/RULES.md, Masking a source).
/// Edits of code that the same definitions refuse: write_netlist/must-fail/no_gate_lines.edit,
/// writer/must-fail/operands_exchanged.edit.
pub fn masked_reads_back()
    ensures { MaskedReadsBack }
{}

/// The written form of every netlist within the limits reads back as that netlist (docs/RULES.md, Written form).
/// Edits of code that the same definitions refuse: write_netlist/must-fail/outputs_as_inputs.edit,
/// writer/must-fail/last_digit_first.edit.
pub fn written_reads_back()
    ensures { WrittenReadsBack }
{}

/// The known results M1 to M9 hold, M1 also as *mask* prints it and M5 to M7 as *check* prints them (docs/RULES.md,
/// Known results).
/// Edits of code that the same definitions refuse: mask/must-fail/product_with_sum.edit,
/// leak_search/must-fail/invented_count.edit.
pub fn known_results()
    ensures { Known rows }
{}

/// The formula for the third code of two different codes gives what its table says (docs/RULES.md, Mask codes and
/// public bits).
/// Edits of code that the same definitions refuse: mask_rule/must-fail/third_or.edit,
/// mask_rule/must-fail/xor_code_unchanged.edit.
pub fn third_code_as_told()
    ensures { ThirdAsTold }
{}

/// The formula for the code after a code gives what its table says (docs/RULES.md, Mask codes and public bits).
/// Edits of code that the same definitions refuse: mask_rule/must-fail/after_without_one.edit,
/// mask/must-fail/same_codes.edit.
pub fn code_after_as_told()
    ensures { AfterAsTold }
{}

/// A netlist masked with both codes looked up in the tables is the netlist masked by the formulas (docs/RULES.md,
/// Masking a source).
/// Edits of code that the same definitions refuse: mask_rule/must-fail/third_or.edit,
/// mask_rule/must-fail/after_without_one.edit.
pub fn masked_by_tables()
    ensures { SameByTables }
{}

/// The mask of the third code of two different codes is the sum of their masks (docs/RULES.md, Mask codes and public
/// bits).
/// Edits of code that the same definitions refuse: leak_search/must-fail/masks_or.edit,
/// mask_rule/must-fail/third_or.edit.
pub fn third_mask_is_sum()
    ensures { ThirdIsSum }
{}

/// Each of the orders and shortcuts that docs/RULES.md, Masking a source, warns of loses the outputs or the equal
/// counts.
/// Edits of code that the same definitions refuse: mask_rule/must-fail/products_first.edit,
/// mask_rule/must-fail/second_operand_code.edit.
pub fn orders_break()
    ensures { OrdersBreak }
{}

/// Where no input bit is public, clean is that every wire has the same count for any two settings, and a leak is told
/// against setting 0 (docs/RULES.md, Leaks).
/// Edits of code that the same definitions refuse: leak_search/must-fail/public_bits_zero.edit,
/// leak_search/must-fail/largest_setting.edit.
pub fn all_secret()
    ensures { AllSecret }
{}

/// A text and the same text with each CR LF made LF read alike, in every service (docs/RULES.md, Text and line ends).
/// Edits of code that the same definitions refuse: text/must-fail/cr_alone.edit,
/// text/must-fail/cr_in_a_word.edit.
pub fn line_ends_alike()
    ensures { LineEndsAlike }
{}

/// The lines and words of a text that question 3 admits are what LF and spaces part, once each CR LF is made LF
/// (docs/RULES.md, Text and line ends).
/// Edits of code that the same definitions refuse: text/must-fail/cr_in_a_word.edit,
/// text/must-fail/end_of_text.edit.
pub fn lines_literal()
    ensures { LinesLiteral }
{}

/// After every row of steps from an opening, the masked gates of a session are those that Mask gives for its present
/// source gates, without those of the output bits (docs/RULES.md, Sessions).
/// Edits of code that the same definitions refuse: session/must-fail/masked_from_the_start.edit,
/// session/must-fail/masked_gates_kept.edit.
pub fn rows_mask_afresh()
    ensures { RowsMaskAfresh }
{}

/// Three blocks from Mask joined give the same bytes, whichever seam is closed first, and where one order is accepted
/// so is the other (docs/RULES.md, Joining).
/// Edits of code that the same definitions refuse: join/must-fail/wires_overlap.edit,
/// join/must-fail/other_mask_pair.edit.
pub fn three_joined()
    ensures { ThreeJoined }
{}

/// Check of many inputs and Check with pairs answer alike wherever there are at most twelve codes (docs/RULES.md, Many
/// inputs).
/// Edits of code that the same definitions refuse: check_wide/must-fail/thirteen_admitted.edit,
/// check_pairs/must-fail/three_values.edit.
pub fn wide_agrees()
    ensures { WideAgrees }
{}
