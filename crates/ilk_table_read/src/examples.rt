ghost use Rattle.std.specs.Prelude.{◌≡◌, Ok, Err, codes};
ghost use Rattle.ilk_net_read.specs.Fault.{rule_fault_at_place};
ghost use Rattle.ilk_net_read.specs.declared.fault.Form.TheVariants.{F2, F3, F4, F6};
ghost use Rattle.ilk_net_read.specs.declared.fault.Place.TheVariants.{Document};
ghost use Rattle.ilk_table_read.specs.Example.{boardless_line_text, boardless_line_net, boardless_line_table, boarded_line_text, boarded_line_net, boarded_line_table};
ghost use Rattle.ilk_table_read.specs.Table.{net_and_table_drafts_from_text};

/// The text of a line without boards and routes is read as its drafts. Proof only; no run-time
/// effect.
pub fn boardless_line_is_read()
    ensures { net_and_table_drafts_from_text boardless_line_text ≡ Ok (
      boardless_line_net,
      boardless_line_table,
    ) }
{}

/// The text of a line with two boards, and a route from each, is read as its drafts. Proof only; no
/// run-time effect.
pub fn boarded_line_is_read()
    ensures { net_and_table_drafts_from_text boarded_line_text
        ≡ Ok (boarded_line_net, boarded_line_table) }
{}

/// Bad texts are rejected with the first violated rule. A text that isn't JSON violates F2, an
/// object without members F3, and one without sections F6. A version other than 1 and 2 violates
/// F4, also without sections. Proof only; no run-time effect.
pub fn bad_texts_are_refused()
    ensures text { net_and_table_drafts_from_text
        (codes "[") ≡ Err (rule_fault_at_place F2 Document) }
    ensures members { net_and_table_drafts_from_text (codes "{}")
        ≡ Err (rule_fault_at_place F3 Document) }
    ensures version { net_and_table_drafts_from_text
        (codes "{\"version\":3,\"sections\":[],\"routes\":[]}")
        ≡ Err (rule_fault_at_place F4 Document) }
    ensures sections { net_and_table_drafts_from_text
        (codes "{\"version\":1,\"sections\":[],\"routes\":[]}")
        ≡ Err (rule_fault_at_place F6 Document) }
{}
