ghost use Rattle.std.specs.Prelude.{◌≡◌, [], IfOk, IsTrue, OnOk, string_bytes};
ghost use Rattle.ilk_tablegen.specs.Table.{generation_result};
ghost use Rattle.ilk_tablegen.specs.declared.walks.Walks.TheVariants as walk;
ghost use Rattle.ilk_plant.specs.declared.draft.TableDraft.{TableDraft};
ghost use Rattle.ilk_answers.specs.Status.{is_fault_free_command_status};
ghost use Rattle.ilk_answers.specs.Tables.{IsReadBack, AnswersTableOrWhyNone, overlong_way_from_board_line, conf_v2_text_with_table};

use crate::refusal_text::{indexed_entry_text, refusal_line_for_rule};
use crate::{Reply, Status};
use ilk_conf_write::{Version, configuration_json};
use ilk_plant::{Plant, TableDraft};
use ilk_tablegen::{Walks, generated_drafts_break_only_c7, network_draft, routes_of};
use std::alloc::{AllocError, Global};

fn conf_v2_text_with_table(
    alloc: Global,
    plant: &Plant,
    table: &TableDraft,
) -> Result<Vec<u8>, AllocError>
    requires { generation_result plant.now ≡ walk.Routes table.now }
    ensures text { IfOk result (λ text. text.items ≡ conf_v2_text_with_table plant.now table.now) }
    ensures read { OnOk result (IsReadBack plant.now table.now) }
{
    generated_drafts_break_only_c7(plant);
    let net = network_draft(alloc, plant)?;
    configuration_json(alloc, Version::Second, &net, table)
}

fn overlong_way_from_board_line(alloc: Global, board: u32) -> Result<String, AllocError>
    ensures { IfOk result (λ line. string_bytes line ≡ overlong_way_from_board_line board) }
{
    let place = indexed_entry_text(alloc, "boards", board)?;
    refusal_line_for_rule(alloc, "G1", place.as_str())
}

/// Returns the reply of `table`: the configuration of the plant's network with the table of its
/// routes, or the reason why it has no such table.
pub(crate) fn table_reply(alloc: Global, plant: &Plant) -> Result<Reply, AllocError>
    ensures reply { IfOk result (AnswersTableOrWhyNone plant.now) }
    ensures planned { IfOk result
        (λ made. IsTrue (is_fault_free_command_status made.status) × (made.certificate ≡ [])) }
{
    match routes_of(alloc, plant)? {
        Walks::Routes(table) => {
            let mut text = conf_v2_text_with_table(alloc, plant, &table)?;
            text.push(b'\n')?;
            Ok(Reply::from_status_and_report_bytes(alloc, Status::Good, text))
        }
        Walks::TooLong { board } => {
            let line = overlong_way_from_board_line(alloc, board)?;
            Ok(Reply::with_report(alloc, Status::Refused, line))
        }
        Walks::TooMany => {
            let line = refusal_line_for_rule(alloc, "G2", "document")?;
            Ok(Reply::with_report(alloc, Status::Refused, line))
        }
    }
}
