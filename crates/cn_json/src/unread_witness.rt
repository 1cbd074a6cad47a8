//! The witnesses of a number without reads as JSON: what processes can get, and signs.
ghost use Rattle.std.specs.Prelude.{◌<◌, All, codes, length};
ghost use Rattle.cn_unread_reasons.specs.Known.{IsKnownAnswer, IsKnownFollowUp, IsKnownSigns, IsKnownUnreadSight, IsKnownUnreadView, IsKnownUnreadWitness};
ghost use Rattle.cn_json.specs.Tokens.{Appends, list_rest, member_tokens};
ghost use Rattle.cn_json.specs.UnreadWitness.{answer_data, follow_up_data, operation_number_data, signs_data, unread_process, unread_sight_data, unread_witness_data, witness_processes};
ghost use Rattle.cn_json.specs.Values.{list_data};

use crate::json_text::JsonText;
use crate::json_text::Primitive::Text;
use crate::value::{JsonValue, OfProcesses};
use cn_further::FollowUp;
use cn_table::{Operation, Table};
use cn_unread_reasons::{Answer, SignWitness, UnreadSight, UnreadView, UnreadWitness};
use std::alloc::AllocError;

impl JsonValue for Answer {
    ghost IsKnown = { IsKnownAnswer };

    ghost json = { answer_data };

    fn write(&self, out: &mut JsonText, table: &Table) -> Result<(), AllocError> {
        out.object(&[
            ("operation", Text(table.operation_name(self.operation))),
            ("response", Text(table.response_name(self.response))),
        ])
    }
}

impl JsonValue for UnreadSight {
    ghost IsKnown = { IsKnownUnreadSight };

    ghost json = { unread_sight_data };

    fn write(&self, out: &mut JsonText, table: &Table) -> Result<(), AllocError> {
        out.begin_object()?;
        out.array_at("answers", table, &self.answers)?;
        out.last_members(&[("response", Text(table.response_name(self.response)))])
    }
}

impl JsonValue for UnreadView {
    ghost IsKnown = { IsKnownUnreadView };

    ghost json = { unread_process };

    fn write(&self, out: &mut JsonText, table: &Table) -> Result<(), AllocError> {
        out.begin_object()?;
        out.array_at("a_first", table, &self.a_first)?;
        out.array_at("b_first", table, &self.b_first)?;
        out.last_members(&[
            (
                "operation",
                Text(table.operation_name(self.group.operation)),
            ),
            ("team", Text(self.group.team.name())),
        ])
    }
}

impl OfProcesses for UnreadView {
    ghost count = { λ v. v.group.count };

    fn processes(&self) -> u8 {
        self.group.count
    }
}

impl JsonValue for FollowUp {
    ghost IsKnown = { IsKnownFollowUp };

    ghost json = { follow_up_data };

    fn write(&self, out: &mut JsonText, table: &Table) -> Result<(), AllocError> {
        out.object(&[
            ("further", Text(table.operation_name(self.further))),
            ("operation", Text(table.operation_name(self.operation))),
            ("response", Text(table.response_name(self.response))),
        ])
    }
}

/// Writes the processes of the groups, with what they get.
fn write_processes(
    out: &mut JsonText,
    table: &Table,
    views: &[UnreadView],
) -> Result<(), AllocError>
    requires { All (IsKnownUnreadView table.now) views.now }
    ensures { Appends result out.old out.new
        (member_tokens (codes "processes") (witness_processes table.now views.now)) }
{
    out.begin_array_at("processes")?;
    out.last_processes(table, views)
}

impl JsonValue for UnreadWitness {
    ghost IsKnown = { IsKnownUnreadWitness };

    ghost json = { unread_witness_data };

    fn write(&self, out: &mut JsonText, table: &Table) -> Result<(), AllocError> {
        out.begin_object()?;
        out.array_at("follow_ups", table, &self.follow_ups)?;
        out.array_at("looks", table, &self.looks)?;
        write_processes(out, table, &self.views)?;
        out.last_members(&[("start", Text(table.state_name(self.choice.start)))])
    }
}

/// Writes the names of operations, and the end of their array.
fn write_each_operation(
    out: &mut JsonText,
    table: &Table,
    operations: &[u8],
) -> Result<(), AllocError>
    requires { All (λ o. o < length table.now.operations) operations.now }
    ensures { Appends result out.old out.new
        (list_rest (operation_number_data table.now) operations.now) }
{
    for operation in operations {
        out.text(table.operation_name(Operation(*operation)))?;
    }
    out.end_array()
}

fn write_further(out: &mut JsonText, table: &Table, further: &[u8]) -> Result<(), AllocError>
    requires { All (λ o. o < length table.now.operations) further.now }
    ensures { Appends result out.old out.new (member_tokens (codes "further")
        (list_data (operation_number_data table.now) further.now)) }
{
    out.begin_array_at("further")?;
    write_each_operation(out, table, further)
}

impl JsonValue for SignWitness {
    ghost IsKnown = { IsKnownSigns };

    ghost json = { signs_data };

    fn write(&self, out: &mut JsonText, table: &Table) -> Result<(), AllocError> {
        let choice = &self.choice;
        out.begin_object()?;
        write_further(out, table, choice.further.as_slice())?;
        out.member("many", Text(table.operation_name(choice.many)))?;
        out.member("side", Text(choice.side.name()))?;
        out.array_at("signs", table, &self.signs)?;
        out.member("single", Text(table.operation_name(choice.single)))?;
        out.last_members(&[("start", Text(table.state_name(choice.state)))])
    }
}
