//! The text of each fault: its number, its name, and what it carries.
use crate::hall::core_after;
use cn_agree::ScheduleFault;
use cn_cert::CertFault;
use cn_check::CheckFault;
use cn_hall::{CallFault, OpenFault};
use cn_log::{EventFault, ReplayFault};
use cn_proto::PlanFault;
use cn_search::FindFault;
use cn_table::TableFault;
use std::alloc::{AllocError, Global};
use std::fmt::Display;
use std::process::Abort;
use std::test::Fail;

/// Whether the text of each fault is the one beside it.
fn are_read<F: Display>(alloc: Global, faults: &[(F, &str)]) -> Result<bool, AllocError> {
    for (fault, expected) in faults {
        if format!(in alloc; "{fault}")?.as_str() != *expected {
            return Ok(false);
        }
    }
    Ok(true)
}

fn of_tables() -> [(TableFault, &'static str); 10] {
    [
        (TableFault::NotToml, "1 NotToml"),
        (TableFault::UnknownKey, "2 UnknownKey"),
        (TableFault::MissingKey, "3 MissingKey"),
        (TableFault::WrongKind, "4 WrongKind"),
        (TableFault::BadName, "5 BadName"),
        (TableFault::Count, "6 Count"),
        (TableFault::Repeated, "7 Repeated"),
        (TableFault::RowLength, "8 RowLength"),
        (TableFault::UnknownName, "9 UnknownName"),
        (TableFault::OutOfMemory, "10 OutOfMemory"),
    ]
}

fn of_searches() -> [(FindFault, &'static str); 4] {
    [
        (FindFault::BadLimit, "1 BadLimit"),
        (
            FindFault::TooManyChoices(407_616),
            "2 TooManyChoices 407616",
        ),
        (FindFault::OutOfMemory, "3 OutOfMemory"),
        (FindFault::from(AllocError), "3 OutOfMemory"),
    ]
}

fn of_certificates() -> [(CertFault, &'static str); 5] {
    [
        (CertFault::NotJson, "1 NotJson"),
        (CertFault::WrongShape, "2 WrongShape"),
        (CertFault::Version, "3 Version"),
        (CertFault::Range, "4 Range"),
        (CertFault::OutOfMemory, "5 OutOfMemory"),
    ]
}

fn of_checks() -> [(CheckFault, &'static str); 8] {
    [
        (CheckFault::OtherType, "1 OtherType"),
        (CheckFault::BadNumber, "2 BadNumber"),
        (CheckFault::WitnessShape, "3 WitnessShape"),
        (CheckFault::WitnessMeets(7), "4 WitnessMeets 7"),
        (CheckFault::Unexpected, "5 Unexpected"),
        (CheckFault::NotNext(8), "6 NotNext 8"),
        (
            CheckFault::NotACollision(u64::MAX),
            "7 NotACollision 18446744073709551615",
        ),
        (CheckFault::TooFew, "8 TooFew"),
    ]
}

fn of_plans() -> [(PlanFault, &'static str); 4] {
    [
        (PlanFault::Meets(0), "1 Meets 0"),
        (PlanFault::Meets(7), "1 Meets 7"),
        (PlanFault::OutOfMemory, "2 OutOfMemory"),
        (PlanFault::from(AllocError), "2 OutOfMemory"),
    ]
}

fn of_schedules() -> [(ScheduleFault, &'static str); 3] {
    [
        (ScheduleFault::InputCount, "1 InputCount"),
        (ScheduleFault::NoSuchProcess(1), "2 NoSuchProcess 1"),
        (ScheduleFault::from(AllocError), "3 OutOfMemory"),
    ]
}

fn of_events() -> [(EventFault, &'static str); 5] {
    [
        (EventFault::NoSuchProcess(0), "1 NoSuchProcess 0"),
        (EventFault::NoSuchOperation(10), "2 NoSuchOperation 10"),
        (EventFault::NotIdle(1), "3 NotIdle 1"),
        (EventFault::Idle(2), "4 Idle 2"),
        (EventFault::AtEnd(7), "5 AtEnd 7"),
    ]
}

fn of_logs() -> [(ReplayFault, &'static str); 6] {
    [
        (ReplayFault::NoSuchProcess(0), "1 NoSuchProcess 0"),
        (ReplayFault::NoSuchOperation(10), "2 NoSuchOperation 10"),
        (ReplayFault::NotIdle(1), "3 NotIdle 1"),
        (ReplayFault::Idle(2), "4 Idle 2"),
        (ReplayFault::AtEnd(7), "5 AtEnd 7"),
        (ReplayFault::from(AllocError), "6 OutOfMemory"),
    ]
}

fn of_calls() -> [(CallFault, &'static str); 2] {
    [
        (CallFault::LogFull, "1 LogFull"),
        (CallFault::Stopped, "2 Stopped"),
    ]
}

/// Whether the faults of tables, of the search and of certificates have their texts.
fn are_of_evidence(alloc: Global) -> Result<bool, AllocError> {
    Ok(
        are_read(alloc, &of_tables())?
            && are_read(alloc, &of_searches())?
            && are_read(alloc, &of_certificates())?
            && are_read(alloc, &of_checks())?,
    )
}

/// Whether the faults of plans, schedules, logs and calls have their texts.
fn are_of_protocols(alloc: Global) -> Result<bool, AllocError> {
    Ok(
        are_read(alloc, &of_plans())?
            && are_read(alloc, &of_schedules())?
            && are_read(alloc, &of_events())?
            && are_read(alloc, &of_logs())?
            && are_read(alloc, &of_calls())?,
    )
}

#[test]
fn each_is_printed(rt: HostRuntime) -> Result<(), Fail> {
    let alloc = rt.alloc();
    assert!(rt; are_of_evidence(alloc)? && are_of_protocols(alloc)?);
    let fault = OpenFault::OutOfMemory(core_after(&rt, alloc, 2, 4, &[])?);
    assert!(rt; format!(in alloc; "{fault}")?.as_str() == "1 OutOfMemory");
    Ok(())
}
