//! The work of each command: a function of values, with no stream.
//!
//! The result is a [`Report`](crate::Report). The commands themselves
//! ([`commands`](crate::commands)) read the values and write the reports.

mod agree;
mod agree_shortest;
mod changes;
pub(crate) mod check;
pub(crate) mod check_shortest;
pub(crate) mod check_stocks;
pub(crate) mod check_unread;
mod classify;
mod draw;
mod explain;
mod explain_stocks;
mod find;
mod find_shortest;
mod find_stocks;
mod find_unread;
mod lint;
mod lives;
mod pairs;
mod replay;
mod serve;
mod shortest;
mod shortest_cost;
mod show;
mod show_recoverable;
mod show_shortest;
mod why;
mod why_recoverable;
mod why_stocks;
mod why_unread;

pub use agree::{AskedRun, agree_report};
pub use agree_shortest::agree_shortest_report;
pub use changes::{AskedChanges, changes_report};
pub use classify::{AskedNumbers, check_limit, classification_of, head_report, numbers_report};
pub use cn_changes::{NumberKind, Progress};
pub use draw::draw_report;
pub use explain::explain_report;
pub use explain_stocks::explain_stocks_report;
pub use find::{find_report, limit_for};
pub use find_shortest::find_shortest_report;
pub use find_stocks::find_stocks_report;
pub use find_unread::find_unread_report;
pub use lint::lint_report;
pub use lives::{AskedLives, lives_report};
pub use pairs::pairs_report;
pub use replay::replay_report;
pub use serve::serve_report;
pub use shortest::AskedPlan;
pub use show::{plan_as, show_object_report, show_report};
pub use show_recoverable::{recording_plan_as, show_recoverable_report};
pub use show_shortest::{show_shortest_object_report, show_shortest_report, tree_as};
pub use why::why_report;
pub use why_recoverable::why_recoverable_report;
pub use why_stocks::why_stocks_report;
pub use why_unread::why_unread_report;
