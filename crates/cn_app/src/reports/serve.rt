//! The report of `serve`.
ghost use Rattle.std.specs.Prelude.{◌≡◌, ℕ, is_some, map};
ghost use Rattle.std.specs.List.{list_any};
ghost use Rattle.cn_hall.specs.declared.call.Go.TheVariants.{On};
ghost use Rattle.cn_app.specs.Commands.Serve.{IsServeReport};
ghost use Rattle.cn_service.specs.Workers.{EachHasOneGate};

use crate::lines::threads::service_text;
use cn_form::AnswerForm;
use cn_hall::Gate;
use cn_io::{AppFault, Argument, Outcome, Report, calls_fit};
use cn_log::laws::logs_are_linearized;
use cn_log::{LogCore, Opening};
use cn_service::{ProcessHistory, serve_calls};
use std::alloc::Global;
use std::sync::Wait;
use std::thread::Threads;

/// Whether some process has a call with no reply.
fn has_cut(worked: &[ProcessHistory]) -> bool
    ensures { result ≡ list_any (λ w. is_some w.fault) worked.now }
{
    worked.iter().any(|one| one.fault.is_some())
}

/// Serves the object of this opening with a thread for each process. The thread makes the calls of
/// the process's list, one after the other, until one has no reply. The report has a line for each
/// call of each process, from 0 on, then a line for each entry of the log, and last a line with the
/// events. As JSON it has all this as one object ([`service_json`](cn_json::service_json)).
///
/// `make_gate` makes a gate for each process. Before each step of the process's calls the gate says
/// whether they go on. It says On before it is asked. However the threads run, the report is that
/// of one log, and its answers are those of one sequential run of the calls. `Cut` tells that some
/// call found no slot or was stopped.
///
/// # Errors
///
/// `calls` has not one list for each process, or a number that is no operation of the object; a
/// thread could not be started, and those that run have finished. Want of memory can stand in place
/// of any answer.
pub fn serve_report<T: Threads + Wait + Sync, G: Gate + Send + Drop, F: Fn(u8) -> G>(
    rt: &T,
    alloc: Global,
    opening: Opening,
    calls: &[Vec<u8>],
    form: AnswerForm,
    make_gate: F,
) -> Result<Report, AppFault>
    requires gates { F.IsAlwaysCallable make_gate }
    requires on { (p : ℕ) (g : _) → F.post make_gate p g → G.says g ≡ On }
    ensures { IsServeReport (EachHasOneGate G.asks G.says (λ p g. F.post make_gate p g)) form
        opening
        (map (λ list. list.items) calls.now) result }
{
    if !calls_fit(&opening, calls) {
        return Err(AppFault::Argument(Argument::Calls));
    }
    let core = LogCore::open(alloc, opening)?;
    let service = serve_calls(rt, alloc, make_gate, core, calls)?;
    logs_are_linearized(&service.core);
    let opening = service.core.opening();
    let text = service_text(alloc, opening.object(), opening.start(), &service, form)?;
    let outcome = Outcome::cut_if(has_cut(&service.processes));
    Ok(Report { text, outcome })
}
