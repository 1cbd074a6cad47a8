//! Work in several threads, which falls back to one thread.
ghost use Rattle.std.specs.Prelude.{◌≡◌, ◌≤◌, [], IfOk, Ok, vec_capacity};
ghost use Rattle.cn_search.specs.declared.fallback.TheConstants.{ENOUGH_BYTES};
ghost use Rattle.cn_stocks.specs.declared.threading.Threading.{Threading as ThreadingOf};
ghost use Rattle.cn_stocks.specs.declared.threading.Threading.TheVariants.{Many};

use cn_stocks::Threading;
use std::alloc::{AllocError, Global};

/// A search of any table in one thread takes fewer bytes.
const ENOUGH_BYTES: usize = 96 * 1024 * 1024;

/// Takes as much memory as a search of any table in one thread takes, and writes nothing into it.
/// While it is held, the stacks of threads and what they allocate stay out of it. So a search in
/// one thread has room once it is dropped.
fn reserve(alloc: Global) -> Result<Vec<u8>, AllocError>
    ensures empty { IfOk result (λ room. room.items ≡ []) }
    // promise: held-memory
    ensures enough { IfOk result (λ room. ENOUGH_BYTES ≤ vec_capacity room) }
{
    Vec::with_capacity(alloc, ENOUGH_BYTES)
}

/// The work in several threads, with memory left for one.
fn in_threads<R, F: Fn(Threading) -> Result<R, AllocError>>(
    alloc: Global,
    work: &F,
) -> Result<R, AllocError>
    requires { F.IsAlwaysCallable work.now }
    ensures { IfOk result (λ r. F.post work.now Many (Ok r)) }
{
    let _reserve = reserve(alloc)?;
    work(Threading::Many)
}

/// What the work answers in several threads, or in one if these get too little memory.
///
/// # Errors
///
/// `AllocError` if memory is too little for one thread.
pub fn with_fallback<R, F: Fn(Threading) -> Result<R, AllocError>>(
    alloc: Global,
    work: F,
) -> Result<R, AllocError>
    requires { F.IsAlwaysCallable work }
    // promise: fallback
    ensures { (threading : ThreadingOf) × F.post work threading result }
{
    if let Ok(answer) = in_threads(alloc, &work) {
        return Ok(answer);
    }
    work(Threading::One)
}
