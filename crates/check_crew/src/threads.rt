//! Workers in threads of their own, beside one in the calling thread.

ghost use Rattle.std.specs.Prelude.{◌≡◌, ◌≤◌, Option, All, vec_len, vec_capacity};
ghost use Rattle.check_crew.specs.declared.fault.CrewFault.{CrewFault};

use crate::fault::CrewFault;
use std::alloc::Global;
use std::sync::Wait;
use std::thread;
use std::thread::{Promise, PromisedHandle, Scope, Threads};

/// Does the work of each of the others by `duty`, in a thread of its own, and calls `own` in this
/// one, without a fault; and joins all that were started. What they hand back is put into
/// `results`, which has room for it. Where the start of one was refused no more are started, and
/// `own` is called with that fault.
pub(crate) fn work_beside<'e, R, W, T, F, O, U, K>(
    rt: &R,
    promise: K,
    duty: &'e F,
    others: Vec<W>,
    own: O,
    results: Vec<T>,
) -> (U, Vec<T>)
where
    R: Threads + Wait,
    W: Send + Drop + 'e,
    T: Send + Drop + 'e,
    F: Fn(W) -> T + Sync + 'e,
    O: FnOnce(Option<CrewFault>) -> U + Drop,
    K: Promise<T> + Copy + 'e,
    requires own { (fault : Option CrewFault) → O.pre own fault }
    requires others { All (F.pre duty.now) others.items }
    requires promised { All (λ one. (t : T) → F.post duty.now one t → K.kept_by promise t)
        others.items }
    requires room { (vec_len results ≡ 0) × (vec_len others ≤ vec_capacity results) }
    ensures own { (fault : Option CrewFault) × O.post own fault result.0 }
    ensures count { vec_len result.1 ≤ vec_len others }
    ensures kept { All (K.kept_by promise) result.1.items }
    ensures room { vec_capacity result.1 ≡ vec_capacity results }
{
    thread::scope(
        thread::scope_env(),
        rt,
        move |scope| -> (U, Vec<T>)
            requires own { (fault : Option CrewFault) → O.pre own fault }
            requires others { All (F.pre duty.now) others.items }
            requires promised { All (λ one. (t : T) → F.post duty.now one t → K.kept_by promise t)
                others.items }
            requires room { (vec_len results ≡ 0) × (vec_len others ≤ vec_capacity results) }
            ensures own { (fault : Option CrewFault) × O.post own fault result.0 }
            ensures count { vec_len result.1 ≤ vec_len others }
            ensures kept { All (K.kept_by promise) result.1.items }
            ensures room { vec_capacity result.1 ≡ vec_capacity results }
        {
            let alloc = *results.allocator();
            let (given, handles) = start_and_work(scope, promise, duty, others, own, alloc);
            (given, join_all(rt, promise, handles, results))
        },
    )
}

/// Starts each of the others in a scope, and calls `own` in this thread; answers what that gives,
/// and the threads that were started.
fn start_and_work<'s, 'e: 's, W, T, F, O, U, K>(
    scope: &'s Scope<'s, &'e ()>,
    promise: K,
    duty: &'e F,
    others: Vec<W>,
    own: O,
    alloc: Global,
) -> (U, Vec<PromisedHandle<T, K>>)
where
    W: Send + Drop + 'e,
    T: Send + Drop + 'e,
    F: Fn(W) -> T + Sync + 'e,
    O: FnOnce(Option<CrewFault>) -> U + Drop,
    K: Promise<T> + Copy + 'e,
    requires own { (fault : Option CrewFault) → O.pre own fault }
    requires others { All (F.pre duty.now) others.items }
    requires promised { All (λ one. (t : T) → F.post duty.now one t → K.kept_by promise t)
        others.items }
    ensures own { (fault : Option CrewFault) × O.post own fault result.0 }
    ensures count { vec_len result.1 ≤ vec_len others }
    ensures promised { All (λ handle. handle.promise ≡ promise) result.1.items }
{
    let count = others.len();
    let Ok(handles) = Vec::with_capacity(alloc, count) else {
        return (own(Some(CrewFault::Memory)), Vec::new(alloc));
    };
    let handles = start(scope, promise, duty, others, handles);
    let fault = if handles.len() < count {
        Some(CrewFault::Thread)
    } else {
        None
    };
    (own(fault), handles)
}

/// Starts each of the others, until the start of one is refused. It asks for room for their
/// handles.
fn start<'s, 'e: 's, W, T, F, K>(
    scope: &'s Scope<'s, &'e ()>,
    promise: K,
    duty: &'e F,
    others: Vec<W>,
    mut handles: Vec<PromisedHandle<T, K>>,
) -> Vec<PromisedHandle<T, K>>
where
    W: Send + Drop + 'e,
    T: Send + Drop + 'e,
    F: Fn(W) -> T + Sync + 'e,
    K: Promise<T> + Copy + 'e,
    requires others { All (F.pre duty.now) others.items }
    requires promised { All (λ one. (t : T) → F.post duty.now one t → K.kept_by promise t)
        others.items }
    requires room { (vec_len handles ≡ 0) × (vec_len others ≤ vec_capacity handles) }
    ensures count { vec_len result ≤ vec_len others }
    ensures promised { All (λ handle. handle.promise ≡ promise) result.items }
{
    for one in others {
        let Ok(handle) = scope.spawn_with(
            promise,
            move || -> T
                requires { F.pre duty.now one }
                ensures { F.post duty.entry.now one result }
            { duty(one) },
        ) else {
            break;
        };
        handles.push_reserved(handle);
    }
    handles
}

/// Joins all threads, and puts what they hand back to `results`. It asks for room for it.
fn join_all<R, T, K>(
    rt: &R,
    promise: K,
    handles: Vec<PromisedHandle<T, K>>,
    mut results: Vec<T>,
) -> Vec<T>
where
    R: Threads,
    T: Drop,
    K: Promise<T> + Copy + Drop,
    requires room { (vec_len results ≡ 0) × (vec_len handles ≤ vec_capacity results) }
    requires promised { All (λ handle. handle.promise ≡ promise) handles.items }
    ensures count { vec_len result ≡ vec_len handles }
    ensures kept { All (K.kept_by promise) result.items }
    ensures room { vec_capacity result ≡ vec_capacity results }
{
    for handle in handles {
        results.push_reserved(handle.join(rt));
    }
    results
}
