ghost use Rattle.std.specs.Prelude.{◌≡◌, ◌≤◌, IfOk, IfErr, vec_len, vec_capacity, ⊤, [], Result, All};
ghost use Rattle.std.specs.List.{AllZip};
ghost use Rattle.engine_work.specs.Works.{Answers, IsBegun, IsCallable, MakesCalls, Settles};
ghost use Rattle.engine_work.specs.declared.error.EngineError.{EngineError};

use crate::error::EngineError;
use crate::work::Work;
use std::alloc::Global;
use std::marker::{Model, PhantomData};
use std::snapshot::Snapshot;
use std::sync::Wait;
use std::thread;
use std::thread::{Promise, PromisedHandle, Scope, Threads};

type WorkResult = Result<(), EngineError>;

#[derive(Drop)]
struct AnswerOf<Rt: Wait, K: Work<Rt>> {
    work: Snapshot<K>,
    at: PhantomData<*const Rt>,
}

impl<Rt: Wait, K: Work<Rt>> Promise<WorkResult> for AnswerOf<Rt, K> {
    ghost use Rattle.std.specs.Prelude.{◌≡◌};

    ghost kept_by = { λ promise answer. K.may_answer promise.work.value answer };
}

// A thread that runs a work.
#[derive(Drop)]
struct Started<Rt: Wait, K: Work<Rt>> {
    handle: PromisedHandle<WorkResult, AnswerOf<Rt, K>>,
}

impl<Rt: Wait, K: Work<Rt>> Model for Started<Rt, K> {
    ghost use Rattle.std.specs.Prelude.{◌≡◌};

    ghost Value = { K };

    ghost view = { λ s. s.handle.promise.work.value };
}

impl<Rt: Wait, K: Work<Rt>> Started<Rt, K> {
    fn join<H: Threads>(self, rt: &H) -> WorkResult
        ensures { K.may_answer self result }
    {
        let Started { handle } = self;
        handle.join(rt)
    }
}

// A thread runs the work, or none was to be had for its call.
#[derive(Drop)]
enum Begun<Rt: Wait, K: Work<Rt>, F> {
    There(Started<Rt, K>),
    Left(F),
}

#[derive(Drop)]
enum Settled<Rt: Wait, K: Work<Rt>> {
    There(Started<Rt, K>),
    Here(WorkResult),
}

impl<Rt: Wait, K: Work<Rt>, F: FnOnce() -> WorkResult> Begun<Rt, K, F> {
    // Runs the work here if no thread does.
    fn settle(self) -> Settled<Rt, K>
        requires { IsCallable F.pre self }
        ensures { Settles F.post K.may_answer self result }
    {
        match self {
            Begun::There(started) => Settled::There(started),
            Begun::Left(call) => Settled::Here(call()),
        }
    }
}

impl<Rt: Wait, K: Work<Rt>> Settled<Rt, K> {
    // May wait.
    fn answer<H: Threads>(self, rt: &H) -> WorkResult
        ensures { Answers K.may_answer self result }
    {
        match self {
            Settled::There(started) => started.join(rt),
            Settled::Here(answer) => answer,
        }
    }
}

// Starts a thread for the call that runs the work.
fn begin<'s, E, Rt: Wait, K: Work<Rt>, F: FnOnce() -> WorkResult + Send + 's>(
    scope: &Scope<'s, E>,
    work: Snapshot<K>,
    call: F,
) -> Begun<Rt, K, F>
    requires runs { F.pre call }
    requires answers { (answer : Result ⊤ EngineError) → F.post call answer
        → K.may_answer work.value answer }
    ensures callable { IsCallable F.pre result }
    ensures begun { IsBegun F.post K.may_answer work.value result }
{
    let promise = AnswerOf {
        work,
        at: PhantomData,
    };
    match scope.spawn_with(promise, call) {
        Ok(handle) => Begun::There(Started { handle }),
        Err(refused) => Begun::Left(refused.value),
    }
}

fn begin_all<
    's,
    E,
    Rt: Wait,
    K: Work<Rt> + Drop,
    F: FnOnce() -> WorkResult + Send + Drop + 's,
    G: Fn(K) -> F,
>(scope: &Scope<'s, E>, works: Vec<K>, make: G, room: Vec<Begun<Rt, K, F>>) -> Vec<Begun<Rt, K, F>>
    requires empty { room.items ≡ [] }
    requires room { vec_len works ≤ vec_capacity room }
    requires fresh { All K.is_fresh works.items }
    requires makes { MakesCalls K.is_fresh K.may_answer G.pre G.post F.pre F.post make }
    ensures callable { All (IsCallable F.pre) result.items }
    ensures begun { AllZip (IsBegun F.post K.may_answer) works.items result.items }
    ensures len { vec_len result ≡ vec_len works }
{
    let mut begun = room;
    for work in works {
        let of = Snapshot::of(&work);
        begun.push_reserved(begin(scope, of, make(work)));
    }
    begun
}

fn settle_all<Rt: Wait, K: Work<Rt>, F: FnOnce() -> WorkResult + Drop>(
    begun: Vec<Begun<Rt, K, F>>,
    room: Vec<Settled<Rt, K>>,
) -> Vec<Settled<Rt, K>>
    requires empty { room.items ≡ [] }
    requires room { vec_len begun ≤ vec_capacity room }
    requires callable { All (IsCallable F.pre) begun.items }
    ensures settled { AllZip (Settles F.post K.may_answer) begun.items result.items }
    ensures len { vec_len result ≡ vec_len begun }
{
    let mut settled = room;
    for work in begun {
        settled.push_reserved(work.settle());
    }
    settled
}

fn answer_all<Rt: Wait, K: Work<Rt>, H: Threads>(
    rt: &H,
    settled: Vec<Settled<Rt, K>>,
    room: Vec<WorkResult>,
) -> Vec<WorkResult>
    requires empty { room.items ≡ [] }
    requires room { vec_len settled ≤ vec_capacity room }
    ensures { AllZip (Answers K.may_answer) settled.items result.items }
{
    let mut answers = room;
    for work in settled {
        answers.push_reserved(work.answer(rt));
    }
    answers
}

// Room for this many items.
fn room_for<T>(alloc: Global, count: usize) -> Result<Vec<T>, EngineError>
    ensures ok { IfOk result (λ v. (v.items ≡ []) × (count ≤ vec_capacity v)) }
    ensures err { IfErr result (λ e. e ≡ EngineError.NoMemory) }
{
    match Vec::with_capacity(alloc, count) {
        Ok(room) => Ok(room),
        Err(_) => Err(EngineError::NoMemory),
    }
}

#[derive(Drop)]
struct WorkLists<Rt: Wait, K: Work<Rt>, F> {
    begun: Vec<Begun<Rt, K, F>>,
    settled: Vec<Settled<Rt, K>>,
    answers: Vec<WorkResult>,
}

impl<Rt: Wait, K: Work<Rt> + Drop, F: Drop> WorkLists<Rt, K, F> {
    fn for_works(alloc: Global, count: usize) -> Result<WorkLists<Rt, K, F>, EngineError>
        ensures begun { IfOk result (λ r. (r.begun.items ≡ []) × (count ≤ vec_capacity r.begun)) }
        ensures settled { IfOk result
            (λ r. (r.settled.items ≡ []) × (count ≤ vec_capacity r.settled)) }
        ensures answers { IfOk result
            (λ r. (r.answers.items ≡ []) × (count ≤ vec_capacity r.answers)) }
        ensures err { IfErr result (λ e. e ≡ EngineError.NoMemory) }
    {
        let begun = room_for(alloc, count)?;
        let settled = room_for(alloc, count)?;
        let answers = room_for(alloc, count)?;
        Ok(WorkLists {
            begun,
            settled,
            answers,
        })
    }
}

fn run_one<Rt: Wait, K: Work<Rt> + Drop>(rt: &Rt, mut work: K) -> WorkResult
    requires { K.is_fresh work }
    ensures { K.may_answer work result }
{
    work.run(rt)
}

fn run_in<
    's,
    E,
    Rt: Threads + Wait,
    K: Work<Rt> + Drop,
    F: FnOnce() -> WorkResult + Send + Drop + 's,
    G: Fn(K) -> F,
>(
    scope: &Scope<'s, E>,
    rt: &Rt,
    works: Vec<K>,
    make: G,
    lists: WorkLists<Rt, K, F>,
) -> Vec<WorkResult>
    requires begun { (lists.begun.items ≡ []) × (vec_len works ≤ vec_capacity lists.begun) }
    requires settled { (lists.settled.items ≡ []) × (vec_len works ≤ vec_capacity lists.settled) }
    requires answered { (lists.answers.items ≡ []) × (vec_len works ≤ vec_capacity lists.answers) }
    requires fresh { All K.is_fresh works.items }
    requires makes { MakesCalls K.is_fresh K.may_answer G.pre G.post F.pre F.post make }
    ensures { AllZip K.may_answer works.items result.items }
{
    let WorkLists {
        begun,
        settled,
        answers,
    } = lists;
    let begun = begin_all(scope, works, make, begun);
    let settled = settle_all(begun, settled);
    answer_all(rt, settled, answers)
}

/// Runs each work once, all at the same time, and waits for them. Each gets a thread; works without one are run here,
/// one after another, once the others were started. Returns each work's answer in its place.
///
/// Refused 1401 where there is no memory for the answers: no work was begun, and the works are dropped.
pub fn run_all<Rt: Threads + Wait + Sync, K: Work<Rt> + Send + Drop>(
    rt: &Rt,
    alloc: Global,
    works: Vec<K>,
) -> Result<Vec<Result<(), EngineError>>, EngineError>
    requires fresh { All K.is_fresh works.items }
    ensures each { IfOk result (λ answers. AllZip K.may_answer works.items answers.items) }
    ensures err { IfErr result (λ e. e ≡ EngineError.NoMemory) }
{
    thread::scope(
        thread::scope_env(),
        rt,
        |scope| -> Result<Vec<WorkResult>, EngineError>
            requires { All K.is_fresh works.items }
            ensures each { IfOk result (λ answers. AllZip K.may_answer works.items answers.items) }
            ensures err { IfErr result (λ e. e ≡ EngineError.NoMemory) }
        {
            let lists = WorkLists::for_works(alloc, works.len())?;
            Ok(run_in(scope, rt, works, |work| move || run_one(rt, work), lists))
        },
    )
}
