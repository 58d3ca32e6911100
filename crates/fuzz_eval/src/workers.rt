//! Stages at work: each with the scope inside its function's name, which is one for all elements.
ghost use Rattle.std.specs.Prelude.{◌≡◌, ◌≤◌, ◌+◌, ◌++◌, ◌∷◌, [], IfOk, OnOk};
ghost use Rattle.run_values.specs.Parts.{IsSum};
ghost use Rattle.flow_values.specs.Computed.{agree, is_true};
ghost use Rattle.flow_values.specs.Views.{AllKnown, IsKnown, stages_deep, step_of, steps_of};
ghost use Rattle.fuzz_eval.specs.Walks.{AllKnownWorkers, IsKnownWorker, worker_step, worker_steps, workers_deep};

use crate::nodes::{Body, body_of, element_scope};
use flow_values::{Scope, Stage, Value};
use fz_ast::{NoMemory, Nodes};
use std::alloc::Global;
use std::rc::Rc;

/// A function's body in the scope inside its name, and the rest of its stage.
#[derive(Drop)]
pub struct Worker {
    pub nodes: Rc<Nodes>,
    pub body: Body,
    pub inner: Scope,
    pub left: u32,
    pub keeps: Option<bool>,
}

// The stage at work.
fn worker_of(alloc: Global, stage: &Stage) -> Result<Worker, NoMemory>
    requires { IsKnown stage.now.function.value }
    ensures is { IfOk result (λ w. worker_step w ≡ step_of stage.now) }
    ensures known { IfOk result (λ w. IsKnownWorker w) }
    ensures deep { IfOk result (λ w. w.inner.deep ≡ stage.now.function.value.scope.deep + 2) }
{
    let function = &stage.function;
    let body = body_of(&function.nodes, function.lambda);
    let inner = element_scope(alloc, &function.nodes, &function.scope, body)?;
    let nodes = function.nodes.clone()?;
    Ok(Worker {
        nodes,
        body,
        inner,
        left: stage.left,
        keeps: stage.keeps,
    })
}

// One more at the end.
fn put(out: &mut Vec<Worker>, worker: Worker) -> Result<(), NoMemory>
    ensures { OnOk result (out.new.items ≡ out.old.items ++ worker ∷ []) }
{
    match out.push(worker) {
        Ok(()) => Ok(()),
        Err(_) => Err(NoMemory),
    }
}

/// Whether an answer is the truth of which elements are kept.
pub fn is_kept(answer: &Value, keep: bool) -> bool
    requires { IsSum answer.now.means }
    ensures { result ≡ agree keep (is_true answer.now.means) }
{
    if keep {
        answer.is_left()
    } else {
        !answer.is_left()
    }
}

/// The stages at work.
pub fn workers_of(alloc: Global, stages: &[Stage]) -> Result<Vec<Worker>, NoMemory>
    requires { AllKnown stages.now }
    ensures are { IfOk result (λ ws. worker_steps ws.items ≡ steps_of stages.now) }
    ensures known { IfOk result (λ ws. AllKnownWorkers ws.items) }
    ensures deep { IfOk result (λ ws. workers_deep 0 ws.items ≤ stages_deep 0 stages.now) }
{
    let mut out = Vec::new(alloc);
    for i in 0..stages.len() {
        let worker = worker_of(alloc, &stages[i])?;
        put(&mut out, worker)?;
    }
    Ok(out)
}
