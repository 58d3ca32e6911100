//! What rows of a table become behind the stages of a bag, a chunk at a time.
ghost use Rattle.std.specs.Prelude.{◌≡◌, ◌≤◌, ◌<◌, ◌+◌, ◌^◌, ◌&&◌, IfOk, IfSome, Some, false, get_or, length, ℕ};
ghost use Rattle.metric_values.specs.Cells.{row_at};
ghost use Rattle.flow_values.specs.Computed.{agree};
ghost use Rattle.flow_values.specs.Steps.{AllGo, Goes};
ghost use Rattle.flow_values.specs.Views.{AllKnown, IsKnown, closure_value, step_of, steps_of};
ghost use Rattle.row_kernels.specs.Flows.{ArePassed, AreImaged, AreJudged, AreRowsThere, AreStepped, IsChunkTotal, IsFlatTotal, IsLanesTotal, IsLongPassed};
ghost use Rattle.row_kernels.specs.Lanes.{IsLong};

use crate::columns::{blank, repeated_truth};
use crate::frames::only;
use crate::gather::{Gather, add_total, sum_of, there_in};
use crate::lanes::{Lanes, rows_from};
use crate::meant::lanes_of;
use flow_values::{Closure, Stage};
use fz_ast::{Arrow, Form, NoMemory};
use metric_values::Table;
use std::alloc::Global;
use std::rc::Rc;

const CHUNK: usize = 1024;

/// What the rows of a chunk are by now: for each whether it is still there, and its lane.
#[derive(Drop)]
pub struct Passed {
    pub lanes: Lanes,
    pub there: Vec<bool>,
}

// Rows of a table, before any stage.
fn rows_there(
    alloc: Global,
    table: &Rc<Table>,
    first: usize,
    len: usize,
) -> Result<Passed, NoMemory>
    requires within { first + len ≤ length table.now.value }
    requires below { first + len < 2 ^ 32 }
    ensures { IfOk result (AreRowsThere table.now.value first len) }
{
    let lanes = rows_from(table.clone()?, first, 0, len);
    let there = repeated_truth(alloc, true, len)?;
    Ok(Passed { lanes, there })
}

// What a function gives for each row, by terms at most `left` deep, if it is flat.
fn stage_lanes(
    alloc: Global,
    function: &Closure,
    left: u32,
    lanes: Lanes,
    len: usize,
) -> Result<Option<Lanes>, NoMemory>
    requires known { IsKnown function.now }
    requires long { IsLong len lanes }
    ensures { IfOk result (λ o. IfSome o (AreImaged (closure_value function.now) len lanes)) }
{
    let Form::Lambda(arrow, name, _, _, body) = &function.nodes.node(function.lambda).form else {
        return Ok(None);
    };
    let Arrow::Fn = arrow else {
        return Ok(None);
    };
    let frames = only(alloc, *name, lanes)?;
    lanes_of(
        alloc,
        &function.nodes,
        &frames,
        &function.scope,
        len,
        *body,
        left,
    )
}

// Whether what is told is what keeps a row.
fn says(told: bool, keep: bool) -> bool
    ensures { result ≡ agree keep told }
{
    if keep { told } else { !told }
}

// Those that were there and of which it is told.
#[inline(never)]
fn keep_both(out: &mut [bool], there: &[bool], told: &[bool], keep: bool)
    requires there_long { length there.now ≡ length out.old }
    requires told_long { length told.now ≡ length out.old }
    ensures len { length out.new ≡ length out.old }
    ensures each { (j : ℕ) → j < length out.old → get_or out.new j false ≡ (get_or there.now j false && agree keep (get_or told.now j false)) }
{
    for i in 0..out.len() {
        out[i] = there[i] && says(told[i], keep);
    }
}

// The rows of which the stage's function says `keep`.
fn judged(
    alloc: Global,
    stage: &Stage,
    keep: bool,
    passed: Passed,
    len: usize,
) -> Result<Option<Passed>, NoMemory>
    requires known { IsKnown stage.now.function.value }
    requires long { IsLongPassed len passed }
    ensures { IfOk result (λ o. IfSome o (AreJudged (step_of stage.now) keep len passed)) }
{
    let again = passed.lanes.copy()?;
    let Some(told) = stage_lanes(alloc, &stage.function, stage.left, again, len)? else {
        return Ok(None);
    };
    let Lanes::Truth(told) = told else {
        return Ok(None);
    };
    let mut there = blank(alloc, len)?;
    keep_both(&mut there, &passed.there, &told, keep);
    let lanes = passed.lanes;
    Ok(Some(Passed { lanes, there }))
}

// What the rows are behind one stage more, if its function is flat.
fn stepped(
    alloc: Global,
    stage: &Stage,
    passed: Passed,
    len: usize,
) -> Result<Option<Passed>, NoMemory>
    requires known { IsKnown stage.now.function.value }
    requires long { IsLongPassed len passed }
    ensures { IfOk result (λ o. IfSome o (AreStepped (step_of stage.now) len passed)) }
{
    match stage.keeps {
        Some(keep) => judged(alloc, stage, keep, passed, len),
        None => {
            let Some(lanes) = stage_lanes(alloc, &stage.function, stage.left, passed.lanes, len)?
            else {
                return Ok(None);
            };
            let there = passed.there;
            Ok(Some(Passed { lanes, there }))
        }
    }
}

/// What rows of a table, from a row on, become behind the stages, if the functions are flat.
pub fn pass_stages(
    alloc: Global,
    table: &Rc<Table>,
    first: usize,
    len: usize,
    stages: &[Stage],
) -> Result<Option<Passed>, NoMemory>
    requires within { first + len ≤ length table.now.value }
    requires below { first + len < 2 ^ 32 }
    requires known { AllKnown stages.now }
    requires goes { (j : ℕ) → j < len → Goes (steps_of stages.now) (Some (row_at table.now.value (first + j))) }
    ensures { IfOk result (λ o. IfSome o (ArePassed (steps_of stages.now) table.now.value first len)) }
{
    let mut rows = rows_there(alloc, table, first, len)?;
    for i in 0..stages.len() {
        let Some(more) = stepped(alloc, &stages[i], rows, len)? else {
            return Ok(None);
        };
        rows = more;
    }
    Ok(Some(rows))
}

// What is made of the rows that are there, if it can be made of their lanes.
fn lanes_total(
    alloc: Global,
    gather: Gather,
    rows: Passed,
    len: usize,
) -> Result<Option<i128>, NoMemory>
    requires { IsLongPassed len rows }
    ensures { IfOk result (λ o. IfSome o (IsLanesTotal gather len rows)) }
{
    match gather {
        Gather::Size => Ok(Some(there_in(&rows.there) as i128)),
        Gather::Sum(lo, hi) => {
            let Some(zs) = rows.lanes.numbers(alloc, len)? else {
                return Ok(None);
            };
            Ok(Some(sum_of(lo, hi, &zs, &rows.there)))
        }
    }
}

// What is made of rows of a table behind the stages, if the functions are flat.
fn chunk_total(
    alloc: Global,
    gather: Gather,
    table: &Rc<Table>,
    first: usize,
    len: usize,
    stages: &[Stage],
) -> Result<Option<i128>, NoMemory>
    requires within { first + len ≤ length table.now.value }
    requires below { first + len < 2 ^ 32 }
    requires known { AllKnown stages.now }
    requires goes { AllGo (steps_of stages.now) table.now.value }
    ensures { IfOk result (λ o. IfSome o (IsChunkTotal gather (steps_of stages.now) table.now.value first len)) }
{
    let Some(rows) = pass_stages(alloc, table, first, len, stages)? else {
        return Ok(None);
    };
    lanes_total(alloc, gather, rows, len)
}

/// What is made of the first rows of a table behind the stages, and how many rows those are: all, if the functions are flat.
pub fn flat_total(
    alloc: Global,
    gather: Gather,
    table: &Rc<Table>,
    stages: &[Stage],
) -> Result<(usize, i128), NoMemory>
    requires known { AllKnown stages.now }
    requires goes { AllGo (steps_of stages.now) table.now.value }
    ensures { IfOk result (λ r. IsFlatTotal gather (steps_of stages.now) table.now.value r.0 r.1) }
{
    let rows = table.len();
    let _ = table.width();
    let mut total: i128 = 0;
    for chunk in 0..rows / CHUNK + 1 {
        let first = (chunk * CHUNK).min(rows);
        let len = (rows - first).min(CHUNK);
        let Some(more) = chunk_total(alloc, gather, table, first, len, stages)? else {
            return Ok((first, total));
        };
        total = add_total(total, more)?;
    }
    Ok((rows, total))
}
