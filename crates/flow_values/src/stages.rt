//! Chains with one stage more, strands put after others, and a strand's stages laid out.
ghost use Rattle.std.specs.Prelude.{◌≡◌, ◌++◌, ◌∷◌, [], IfOk, IsTrue, None, OnOk, reverse as reversed};
ghost use Rattle.flow_values.specs.Depths.{stage_deep};
ghost use Rattle.flow_values.specs.Steps.{AreAllMaps, Step};
ghost use Rattle.flow_values.specs.Strands.{AreAppended, AreStaged, IsLaidOut, IsLonger, IsSameStage, IsSameStrand};
ghost use Rattle.flow_values.specs.Views.{AllKnown, IsFlow, IsKnown, flow_of, stages_deep, step_by, steps_of};

use crate::value::{Chain, Closure, End, Joint, Stage, Strand};
use fz_ast::NoMemory;
use metric_values::Table;
use std::alloc::Global;
use std::rc::Rc;

/// A table, and the stages that its rows pass, the first one first.
#[derive(Drop)]
pub struct Branch {
    pub table: Rc<Table>,
    pub stages: Vec<Stage>,
}

// One stage more at the end.
fn put(out: &mut Vec<Stage>, stage: Stage) -> Result<(), NoMemory>
    ensures { OnOk result (out.new.items ≡ out.old.items ++ stage ∷ []) }
{
    match out.push(stage) {
        Ok(()) => Ok(()),
        Err(_) => Err(NoMemory),
    }
}

// One strand more at the end.
fn put_strand(out: &mut Vec<Strand>, strand: Strand) -> Result<(), NoMemory>
    ensures { OnOk result (out.new.items ≡ out.old.items ++ strand ∷ []) }
{
    match out.push(strand) {
        Ok(()) => Ok(()),
        Err(_) => Err(NoMemory),
    }
}

// A stage of this function.
fn stage_of(function: &Rc<Closure>, left: u32, keeps: Option<bool>) -> Result<Stage, NoMemory>
    ensures { IfOk result (λ s. IsSameStage s function.now.value left keeps) }
{
    Ok(Stage {
        function: function.clone()?,
        left,
        keeps,
    })
}

// Whether a stage gives elements, and doesn't tell which are kept.
fn gives(keeps: Option<bool>) -> bool
    ensures { IsTrue result → keeps ≡ None }
{
    matches!(keeps, None)
}

impl Chain {
    // No stages.
    fn none() -> Chain
        ensures steps { result.steps ≡ [] }
        ensures deep { result.deep ≡ 0 }
    {
        Chain { end: End::Rows }
    }

    // Whether no stage leaves elements out.
    fn has_only_maps(&self) -> bool
        ensures { IsTrue result → AreAllMaps self.now.steps }
    {
        match &self.end {
            End::Rows => true,
            End::After(rc) => rc.maps,
        }
    }

    // Whether no stage leaves elements out, nor one more of this kind.
    fn has_only_maps_with(&self, keeps: Option<bool>) -> bool
        ensures { (s : Step) → s.keeps ≡ keeps → IsTrue result → AreAllMaps (self.now.steps ++ s ∷ []) }
    {
        if !gives(keeps) {
            return false;
        }
        self.has_only_maps()
    }

    // An equal one, which shares the stages.
    fn copy(&self) -> Result<Chain, NoMemory>
        ensures { IfOk result (λ c. c ≡ self.now) }
    {
        let end = match &self.end {
            End::Rows => End::Rows,
            End::After(rc) => End::After(rc.clone()?),
        };
        Ok(Chain { end })
    }

    // The chain with one stage more.
    fn longer(
        &self,
        alloc: Global,
        function: &Rc<Closure>,
        left: u32,
        keeps: Option<bool>,
    ) -> Result<Chain, NoMemory>
        requires { IsKnown function.now.value }
        ensures steps { IfOk result (λ c. c.steps ≡ self.now.steps ++ step_by function.now.value left keeps ∷ []) }
        ensures deep { IfOk result (λ c. c.deep ≡ stage_deep function.now.value.scope.deep self.now.deep left) }
    {
        let joint = Joint {
            function: function.clone()?,
            left,
            keeps,
            maps: self.has_only_maps_with(keeps),
            before: self.copy()?,
        };
        match Rc::new(alloc, joint) {
            Ok(rc) => Ok(Chain {
                end: End::After(rc),
            }),
            Err(_) => Err(NoMemory),
        }
    }
}

// A chain's stages, the last one first.
fn backwards(alloc: Global, chain: &Chain) -> Result<Vec<Stage>, NoMemory>
    ensures is { IfOk result (λ out. steps_of (reversed out.items) ≡ chain.now.steps) }
    ensures known { IfOk result (λ out. AllKnown (reversed out.items)) }
    ensures deep { IfOk result (λ out. stages_deep 0 (reversed out.items) ≡ chain.now.deep) }
{
    let mut out = Vec::new(alloc);
    let mut at = chain;
    while let End::After(rc) = &at.end {
        let stage = stage_of(&rc.function, rc.left, rc.keeps)?;
        put(&mut out, stage)?;
        at = &rc.before;
    }
    Ok(out)
}

impl Strand {
    // The same strand once more.
    fn again(&self) -> Result<Strand, NoMemory>
        ensures { IfOk result (λ s. IsSameStrand s self.now) }
    {
        let table = self.table.clone()?;
        let chain = self.chain.copy()?;
        Ok(Strand { table, chain })
    }

    // The strand with one stage more.
    fn longer(
        &self,
        alloc: Global,
        function: &Rc<Closure>,
        left: u32,
        keeps: Option<bool>,
    ) -> Result<Strand, NoMemory>
        requires { IsKnown function.now.value }
        ensures { IfOk result (λ s. IsLonger s self.now function.now.value left keeps) }
    {
        let table = self.table.clone()?;
        let chain = self.chain.longer(alloc, function, left, keeps)?;
        Ok(Strand { table, chain })
    }

    /// Whether no stage leaves elements out.
    pub fn has_only_maps(&self) -> bool
        ensures { IsTrue result → AreAllMaps self.now.chain.steps }
    {
        self.chain.has_only_maps()
    }

    /// The branch, whose stages stand in a row.
    pub fn laid_out(&self, alloc: Global) -> Result<Branch, NoMemory>
        ensures { IfOk result (λ b. IsLaidOut b self.now) }
    {
        let table = self.table.clone()?;
        let mut stages = backwards(alloc, &self.chain)?;
        stages.reverse();
        Ok(Branch { table, stages })
    }
}

/// These strands once more, each with one stage more.
pub(crate) fn all_staged(
    alloc: Global,
    strands: &[Strand],
    function: &Rc<Closure>,
    left: u32,
    keeps: Option<bool>,
) -> Result<Vec<Strand>, NoMemory>
    requires { IsKnown function.now.value }
    ensures { IfOk result (λ out. AreStaged function.now.value left keeps strands.now out.items) }
{
    let mut out = Vec::new(alloc);
    for i in 0..strands.len() {
        let strand = strands[i].longer(alloc, function, left, keeps)?;
        put_strand(&mut out, strand)?;
    }
    Ok(out)
}

/// These strands once more, at the end.
pub(crate) fn put_all(out: &mut Vec<Strand>, strands: &[Strand]) -> Result<(), NoMemory>
    ensures { OnOk result (AreAppended out.old.items strands.now out.new.items) }
{
    for i in 0..strands.len() {
        let strand = strands[i].again()?;
        put_strand(out, strand)?;
    }
    Ok(())
}

/// The one strand of a table's rows.
pub(crate) fn one_strand(alloc: Global, table: Rc<Table>) -> Result<Vec<Strand>, NoMemory>
    ensures walked { IfOk result (λ out. IsFlow out.items) }
    ensures rows { IfOk result (λ out. flow_of out.items ≡ table.value) }
{
    let mut strands = Vec::new(alloc);
    let chain = Chain::none();
    put_strand(&mut strands, Strand { table, chain })?;
    Ok(strands)
}
