//! Values are shared by counted references, and never lead back to themselves.
ghost use Rattle.std.specs.Prelude.{◌≡◌, ◌<◌, ◌≤◌, ◌++◌, ◌∷◌, [], bytes_eq, length, max, suc, IfOk, IfSome, IsTrue};
ghost use Rattle.fz_ast.specs.Names.{text_of};
ghost use Rattle.fz_ast.specs.TermNodes.{term_at};
ghost use Rattle.metric_values.specs.Values.{NumV, TextV, UnitV, PairV, InlV, InrV, BangV, BagV, truth, value_of};
ghost use Rattle.metric_values.specs.Cells.{cell_at, columns_in, from_column, row_at};
ghost use Rattle.flow_values.specs.Founds.{plain_in, plain_of};
ghost use Rattle.run_values.specs.Parts.{IsBag, IsBangValue, IsClosure, IsNum, IsPair, IsSum, IsTextValue, banged_in, elements, first_in, number_in};
ghost use Rattle.run_values.specs.Parts.{number_or_none, second_in, side_in, text_in};
ghost use Rattle.flow_values.specs.Steps.{AllGo, all_through};
ghost use Rattle.flow_values.specs.Depths.{stage_deep};
ghost use Rattle.flow_values.specs.Views.{IsClosureAt, IsFlow, IsFunction, IsKnown, IsTextCell, closure_value, flow_of, function_of, strands_deep, text_bytes};

use crate::plain::{Plain, last_plain, plain_at};
use crate::stages::{all_staged, one_strand, put_all};
use fz_ast::{Name, NoMemory, Nodes, Text};
use metric_values::{Cell, Table};
use std::alloc::Global;
use std::marker::Model;
use std::rc::Rc;

/// A value. A contract sees the definition's, and how deep it is held.
#[cycle(value)]
#[derive(Drop)]
pub struct Value {
    form: Form,
}

#[cycle(value)]
#[derive(Drop)]
pub enum Form {
    Num(i64),
    Text(Rc<Text>),
    Unit,
    /// `inl ()` or `inr ()`
    Truth(bool),
    Pair(Rc<Both>),
    Inl(Rc<Value>),
    Inr(Rc<Value>),
    Bang(Rc<Value>),
    /// A row of a table from a column on, which isn't the last: column, row.
    Row(u16, u32, Rc<Table>),
    /// A text of a table: column, row.
    Cell(u16, u32, Rc<Table>),
    /// A bag, whose elements are made where it is walked.
    Bag(Rc<Flow>),
    Fun(Rc<Closure>),
}

/// Two values.
#[cycle(value)]
#[derive(Drop)]
pub struct Both {
    pub first: Value,
    pub second: Value,
}

/// The node of a function, and what its names stand for.
#[cycle(value)]
#[derive(Drop)]
pub struct Closure {
    pub nodes: Rc<Nodes>,
    pub lambda: u32,
    pub scope: Scope,
}

/// A bag: the elements of each strand.
#[cycle(value)]
#[derive(Drop)]
pub struct Flow {
    pub strands: Vec<Strand>,
}

/// Part of a bag: a table, and the stages that its rows pass.
#[cycle(value)]
#[derive(Drop)]
pub struct Strand {
    pub table: Rc<Table>,
    pub chain: Chain,
}

/// Stages, a counted cell for each, so that a chain with one stage more shares those before. A contract sees the steps, the first one
/// first, and how deep it is held.
#[cycle(value)]
pub struct Chain {
    pub(crate) end: End,
}

#[cycle(value)]
#[derive(Drop)]
pub enum End {
    /// No stages.
    Rows,
    /// The last stage, after the others.
    After(Rc<Joint>),
}

/// A stage, whether neither it nor one before it leaves elements out, and those before it.
#[cycle(value)]
#[derive(Drop)]
pub struct Joint {
    pub function: Rc<Closure>,
    pub left: u32,
    pub keeps: Option<bool>,
    pub maps: bool,
    pub before: Chain,
}

/// A function, the height within which its body has values, and whether it gives elements, or tells which are kept: those for which it
/// says this truth.
#[derive(Drop)]
pub struct Stage {
    pub function: Rc<Closure>,
    pub left: u32,
    pub keeps: Option<bool>,
}

/// Names and what they stand for, the innermost first. A contract sees the definition's environment, and how deep it is held.
#[cycle(value)]
pub struct Scope {
    pub(crate) link: Link,
}

#[cycle(value)]
#[derive(Drop)]
pub enum Link {
    End,
    More(Rc<Frame>),
    /// Two names for the halves of a pair.
    Halves(Rc<Halves>),
    /// One name, for an element of a bag.
    Element(Rc<Element>),
    /// The same, and inside it the two names for its halves.
    Opened(Rc<Element>),
}

#[cycle(value)]
#[derive(Drop)]
pub struct Frame {
    pub name: Name,
    pub value: Value,
    pub outer: Scope,
}

/// Two names, the second one innermost, and the pair whose halves they stand for. A half is made when its name is looked up.
#[cycle(value)]
#[derive(Drop)]
pub struct Halves {
    pub first: Name,
    pub second: Name,
    pub pair: Value,
    pub outer: Scope,
}

/// A name, what it stands for, and the names that the halves of that get where it is taken apart.
#[cycle(value)]
#[derive(Drop)]
pub struct Element {
    pub name: Name,
    pub first: Name,
    pub second: Name,
    pub value: Value,
    pub outer: Scope,
}

impl Model for Value {
    ghost use Rattle.flow_values.specs.Held.{Held};
    ghost use Rattle.flow_values.specs.Codes.{held_code};

    ghost Value = { Held };

    ghost coded = { held_code };

    ghost use Rattle.flow_values.specs.Views.{form_view, IsValueForm};

    ghost view = { λ a. form_view a.form };

    ghost invariant = { λ a. IsValueForm a.form };

    ghost size = { λ h. h.deep };

    ghost use Rattle.flow_values.specs.Falls.{form_falls};

    ghost size_decreases = { λ a h. form_falls a.form };
}

impl Model for Scope {
    ghost use Rattle.flow_values.specs.Held.{HeldScope};
    ghost use Rattle.flow_values.specs.Codes.{scope_code};

    ghost Value = { HeldScope };

    ghost coded = { scope_code };

    ghost use Rattle.flow_values.specs.Views.{link_view, IsScopeLink};

    ghost view = { λ a. link_view a.link };

    ghost invariant = { λ a. IsScopeLink a.link };

    ghost size = { λ s. s.deep };

    ghost use Rattle.std.proofs.Common.{arith};

    ghost size_decreases = { λ a h. Prim.grind (arith) };
}

impl Model for Chain {
    ghost use Rattle.flow_values.specs.Held.{HeldChain};
    ghost use Rattle.flow_values.specs.Codes.{chain_code};

    ghost Value = { HeldChain };

    ghost coded = { chain_code };

    ghost use Rattle.flow_values.specs.Views.{end_view, IsChainEnd};

    ghost view = { λ a. end_view a.end };

    ghost invariant = { λ a. IsChainEnd a.end };

    ghost size = { λ s. s.deep };

    ghost use Rattle.std.proofs.Common.{arith};

    ghost size_decreases = { λ a h. Prim.grind (arith) };
}

impl Drop for Chain {
    // By a loop, so that long chains take no stack.
    #[cycle(value)]
    fn drop(mut self) {
        loop {
            let Chain { end } = self;
            match end {
                End::Rows => return,
                End::After(rc) => {
                    let Some(joint) = Rc::into_inner(rc) else {
                        return
                    };
                    drop(joint.function);
                    self = joint.before;
                }
            }
        }
    }
}

impl Drop for Scope {
    // By a loop, so that long scopes take no stack.
    #[cycle(value)]
    fn drop(mut self) {
        loop {
            let Scope { link } = self;
            match link {
                Link::End => return,
                Link::More(rc) => {
                    let Some(frame) = Rc::into_inner(rc) else {
                        return
                    };
                    drop(frame.value);
                    self = frame.outer;
                }
                Link::Halves(rc) => {
                    let Some(halves) = Rc::into_inner(rc) else {
                        return
                    };
                    drop(halves.pair);
                    self = halves.outer;
                }
                Link::Element(rc) | Link::Opened(rc) => {
                    let Some(element) = Rc::into_inner(rc) else {
                        return
                    };
                    drop(element.value);
                    self = element.outer;
                }
            }
        }
    }
}

// A value in a place of its own.
fn shared(alloc: Global, value: Value) -> Result<Rc<Value>, NoMemory>
    ensures { IfOk result (λ rc. rc.value ≡ value) }
{
    match Rc::new(alloc, value) {
        Ok(rc) => Ok(rc),
        Err(_) => Err(NoMemory),
    }
}

// The cell of a row and a column.
fn cell(table: &Rc<Table>, i: u32, k: u16) -> Result<Value, NoMemory>
    requires row { i < length table.now.value }
    requires column { k < columns_in (row_at table.now.value i) }
    ensures means { IfOk result (λ v. v.means ≡ value_of (cell_at k (row_at table.now.value i))) }
    ensures deep { IfOk result (λ v. v.deep ≡ 0) }
{
    match table.cell(i, k as usize) {
        Cell::Number(z) => Ok(Value::num(z)),
        Cell::Text(_) => Ok(Value {
            form: Form::Cell(k, i, table.clone()?),
        }),
    }
}

// The bytes of a text of a table.
fn bytes_at(table: &Rc<Table>, i: u32, k: u16) -> &[u8]
    requires { IsTextCell table.now.value i k }
    ensures { result.now ≡ text_bytes (cell_at k (row_at table.now.value i)) }
{
    match table.cell(i, k as usize) {
        Cell::Text(bytes) => bytes,
        Cell::Number(_) => unreachable!(),
    }
}

// What stands in a row from a column on.
fn part(table: &Rc<Table>, i: usize, k: usize) -> Result<Value, NoMemory>
    requires row { i < length table.now.value }
    requires column { k < columns_in (row_at table.now.value i) }
    ensures means { IfOk result (λ v. v.means ≡ value_of (from_column k (row_at table.now.value i))) }
    ensures deep { IfOk result (λ v. v.deep ≡ 0) }
{
    let width = table.width();
    if k + 1 == width {
        return cell(table, i as u32, k as u16);
    }
    Ok(Value {
        form: Form::Row(k as u16, i as u32, table.clone()?),
    })
}

impl Value {
    pub fn num(z: i64) -> Value
        ensures means { result.means ≡ NumV z }
        ensures deep { result.deep ≡ 0 }
    {
        Value { form: Form::Num(z) }
    }

    pub fn unit() -> Value
        ensures means { result.means ≡ UnitV }
        ensures deep { result.deep ≡ 0 }
    {
        Value { form: Form::Unit }
    }

    pub fn truth(b: bool) -> Value
        ensures means { result.means ≡ truth b }
        ensures deep { result.deep ≡ 0 }
    {
        Value {
            form: Form::Truth(b),
        }
    }

    pub fn text(alloc: Global, text: Text) -> Result<Value, NoMemory>
        ensures means { IfOk result (λ v. v.means ≡ TextV (text_of text)) }
        ensures deep { IfOk result (λ v. v.deep ≡ 0) }
    {
        match Rc::new(alloc, text) {
            Ok(rc) => Ok(Value {
                form: Form::Text(rc),
            }),
            Err(_) => Err(NoMemory),
        }
    }

    pub fn pair(alloc: Global, first: Value, second: Value) -> Result<Value, NoMemory>
        ensures means { IfOk result (λ v. v.means ≡ PairV first.means second.means) }
        ensures deep { IfOk result (λ v. v.deep ≡ suc (max first.deep second.deep)) }
    {
        match Rc::new(alloc, Both { first, second }) {
            Ok(rc) => Ok(Value {
                form: Form::Pair(rc),
            }),
            Err(_) => Err(NoMemory),
        }
    }

    pub fn inl(alloc: Global, value: Value) -> Result<Value, NoMemory>
        ensures means { IfOk result (λ v. v.means ≡ InlV value.means) }
        ensures deep { IfOk result (λ v. v.deep ≡ suc value.deep) }
    {
        let rc = shared(alloc, value)?;
        Ok(Value {
            form: Form::Inl(rc),
        })
    }

    pub fn inr(alloc: Global, value: Value) -> Result<Value, NoMemory>
        ensures means { IfOk result (λ v. v.means ≡ InrV value.means) }
        ensures deep { IfOk result (λ v. v.deep ≡ suc value.deep) }
    {
        let rc = shared(alloc, value)?;
        Ok(Value {
            form: Form::Inr(rc),
        })
    }

    pub fn bang(alloc: Global, value: Value) -> Result<Value, NoMemory>
        ensures means { IfOk result (λ v. v.means ≡ BangV value.means) }
        ensures deep { IfOk result (λ v. v.deep ≡ suc value.deep) }
    {
        let rc = shared(alloc, value)?;
        Ok(Value {
            form: Form::Bang(rc),
        })
    }

    /// The bag of these strands' elements.
    pub(crate) fn bag(alloc: Global, strands: Vec<Strand>) -> Result<Value, NoMemory>
        requires { IsFlow strands.items }
        ensures means { IfOk result (λ v. v.means ≡ BagV (flow_of strands.items)) }
        ensures deep { IfOk result (λ v. v.deep ≡ suc (strands_deep strands.items)) }
    {
        match Rc::new(alloc, Flow { strands }) {
            Ok(rc) => Ok(Value {
                form: Form::Bag(rc),
            }),
            Err(_) => Err(NoMemory),
        }
    }

    /// The bag with no elements.
    pub fn no_elements(alloc: Global) -> Result<Value, NoMemory>
        ensures means { IfOk result (λ v. v.means ≡ BagV []) }
        ensures deep { IfOk result (λ v. v.deep ≡ 1) }
    {
        Value::bag(alloc, Vec::new(alloc))
    }

    /// The bag of a table's rows.
    pub fn table(alloc: Global, table: &Table) -> Result<Value, NoMemory>
        ensures { IfOk result (λ v. v.means ≡ BagV table.now) }
    {
        match Rc::new(alloc, table.copy()?) {
            Ok(rc) => Value::bag(alloc, one_strand(alloc, rc)?),
            Err(_) => Err(NoMemory),
        }
    }

    /// The bag of what a function gives for the elements, or of those for which it says a truth.
    pub fn staged(
        &self,
        alloc: Global,
        function: &Value,
        left: u32,
        keeps: Option<bool>,
    ) -> Result<Value, NoMemory>
        requires bag { IsBag self.now.means }
        requires function { IsClosure function.now.means }
        requires goes { AllGo (record { function = function.now.means; left = left; keeps = keeps } ∷ []) (elements self.now.means) }
        ensures means { IfOk result
            (λ v. v.means ≡ BagV (all_through (record { function = function.now.means; left = left; keeps = keeps } ∷ []) (elements self.now.means))) }
        ensures deep { IfOk result (λ v. v.deep ≤ suc (stage_deep function.now.deep self.now.deep left)) }
    {
        let closure = function.shared_function();
        let strands = all_staged(alloc, &self.flow().strands, closure, left, keeps)?;
        Value::bag(alloc, strands)
    }

    /// The elements of both bags.
    pub fn union(&self, alloc: Global, other: &Value) -> Result<Value, NoMemory>
        requires bag { IsBag self.now.means }
        requires other_bag { IsBag other.now.means }
        ensures means { IfOk result (λ v. v.means ≡ BagV (elements self.now.means ++ elements other.now.means)) }
        ensures deep { IfOk result (λ v. v.deep ≤ max self.now.deep other.now.deep) }
    {
        let mut strands = Vec::new(alloc);
        put_all(&mut strands, &self.flow().strands)?;
        put_all(&mut strands, &other.flow().strands)?;
        Value::bag(alloc, strands)
    }

    /// The function at a node, with what its names stand for.
    pub fn closure(
        alloc: Global,
        nodes: Rc<Nodes>,
        lambda: u32,
        scope: Scope,
    ) -> Result<Value, NoMemory>
        requires known { lambda < length nodes.value.terms }
        requires function { IsFunction (term_at nodes.value.terms lambda) }
        ensures means { IfOk result (λ v. v.means ≡ function_of (term_at nodes.value.terms lambda) scope.means) }
        ensures deep { IfOk result (λ v. v.deep ≡ suc scope.deep) }
    {
        match Rc::new(
            alloc,
            Closure {
                nodes,
                lambda,
                scope,
            },
        ) {
            Ok(rc) => Ok(Value {
                form: Form::Fun(rc),
            }),
            Err(_) => Err(NoMemory),
        }
    }

    /// An equal value, which shares what this one has inside.
    pub fn copy(&self) -> Result<Value, NoMemory>
        ensures { IfOk result (λ v. v ≡ self.now) }
    {
        let form = match &self.form {
            Form::Num(z) => Form::Num(*z),
            Form::Text(rc) => Form::Text(rc.clone()?),
            Form::Unit => Form::Unit,
            Form::Truth(b) => Form::Truth(*b),
            Form::Pair(rc) => Form::Pair(rc.clone()?),
            Form::Inl(rc) => Form::Inl(rc.clone()?),
            Form::Inr(rc) => Form::Inr(rc.clone()?),
            Form::Bang(rc) => Form::Bang(rc.clone()?),
            Form::Row(k, i, rc) => Form::Row(*k, *i, rc.clone()?),
            Form::Cell(k, i, rc) => Form::Cell(*k, *i, rc.clone()?),
            Form::Bag(rc) => Form::Bag(rc.clone()?),
            Form::Fun(rc) => Form::Fun(rc.clone()?),
        };
        Ok(Value { form })
    }

    /// The number.
    pub fn number(&self) -> i64
        requires { IsNum self.now.means }
        ensures { result ≡ number_in self.now.means }
    {
        match &self.form {
            Form::Num(z) => *z,
            _ => unreachable!(),
        }
    }

    /// The bytes of a text.
    pub fn bytes(&self) -> &[u8]
        requires { IsTextValue self.now.means }
        ensures { result.now ≡ text_in self.now.means }
    {
        match &self.form {
            Form::Text(text) => text.as_bytes(),
            Form::Cell(k, i, rc) => bytes_at(rc, *i, *k),
            _ => unreachable!(),
        }
    }

    /// Whether two texts have the same bytes.
    pub fn same_text(&self, other: &Value) -> bool
        requires text { IsTextValue self.now.means }
        requires other_text { IsTextValue other.now.means }
        ensures { result ≡ bytes_eq (text_in self.now.means) (text_in other.now.means) }
    {
        self.bytes() == other.bytes()
    }

    /// The first half of a pair.
    pub fn first(&self) -> Result<Value, NoMemory>
        requires { IsPair self.now.means }
        ensures means { IfOk result (λ v. v.means ≡ first_in self.now.means) }
        ensures deep { IfOk result (λ v. v.deep ≤ self.now.deep) }
    {
        match &self.form {
            Form::Pair(rc) => rc.first.copy(),
            Form::Row(k, i, rc) => cell(rc, *i, *k),
            _ => unreachable!(),
        }
    }

    /// The second half of a pair.
    pub fn second(&self) -> Result<Value, NoMemory>
        requires { IsPair self.now.means }
        ensures means { IfOk result (λ v. v.means ≡ second_in self.now.means) }
        ensures deep { IfOk result (λ v. v.deep ≤ self.now.deep) }
    {
        match &self.form {
            Form::Pair(rc) => rc.second.copy(),
            Form::Row(k, i, rc) => part(rc, *i as usize, *k as usize + 1),
            _ => unreachable!(),
        }
    }

    /// What a bang holds.
    pub fn banged(&self) -> Result<Value, NoMemory>
        requires { IsBangValue self.now.means }
        ensures means { IfOk result (λ v. v.means ≡ banged_in self.now.means) }
        ensures deep { IfOk result (λ v. v.deep ≤ self.now.deep) }
    {
        match &self.form {
            Form::Bang(rc) => rc.copy(),
            _ => unreachable!(),
        }
    }

    /// Whether an injection is the left one.
    pub fn is_left(&self) -> bool
        requires { IsSum self.now.means }
        ensures left { IsTrue result → self.now.means ≡ InlV (side_in self.now.means) }
        ensures right { (IsTrue result → ⊥) → self.now.means ≡ InrV (side_in self.now.means) }
    {
        match &self.form {
            Form::Truth(b) => *b,
            Form::Inl(_) => true,
            Form::Inr(_) => false,
            _ => unreachable!(),
        }
    }

    /// What an injection holds.
    pub fn side(&self) -> Result<Value, NoMemory>
        requires { IsSum self.now.means }
        ensures means { IfOk result (λ v. v.means ≡ side_in self.now.means) }
        ensures deep { IfOk result (λ v. v.deep ≤ self.now.deep) }
    {
        match &self.form {
            Form::Truth(_) => Ok(Value::unit()),
            Form::Inl(rc) | Form::Inr(rc) => rc.copy(),
            _ => unreachable!(),
        }
    }

    /// A bag's strands.
    pub fn flow(&self) -> &Flow
        requires { IsBag self.now.means }
        ensures is { self.now.means ≡ BagV (flow_of result.now.strands.items) }
        ensures walked { IsFlow result.now.strands.items }
        ensures deep { self.now.deep ≡ suc (strands_deep result.now.strands.items) }
    {
        match &self.form {
            Form::Bag(rc) => rc,
            _ => unreachable!(),
        }
    }
}

impl Value {
    /// A row of a table.
    pub fn row(table: &Rc<Table>, i: usize) -> Result<Value, NoMemory>
        requires { i < length table.now.value }
        ensures means { IfOk result (λ v. v.means ≡ value_of (row_at table.now.value i)) }
        ensures deep { IfOk result (λ v. v.deep ≡ 0) }
    {
        part(table, i, 0)
    }
}

impl Value {
    // A function in its place.
    fn shared_function(&self) -> &Rc<Closure>
        requires { IsClosure self.now.means }
        ensures is { self.now.means ≡ closure_value result.now.value }
        ensures known { IsKnown result.now.value }
        ensures deep { result.now.value.scope.deep < self.now.deep }
    {
        match &self.form {
            Form::Fun(rc) => rc,
            _ => unreachable!(),
        }
    }

    /// The node of a function, and what its names stand for.
    pub fn function(&self) -> &Closure
        requires { IsClosure self.now.means }
        ensures is { self.now.means ≡ closure_value result.now }
        ensures known { IsKnown result.now }
        ensures deep { result.now.scope.deep < self.now.deep }
    {
        match &self.form {
            Form::Fun(rc) => rc,
            _ => unreachable!(),
        }
    }

    /// Whether this is a function.
    pub fn is_function(&self) -> bool
        ensures yes { IsTrue result → IsClosure self.now.means }
        ensures no { (IsTrue result → ⊥) → IsClosure self.now.means → ⊥ }
    {
        matches!(&self.form, Form::Fun(_))
    }

    /// The number, if this is one.
    pub fn as_number(&self) -> Option<i64>
        ensures { result ≡ number_or_none self.now.means }
    {
        match &self.form {
            Form::Num(z) => Some(*z),
            _ => None,
        }
    }

    /// The node of a function, and what its names stand for, if this is one.
    pub(crate) fn as_function(&self) -> Option<&Closure>
        ensures { IfSome result (λ c. IsClosureAt c.now self.now.means) }
    {
        match &self.form {
            Form::Fun(rc) => Some(rc),
            _ => None,
        }
    }

    /// Whether this is a pair.
    pub(crate) fn is_pair(&self) -> bool
        ensures { IsTrue result → IsPair self.now.means }
    {
        matches!(&self.form, Form::Pair(_) | Form::Row(_, _, _))
    }

    /// The number or text that this is.
    pub fn plain(&self) -> Plain<'_>
        ensures { plain_of result ≡ plain_in self.now.means }
    {
        match &self.form {
            Form::Num(z) => Plain::Num(*z),
            Form::Text(text) => Plain::Text(text.as_bytes()),
            Form::Cell(k, i, rc) => Plain::Text(bytes_at(rc, *i, *k)),
            _ => Plain::Other,
        }
    }

    // The number or text that a pair's first half is.
    pub(crate) fn first_plain(&self) -> Plain<'_>
        requires { IsPair self.now.means }
        ensures { plain_of result ≡ plain_in (first_in self.now.means) }
    {
        match &self.form {
            Form::Pair(rc) => rc.first.plain(),
            Form::Row(k, i, rc) => plain_at(rc, *i, *k as usize),
            _ => unreachable!(),
        }
    }

    // The number or text that a pair's second half is.
    pub(crate) fn second_plain(&self) -> Plain<'_>
        requires { IsPair self.now.means }
        ensures { plain_of result ≡ plain_in (second_in self.now.means) }
    {
        match &self.form {
            Form::Pair(rc) => rc.second.plain(),
            Form::Row(k, i, rc) => last_plain(rc, *i, *k as usize + 1),
            _ => unreachable!(),
        }
    }
}
