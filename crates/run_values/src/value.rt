//! Values are shared by counted references, and never lead back to themselves. None is a function.
ghost use Rattle.std.specs.Prelude.{◌≡◌, ◌<◌, bytes_eq, length, IfOk, IsTrue};
ghost use Rattle.std.proofs.Common.{get_or};
ghost use Rattle.fz_ast.specs.Names.{text_of};
ghost use Rattle.metric_values.specs.Values.{NumV, TextV, UnitV, PairV, InlV, InrV, BangV, BagV, UnitF, truth, value_of};
ghost use Rattle.run_values.specs.Flats.{AllFlat, flat_of, flats_of};
ghost use Rattle.run_values.specs.Looks.{look_of};
ghost use Rattle.run_values.specs.Parts.{IsBag, IsBangValue, IsNum, IsPair, IsSum, IsTextValue, banged_in, elements, first_in, number_in};
ghost use Rattle.run_values.specs.Parts.{number_or_none, second_in, side_in, text_in};

use crate::look::{Look, Part};
use fz_ast::{NoMemory, Text};
use std::alloc::Global;
use std::marker::Model;
use std::rc::Rc;

/// A value. A contract sees the definition's.
#[cycle(value)]
#[derive(Drop)]
pub struct Value {
    form: Form,
}

#[cycle(value)]
#[derive(Drop)]
pub enum Form {
    Num(i64),
    Text(Rc<Text>),
    Unit,
    /// `inl ()` or `inr ()`
    Truth(bool),
    Pair(Rc<Both>),
    Inl(Rc<Value>),
    Inr(Rc<Value>),
    Bang(Rc<Value>),
    /// A bag.
    List(Rc<Vec<Value>>),
}

/// Two values.
#[cycle(value)]
#[derive(Drop)]
pub struct Both {
    pub first: Value,
    pub second: Value,
}

impl Model for Value {
    ghost use Rattle.metric_values.specs.Values.{Value as Meant};
    ghost use Rattle.run_values.specs.Codes.{value_code};
    ghost use Rattle.run_values.specs.Sizes.{value_size};

    ghost Value = { Meant };

    ghost coded = { value_code };

    ghost use Rattle.run_values.specs.Views.{form_view, IsValueForm};

    ghost view = { λ a. form_view a.form };

    ghost invariant = { λ a. IsValueForm a.form };

    ghost size = { value_size };

    ghost use Rattle.run_values.specs.Falls.{form_falls};

    ghost size_decreases = { λ a h. form_falls a.form h };
}

// A value in a place of its own.
fn shared(alloc: Global, value: Value) -> Result<Rc<Value>, NoMemory>
    ensures { IfOk result (λ rc. rc.value ≡ value) }
{
    match Rc::new(alloc, value) {
        Ok(rc) => Ok(rc),
        Err(_) => Err(NoMemory),
    }
}

impl Value {
    pub fn num(z: i64) -> Value
        ensures { result ≡ NumV z }
    {
        Value { form: Form::Num(z) }
    }

    pub fn unit() -> Value
        ensures { result ≡ UnitV }
    {
        Value { form: Form::Unit }
    }

    pub fn truth(b: bool) -> Value
        ensures { result ≡ truth b }
    {
        Value {
            form: Form::Truth(b),
        }
    }

    pub fn text(alloc: Global, text: Text) -> Result<Value, NoMemory>
        ensures { IfOk result (λ v. v ≡ TextV (text_of text)) }
    {
        match Rc::new(alloc, text) {
            Ok(rc) => Ok(Value {
                form: Form::Text(rc),
            }),
            Err(_) => Err(NoMemory),
        }
    }

    pub fn pair(alloc: Global, first: Value, second: Value) -> Result<Value, NoMemory>
        ensures { IfOk result (λ v. v ≡ PairV first second) }
    {
        match Rc::new(alloc, Both { first, second }) {
            Ok(rc) => Ok(Value {
                form: Form::Pair(rc),
            }),
            Err(_) => Err(NoMemory),
        }
    }

    pub fn inl(alloc: Global, value: Value) -> Result<Value, NoMemory>
        ensures { IfOk result (λ v. v ≡ InlV value) }
    {
        let rc = shared(alloc, value)?;
        Ok(Value {
            form: Form::Inl(rc),
        })
    }

    pub fn inr(alloc: Global, value: Value) -> Result<Value, NoMemory>
        ensures { IfOk result (λ v. v ≡ InrV value) }
    {
        let rc = shared(alloc, value)?;
        Ok(Value {
            form: Form::Inr(rc),
        })
    }

    pub fn bang(alloc: Global, value: Value) -> Result<Value, NoMemory>
        ensures { IfOk result (λ v. v ≡ BangV value) }
    {
        let rc = shared(alloc, value)?;
        Ok(Value {
            form: Form::Bang(rc),
        })
    }

    /// The bag of these values.
    pub fn list(alloc: Global, items: Vec<Value>) -> Result<Value, NoMemory>
        requires { AllFlat items.items }
        ensures { IfOk result (λ v. v ≡ BagV (flats_of items.items)) }
    {
        match Rc::new(alloc, items) {
            Ok(rc) => Ok(Value {
                form: Form::List(rc),
            }),
            Err(_) => Err(NoMemory),
        }
    }

    /// An equal value, which shares what this one has inside.
    pub fn copy(&self) -> Result<Value, NoMemory>
        ensures { IfOk result (λ v. v ≡ self.now) }
    {
        let form = match &self.form {
            Form::Num(z) => Form::Num(*z),
            Form::Text(rc) => Form::Text(rc.clone()?),
            Form::Unit => Form::Unit,
            Form::Truth(b) => Form::Truth(*b),
            Form::Pair(rc) => Form::Pair(rc.clone()?),
            Form::Inl(rc) => Form::Inl(rc.clone()?),
            Form::Inr(rc) => Form::Inr(rc.clone()?),
            Form::Bang(rc) => Form::Bang(rc.clone()?),
            Form::List(rc) => Form::List(rc.clone()?),
        };
        Ok(Value { form })
    }

    /// The number.
    pub fn number(&self) -> i64
        requires { IsNum self.now }
        ensures { result ≡ number_in self.now }
    {
        match &self.form {
            Form::Num(z) => *z,
            _ => unreachable!(),
        }
    }

    // The bytes of a text.
    fn bytes(&self) -> &[u8]
        requires { IsTextValue self.now }
        ensures { result.now ≡ text_in self.now }
    {
        match &self.form {
            Form::Text(text) => text.as_bytes(),
            _ => unreachable!(),
        }
    }

    /// Whether two texts have the same bytes.
    pub fn same_text(&self, other: &Value) -> bool
        requires text { IsTextValue self.now }
        requires other_text { IsTextValue other.now }
        ensures { result ≡ bytes_eq (text_in self.now) (text_in other.now) }
    {
        self.bytes() == other.bytes()
    }

    /// The first half of a pair.
    pub fn first(&self) -> Result<Value, NoMemory>
        requires { IsPair self.now }
        ensures { IfOk result (λ v. v ≡ first_in self.now) }
    {
        match &self.form {
            Form::Pair(rc) => rc.first.copy(),
            _ => unreachable!(),
        }
    }

    /// The second half of a pair.
    pub fn second(&self) -> Result<Value, NoMemory>
        requires { IsPair self.now }
        ensures { IfOk result (λ v. v ≡ second_in self.now) }
    {
        match &self.form {
            Form::Pair(rc) => rc.second.copy(),
            _ => unreachable!(),
        }
    }

    /// What a bang holds.
    pub fn banged(&self) -> Result<Value, NoMemory>
        requires { IsBangValue self.now }
        ensures { IfOk result (λ v. v ≡ banged_in self.now) }
    {
        match &self.form {
            Form::Bang(rc) => rc.copy(),
            _ => unreachable!(),
        }
    }

    /// Whether an injection is the left one.
    pub fn is_left(&self) -> bool
        requires { IsSum self.now }
        ensures left { IsTrue result → self.now ≡ InlV (side_in self.now) }
        ensures right { (IsTrue result → ⊥) → self.now ≡ InrV (side_in self.now) }
    {
        match &self.form {
            Form::Truth(b) => *b,
            Form::Inl(_) => true,
            Form::Inr(_) => false,
            _ => unreachable!(),
        }
    }

    /// What an injection holds.
    pub fn side(&self) -> Result<Value, NoMemory>
        requires { IsSum self.now }
        ensures { IfOk result (λ v. v ≡ side_in self.now) }
    {
        match &self.form {
            Form::Truth(_) => Ok(Value::unit()),
            Form::Inl(rc) | Form::Inr(rc) => rc.copy(),
            _ => unreachable!(),
        }
    }

    /// How many elements a bag has.
    pub fn size(&self) -> usize
        requires { IsBag self.now }
        ensures { result ≡ length (elements self.now) }
    {
        match &self.form {
            Form::List(rc) => rc.len(),
            _ => unreachable!(),
        }
    }

    /// An element of a bag.
    pub fn element(&self, i: usize) -> Result<Value, NoMemory>
        requires bag { IsBag self.now }
        requires within { i < length (elements self.now) }
        ensures { IfOk result (λ v. v ≡ value_of (get_or (elements self.now) i UnitF)) }
    {
        match &self.form {
            Form::List(rc) => rc[i].copy(),
            _ => unreachable!(),
        }
    }
}

impl Value {
    /// The number, if this is one.
    pub fn as_number(&self) -> Option<i64>
        ensures { result ≡ number_or_none self.now }
    {
        match &self.form {
            Form::Num(z) => Some(*z),
            _ => None,
        }
    }
}

impl Value {
    /// The outermost form of an element.
    pub fn look(&self) -> Look<'_>
        ensures { look_of result ≡ flat_of self.now }
    {
        match &self.form {
            Form::Num(z) => Look::Num(*z),
            Form::Text(text) => Look::Text(text.as_bytes()),
            Form::Truth(true) => Look::Inl(Part::Unit),
            Form::Truth(false) => Look::Inr(Part::Unit),
            Form::Pair(rc) => Look::Pair(Part::Whole(&rc.first), Part::Whole(&rc.second)),
            Form::Inl(rc) => Look::Inl(Part::Whole(rc)),
            Form::Inr(rc) => Look::Inr(Part::Whole(rc)),
            Form::Bang(rc) => Look::Bang(Part::Whole(rc)),
            Form::Unit | Form::List(_) => Look::Unit,
        }
    }
}
