//! What its rule gives a node: a type, and a number at each name.
ghost use Rattle.std.specs.Prelude.{◌≡◌, Some};
ghost use Rattle.derivation_rows.specs.declared.shape.Shape.TheVariants.{Known, Of, Truth, Unlimited};

use crate::numbers::Numbers;
use crate::shape::Shape;
use fz_ast::TypeForm;

/// A node's type and its numbers.
#[derive(Clone, Copy)]
pub struct Row {
    pub shape: Shape,
    pub numbers: Numbers,
}

/// A part: the place of its line, and the line's type.
#[derive(Clone, Copy)]
pub struct Part {
    pub at: usize,
    pub ty: u32,
}

/// The type of this number.
pub fn known(t: u32, numbers: Numbers) -> Option<Row>
    ensures { result ≡ Some (record { shape = Known t; numbers = numbers }) }
{
    Some(Row {
        shape: Shape::Known(t),
        numbers,
    })
}

/// The type of this form.
pub fn formed(form: TypeForm, numbers: Numbers) -> Option<Row>
    ensures { result ≡ Some (record { shape = Of form; numbers = numbers }) }
{
    Some(Row {
        shape: Shape::Of(form),
        numbers,
    })
}

/// `bool`
pub fn truth(numbers: Numbers) -> Option<Row>
    ensures { result ≡ Some (record { shape = Truth; numbers = numbers }) }
{
    Some(Row {
        shape: Shape::Truth,
        numbers,
    })
}

/// `A -> B`
pub fn unlimited(a: u32, b: u32, numbers: Numbers) -> Option<Row>
    ensures { result ≡ Some (record { shape = Unlimited a b; numbers = numbers }) }
{
    Some(Row {
        shape: Shape::Unlimited(a, b),
        numbers,
    })
}
