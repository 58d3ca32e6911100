//! Names with what they stand for at each row.
ghost use Rattle.std.specs.Prelude.{◌≡◌, ◌∷◌, [], IfOk, IfSome, IsTrue};
ghost use Rattle.fz_ast.specs.Names.{name_of};
ghost use Rattle.row_kernels.specs.Lanes.{AllLong, AreNamed, IsFree};

use crate::columns::shared_bytes;
use crate::lanes::Lanes;
use flow_values::{Plain, Scope};
use fz_ast::{Name, NoMemory};
use std::alloc::Global;
use std::marker::Model;
use std::rc::Rc;

/// A name, and what it stands for at each row.
#[derive(Drop)]
pub struct Frame {
    pub name: Name,
    pub lanes: Lanes,
}

/// Frames, shared by a count. A contract sees the list of them, the innermost first.
#[cycle(frames)]
pub struct Frames {
    link: Link,
}

#[cycle(frames)]
#[derive(Drop)]
enum Link {
    End,
    More(Rc<Joint>),
}

// The innermost frame, and those outside.
#[cycle(frames)]
#[derive(Drop)]
struct Joint {
    frame: Frame,
    outside: Frames,
}

impl Model for Frames {
    ghost use Rattle.std.specs.Prelude.{List, length};
    ghost use Rattle.row_kernels.specs.declared.frames.Frame.{Frame};
    ghost use Rattle.row_kernels.specs.contracts.lanes.Lanes as lanes;
    ghost use Rattle.std.specs.Coded.{codes};

    ghost Value = { List Frame };

    ghost coded = { Prim.hlevel (codes, lanes.the_row.coded) };

    ghost use Rattle.row_kernels.specs.Frames.{frames_of};

    ghost view = { λ a. frames_of a.link };

    ghost size = { length };

    ghost use Rattle.std.proofs.Common.{arith};

    ghost size_decreases = { λ a h. Prim.grind (arith) };
}

impl Drop for Frames {
    // By a loop, so that long lists take no stack.
    fn drop(mut self) {
        loop {
            let Frames { link } = self;
            let Link::More(rc) = link else { return };
            let Some(joint) = Rc::into_inner(rc) else {
                return
            };
            drop(joint.frame);
            self = joint.outside;
        }
    }
}

impl Frames {
    /// No names.
    pub fn none() -> Frames
        ensures { result ≡ [] }
    {
        Frames { link: Link::End }
    }

    /// The same frames, shared.
    pub fn copy(&self) -> Result<Frames, NoMemory>
        ensures { IfOk result (λ fs. fs ≡ self.now) }
    {
        let link = match &self.link {
            Link::End => Link::End,
            Link::More(rc) => Link::More(rc.clone()?),
        };
        Ok(Frames { link })
    }
}

/// The frames inside one more name.
pub fn under(alloc: Global, frames: &Frames, x: Name, a: Lanes) -> Result<Frames, NoMemory>
    ensures { IfOk result (λ fs. fs ≡ record { name = x; lanes = a } ∷ frames.now) }
{
    let outside = frames.copy()?;
    let frame = Frame { name: x, lanes: a };
    match Rc::new(alloc, Joint { frame, outside }) {
        Ok(rc) => Ok(Frames {
            link: Link::More(rc),
        }),
        Err(_) => Err(NoMemory),
    }
}

/// The one frame of a function's name.
pub fn only(alloc: Global, name: Name, lanes: Lanes) -> Result<Frames, NoMemory>
    ensures { IfOk result (λ fs. fs ≡ record { name = name; lanes = lanes } ∷ []) }
{
    under(alloc, &Frames::none(), name, lanes)
}

/// The frames inside two more names, the second one innermost.
pub fn under_two(
    alloc: Global,
    frames: &Frames,
    x: Name,
    a: Lanes,
    y: Name,
    b: Lanes,
) -> Result<Frames, NoMemory>
    ensures { IfOk result (λ fs. fs ≡ record { name = y; lanes = b } ∷ record { name = x; lanes = a } ∷ frames.now) }
{
    let outside = under(alloc, frames, x, a)?;
    under(alloc, &outside, y, b)
}

/// What a name stands for at each row.
pub fn named(
    alloc: Global,
    frames: &Frames,
    outer: &Scope,
    name: &Name,
    len: usize,
) -> Result<Option<Lanes>, NoMemory>
    requires { AllLong len frames.now }
    ensures { IfOk result (λ o. IfSome o (AreNamed frames.now outer.now.means (name_of name.now) len)) }
{
    let Link::More(joint) = &frames.link else {
        return match outer.find_plain(name) {
            Plain::Num(z) => Ok(Some(Lanes::Same(z))),
            Plain::Text(s) => Ok(Some(Lanes::Text(shared_bytes(alloc, s)?))),
            Plain::Other => Ok(None),
        };
    };
    if joint.frame.name.as_bytes() == name.as_bytes() {
        return Ok(Some(joint.frame.lanes.copy()?));
    }
    named(alloc, &joint.outside, outer, name, len)
}

/// Whether a name is none of the frames'.
pub fn is_free(frames: &Frames, name: &Name) -> bool
    ensures { IsTrue result → IsFree frames.now (name_of name.now) }
{
    let Link::More(joint) = &frames.link else {
        return true;
    };
    if joint.frame.name.as_bytes() == name.as_bytes() {
        return false;
    }
    is_free(&joint.outside, name)
}
