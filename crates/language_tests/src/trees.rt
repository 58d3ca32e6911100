//! Terms, types and signatures.
use fz_ast::{
    Arrow, Column, Form, Name, NoMemory, Node, Nodes, Sig, Span, Term, Ty, TypeForm, Unary,
    is_flat, is_ground, row_type, same_type, well_formed,
};
use fz_frac::Sens;
use std::alloc::Global;
use std::test::Fail;

// fun (x : ![inf] (bag text)) => size x, with the numbers that the calls give
fn counter(alloc: Global) -> Result<Term, NoMemory> {
    let mut nodes = Nodes::new(alloc);
    let text = nodes.push_type(TypeForm::Text)?;
    let bag = nodes.push_type(TypeForm::Bag(text))?;
    let bang = nodes.push_type(TypeForm::Bang(Sens::Inf, bag))?;
    let name = Name::new(b"x");
    let x = nodes.push(Span { from: 36, to: 37 }, Form::Var(name))?;
    let size = nodes.push(Span { from: 31, to: 37 }, Form::Unary(Unary::Size, x))?;
    let written = Span { from: 9, to: 26 };
    let whole = Span { from: 0, to: 37 };
    let body = Form::Lambda(Arrow::Fun, name, written, bang, size);
    let root = nodes.push(whole, body)?;
    if nodes.depth(root) > 64 {
        return Err(NoMemory);
    }
    Ok(Term::new(nodes, root))
}

// Whether a node is the function above: its name, its end, and that its type is ground and not flat.
fn is_counter(nodes: &Nodes, node: &Node) -> bool {
    match node.form {
        Form::Lambda(Arrow::Fun, name, _, ty, _) if (ty as usize) < nodes.types().len() => {
            let types = nodes.types();
            let kinds = (types.is_ground(ty), types.is_flat(ty));
            kinds == (true, false) && name.as_bytes() == b"x".as_slice() && node.span.to == 37
        }
        _ => false,
    }
}

#[test]
fn terms(rt: HostRuntime) -> Result<(), Fail> {
    let term = counter(rt.alloc())?.copy()?;
    let (nodes, root) = term.parts();
    assert!(rt; nodes.depth(root) == 4);
    assert!(rt; is_counter(nodes, nodes.node(root)));
    Ok(())
}

// Whether a row is flat and well formed, and another the same.
fn are_same_and_flat(row: &Ty, again: &Ty) -> bool {
    same_type(row, again) && is_flat(row) && well_formed(row)
}

#[test]
fn types(rt: HostRuntime) -> Result<(), Fail> {
    let row = row_type(rt.alloc(), &[Column::Num, Column::Text])?;
    assert!(rt; are_same_and_flat(&row, &row.copy()?));
    Ok(())
}

// Whether a signature has a table of this name alone, whose rows are ground.
fn is_of(sig: &Sig, name: &[u8]) -> bool {
    if sig.len() != 1 {
        return false;
    }
    sig.contains(name) && is_ground(&sig.table(0).row)
}

#[test]
fn signatures(rt: HostRuntime) -> Result<(), Fail> {
    let row = row_type(rt.alloc(), &[Column::Num, Column::Text])?;
    let name = Name::new(b"people");
    let mut sig = Sig::new(rt.alloc());
    assert!(rt; !sig.contains(name.as_bytes()));
    sig.push(name, row)?;
    assert!(rt; is_of(&sig, b"people"));
    Ok(())
}
