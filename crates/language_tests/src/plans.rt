//! Programs with their plans, and with the first limit that they pass.

use crate::programs::{Piece, joined, people, term_of};
use fz_ast::Sig;
use shape_run::{ShapeFault, shape};
use std::alloc::Global;
use std::test::Fail;

/// What is told of a program: its turns, depth and width, or its fault with its span.
#[derive(Clone, Copy, PartialEq, Eq)]
enum Verdict {
    Plan(u32, u32, u32),
    TooDeep(u32, u32),
    TooLong(u32, u32),
    TooWide(u32, u32, u32),
    NoPlan,
}

fn told(alloc: Global, sig: &Sig, program: &[u8]) -> Verdict {
    let Some(term) = term_of(alloc, program) else {
        return Verdict::NoPlan;
    };
    match shape(alloc, sig, &term) {
        Ok(plan) => Verdict::Plan(plan.turns, plan.depth, plan.width),
        Err(ShapeFault::TooDeep { span }) => Verdict::TooDeep(span.from, span.to),
        Err(ShapeFault::TooLong { span }) => Verdict::TooLong(span.from, span.to),
        Err(ShapeFault::TooWide { span, width }) => Verdict::TooWide(span.from, span.to, width),
        Err(ShapeFault::TooManyWalks | ShapeFault::NoMemory) => Verdict::NoPlan,
    }
}

// Six names, each twice as wide as the one before: `f` is 64 wide.
const SIX_NAMES: Piece = (
    "let a = union people people in let b = union a a in let c = union b b in \
    let d = union c c in let e = union d d in let f = union e e in ",
    1,
);

// A function of so many multiples begins so.
const F: Piece = ("let f = fun (x : num) => ", 1);

const G: Piece = ("x in let g = fun (x : num) => ", 1);

const H: Piece = ("f x in let h = fun (x : num) => ", 1);

// Nine functions behind one, each of twice the turns of the one before.
const NINE: Piece = ("let f = fun (x : num) => f (f x) in ", 9);

#[rattlefmt::skip]
static PLANS: [(&[Piece], Verdict); 15] = [
    (&[("size people", 1)], Verdict::Plan(2, 2, 1)),
    (&[("if size people <= 3 then 0 else size people", 1)], Verdict::Plan(8, 4, 1)),
    (&[("case inl[num] people of inl x => size x | inr y => size (union people y)", 1)], Verdict::Plan(9, 4, 2)),
    // a body is visited for each application
    (&[("let f = fun (x : num) => x + 1 in f (f 2)", 1)], Verdict::Plan(13, 5, 0)),
    // a map is as wide as its bag, and its body is visited once
    (&[("size (union people (map (fn (x : num) => x + x) people))", 1)], Verdict::Plan(9, 5, 2)),
    (&[("let !y = ![2] (fun (x : num) => x) in fst <y 1, 2>", 1)], Verdict::Plan(10, 5, 0)),
    (&[("let (a, b) = split (fn (x : num) => x <= 1) people in size b", 1)], Verdict::Plan(9, 4, 1)),
    (&[("size (union (union people people) people)", 1)], Verdict::Plan(6, 4, 3)),
    // each limit from both sides: the width,
    (&[SIX_NAMES, ("size f", 1)], Verdict::Plan(26, 8, 64)),
    (&[SIX_NAMES, ("size (union f people)", 1)], Verdict::TooWide(142, 156, 65)),
    (&[SIX_NAMES, ("let g = union f f in size g", 1)], Verdict::TooWide(144, 153, 128)),
    // the depth, by three functions, each with the one before at its own,
    (&[F, ("1 * ", 60), G, ("1 * ", 50), H, ("1 * ", 11), ("g x in h 1", 1)], Verdict::Plan(137, 128, 0)),
    (&[F, ("1 * ", 60), G, ("1 * ", 50), H, ("1 * ", 12), ("g x in h 1", 1)], Verdict::TooDeep(265, 266)),
    // and the turns
    (&[F, ("1 * ", 33), ("x in ", 1), NINE, ("1 * ", 14), ("f 1", 1)], Verdict::Plan(20000, 77, 0)),
    (&[F, ("1 * ", 33), ("x in ", 1), NINE, ("1 * ", 15), ("f 1", 1)], Verdict::TooLong(157, 158)),
];

#[test]
fn plans_and_limits(rt: HostRuntime) -> Result<(), Fail> {
    let alloc = rt.alloc();
    let sig = people(alloc)?;
    for (pieces, want) in &PLANS {
        let program = joined(alloc, pieces)?;
        assert!(rt; told(alloc, &sig, &program) == *want, "{pieces:?}");
    }
    Ok(())
}

/// How many walks of bags a program takes where each table has one row, or that those of one bag are too many or too deep, or how wide a bag is that is
/// too wide.
#[derive(Clone, Copy, PartialEq, Eq)]
enum WalkVerdict {
    Takes(u32),
    TooMany,
    TooWide(u32),
    NoPlan,
}

fn walks_of(alloc: Global, sig: &Sig, program: &[u8]) -> WalkVerdict {
    let Some(term) = term_of(alloc, program) else {
        return WalkVerdict::NoPlan;
    };
    match shape(alloc, sig, &term) {
        Ok(plan) => WalkVerdict::Takes(plan.walks),
        Err(ShapeFault::TooManyWalks) => WalkVerdict::TooMany,
        Err(ShapeFault::TooWide { width, .. }) => WalkVerdict::TooWide(width),
        Err(_) => WalkVerdict::NoPlan,
    }
}

// A bag whose function takes a walk for each row.
const WALKED: Piece = (
    "let a = map (fn (x : num) => x + size people) people in ",
    1,
);

// The same of the bag before, which is used twice.
const AGAIN: Piece = ("let a = map (fn (x : num) => x + sum[0,1] a) a in ", 1);

// The same of the bag before, which is in a union with itself.
const UNITED: Piece = (
    "let a = map (fn (x : num) => x + sum[0,1] (union a a)) a in ",
    1,
);

// A bag whose function walks another for each row, and three bags 16 deep, one within the other, by such functions.
const WITHIN: Piece = (
    "let f = fn (b : bag num) => map (fn (x : num) => x + sum[0,1] b) people in ",
    1,
);

const DEEP: Piece = (
    "let a = f (![inf] people) in let a = f (![inf] a) in let a = f (![inf] a) in ",
    1,
);

const ONE_DEEPER: &str = "let a = map (fn (x : num) => x + sum[0,1] a) people in ";

// A map whose function sums another bag, and as many sums more as come; and the eighth of such maps, each over the one before.
const SUMS: Piece = (
    "let f = fn (b : bag num) => map (fn (x : num) => sum[0,1] b",
    1,
);

const TWICE_AND_AGAIN: Piece = (
    ") people in let g = fn (b : bag num) => f (![inf] (f (![inf] b))) in let h = fn (b : bag num) => g (![inf] (g (![inf] b))) in \
    let k = fn (b : bag num) => h (![inf] (h (![inf] b))) in let a = k (![inf] people) in ",
    1,
);

// A bag whose walks are too many, and which is counted.
const SEVEN_WALKED: Piece = (
    "let z = let a = map (fn (x : num) => x + size people) people in \
    let a = map (fn (x : num) => x + sum[0,1] a) a in let a = map (fn (x : num) => x + sum[0,1] a) a in \
    let a = map (fn (x : num) => x + sum[0,1] a) a in let a = map (fn (x : num) => x + sum[0,1] a) a in \
    let a = map (fn (x : num) => x + sum[0,1] a) a in let a = map (fn (x : num) => x + sum[0,1] a) a in 0 * size a in ",
    1,
);

// A function that takes two walks, and as many more as come.
const MANY: Piece = (
    "size (map (fn (x : num) => let y = size people + size people in ",
    1,
);

#[rattlefmt::skip]
static WALKS: [(&[Piece], WalkVerdict); 28] = [
    (&[("size people", 1)], WalkVerdict::Takes(1)),
    (&[("size people + sum[0,9] people", 1)], WalkVerdict::Takes(2)),
    (&[("if size people <= 3 then 0 else size people", 1)], WalkVerdict::Takes(2)),
    (&[("let f = fun (x : num) => x + size people in f (f 2)", 1)], WalkVerdict::Takes(2)),
    (&[("let a = map (fn (x : num) => x + 1) people in 3", 1)], WalkVerdict::Takes(0)),
    // those inside one another
    (&[WALKED, ("size a", 1)], WalkVerdict::Takes(2)),
    (&[WALKED, ("size a + size a", 1)], WalkVerdict::Takes(4)),
    (&[WALKED, ("size (union people a)", 1)], WalkVerdict::Takes(2)),
    (&[WALKED, AGAIN, ("size a", 1)], WalkVerdict::Takes(4)),
    // a union has the rows of both, and a function is run for those of each of a bag's tables
    (&[WALKED, ("size (union a a)", 1)], WalkVerdict::Takes(3)),
    (&[("size (map (fn (x : num) => x + size people) (union people people))", 1)], WalkVerdict::Takes(3)),
    (&[WALKED, UNITED, UNITED, UNITED, ("size a", 1)], WalkVerdict::Takes(41)),
    (&[WALKED, UNITED, UNITED, UNITED, UNITED, ("size a", 1)], WalkVerdict::TooMany),
    // of both 63, and of one 63 twice
    (&[WALKED, ("let a = map (fn (x : num) => x + sum[0,1] a) a in ", 5), ("size (union people a)", 1)], WalkVerdict::Takes(64)),
    (&[WALKED, ("let a = map (fn (x : num) => x + sum[0,1] a) a in ", 5), ("size (union a a)", 1)], WalkVerdict::TooMany),
    // nothing but walks within one another, 64 deep and 65 deep
    (&[WITHIN, ("let f = fn (b : bag num) => f (![inf] (f (![inf] b))) in ", 4), DEEP, (ONE_DEEPER, 15), ("sum[0,1] a", 1)], WalkVerdict::Takes(64)),
    (&[WITHIN, ("let f = fn (b : bag num) => f (![inf] (f (![inf] b))) in ", 4), DEEP, (ONE_DEEPER, 16), ("sum[0,1] a", 1)], WalkVerdict::TooMany),
    // eight maps, each of which sums the one before under 47 sums, walked below eight sums and below nine: evaluated 400 levels deep, and 401
    (&[SUMS, (" + 0", 47), TWICE_AND_AGAIN, ("0 * sum[0,1] a", 1), (" + 0", 8)], WalkVerdict::Takes(9)),
    (&[SUMS, (" + 0", 47), TWICE_AND_AGAIN, ("0 * sum[0,1] a", 1), (" + 0", 9)], WalkVerdict::TooMany),
    // and under 48 sums, where the last map's own body is
    (&[SUMS, (" + 0", 48), TWICE_AND_AGAIN, ("0 * sum[0,1] a", 1)], WalkVerdict::TooMany),
    // each `let` doubles them: six of them take 64
    (&[WALKED, ("let a = map (fn (x : num) => x + sum[0,1] a) a in ", 5), ("size a", 1)], WalkVerdict::Takes(64)),
    (&[WALKED, ("let a = map (fn (x : num) => x + sum[0,1] a) a in ", 6), ("size a", 1)], WalkVerdict::TooMany),
    // a limit that is passed is told first, whether it is before the walks or behind them
    (&[SEVEN_WALKED, SIX_NAMES, ("let g = union f f in size g", 1)], WalkVerdict::TooWide(128)),
    (&[SIX_NAMES, ("let g = union f f in ", 1), SEVEN_WALKED, ("size g", 1)], WalkVerdict::TooWide(128)),
    (&[SEVEN_WALKED, SIX_NAMES, ("size f", 1)], WalkVerdict::TooMany),
    (&[SIX_NAMES, SEVEN_WALKED, ("size f", 1)], WalkVerdict::TooMany),
    // and so do 63 in a row
    (&[MANY, ("let y = y + size people + size people in ", 20), ("y ", 1), ("+ size people ", 21), (") people)", 1)], WalkVerdict::Takes(64)),
    (&[MANY, ("let y = y + size people + size people in ", 20), ("y ", 1), ("+ size people ", 22), (") people)", 1)], WalkVerdict::TooMany),
];

#[test]
fn walks_of_bags(rt: HostRuntime) -> Result<(), Fail> {
    let alloc = rt.alloc();
    let sig = people(alloc)?;
    for (pieces, want) in &WALKS {
        let program = joined(alloc, pieces)?;
        assert!(rt; walks_of(alloc, &sig, &program) == *want, "{pieces:?}");
    }
    Ok(())
}
