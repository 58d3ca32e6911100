//! Shapes in numbered cells.
ghost use Rattle.std.specs.Prelude.{◌≡◌, ◌+◌, ◌<◌, ◌≤◌, ◌++◌, ◌&&◌, [], ◌∷◌, List, Some, None, IfOk, OnOk, OnErr, MatchOption, length, max, slice_get};
ghost use Rattle.fz_ast.specs.Names.{name_of};
ghost use Rattle.fz_ast.specs.Terms.{Name, Term};
ghost use Rattle.fz_ast.specs.TermNodes.{term_at};
ghost use Rattle.shape_law.specs.Shapes.{Also, Shape, Shapes, bang_shape, first_half, in_bang, pair_shape, second_half, shape_of};
ghost use Rattle.shape_law.specs.Shapes.{height_of, walks_of, width_of};
ghost use Rattle.shape_run.specs.Cells.{Adds, Grown, HasScope, HasShape, HaveShapes, IsScope, IsShape, is_wide};
ghost use Rattle.shape_run.specs.Rules.{beside, function_shape};

use fz_ast::{Arrow, Name, NoMemory};
use std::alloc::Global;

/// A shape, or a name with its shape before others. Numbers are those of cells, of a scope 0 or one more than its cell's.
#[derive(Clone, Copy)]
pub enum Cell {
    /// How many tables wide it is, how many walks the functions of its bags take for a row, and how deep they are evaluated.
    Ground(u8, u8, u32),
    Pair(u32, u32),
    Bang(u32),
    /// The name, the number of the body's term, and the scope.
    Fun(Name, u32, u32),
    Fn(Name, u32, u32),
    /// The name, its shape, and the scope outside.
    Frame(Name, u32, u32),
}

/// The cells of a run.
#[derive(Drop)]
pub struct Store {
    cells: Vec<Cell>,
}

impl Store {
    /// No cells.
    pub fn new(alloc: Global) -> Store
        ensures { result.cells.items ≡ [] }
    {
        Store {
            cells: Vec::new(alloc),
        }
    }

    fn push(&mut self, cell: Cell) -> Result<u32, NoMemory>
        ensures number { IfOk result (λ n. (slice_get self.new.cells.items n ≡ Some cell) × (n ≡ length self.old.cells.items) × (n < 4294967295)) }
        ensures grown { Grown self.old.cells.items self.new.cells.items }
    {
        let n = self.cells.len();
        if n >= u32::MAX as usize {
            return Err(NoMemory);
        }
        if let Err(_) = self.cells.push(cell) {
            return Err(NoMemory);
        }
        Ok(n as u32)
    }

    /// The cell of this number.
    pub fn cell(&self, k: u32) -> Cell
        requires { k < length self.now.cells.items }
        ensures { slice_get self.now.cells.items k ≡ Some result }
    {
        self.cells[k as usize]
    }

    /// The shape of a ground value.
    pub fn ground(&mut self, width: u8, walks: u8, height: u32) -> Result<u32, NoMemory>
        ensures is { Adds self.new.cells.items result (λ N p. p ≡ Rattle.shape_law.specs.Shapes.Wide width walks height) }
        ensures grown { Grown self.old.cells.items self.new.cells.items }
    {
        self.push(Cell::Ground(width, walks, height))
    }

    /// A function, with the number of its body's term.
    pub fn function(
        &mut self,
        arrow: Arrow,
        name: Name,
        body: u32,
        scope: u32,
    ) -> Result<u32, NoMemory>
        ensures is { Adds self.new.cells.items result (λ N p. (σ : Shapes) × IsScope N self.old.cells.items scope σ × (body < length N)
            × (p ≡ function_shape arrow (name_of name) (term_at N body) σ)) }
        ensures grown { Grown self.old.cells.items self.new.cells.items }
    {
        match arrow {
            Arrow::Fun => self.push(Cell::Fun(name, body, scope)),
            Arrow::Fn => self.push(Cell::Fn(name, body, scope)),
        }
    }

    /// One name more.
    pub fn bind(&mut self, name: Name, shape: u32, scope: u32) -> Result<u32, NoMemory>
        ensures is { IfOk result
            (λ n. (N : List Term) (p : Shape) (σ : Shapes) → IsShape N self.old.cells.items shape p → IsScope N self.old.cells.items scope σ
            → IsScope N self.new.cells.items n (Also (name_of name) p σ)) }
        ensures grown { Grown self.old.cells.items self.new.cells.items }
    {
        let n = self.push(Cell::Frame(name, shape, scope))?;
        Ok(n + 1)
    }

    /// The width of a ground value's shape.
    pub fn width(&self, k: u32) -> u8
        requires { HasShape self.now.cells.items k }
        ensures { (N : List Term) (p : Shape) → IsShape N self.now.cells.items k p → result ≡ width_of p }
    {
        match self.cell(k) {
            Cell::Ground(w, _, _) => w,
            _ => 0,
        }
    }

    /// How many walks the functions of a ground value's bags take for a row.
    pub fn walks(&self, k: u32) -> u8
        requires { HasShape self.now.cells.items k }
        ensures { (N : List Term) (p : Shape) → IsShape N self.now.cells.items k p → result ≡ walks_of p }
    {
        match self.cell(k) {
            Cell::Ground(_, n, _) => n,
            _ => 0,
        }
    }

    /// How deep the functions of a ground value's bags are evaluated, with the walks that they take.
    pub fn height(&self, k: u32) -> u32
        requires { HasShape self.now.cells.items k }
        ensures { (N : List Term) (p : Shape) → IsShape N self.now.cells.items k p → result ≡ height_of p }
    {
        match self.cell(k) {
            Cell::Ground(_, _, n) => n,
            _ => 0,
        }
    }

    fn is_ground(&self, k: u32) -> bool
        requires { HasShape self.now.cells.items k }
        ensures { (N : List Term) (p : Shape) → IsShape N self.now.cells.items k p → result ≡ is_wide p }
    {
        match self.cell(k) {
            Cell::Ground(_, _, _) => true,
            _ => false,
        }
    }

    fn are_ground(&self, a: u32, b: u32) -> bool
        requires { HaveShapes self.now.cells.items a b }
        ensures { (N : List Term) (p q : Shape) → IsShape N self.now.cells.items a p → IsShape N self.now.cells.items b q → result ≡ (is_wide p && is_wide q) }
    {
        let first = self.is_ground(a);
        let second = self.is_ground(b);
        first && second
    }

    /// The shape of a pair.
    pub fn pair(&mut self, a: u32, b: u32) -> Result<u32, NoMemory>
        requires { HaveShapes self.old.cells.items a b }
        ensures is { Adds self.new.cells.items result (λ N r. (p q : Shape) × IsShape N self.old.cells.items a p × IsShape N self.old.cells.items b q
            × (r ≡ pair_shape p q)) }
        ensures grown { Grown self.old.cells.items self.new.cells.items }
    {
        if self.are_ground(a, b) {
            let width = self.width(a).max(self.width(b));
            let walks = self.walks(a).max(self.walks(b));
            let height = self.height(a).max(self.height(b));
            return self.ground(width, walks, height);
        }
        self.push(Cell::Pair(a, b))
    }

    /// The first half's shape.
    pub fn first(&mut self, k: u32) -> Result<u32, NoMemory>
        requires { HasShape self.old.cells.items k }
        ensures is { Adds self.new.cells.items result (λ N r. (p : Shape) × IsShape N self.old.cells.items k p × (r ≡ first_half p)) }
        ensures grown { Grown self.old.cells.items self.new.cells.items }
    {
        match self.cell(k) {
            Cell::Ground(_, _, _) => Ok(k),
            Cell::Pair(a, _) => Ok(a),
            _ => self.push(Cell::Ground(0, 0, 0)),
        }
    }

    /// The second half's shape.
    pub fn second(&mut self, k: u32) -> Result<u32, NoMemory>
        requires { HasShape self.old.cells.items k }
        ensures is { Adds self.new.cells.items result (λ N r. (p : Shape) × IsShape N self.old.cells.items k p × (r ≡ second_half p)) }
        ensures grown { Grown self.old.cells.items self.new.cells.items }
    {
        match self.cell(k) {
            Cell::Ground(_, _, _) => Ok(k),
            Cell::Pair(_, b) => Ok(b),
            _ => self.push(Cell::Ground(0, 0, 0)),
        }
    }

    /// The shape of a bang.
    pub fn bang(&mut self, k: u32) -> Result<u32, NoMemory>
        requires { HasShape self.old.cells.items k }
        ensures is { Adds self.new.cells.items result (λ N r. (p : Shape) × IsShape N self.old.cells.items k p × (r ≡ bang_shape p)) }
        ensures grown { Grown self.old.cells.items self.new.cells.items }
    {
        if self.is_ground(k) {
            return Ok(k);
        }
        self.push(Cell::Bang(k))
    }

    /// What a bang holds.
    pub fn in_bang(&mut self, k: u32) -> Result<u32, NoMemory>
        requires { HasShape self.old.cells.items k }
        ensures is { Adds self.new.cells.items result (λ N r. (p : Shape) × IsShape N self.old.cells.items k p × (r ≡ in_bang p)) }
        ensures grown { Grown self.old.cells.items self.new.cells.items }
    {
        match self.cell(k) {
            Cell::Ground(_, _, _) => Ok(k),
            Cell::Bang(a) => Ok(a),
            _ => self.push(Cell::Ground(0, 0, 0)),
        }
    }

    /// One name more, with the first half of a pair.
    pub fn bind_first(&mut self, name: Name, pair: u32, scope: u32) -> Result<u32, NoMemory>
        requires { HasShape self.old.cells.items pair }
        ensures is { IfOk result (λ n. (N : List Term) (p : Shape) (σ : Shapes) → IsShape N self.old.cells.items pair p → IsScope N self.old.cells.items scope σ
            → IsScope N self.new.cells.items n (Also (name_of name) (first_half p) σ)) }
        ensures grown { Grown self.old.cells.items self.new.cells.items }
    {
        let Ok(half) = self.first(pair) else {
            return Err(NoMemory);
        };
        self.bind(name, half, scope)
    }

    /// One name more, as wide as a condition.
    pub fn bind_side(&mut self, name: Name, side: u32, scope: u32) -> Result<u32, NoMemory>
        requires { HasShape self.old.cells.items side }
        ensures is { IfOk result (λ n. (N : List Term) (p : Shape) (σ : Shapes) → IsShape N self.old.cells.items side p → IsScope N self.old.cells.items scope σ
            → IsScope N self.new.cells.items n (beside (name_of name) p σ)) }
        ensures grown { Grown self.old.cells.items self.new.cells.items }
    {
        let width = self.width(side);
        let walks = self.walks(side);
        let height = self.height(side);
        let Ok(k) = self.ground(width, walks, height) else {
            return Err(NoMemory);
        };
        self.bind(name, k, scope)
    }

    /// The shape of the innermost of these names.
    pub fn find(&self, scope: u32, name: &Name) -> Option<u32>
        requires { HasScope self.now.cells.items scope }
        ensures { (N : List Term) (σ : Shapes) → IsScope N self.now.cells.items scope σ
            → MatchOption result (shape_of σ (name_of name.now) ≡ Rattle.shape_law.specs.Shapes.Wide 0 0 0)
            (λ n. IsShape N self.now.cells.items n (shape_of σ (name_of name.now))) }
    {
        if scope == 0 {
            return None;
        }
        match self.cell(scope - 1) {
            Cell::Frame(x, shape, rest) => {
                if x.as_bytes() == name.as_bytes() {
                    Some(shape)
                } else {
                    self.find(rest, name)
                }
            }
            _ => None,
        }
    }
}
