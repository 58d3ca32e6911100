//! What a `check` and a `gap` see of a dataset: the whole of it.

ghost use Rattle.std.specs.Prelude.{◌≡◌};
ghost use Rattle.part_views.specs.Holding.{IsHolding};
ghost use Rattle.owner_house.specs.Names.{AreNames};

use fz_ast::Sig;
use metric_values::Tables;
use part_views::Dataset;
use partition_charge::view::View;

/// All tables of a dataset.
#[tactic(auto, using(crate::proofs::WholeViews::whole_names))]
pub(crate) fn tables_of(dataset: &Dataset) -> &Sig
    requires { AreNames dataset.now.tables }
    ensures tables { result.now ≡ dataset.now.tables }
    ensures names { AreNames result.now }
{
    dataset.sig(View::Whole)
}

/// All rows of a dataset.
pub(crate) fn rows_of(dataset: &Dataset) -> &Tables
    ensures rows { result.now ≡ dataset.now.rows }
    ensures holding { IsHolding dataset.now }
{
    dataset.tables(View::Whole)
}
