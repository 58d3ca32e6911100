//! What all owners of a catalog hold: a house, or what is read before its partitions' parts are made.

ghost use Rattle.std.specs.Prelude.{◌≡◌, IfErr, IfOk};
ghost use Rattle.owner_house.specs.House.{register_with};
ghost use Rattle.catalog_loading.specs.Given.{AreReadOf, holdings_with};

use crate::stops::Stop;
use metric_values::Tables;
use owner_catalog::Catalog;
use owner_house::house::House;
use part_views::Dataset;
use std::alloc::Global;
use std::marker::Model;

/// What all owners of a catalog hold.
pub trait Registered {
    ghost use Rattle.owner_house.specs.House.{Register};

    /// The catalog, what its owners hold, and the versions of their journals.
    ghost register: { Self → Register };

    /// The catalog.
    fn catalog(&self) -> &Catalog
        ensures { result.now ≡ (register self.now).catalog };
}

impl Registered for House {
    ghost register = { λ house. house };

    fn catalog(&self) -> &Catalog {
        House::catalog(self)
    }
}

/// A catalog and the rows of its owners' tables, of which no partition's parts are made.
#[derive(Drop)]
pub struct Undivided {
    catalog: Catalog,
    tables: Vec<Tables>,
}

impl Model for Undivided {
    ghost use Rattle.std.specs.Coded.{codes};
    ghost use Rattle.part_views.specs.Holding.{holding_code};
    ghost use Rattle.owner_house.specs.House.{Register, register_with};
    ghost use Rattle.catalog_loading.specs.Given.{AreReadOf, holdings_with};

    ghost Value = { Register };

    ghost coded = { Prim.hlevel (codes, holding_code) };

    ghost view = { λ u. register_with u.catalog (holdings_with u.catalog.owners u.tables.items) };

    ghost invariant = { λ u. AreReadOf u.catalog u.tables.items };
}

impl Registered for Undivided {
    ghost register = { λ undivided. undivided };

    fn catalog(&self) -> &Catalog {
        &self.catalog
    }
}

impl Undivided {
    /// A catalog and the rows of its owners' tables, which stand at the owners' numbers.
    pub(crate) fn new(catalog: Catalog, tables: Vec<Tables>) -> Undivided
        requires { AreReadOf catalog tables.items }
        ensures { result ≡ register_with catalog (holdings_with catalog.owners tables.items) }
    {
        Undivided { catalog, tables }
    }

    /// The same as a house: the parts of each owner's partitions are made.
    pub(crate) fn divide(self, alloc: Global) -> Result<House, Stop>
        ensures same { IfOk result (λ house. house ≡ self) }
        ensures memory { IfErr result (λ stop. stop ≡ Stop.NoMemory) }
    {
        let Undivided { catalog, tables } = self;
        let datasets = divided(alloc, &catalog, tables)?;
        Ok(House::new(catalog, datasets))
    }
}

/// What each owner of a catalog holds whose tables have these rows, with the parts of its partitions.
fn divided(alloc: Global, catalog: &Catalog, tables: Vec<Tables>) -> Result<Vec<Dataset>, Stop>
    requires { AreReadOf catalog.now tables.items }
    ensures datasets { IfOk result (λ datasets. datasets.items ≡ holdings_with catalog.now.owners tables.items) }
    ensures memory { IfErr result (λ stop. stop ≡ Stop.NoMemory) }
{
    let mut datasets = Vec::new(alloc);
    for rows in tables {
        let owner = datasets.len() as u32;
        let dataset = Dataset::new(alloc, catalog, owner, rows)?;
        datasets.push(dataset)?;
    }
    Ok(datasets)
}
