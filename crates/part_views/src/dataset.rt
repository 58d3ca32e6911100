//! An owner's tables with their rows, and what each view shows of them.

ghost use Rattle.std.specs.Prelude.{◌≡◌, ◌<◌, length, slice_get, IfOk};
ghost use Rattle.metric_values.specs.Tables.{IsDataset};
ghost use Rattle.owner_catalog.specs.Entries.{owner_entry_at, owner_signature};
ghost use Rattle.part_views.specs.Holding.{IsHolding};
ghost use Rattle.part_views.specs.Partitions.{HasPart};
ghost use Rattle.part_views.specs.Views.{alone, rows_in, signature_in};

use crate::division::{self, Division, divide_all};
use fz_ast::{NoMemory, Sig};
use metric_values::Tables;
use owner_catalog::Catalog;
use partition_charge::view::View;
use std::alloc::Global;
use std::marker::Model;

/// An owner's tables, by a signature, the rows of each, and partitions of them. A contract sees the holding.
///
/// What each part shows is made once, over the tables' cells.
#[derive(Drop)]
pub struct Dataset {
    sig: Sig,
    tables: Tables,
    divisions: Vec<Division>,
}

impl Model for Dataset {
    ghost use Rattle.part_views.specs.Holding.{Holding, holding_code};

    ghost Value = { Holding };

    ghost coded = { holding_code };

    ghost use Rattle.part_views.specs.Divisions.{IsDivided, holding_of};

    ghost view = { λ d. holding_of d.sig d.tables d.divisions.items };

    ghost invariant = { λ d. IsDivided d.sig d.tables d.divisions.items };
}

impl Dataset {
    /// An owner's tables with these rows, and the parts of each of its partitions.
    pub fn new(
        alloc: Global,
        catalog: &Catalog,
        owner: u32,
        tables: Tables,
    ) -> Result<Dataset, NoMemory>
        requires owner { owner < length catalog.now.owners }
        requires rows { IsDataset (owner_signature (owner_entry_at catalog.now owner)) tables }
        ensures { IfOk result (λ d. d ≡ record {
          tables = owner_signature (owner_entry_at catalog.now owner);
          rows = tables;
          partitions = (owner_entry_at catalog.now owner).partitions;
        }) }
    {
        // These looks tell the proof what catalogs and signatures keep. An owner has at least one table.
        let _ = catalog.owners();
        let sig = catalog.signature(alloc, owner)?;
        let _ = sig.table(0);
        let divisions = divide_all(alloc, catalog, owner, &sig, &tables)?;
        Ok(Dataset {
            sig,
            tables,
            divisions,
        })
    }

    /// The tables that a program may name in a view.
    pub fn sig(&self, view: View) -> &Sig
        requires { HasPart self.now.partitions view }
        ensures tables { result.now ≡ signature_in self.now.tables self.now.partitions view }
        ensures holding { IsHolding self.now }
    {
        match view {
            View::Whole => &self.sig,
            View::Part { partition, .. } => {
                let division = &self.divisions[partition as usize];
                &division.sig
            }
        }
    }

    /// One of the tables alone, as a made part shows it.
    pub fn one_table(&self, alloc: Global, table: usize) -> Result<Sig, NoMemory>
        requires { table < length self.now.tables }
        ensures { IfOk result (λ sig. sig ≡ alone (slice_get self.now.tables table)) }
    {
        division::alone(alloc, &self.sig, table)
    }

    /// The rows of each table that a view shows.
    pub fn tables(&self, view: View) -> &Tables
        requires { HasPart self.now.partitions view }
        ensures rows { result.now ≡ rows_in self.now.partitions view self.now.rows }
        ensures holding { IsHolding self.now }
    {
        match view {
            View::Whole => &self.tables,
            View::Part { partition, part } => {
                let division = &self.divisions[partition as usize];
                &division.parts[part as usize]
            }
        }
    }
}
