//! The columns of a table.

ghost use Rattle.std.specs.Prelude.{◌≡◌};
ghost use Rattle.std.specs.String.{string_bytes};
ghost use Rattle.table_store.specs.Schema.{IsSchema};

use fz_ast::Column;
use std::marker::Model;

/// A column of a table.
#[derive(Drop)]
pub struct NamedColumn {
    name: String,
    kind: Column,
}

impl Model for NamedColumn {
    ghost use Rattle.std.specs.String.{string_bytes};
    ghost use Rattle.table_store.specs.Schema.{NamedColumn as Named};

    ghost Value = { Named };

    ghost view = { λ column. record { name = string_bytes column.name; kind = column.kind } };
}

impl NamedColumn {
    /// A column of this name and kind.
    pub fn new(name: String, kind: Column) -> NamedColumn
        ensures name { result.name ≡ string_bytes name }
        ensures kind { result.kind ≡ kind }
    {
        NamedColumn { name, kind }
    }

    /// The column's name.
    pub fn name(&self) -> &str
        ensures { result.now ≡ self.now.name }
    {
        self.name.as_str()
    }

    /// What the column's cells are.
    pub fn kind(&self) -> Column
        ensures { result ≡ self.now.kind }
    {
        self.kind
    }
}

/// The columns of a table: 1 to 16, in order, no two of one name.
#[derive(Drop)]
pub struct Schema {
    columns: Vec<NamedColumn>,
}

impl Model for Schema {
    ghost use Rattle.std.specs.Prelude.{List};
    ghost use Rattle.table_store.specs.Schema.{IsSchema, NamedColumn as Named};

    ghost Value = { List Named };

    ghost view = { λ schema. schema.columns.items };

    ghost invariant = { λ schema. IsSchema schema.columns.items };
}

impl Schema {
    /// A schema of these columns.
    pub fn new(columns: Vec<NamedColumn>) -> Schema
        requires { IsSchema columns.items }
        ensures { result ≡ columns.items }
    {
        Schema { columns }
    }

    /// The columns, in order.
    pub fn columns(&self) -> &[NamedColumn]
        ensures columns { result.now ≡ self.now }
        ensures legal { IsSchema self.now }
    {
        self.columns.as_slice()
    }
}
