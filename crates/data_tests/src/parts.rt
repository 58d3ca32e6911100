//! An owner with two partitions of one table.

ghost use Rattle.std.specs.Prelude.{◌≡◌, ◌<◌, length, IfSome};
ghost use Rattle.metric_values.specs.Tables.{IsDataset};
ghost use Rattle.owner_catalog.specs.Entries.{owner_entry_at, owner_signature};

use metric_values::{Cell, Table, Tables};
use owner_catalog::{Catalog, read};
use part_views::Dataset;
use partition_charge::view::View;
use std::alloc::{AllocError, Global};
use std::test::Fail;
use table_store::load;

const CATALOG: &[u8] =
    b"{\"analysts\":[\"ann\"],\"owners\":[{\"name\":\"census\",\"budget\":1,\"capacity\":2,\
    \"tables\":[{\"name\":\"people\",\"file\":\"p\",\
    \"columns\":[{\"name\":\"town\",\"type\":\"text\"},{\"name\":\"age\",\"type\":\"num\"}]}],\
    \"partitions\":[{\"name\":\"towns\",\"table\":\"people\",\"column\":\"town\",\"keys\":[\"ny\",\"oslo\"]},\
    {\"name\":\"one\",\"table\":\"people\",\"column\":\"town\",\"keys\":[\"rome\"]}]}]}";

const PEOPLE: &[u8] = b"town,age\noslo,1\nny,2\nrome,3\noslo,4\nbonn,5\n";

const BEFORE_KEYS: &str =
    "{\"analysts\":[\"ann\"],\"owners\":[{\"name\":\"census\",\"budget\":1,\"capacity\":2,\
    \"tables\":[{\"name\":\"people\",\"file\":\"p\",\"columns\":[{\"name\":\"town\",\"type\":\"text\"},{\"name\":\"age\",\"type\":\"num\"}]}],\
    \"partitions\":[{\"name\":\"towns\",\"table\":\"people\",\"column\":\"town\",\"keys\":[";

// A catalog whose one partition has so many keys, `k0`, `k1`, ..
fn with_keys(alloc: Global, keys: u32) -> Result<String, AllocError> {
    let mut text = String::from_str(alloc, BEFORE_KEYS)?;
    for number in 0..keys {
        let comma = if number == 0 { "" } else { "," };
        write!(text, "{comma}\"k{number}\"")?;
    }
    text.push_str("]}]}]}")?;
    Ok(text)
}

// A row for each of so many keys, whose age is the key's number, and behind each a row that no key has.
fn with_rows(alloc: Global, keys: u32) -> Result<String, AllocError> {
    let mut text = String::from_str(alloc, "town,age\n")?;
    for number in 0..keys {
        write!(text, "k{number},{number}\nK{number},{number}\n")?;
    }
    Ok(text)
}

// So many rows more of a key, with the ages 1, 2, ..
fn push_rows(text: &mut String, key: u32, rows: i64) -> Result<(), AllocError> {
    for age in 1..=rows {
        write!(text, "k{key},{age}\n")?;
    }
    Ok(())
}

// An age, and behind it 1, 2, .. up to another.
fn ages_up_to(alloc: Global, first: i64, last: i64) -> Result<Vec<i64>, AllocError> {
    let mut ages = vec![in alloc; first]?;
    for age in 1..=last {
        ages.push(age)?;
    }
    Ok(ages)
}

// The rows of an owner's only table.
fn loaded(alloc: Global, catalog: &Catalog, owner: u32, file: &[u8]) -> Option<Tables>
    requires { owner < length catalog.now.owners }
    ensures { IfSome result (λ tables. IsDataset (owner_signature (owner_entry_at catalog.now owner)) tables) }
{
    if catalog.tables(owner) != 1 {
        return None;
    }
    let Ok(table) = load(alloc, file, catalog.schema(owner, 0)) else {
        return None;
    };
    let mut tables = Tables::new(alloc);
    if tables.push(table).is_err() {
        return None;
    }
    Some(tables)
}

// What a part shows, where it is there.
fn shown<'d>(
    dataset: &'d Dataset,
    catalog: &Catalog,
    owner: u32,
    p: u8,
    j: u16,
) -> Option<&'d Table>
    requires owner { owner < length catalog.now.owners }
    requires partitions { dataset.now.partitions ≡ (owner_entry_at catalog.now owner).partitions }
{
    if p as usize >= catalog.partitions(owner) || j as usize >= catalog.keys(owner, p) {
        return None;
    }
    let tables = dataset.tables(View::Part {
        partition: p,
        part: j,
    });
    only_table(tables)
}

// The table of a dataset that has one.
pub(crate) fn only_table(tables: &Tables) -> Option<&Table> {
    if tables.len() != 1 {
        return None;
    }
    Some(tables.table(0))
}

// Whether the second column has just these numbers.
pub(crate) fn has_ages(table: Option<&Table>, ages: &[i64]) -> bool {
    let Some(table) = table else {
        return false;
    };
    if table.width() < 2 || table.len() != ages.len() {
        return false;
    }
    for row in 0..table.len() as u32 {
        match table.cell(row, 1) {
            Cell::Number(age) if age == ages[row as usize] => {}
            _ => return false,
        }
    }
    true
}

#[test]
fn parts_of_two_partitions(rt: HostRuntime) -> Result<(), Fail> {
    let alloc = rt.alloc();
    let Ok(catalog) = read(alloc, CATALOG) else {
        assert!(rt; false);
        return Ok(());
    };
    let _ = catalog.owners();
    let Some(tables) = loaded(alloc, &catalog, 0, PEOPLE) else {
        assert!(rt; false);
        return Ok(());
    };
    let Ok(dataset) = Dataset::new(alloc, &catalog, 0, tables) else {
        assert!(rt; false);
        return Ok(());
    };
    assert!(rt; has_ages(shown(&dataset, &catalog, 0, 0, 0), &[2]));
    assert!(rt; has_ages(shown(&dataset, &catalog, 0, 0, 1), &[1, 4]));
    assert!(rt; has_ages(shown(&dataset, &catalog, 0, 1, 0), &[3]));
    assert!(rt; shown(&dataset, &catalog, 0, 1, 1).is_none());
    assert!(rt; dataset.sig(View::Whole).len() == 1);
    Ok(())
}

#[test]
fn parts_of_many_keys(rt: HostRuntime) -> Result<(), Fail> {
    let alloc = rt.alloc();
    let text = with_keys(alloc, 300)?;
    let Ok(catalog) = read(alloc, text.as_bytes()) else {
        assert!(rt; false);
        return Ok(());
    };
    let _ = catalog.owners();
    let mut rows = with_rows(alloc, 290)?;
    push_rows(&mut rows, 271, 700)?;
    let Some(tables) = loaded(alloc, &catalog, 0, rows.as_bytes()) else {
        assert!(rt; false);
        return Ok(());
    };
    let Ok(dataset) = Dataset::new(alloc, &catalog, 0, tables) else {
        assert!(rt; false);
        return Ok(());
    };
    let many = ages_up_to(alloc, 271, 700)?;
    for key in 0..300 {
        let age = [i64::from(key)];
        let ages = match key {
            271 => many.as_slice(),
            0..=289 => age.as_slice(),
            _ => &[],
        };
        assert!(rt; has_ages(shown(&dataset, &catalog, 0, 0, key), ages));
    }
    assert!(rt; shown(&dataset, &catalog, 0, 0, 300).is_none());
    let whole = only_table(dataset.tables(View::Whole));
    assert!(rt; whole.is_some_and(|table| table.len() == 1280));
    Ok(())
}

// Whether each of 4,000 keys has its number and text, and the next is none.
fn has_keys(catalog: &Catalog) -> bool {
    if catalog.owners() != 1 {
        return false;
    }
    if catalog.partitions(0) != 1 {
        return false;
    }
    if catalog.keys(0, 0) != 4_000 {
        return false;
    }
    let numbers = (
        catalog.key(0, 0, b"k0"),
        catalog.key(0, 0, b"k256"),
        catalog.key(0, 0, b"k3999"),
        catalog.key(0, 0, b"k4000"),
    );
    numbers == (Some(0), Some(256), Some(3_999), None) && catalog.key_text(0, 0, 3_999) == "k3999"
}

#[test]
fn last_key(rt: HostRuntime) -> Result<(), Fail> {
    let text = with_keys(rt.alloc(), 4_000)?;
    let catalog = read(rt.alloc(), text.as_bytes())?;
    assert!(rt; has_keys(&catalog));
    Ok(())
}
