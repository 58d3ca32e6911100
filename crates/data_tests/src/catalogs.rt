//! Catalogs that are read: each fault with its kind and place, and the calls on a catalog.

use owner_catalog::{Catalog, CatalogFault, FaultKind, Place, digest, read};
use std::alloc::{AllocError, Global};
use std::test::Fail;

// Words that programs reserve are names of all but tables.
const RESERVED: &str =
    "{\"analysts\":[\"fun\"],\"owners\":[{\"name\":\"fun\",\"budget\":1,\"capacity\":2,\"tables\":[{\"name\":\"t\",\"file\":\"f\",\
    \"columns\":[{\"name\":\"fun\",\"type\":\"text\"}]}],\"partitions\":[{\"name\":\"fun\",\"table\":\"t\",\"column\":\"fun\",\"keys\":[\"fun\"]}]}]}";

const FIRST: &str = "{\"analysts\":[\"ann\"],\"owners\":[";

#[rattlefmt::skip]
const OWNER: &str =
    "{\"name\":\"o\",\"budget\":1,\"capacity\":2,\
    \"tables\":[{\"name\":\"t\",\"file\":\"f\",\"columns\":[{\"name\":\"a\",\"type\":\"num\"}]}],\"partitions\":[]}";

const SECOND: &str = ",{\"name\":\"p\",\"budget\":1,\"capacity\":2,";

const TABLE: &str =
    "{\"name\":\"t\",\"file\":\"f\",\"columns\":[{\"name\":\"a\",\"type\":\"text\"}]}";

const PARTITION: &str = "{\"name\":\"q\",\"table\":\"t\",\"column\":\"a\",\"keys\":[\"A\"]}";

// What stands before a part, rows of what is said and of the text of which it is said, and what stands behind the part. A fault is said by its kind,
// the member, and the numbers of the owner, the item and the sub-item.
type Part = (&'static [&'static str], &'static str, &'static str);

// The file.
const OF_FILES: &str = r#"Syntax Catalog 0 0 0|{"owners":
Kind Catalog 0 0 0|[]
Missing Analysts 0 0 0|{"owners":0,"a":0}
Unknown z Catalog 0 0 0|{"owners":0,"analysts":0,"z":0}
Kind Analysts 0 0 0|{"owners":0,"analysts":0}
Count Analysts 0 0 0|{"owners":0,"analysts":[]}
Kind Analyst 0 1 0|{"owners":0,"analysts":["ann",1]}
Form Analyst 0 1 0|{"owners":0,"analysts":["ann","b b"]}
Double Analyst 0 2 0|{"owners":0,"analysts":["ann","bob","ann"]}
Kind Owners 0 0 0|{"owners":0,"analysts":["ann"]}
Count Owners 0 0 0|{"owners":[],"analysts":["ann"]}"#;

// Members of the second owner.
const OF_OWNERS_MEMBERS: &str = r#"Missing Budget 1 0 0|"name":7,"z":7}
Unknown z Owner 1 0 0|"name":"p","budget":1,"capacity":2,"tables":7,"partitions":7,"z":7}
Kind OwnerName 1 0 0|"name":7,"budget":1,"capacity":2,"tables":7,"partitions":7}
Form OwnerName 1 0 0|"name":"1","budget":1,"capacity":2,"tables":7,"partitions":7}
Kind Budget 1 0 0|"name":"p","budget":1.0,"capacity":2,"tables":7,"partitions":7}
Range Budget 1 0 0|"name":"p","budget":0,"capacity":2,"tables":7,"partitions":7}
Kind Capacity 1 0 0|"name":"p","budget":1,"capacity":-0,"tables":7,"partitions":7}
Range Capacity 1 0 0|"name":"p","budget":1,"capacity":262145,"tables":7,"partitions":7}
Kind Tables 1 0 0|"name":"p","budget":1,"capacity":2,"tables":7,"partitions":7}
Count Tables 1 0 0|"name":"p","budget":1,"capacity":2,"tables":[],"partitions":7}"#;

// The second owner.
const OF_OWNERS: &str = r#"Kind Owner 1 0 0|7
Double Owner 1 0 0|{"name":"o","budget":1,"capacity":2,"tables":[{"name":"t","file":"f","columns":[{"name":"a","type":"num"}]}],"partitions":[]}"#;

// The second table of the second owner.
const OF_TABLES: &str = r#"Kind Table 1 1 0|7
Missing File 1 1 0|{"name":7,"columns":7,"z":7}
Unknown z Table 1 1 0|{"name":7,"columns":7,"file":7,"z":7}
Kind TableName 1 1 0|{"name":7,"columns":7,"file":7}
Form TableName 1 1 0|{"name":"union","columns":7,"file":7}
Form TableName 1 1 0|{"name":"do","columns":7,"file":7}
Form TableName 1 1 0|{"name":"release","columns":7,"file":7}
Form TableName 1 1 0|{"name":"at","columns":7,"file":7}
Kind File 1 1 0|{"name":"u","columns":7,"file":7}
Form File 1 1 0|{"name":"u","columns":7,"file":"a\u001fb"}
Kind Columns 1 1 0|{"name":"u","columns":7,"file":"g"}
Count Columns 1 1 0|{"name":"u","columns":[],"file":"g"}
Double Table 1 1 0|{"name":"t","file":"f","columns":[{"name":"a","type":"num"}]}
Kind Partitions 1 0 0|{"name":"u","file":"f","columns":[{"name":"a","type":"num"}]}"#;

// The second column of that table.
const OF_COLUMNS: &str = r#"Kind Column 1 1 1|7
Missing ColumnName 1 1 1|{"z":7}
Unknown z Column 1 1 1|{"name":7,"type":7,"z":7}
Kind ColumnName 1 1 1|{"name":7,"type":7}
Form ColumnName 1 1 1|{"name":"","type":7}
Kind ColumnType 1 1 1|{"name":"b","type":7}
Form ColumnType 1 1 1|{"name":"b","type":"number"}
Double Column 1 1 1|{"name":"a","type":"text"}"#;

// Members of the second partition of the second owner. Of a key's text bytes count, and not characters: 64 of them, and 66.
const OF_PARTITIONS_MEMBERS: &str =
    r#"Missing PartitionTable 1 1 0|"name":7,"column":7,"keys":7,"z":7}
Unknown z Partition 1 1 0|"name":"r","table":"t","column":"a","keys":7,"z":7}
Kind PartitionName 1 1 0|"name":7,"table":"t","column":"a","keys":7}
Form PartitionName 1 1 0|"name":"r s","table":"t","column":"a","keys":7}
Kind PartitionTable 1 1 0|"name":"r","table":7,"column":"a","keys":7}
NoSuch PartitionTable 1 1 0|"name":"r","table":"u","column":"a","keys":7}
Kind PartitionColumn 1 1 0|"name":"r","table":"t","column":7,"keys":7}
NoSuch PartitionColumn 1 1 0|"name":"r","table":"t","column":"n","keys":7}
Kind Keys 1 1 0|"name":"r","table":"t","column":"a","keys":7}
Count Keys 1 1 0|"name":"r","table":"t","column":"a","keys":[]}
Kind Key 1 1 0|"name":"r","table":"t","column":"a","keys":[7]}
Form Key 1 1 1|"name":"r","table":"t","column":"a","keys":["A","a b"]}
Form Key 1 1 0|"name":"r","table":"t","column":"a","keys":["a\u001f"]}
Kind Key 1 1 2|"name":"r","table":"t","column":"a","keys":["A","éééééééééééééééééééééééééééééééé",7]}
Form Key 1 1 1|"name":"r","table":"t","column":"a","keys":["A","ééééééééééééééééééééééééééééééééé",7]}
Double Key 1 1 2|"name":"r","table":"t","column":"a","keys":["A","B","A"]}
Double Partition 1 1 0|"name":"q","table":"t","column":"a","keys":["A"]}"#;

// The partitions of the second owner.
const OF_PARTITIONS: &str = r#"Kind Partition 1 0 0|[7]
Count Partitions 1 0 0|[7,7,7,7,7,7,7,7,7]
ok|[]"#;

// The limits of the second owner, which stand before its last members.
const OF_LIMITS: &str = r#"Kind Limits 1 0 0|7
Kind Limits 1 0 0|null
Kind Limit 1 0 0|[7]
Missing LimitAnalyst 1 0 0|[{"budget":7,"z":7}]
Missing LimitBudget 1 0 0|[{"analyst":7,"z":7}]
Unknown z Limit 1 0 0|[{"analyst":7,"budget":0,"z":7}]
Kind LimitAnalyst 1 0 0|[{"analyst":7,"budget":0}]
NoSuch LimitAnalyst 1 0 0|[{"analyst":"bob","budget":0}]
Kind LimitBudget 1 0 0|[{"analyst":"ann","budget":"1"}]
Range LimitBudget 1 0 0|[{"analyst":"ann","budget":0}]
Range LimitBudget 1 0 0|[{"analyst":"ann","budget":1000000000000000001}]
Double Limit 1 1 0|[{"analyst":"ann","budget":1},{"analyst":"ann","budget":2}]
ok|[{"analyst":"ann","budget":1000000000000000000}]
ok|[]"#;

#[rattlefmt::skip]
const PARTS: [Part; 9] = [
    (&[RESERVED], "ok|", ""),
    (&[], OF_FILES, ""),
    (&[FIRST, OWNER, ",{"], OF_OWNERS_MEMBERS, "]}"),
    (&[FIRST, OWNER, ","], OF_OWNERS, "]}"),
    (&[FIRST, OWNER, SECOND, "\"partitions\":7,\"tables\":[", TABLE, ","], OF_TABLES, "]}]}"),
    (&[FIRST, OWNER, SECOND, "\"partitions\":7,\"tables\":[", TABLE, ",{\"name\":\"u\",\"file\":\"g\",\"columns\":[{\"name\":\"a\",\"type\":\"num\"},"], OF_COLUMNS, "]}]}]}"),
    (&[FIRST, OWNER, SECOND, "\"tables\":[", TABLE, "],\"partitions\":[", PARTITION, ",{"], OF_PARTITIONS_MEMBERS, "]}]}"),
    (&[FIRST, OWNER, SECOND, "\"tables\":[", TABLE, "],\"partitions\":"], OF_PARTITIONS, "}]}"),
    (&[FIRST, OWNER, ",{\"name\":\"p\",\"limits\":"], OF_LIMITS, ",\"budget\":1,\"capacity\":2,\"tables\":[{\"name\":\"t\",\"file\":\"f\",\"columns\":[{\"name\":\"a\",\"type\":\"num\"}]}],\"partitions\":[]}]}"),
];

// A fault in the words of the rows.
fn fault_text(alloc: Global, kind: &FaultKind, at: &Place) -> Result<String, AllocError> {
    let mut text = String::new(alloc);
    match kind {
        FaultKind::Unknown(name) => write!(text, "Unknown {}", name.as_str())?,
        kind => write!(text, "{kind:?}")?,
    }
    write!(
        text,
        " {:?} {} {} {}",
        at.member, at.owner, at.item, at.sub_item
    )?;
    Ok(text)
}

// What is said of a catalog's text.
fn said(alloc: Global, text: &str) -> Result<String, AllocError> {
    match read(alloc, text.as_bytes()) {
        Ok(_) => String::from_str(alloc, "ok"),
        Err(CatalogFault::Bad { kind, at }) => fault_text(alloc, &kind, &at),
        Err(CatalogFault::NoMemory) => Err(AllocError),
    }
}

// The text of a catalog with this in a part's place.
fn text_with(
    alloc: Global,
    before: &[&str],
    inside: &str,
    after: &str,
) -> Result<String, AllocError> {
    let mut text = String::new(alloc);
    for piece in before {
        text.push_str(piece)?;
    }
    text.push_str(inside)?;
    text.push_str(after)?;
    Ok(text)
}

// Whether that is said of a catalog which a row of a part wants.
fn is_said(alloc: Global, before: &[&str], row: &str, after: &str) -> Result<bool, AllocError> {
    let Some((wanted, inside)) = row.split_once('|') else {
        return Ok(false);
    };
    let text = text_with(alloc, before, inside, after)?;
    Ok(said(alloc, &text)?.as_str() == wanted)
}

// The first row of which another thing is said than it wants, if there is one.
fn first_wrong(alloc: Global, parts: &[Part]) -> Result<Option<&'static str>, AllocError> {
    for (before, rows, after) in parts {
        for row in rows.lines() {
            if !is_said(alloc, before, row, after)? {
                return Ok(Some(row));
            }
        }
    }
    Ok(None)
}

fn wrong_row(alloc: Global) -> Result<Option<&'static str>, AllocError> {
    first_wrong(alloc, &PARTS)
}

#[test]
fn each_fault(rt: HostRuntime) -> Result<(), Fail> {
    let wrong = wrong_row(rt.alloc())?;
    assert!(rt; wrong.is_none(), "of {wrong:?}");
    Ok(())
}

const CATALOG: &str =
    "{\"owners\":[{\"name\":\"census\",\"budget\":10000000,\"capacity\":100,\"partitions\":[{\"keys\":[\"A\",\"B\"],\"name\":\"area\",\
    \"table\":\"people\",\"column\":\"town\"}],\"tables\":[{\"file\":\"people.csv\",\"name\":\"people\",\"columns\":[{\"type\":\"num\",\"name\":\"age\"},\
    {\"name\":\"town\",\"type\":\"text\"}]},{\"name\":\"visits\",\"file\":\"visits.csv\",\"columns\":[{\"name\":\"day\",\"type\":\"num\"}]}],\
    \"limits\":[{\"budget\":5,\"analyst\":\"bob\"}]},\
    {\"name\":\"clinic\",\"budget\":1000000000000000000,\"capacity\":262144,\"tables\":[{\"name\":\"a\",\"file\":\"a\",\"columns\":[{\"name\":\"n\",\
    \"type\":\"num\"}]}],\"partitions\":[]}],\"analysts\":[\"ann\",\"bob\"]}";

// The SHA-256 of a key of 32 bytes 7, the analysts' text, the second owner's, and a table's digest of 32 bytes 9, by Python's hashlib.
const DIGEST: [u8; 32] = [
    0xb0, 0xc1, 0xc3, 0x84, 0xd5, 0x88, 0x66, 0x21, 0x94, 0x78, 0x80, 0x23, 0x2a, 0xb4, 0x0d, 0xea,
    0xfe, 0x16, 0x9c, 0x31, 0xc1, 0x14, 0x20, 0xfe, 0xf9, 0xb9, 0x11, 0x74, 0x47, 0x89, 0xb8, 0xc4,
];

// Names are found by their bytes, each among those of its kind.
fn finds_names(catalog: &Catalog) -> bool {
    if catalog.owners() != 2 {
        return false;
    }
    if catalog.text() != "[\"ann\",\"bob\"]" {
        return false;
    }
    let analysts = (catalog.analyst(b"bob"), catalog.analyst(b"census"));
    let owners = (catalog.owner(b"clinic"), catalog.owner(b"Clinic"));
    let tables = (catalog.table(0, b"visits"), catalog.table(1, b"visits"));
    let partitions = (catalog.partition(0, b"area"), catalog.partition(1, b"area"));
    analysts == (Some(1), None)
        && owners == (Some(1), None)
        && tables == (Some(1), None)
        && partitions == (Some(0), None)
}

// The first owner's tables, and the keys of its partition.
fn has_parts(catalog: &Catalog) -> bool {
    if catalog.owners() != 2 {
        return false;
    }
    if catalog.tables(0) != 2 {
        return false;
    }
    if catalog.partitions(0) != 1 {
        return false;
    }
    let keys = catalog.keys(0, 0);
    let found = (catalog.key(0, 0, b"B"), catalog.key(0, 0, b"AB"));
    let names = (catalog.table_name(0, 1), catalog.file(0, 0));
    let columns = catalog.schema(0, 0).columns().len();
    keys == 2 && found == (Some(1), None) && names == ("visits", "people.csv") && columns == 2
}

// The second owner's name and numbers.
fn has_clinic(catalog: &Catalog) -> bool {
    if catalog.owners() != 2 {
        return false;
    }
    let name = catalog.owner_name(1);
    let numbers = (catalog.budget(1), catalog.capacity(1));
    let parts = (catalog.tables(1), catalog.partitions(1));
    name == "clinic" && numbers == (1_000_000_000_000_000_000, 262_144) && parts == (1, 0)
}

// Bob's limit with the first owner, and no other.
fn has_limits(catalog: &Catalog) -> bool {
    if catalog.owners() != 2 {
        return false;
    }
    if catalog.analysts() != 2 {
        return false;
    }
    let first = (catalog.limit(0, 0), catalog.limit(0, 1));
    first == (None, Some(5)) && catalog.limit(1, 1).is_none()
}

// The same of the first owner, with digests of 32 bytes 9 and of 32 bytes 8, in this order.
const DIGEST_OF_TWO: [u8; 32] = [
    0xf6, 0xf9, 0xd4, 0x34, 0xc8, 0x45, 0x93, 0x02, 0x2f, 0x29, 0x2a, 0xca, 0x3c, 0xc9, 0x29, 0x35,
    0x55, 0x22, 0x0b, 0xbb, 0x4f, 0xc5, 0x44, 0x9d, 0x75, 0x38, 0xc3, 0x42, 0xd8, 0xd5, 0x04, 0xf0,
];

fn has_signature(alloc: Global, catalog: &Catalog) -> bool {
    if catalog.owners() != 2 {
        return false;
    }
    match catalog.signature(alloc, 0) {
        Ok(signature) => signature.len() == 2,
        Err(_) => false,
    }
}

fn has_digests(catalog: &Catalog) -> bool {
    if catalog.owners() != 2 {
        return false;
    }
    if catalog.tables(0) != 2 {
        return false;
    }
    if catalog.tables(1) != 1 {
        return false;
    }
    digest(catalog, 1, &[7; 32], &[[9; 32]]) == Ok(DIGEST)
        && digest(catalog, 0, &[7; 32], &[[9; 32], [8; 32]]) == Ok(DIGEST_OF_TWO)
}

fn is_right(alloc: Global, catalog: &Catalog) -> bool {
    finds_names(catalog)
        && has_parts(catalog)
        && has_clinic(catalog)
        && has_limits(catalog)
        && has_signature(alloc, catalog)
        && has_digests(catalog)
}

fn is_read(alloc: Global) -> bool {
    match read(alloc, CATALOG.as_bytes()) {
        Ok(catalog) => is_right(alloc, &catalog),
        Err(_) => false,
    }
}

#[test]
fn calls(rt: HostRuntime) {
    assert!(rt; is_read(rt.alloc()));
}
