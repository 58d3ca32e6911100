//! The rows of a file of CSV, one after another.

ghost use Rattle.std.specs.Prelude.{◌≡◌, ◌⊎◌, ◌≤◌, ◌<◌, length, map, nat_eq, IfOk, IfErr, OnOk, Ok, Err};
ghost use Rattle.std.specs.Cmp.Lexicographic.{pointwise};
ghost use Rattle.csv.specs.Records.{fields_of};
ghost use Rattle.metric_values.specs.Cells.{AllLong, AreColumns};
ghost use Rattle.metric_values.specs.Columns.{cells_of, rows_of_columns};
ghost use Rattle.table_store.specs.Growth.{HasRow, kind_of};
ghost use Rattle.table_store.specs.Reader.{HasRead, IsBetweenRecords, IsUnderHeader, IsUneven, records_left};
ghost use Rattle.table_store.specs.Schema.{IsSchema, column_kind, column_name, most_columns};
ghost use Rattle.table_store.specs.Table.{records_of, rows_from, rows_under};

use crate::columns::{empty_columns, push_row};
use crate::{MAX_ROWS, NamedColumn, TableFault};
use csv::{ByteRecord, ErrorKind, Reader, ReaderBuilder};
use metric_values::Column;
use std::alloc::Global;

const BYTE_ORDER_MARK: [u8; 3] = [0xEF, 0xBB, 0xBF];

/// Why no record was read.
#[derive(Clone, Copy)]
pub(crate) enum RecordFault {
    /// It has another number of fields than the records before it.
    Uneven,
    NoMemory,
}

/// The records of a file that weren't read yet.
#[derive(Drop)]
pub(crate) struct Rows<'a> {
    reader: Reader<&'a [u8]>,
    // The fields of the record that was read last, kept so that each takes the room of the one before.
    fields: ByteRecord,
}

// Whether a record's fields are the columns' names, in order.
fn has_names(fields: &ByteRecord, schema: &[NamedColumn]) -> bool
    ensures { result ≡ pointwise (pointwise nat_eq) (fields_of fields.now) (map column_name schema.now) }
{
    if fields.len() != schema.len() {
        return false;
    }
    for i in 0..schema.len() {
        if fields.get(i) != Some(schema[i].name().as_bytes()) {
            return false;
        }
    }
    true
}

impl<'a> Rows<'a> {
    /// All records of a file.
    pub(crate) fn new(alloc: Global, bytes: &'a [u8]) -> Result<Self, TableFault>
        ensures stands { IfOk result (λ rows. IsBetweenRecords rows.reader) }
        ensures all { IfOk result (λ rows. records_left rows.reader ≡ records_of bytes.now) }
        ensures fault { IfErr result (λ fault. fault ≡ TableFault.NoMemory) }
    {
        let text = bytes.strip_prefix(&BYTE_ORDER_MARK).unwrap_or(bytes);
        let mut reader = ReaderBuilder::new().from_reader(alloc, text);
        // Without names of its own the reader would keep two copies of the first record.
        match reader.set_byte_headers(ByteRecord::new(alloc)) {
            Ok(()) => Ok(Rows {
                reader,
                fields: ByteRecord::new(alloc),
            }),
            Err(_) => Err(TableFault::NoMemory),
        }
    }

    /// Reads the header, which is to be the columns' names.
    pub(crate) fn read_header(&mut self, schema: &[NamedColumn]) -> Result<(), TableFault>
        requires { IsBetweenRecords self.old.reader }
        ensures stands { OnOk result (IsUnderHeader (length schema.now) self.new.reader) }
        ensures same { OnOk result (rows_under schema.now (records_left self.old.reader) ≡ rows_from (map column_kind schema.now) 0
            (records_left self.new.reader)) }
        ensures fault { IfErr result (λ fault. (fault ≡ TableFault.NoMemory) ⊎ (rows_under schema.now (records_left self.old.reader) ≡ Err fault)) }
    {
        match self.read_record() {
            Ok(true) => {}
            Ok(false) => return Err(TableFault::BadHeader),
            // There is no length to differ from yet.
            Err(_) => return Err(TableFault::NoMemory),
        }
        if has_names(&self.fields, schema) {
            Ok(())
        } else {
            Err(TableFault::BadHeader)
        }
    }

    /// Reads the rows to the file's end into columns.
    pub(crate) fn read_columns(
        &mut self,
        alloc: Global,
        schema: &[NamedColumn],
    ) -> Result<Vec<Column>, TableFault>
        requires schema { IsSchema schema.now }
        requires under { IsUnderHeader (length schema.now) self.old.reader }
        ensures rows { IfOk result (λ columns. rows_from (map column_kind schema.now) 0 (records_left self.old.reader) ≡ Ok (rows_of_columns columns.items)) }
        ensures columns { IfOk result (λ columns. AreColumns (map cells_of columns.items)) }
        ensures few { IfOk result (λ columns. length columns.items ≤ most_columns) }
        ensures fault { IfErr result (λ fault. (fault ≡ TableFault.NoMemory)
            ⊎ (rows_from (map column_kind schema.now) 0 (records_left self.old.reader) ≡ Err fault)) }
    {
        let mut columns = empty_columns(alloc, schema)?;
        let mut row = 0;
        while self.read_row(&mut columns, row)? {
            row += 1;
        }
        Ok(columns)
    }

    // Reads this row into the columns, if it is there.
    fn read_row(&mut self, columns: &mut Vec<Column>, row: u32) -> Result<bool, TableFault>
        requires some { 0 < length columns.old.items }
        requires few { length columns.old.items ≤ most_columns }
        requires long { AllLong row (map cells_of columns.old.items) }
        requires under { IsUnderHeader (length columns.old.items) self.old.reader }
        ensures row { IfOk result (λ found. HasRow found row self.old.reader self.new.reader columns.old.items columns.new.items) }
        ensures fault { IfErr result (λ fault. (fault ≡ TableFault.NoMemory)
            ⊎ (rows_from (map kind_of columns.old.items) row (records_left self.old.reader) ≡ Err fault)) }
    {
        match self.read_record() {
            Ok(true) => {}
            Ok(false) => return Ok(false),
            Err(RecordFault::Uneven) => return Err(TableFault::BadRecord { row }),
            Err(RecordFault::NoMemory) => return Err(TableFault::NoMemory),
        }
        push_row(columns, &self.fields, row)?;
        if row >= MAX_ROWS {
            return Err(TableFault::TooManyRows);
        }
        Ok(true)
    }

    // Reads the next record, if there is one.
    fn read_record(&mut self) -> Result<bool, RecordFault>
        requires { IsBetweenRecords self.old.reader }
        ensures record { IfOk result (λ found. HasRead found self.old.reader self.new.reader (fields_of self.new.fields)) }
        ensures fault { IfErr result (λ fault. (fault ≡ RecordFault.NoMemory) ⊎ IsUneven self.old.reader) }
    {
        match self.reader.read_byte_record(&mut self.fields) {
            Ok(found) => Ok(found),
            Err(error) => match error.kind() {
                ErrorKind::UnequalLengths { .. } => Err(RecordFault::Uneven),
                // Reading a slice doesn't fail, so this is want of memory.
                _ => Err(RecordFault::NoMemory),
            },
        }
    }
}
