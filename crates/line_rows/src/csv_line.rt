ghost use Rattle.std.specs.Prelude.{◌≡◌, ◌==◌, IfOk, true, false, map, option_map, position, bytes_eq};
ghost use Rattle.std.specs.List.{slice_split};
ghost use Rattle.std.specs.Option.{option_copied};
ghost use Rattle.csv.specs.Records.{fields_of};
ghost use Rattle.line_rows.specs.Csv as spec;

use crate::reading::Reading;
use crate::text::text_in;
use csv::{ByteRecord, ReaderBuilder};
use std::alloc::{AllocError, Global};
use value_core::{Column, Kind, Value};

/// Where a column finds its field in a record, and what it takes.
#[derive(Clone, Copy)]
pub struct Source {
    pub kind: Kind,
    /// Counted from 0; `None` where the header doesn't name the column.
    pub place: Option<usize>,
}

impl Source {
    fn takes(&self, place: usize) -> bool
        ensures { result ≡ spec.takes place self.now }
    {
        match self.place {
            Some(own) => own == place,
            None => false,
        }
    }
}

fn has_mark(line: &[u8]) -> bool
    ensures { result ≡ spec.has_mark line.now }
{
    line.len() >= 3 && line[0] == 0xef && line[1] == 0xbb && line[2] == 0xbf
}

/// Whether a line isn't UTF-8, holds a CR or begins with a byte order mark.
fn is_malformed(line: &[u8]) -> bool
    ensures { result ≡ spec.is_malformed line.now }
{
    text_in(line).is_none() || line.contains(&b'\r') || has_mark(line)
}

/// The first record of a line, with no field where there is none. A quote that nothing closes ends with the line,
/// and what stands behind a closing quote up to the separator belongs to the field.
fn read_fields(alloc: Global, sep: u8, line: &[u8]) -> Result<ByteRecord, AllocError>
    requires { spec.is_malformed line.now ≡ false }
    ensures { IfOk result (λ found. fields_of found ≡ spec.fields_read sep line.now) }
{
    let mut reader = ReaderBuilder::new()
        .has_headers(false)
        .flexible(true)
        .delimiter(sep)
        .from_reader(alloc, line);
    let mut fields = ByteRecord::new(alloc);
    match reader.read_byte_record(&mut fields) {
        Ok(true) => Ok(fields),
        Ok(false) => Ok(ByteRecord::new(alloc)),
        // Reading from memory fails for want of memory alone.
        Err(_) => Err(AllocError),
    }
}

/// Whether a line has bytes, and no quote and no LF among them.
fn is_plain(line: &[u8]) -> bool
    ensures { result ≡ spec.is_plain line.now }
{
    !line.is_empty() && !line.contains(&b'"') && !line.contains(&b'\n')
}

/// The pieces of a line between its separators.
fn pieces_of(alloc: Global, sep: u8, line: &[u8]) -> Result<Vec<&[u8]>, AllocError>
    ensures { IfOk result (λ pieces. map (λ piece. piece.now) pieces.items ≡ slice_split (λ byte. byte == sep) line.now) }
{
    line.split(|byte| *byte == sep).collect(alloc)
}

/// The fields of a line where no quote stands: its pieces are what a reader finds, and a reader's tables, which take
/// longer to fill than a line takes to read, aren't made.
fn plain_fields(alloc: Global, sep: u8, line: &[u8]) -> Result<ByteRecord, AllocError>
    requires sound { spec.is_malformed line.now ≡ false }
    requires plain { spec.is_plain line.now ≡ true }
    ensures { IfOk result (λ found. fields_of found ≡ spec.fields_read sep line.now) }
{
    let pieces = pieces_of(alloc, sep, line)?;
    let fields = ByteRecord::from_fields(alloc, pieces.as_slice())?;
    Ok(fields)
}

/// The fields of a line that isn't malformed.
fn fields_in(alloc: Global, sep: u8, line: &[u8]) -> Result<Option<ByteRecord>, AllocError>
    ensures { IfOk result (λ found. option_map fields_of found ≡ spec.fields_in sep line.now) }
{
    if is_malformed(line) {
        return Ok(None);
    }
    if is_plain(line) {
        return Ok(Some(plain_fields(alloc, sep, line)?));
    }
    Ok(Some(read_fields(alloc, sep, line)?))
}

/// The names in a header, if there is one; a malformed header has none.
fn header_of(alloc: Global, sep: u8, head: Option<&[u8]>) -> Result<Option<ByteRecord>, AllocError>
    ensures { IfOk result (λ header. option_map fields_of header ≡ spec.header_of sep (option_copied head.entry)) }
{
    let Some(line) = head else {
        return Ok(None);
    };
    match fields_in(alloc, sep, line)? {
        Some(header) => Ok(Some(header)),
        None => Ok(Some(ByteRecord::new(alloc))),
    }
}

fn is_name(field: Option<&[u8]>, name: &str) -> bool
    ensures { result ≡ spec.is_name name.now (option_copied field.entry) }
{
    match field {
        Some(field) => field == name.as_bytes(),
        None => false,
    }
}

/// The first place at which a header has a name, byte for byte.
fn place_in(header: &ByteRecord, name: &str) -> Option<usize>
    ensures { result ≡ position (λ field. bytes_eq field name.now) (fields_of header.now) }
{
    for place in 0..header.len() {
        if is_name(header.get(place), name) {
            return Some(place);
        }
    }
    None
}

/// The place of a column's field: that of its name in the header, or without one its own.
fn place_of(header: Option<&ByteRecord>, own: usize, name: &str) -> Option<usize>
    ensures { result ≡ spec.place_of (option_map (λ header. fields_of header.now) header.entry) own name.now }
{
    match header {
        Some(header) => place_in(header, name),
        None => Some(own),
    }
}

fn source_of(header: Option<&ByteRecord>, own: usize, column: &Column) -> Source
    ensures { result ≡ spec.source_of (option_map (λ header. fields_of header.now) header.entry) (own, column.now) }
{
    Source {
        kind: column.kind,
        place: place_of(header, own, column.name.as_str()),
    }
}

fn sources_of(
    alloc: Global,
    header: Option<&ByteRecord>,
    columns: &[Column],
) -> Result<Vec<Source>, AllocError>
    ensures { IfOk result (λ sources. sources.items ≡ spec.sources_of (option_map (λ header. fields_of header.now) header.entry) columns.now) }
{
    columns
        .iter()
        .enumerate()
        .map(|(own, column)| source_of(header, own, column))
        .collect(alloc)
}

/// What a column of a kind takes from a field: NULL from an empty one. `None` where it refuses it.
fn field_value(alloc: Global, kind: Kind, field: &[u8]) -> Result<Option<Value>, AllocError>
    ensures { IfOk result (λ value. value ≡ spec.field_value kind field.now) }
{
    if field.is_empty() {
        return Ok(Some(Value::Null));
    }
    match text_in(field) {
        Some(text) => Value::from_text(alloc, text, kind),
        None => Ok(None),
    }
}

/// What a column takes from a record: NULL where its field is missing.
fn csv_field(
    alloc: Global,
    fields: &ByteRecord,
    source: &Source,
) -> Result<Option<Value>, AllocError>
    ensures { IfOk result (λ value. value ≡ spec.csv_field (fields_of fields.now) source.now) }
{
    let Some(place) = source.place else {
        return Ok(Some(Value::Null));
    };
    match fields.get(place) {
        Some(field) => field_value(alloc, source.kind, field),
        None => Ok(Some(Value::Null)),
    }
}

fn is_taken(sources: &[Source], place: usize) -> bool
    ensures { result ≡ spec.is_taken sources.now place }
{
    sources.iter().any(|source| source.takes(place))
}

fn is_stray(sources: &[Source], place: usize, field: Option<&[u8]>) -> bool
    ensures { result ≡ spec.is_stray_at sources.now place (option_copied field.entry) }
{
    match field {
        Some(field) => !field.is_empty() && !is_taken(sources, place),
        None => false,
    }
}

#[tactic(auto, using(crate::proofs::CsvLemmas::stray_more, crate::proofs::CsvLemmas::stray_found))]
/// Whether a record has a field that isn't empty and that no column takes.
fn has_stray_field(sources: &[Source], fields: &ByteRecord) -> bool
    ensures { result ≡ spec.has_stray_field sources.now (fields_of fields.now) }
{
    for place in 0..fields.len() {
        if is_stray(sources, place, fields.get(place)) {
            return true;
        }
    }
    false
}

/// How many fields a record should have.
fn width_of(header: Option<&ByteRecord>, columns: &[Column]) -> usize
    ensures { result ≡ spec.width_of (option_map (λ header. fields_of header.now) header.entry) columns.now }
{
    match header {
        Some(header) => header.len(),
        None => columns.len(),
    }
}

/// Whether a record has more or fewer fields than it should have, or one that no column takes.
fn is_unfit(
    header: Option<&ByteRecord>,
    columns: &[Column],
    sources: &[Source],
    fields: &ByteRecord,
) -> bool
    ensures { result ≡ spec.is_unfit (option_map (λ header. fields_of header.now) header.entry) columns.now sources.now (fields_of fields.now) }
{
    fields.len() != width_of(header, columns) || has_stray_field(sources, fields)
}

#[tactic(auto, using(crate::proofs::ReadingLemmas::reading_more))]
fn record_reading(
    alloc: Global,
    columns: &[Column],
    header: Option<&ByteRecord>,
    fields: &ByteRecord,
) -> Result<Reading, AllocError>
    ensures { IfOk result (λ reading. reading ≡ spec.record_reading columns.now (option_map (λ header. fields_of header.now) header.entry) (fields_of fields.now)) }
{
    let sources = sources_of(alloc, header, columns)?;
    let is_unfit = is_unfit(header, columns, sources.as_slice(), fields);
    let mut reading = Reading::new(alloc, is_unfit);
    for source in sources.as_slice() {
        reading.push(csv_field(alloc, fields, source)?)?;
    }
    Ok(reading)
}

/// The reading of a CSV line, under the header line if there is one.
pub fn csv_reading(
    alloc: Global,
    sep: u8,
    columns: &[Column],
    head: Option<&[u8]>,
    line: &[u8],
) -> Result<Reading, AllocError>
    ensures { IfOk result (λ reading. reading ≡ spec.csv_reading sep columns.now (option_copied head.entry) line.now) }
{
    match fields_in(alloc, sep, line)? {
        Some(fields) => {
            let header = header_of(alloc, sep, head)?;
            record_reading(alloc, columns, header.as_ref(), &fields)
        }
        None => Reading::malformed(alloc, columns),
    }
}
