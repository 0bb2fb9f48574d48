ghost use Rattle.std.specs.Prelude.{◌≡◌, ◌++◌, ◌∷◌, [], OnOk};
ghost use Rattle.std.specs.List.{list_all};
ghost use Rattle.csv_fields.specs.Csv as csv;

use hub_kinds::NoMemory;

/// Whether a byte may be in a field without quotes.
fn is_text_data(byte: u8) -> bool
    ensures { result ≡ csv.is_text_data byte }
{
    32 <= byte && byte <= 126 && byte != b'"' && byte != b','
}

/// Whether all of a field may.
fn is_plain(field: &[u8]) -> bool
    ensures { result ≡ list_all csv.is_text_data field.now }
{
    field.iter().all(|byte| is_text_data(*byte))
}

fn append_quoted_byte(out: &mut Vec<u8>, byte: u8) -> Result<(), NoMemory>
    ensures { OnOk result (out.new.items ≡ out.old.items ++ csv.twice_if_quote byte) }
{
    if byte == b'"' {
        out.push(byte)?;
    }
    out.push(byte)?;
    Ok(())
}

/// Writes a field in quotes.
fn append_quoted(out: &mut Vec<u8>, field: &[u8]) -> Result<(), NoMemory>
    ensures { OnOk result (out.new.items ≡ out.old.items ++ csv.quoted field.now) }
{
    out.push(b'"')?;
    append_quoted_bytes(out, field)?;
    out.push(b'"')?;
    Ok(())
}

fn append_quoted_bytes(out: &mut Vec<u8>, field: &[u8]) -> Result<(), NoMemory>
    ensures { OnOk result (out.new.items ≡ out.old.items ++ csv.quoted_bytes field.now) }
{
    for byte in field {
        append_quoted_byte(out, *byte)?;
    }
    Ok(())
}

/// Writes a field, in quotes where it needs them.
pub fn append_field(out: &mut Vec<u8>, field: &[u8]) -> Result<(), NoMemory>
    ensures { OnOk result (out.new.items ≡ out.old.items ++ csv.field_text field.now) }
{
    if !is_plain(field) {
        return append_quoted(out, field);
    }
    out.extend_from_slice(field)?;
    Ok(())
}

/// Writes a field after a comma.
fn append_next(out: &mut Vec<u8>, field: &[u8]) -> Result<(), NoMemory>
    ensures { OnOk result (out.new.items ≡ out.old.items ++ csv.fields_text (field.now ∷ [])) }
{
    out.push(b',')?;
    append_field(out, field)
}

/// Writes fields, each after a comma.
pub fn append_fields(out: &mut Vec<u8>, fields: &[&[u8]]) -> Result<(), NoMemory>
    ensures { OnOk result (out.new.items ≡ out.old.items ++ csv.fields_text (csv.read fields.now)) }
{
    for field in fields {
        append_next(out, field)?;
    }
    Ok(())
}

/// Writes the end of a record.
pub fn append_end(out: &mut Vec<u8>) -> Result<(), NoMemory>
    ensures { OnOk result (out.new.items ≡ out.old.items ++ 13 ∷ 10 ∷ []) }
{
    out.extend_from_slice(b"\r\n")?;
    Ok(())
}
