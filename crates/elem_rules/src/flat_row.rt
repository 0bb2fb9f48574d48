ghost use Rattle.std.specs.Prelude.{◌≡◌, ◌==◌, ◌++◌, ◌<◌, ◌^◌, ◌≤◌, List, ℕ, IfOk, OnOk, map, take, drop, length};
ghost use Rattle.std.specs.Bool.{OnTrue};
ghost use Rattle.std.specs.List.{list_any};
ghost use Rattle.elem_rules.specs.declared.flat_row.FlatKind.TheVariants.{Any};
ghost use Rattle.elem_rules.specs.Flat.{packed, code_number, is_length, is_listed, is_sure, kind_of, IsFlatOf, IsGrown};

use crate::form::{decimal_digits, is_whole};
use guide_tree::{ElementType, SimpleRow};
use hub_kinds::{NoMemory, Text};
use moment::{is_date, is_time};

/// How many codes are looked at one by one: a search would cost more.
const FEW: usize = 32;

/// What is asked of a value besides its length.
#[derive(Clone, Copy, Debug)]
pub enum FlatKind {
    /// Nothing.
    Any,
    /// That it is one of the row's codes.
    Listed,
    /// That it is digits.
    Whole,
    /// That it is digits with at most one point among them; its length is how many digits there are.
    Decimal,
    Date,
    Time,
    /// The row itself is to be asked.
    Unsure,
}

/// The row of a simple element in 16 bytes. Of most values without fault it says that they have none.
#[derive(Clone, Copy, Debug)]
pub struct FlatRow {
    /// The least length.
    pub least: u32,
    /// How much longer a value may be.
    pub span: u32,
    /// Where the numbers of its codes begin in the table of them.
    pub from: u32,
    /// How many codes it has.
    pub count: u16,
    pub kind: FlatKind,
}

/// A length and three bytes in one number.
#[inline(always)]
pub fn packed(length: u8, a: u8, b: u8, c: u8) -> u32
    ensures { result ≡ packed length a b c }
{
    u32::from(length) * 0x0100_0000
        + (u32::from(c) * 0x0001_0000 + (u32::from(b) * 0x0100 + u32::from(a)))
}

/// The number of a code of one to three bytes, which no other text has; of any other text 0.
#[inline(always)]
pub fn code_number(text: &[u8]) -> u32
    ensures { result ≡ code_number text.now }
{
    match text {
        [a] => packed(1, *a, 0, 0),
        [a, b] => packed(2, *a, *b, 0),
        [a, b, c] => packed(3, *a, *b, *c),
        _ => 0,
    }
}

/// Whether a length is one that the row allows.
#[inline(always)]
fn is_length(row: &FlatRow, n: usize) -> bool
    ensures { result ≡ is_length row.now n }
{
    n.wrapping_sub(row.least as usize) <= row.span as usize
}

/// The numbers of the row's codes.
#[inline(always)]
fn own_numbers<'n>(row: &FlatRow, numbers: &'n [u32]) -> &'n [u32]
    ensures { result.now ≡ take row.now.count (drop row.now.from numbers.now) }
{
    let from = row.from as usize;
    let count = row.count as usize;
    if from >= numbers.len() {
        return &[];
    }
    let rest = &numbers[from..];
    if count >= rest.len() {
        return rest;
    }
    &rest[..count]
}

/// Whether a number is among others.
#[inline(always)]
fn has_number(numbers: &[u32], number: u32) -> bool
    ensures { result ≡ list_any (λ n. n == number) numbers.now }
{
    numbers.iter().any(|listed| *listed == number)
}

/// Whether a text is one of the row's codes, whose numbers are in this table.
#[inline(always)]
fn is_listed(row: &FlatRow, numbers: &[u32], text: &[u8]) -> bool
    ensures { result ≡ is_listed row.now numbers.now text.now }
{
    let number = code_number(text);
    number != 0 && has_number(own_numbers(row, numbers), number)
}

/// Whether a value of characters from space to tilde surely has no fault by the row whose flat row this is.
#[inline(always)]
pub(crate) fn is_sure(row: &FlatRow, numbers: &[u32], text: &[u8]) -> bool
    ensures { result ≡ is_sure row.now numbers.now text.now }
{
    match row.kind {
        FlatKind::Any => is_length(row, text.len()),
        FlatKind::Listed => is_length(row, text.len()) && is_listed(row, numbers, text),
        FlatKind::Whole => is_length(row, text.len()) && is_whole(text),
        FlatKind::Decimal => match decimal_digits(text) {
            None => false,
            Some(digits) => is_length(row, digits),
        },
        FlatKind::Date => is_length(row, text.len()) && is_date(text),
        FlatKind::Time => is_length(row, text.len()) && is_time(text),
        FlatKind::Unsure => false,
    }
}

fn kind_of(data_type: ElementType) -> FlatKind
    ensures { result ≡ kind_of data_type }
{
    match data_type {
        ElementType::Text | ElementType::Identifier => FlatKind::Any,
        ElementType::Number(_) => FlatKind::Whole,
        ElementType::Decimal => FlatKind::Decimal,
        ElementType::Date => FlatKind::Date,
        ElementType::Time => FlatKind::Time,
    }
}

/// Whether of elements of a type without codes their length alone is asked.
fn is_string(data_type: ElementType) -> bool
    ensures { OnTrue result (kind_of data_type ≡ Any) }
{
    match data_type {
        ElementType::Text | ElementType::Identifier => true,
        ElementType::Number(_) | ElementType::Decimal | ElementType::Date | ElementType::Time => {
            false
        }
    }
}

/// A flat row that says nothing of the values of `row`.
fn unsure(numbers: &[u32], row: &SimpleRow) -> FlatRow
    ensures { IsFlatOf result numbers.now row.now }
{
    FlatRow {
        least: 0,
        span: 0,
        from: 0,
        count: 0,
        kind: FlatKind::Unsure,
    }
}

/// Adds the numbers of codes to a table.
fn push_numbers(numbers: &mut Vec<u32>, codes: &[Text]) -> Result<(), NoMemory>
    ensures { OnOk result (numbers.new.items ≡ numbers.old.items ++ map code_number codes.now) }
{
    for k in 0..codes.len() {
        numbers.push(code_number(codes[k].as_slice()))?;
    }
    Ok(())
}

/// A row as a flat row. The numbers of its codes, where they are few, are added to a table, which may grow.
#[tactic(auto, using(crate::proofs::FlatRows::grown_none))]
pub(crate) fn flat_of(row: &SimpleRow, numbers: &mut Vec<u32>) -> Result<FlatRow, NoMemory>
    ensures flat { IfOk result (λ flat. IsFlatOf flat numbers.new.items row.now) }
    ensures grown { IfOk result (λ _. IsGrown numbers.old.items numbers.new.items) }
{
    if row.max < row.min {
        return Ok(unsure(numbers.as_slice(), row));
    }
    let span = row.max - row.min;
    let Some(listed) = &row.codes else {
        return Ok(FlatRow {
            least: row.min,
            span,
            from: 0,
            count: 0,
            kind: kind_of(row.data_type),
        });
    };
    let codes = listed.used.as_slice();
    let from = numbers.len();
    if !is_string(row.data_type) || codes.len() > FEW || from > 0xffff_ffff {
        return Ok(unsure(numbers.as_slice(), row));
    }
    push_numbers(numbers, codes)?;
    Ok(FlatRow {
        least: row.min,
        span,
        from: from as u32,
        count: codes.len() as u16,
        kind: FlatKind::Listed,
    })
}
