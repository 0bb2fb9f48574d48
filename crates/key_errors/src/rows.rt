//! A key's row in a table of constants.
ghost use Rattle.std.specs.Prelude.{◌≡◌};
ghost use Rattle.key_errors.specs.Rows.{find_by, words_by};

/// What `rows` have for `key`.
pub(crate) fn find_in<T: Copy>(rows: &[(&'static str, T)], key: &[u8]) -> Option<T>
    ensures { result ≡ find_by (λ row. row.0.now) (λ row. row.1) rows.now key.now }
{
    let mut left = rows;
    while let [row, rest @ ..] = left {
        if row.0.as_bytes() == key {
            return Some(row.1);
        }
        left = rest;
    }
    None
}

/// The words of `key` in `rows`, or else `other`.
pub(crate) fn words_in(
    rows: &[(&'static str, &'static str)],
    other: &'static str,
    key: &[u8],
) -> &'static [u8]
    ensures { result.now ≡ words_by (λ row. row.0.now) (λ row. row.1.now) rows.now other.now key.now }
{
    let mut left = rows;
    while let [row, rest @ ..] = left {
        if row.0.as_bytes() == key {
            return row.1.as_bytes();
        }
        left = rest;
    }
    other.as_bytes()
}
