//! The elements of a header that isn't one: how long each is, and the first that isn't as long as it must be.
ghost use Rattle.std.specs.Prelude.{◌≡◌, ◌≤◌, length};
ghost use Rattle.night_definition.specs.Header.{separator_at};
ghost use Rattle.std.specs.List.{prefix_len};
ghost use Rattle.gather_files.specs.Causes.{element_len, is_other, is_wide, width_of, wrong_element};

/// The first of ISA01 to ISA15 that isn't as long as the standard says; 16 if each is.
pub(crate) fn wrong_element(file: &[u8]) -> usize
    requires { 4 ≤ length file.now }
    ensures value { result ≡ wrong_element file.now }
    ensures from { 1 ≤ result }
    ensures to { result ≤ 16 }
{
    let mut k = 1;
    while k < 16 && is_wide(file, k) {
        k += 1;
    }
    k
}

fn is_wide(file: &[u8], k: usize) -> bool
    requires long { 4 ≤ length file.now }
    requires from { 1 ≤ k }
    requires to { k ≤ 16 }
    ensures { result ≡ is_wide file.now k }
{
    element_len(file, k) == width_of(k)
}

/// How long element `k` is, up to the next separator.
pub(crate) fn element_len(file: &[u8], k: usize) -> usize
    requires long { 4 ≤ length file.now }
    requires from { 1 ≤ k }
    requires to { k ≤ 16 }
    ensures { result ≡ element_len file.now k }
{
    let start = separator_place(k) + 1;
    if start < file.len() {
        run_len(&file[start..], file[3])
    } else {
        0
    }
}

/// How many bytes are before the first separator.
fn run_len(bytes: &[u8], separator: u8) -> usize
    ensures { result ≡ prefix_len (is_other separator) bytes.now }
{
    bytes
        .iter()
        .take_while(|b| is_other(**b, separator))
        .count()
}

fn is_other(byte: u8, separator: u8) -> bool
    ensures { result ≡ is_other separator byte }
{
    byte != separator
}

/// Where the separator before element `k` is.
fn separator_place(k: usize) -> usize
    requires from { 1 ≤ k }
    requires to { k ≤ 16 }
    ensures value { result ≡ separator_at k }
    ensures bound { result ≤ 103 }
{
    x12_bytes::separator_place(k)
}

/// How wide element `k` must be.
pub(crate) fn width_of(k: usize) -> usize
    requires from { 1 ≤ k }
    requires to { k ≤ 16 }
    ensures value { result ≡ width_of k }
    ensures bound { result ≤ 15 }
{
    x12_bytes::width_of(k)
}
