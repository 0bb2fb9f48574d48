ghost use Rattle.std.specs.Prelude.{◌≡◌, ◌≤◌, length};
ghost use Rattle.std.specs.List.{prefix_len};
ghost use Rattle.x12_bytes.specs.Bytes.{is_line_end};

/// How many CR and LF a part begins with.
pub fn lead(part: &[u8]) -> usize
    ensures value { result ≡ prefix_len is_line_end part.now }
    ensures bound { result ≤ length part.now }
{
    part.iter()
        .take_while(|b| **b == b'\r' || **b == b'\n')
        .count()
}
