ghost use Rattle.std.specs.Prelude.{◌≡◌, ◌≤◌, ◌<◌, ◌++◌, ℕ, List, length, true};
ghost use Rattle.std.specs.List.{All};
ghost use Rattle.x12_bytes.specs.HeaderTest.{is_head};
ghost use Rattle.whole_interchanges.specs.Begun.{may_begin};

/// A theorem, with nothing to run: where a header may begin by what is read of a text, some bytes that follow make it one.
pub fn begun_headers_can_be_completed()
    ensures { (read : List ℕ) (at : ℕ) → All (λ b. b < 256) read → at ≤ length read → may_begin read at ≡ true
        → (more : List ℕ) × All (λ b. b < 256) more × (is_head (read ++ more) at ≡ true) }
{}
