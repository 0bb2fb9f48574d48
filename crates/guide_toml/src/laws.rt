ghost use Rattle.std.specs.Prelude.{◌≡◌, Some, true};
ghost use Rattle.guide_tree.specs.declared.element.Element.{Element};
ghost use Rattle.guide_toml.specs.ElementTexts.{element_of_text};
ghost use Rattle.guide_toml.specs.References.{WritesReferences};
ghost use Rattle.guide_toml.specs.Written.{element_text, is_writable};

/// A theorem, with nothing to run: a data element's row that a text can write is read back from the text that writes it. So
/// the texts of a guide file tell such rows apart, and none is out of reach.
pub fn written_row_is_read_back()
    ensures { (row : Element) → is_writable row ≡ true → element_of_text (element_text row) ≡ Some row }
{}

/// A theorem, with nothing to run: the reference numbers of the rows and components of a guide that a file writes are 1 to 4 digits, or
/// none (X12.6, data element reference number). So no delimiter is in them.
pub fn files_write_references()
    ensures { WritesReferences }
{}
