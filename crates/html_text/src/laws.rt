ghost use Rattle.html_text.specs.Laws.{TextsStayTexts};

/// No text has a byte, where it stands in a page, by which markup or a quoted value begins or ends.
pub fn texts_stay_texts()
    ensures { TextsStayTexts }
{}
